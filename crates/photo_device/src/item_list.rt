// Lists that contracts see as the list of their items.
use std::marker::Model;

/// A list of what a device tells, for a report or a log. Contracts see the list of its items.
#[derive(Debug, Drop)]
pub struct ItemList<T> {
    items: Vec<T>,
}

impl<T> Model for ItemList<T> {
    ghost use Rattle.std.specs.Prelude.{List};

    ghost Value = { List T };

    ghost view = { λ l. l.items.items };
}

impl<T> ItemList<T> {
    ghost use Rattle.std.specs.Prelude.{◌≡◌, ◌<◌, ◌==◌, length, slice_get, Some};

    /// The list of these items, in this order.
    pub fn new(items: Vec<T>) -> ItemList<T>
        ensures { result ≡ items.items }
    {
        ItemList { items }
    }

    /// The items, in order.
    pub fn into_vec(self) -> Vec<T>
        ensures { result.items ≡ self }
    {
        let ItemList { items } = self;
        items
    }

    /// How many items the list has.
    pub fn len(&self) -> usize
        ensures { result ≡ length self.now }
    {
        self.items.len()
    }

    /// Whether the list is empty.
    pub fn is_empty(&self) -> bool
        ensures { result ≡ (length self.now == 0) }
    {
        self.items.is_empty()
    }

    /// The item at place `i`, from 0.
    pub fn get(&self, i: usize) -> &T
        requires { i < length self.now }
        ensures { slice_get self.now i ≡ Some result.now }
    {
        &self.items[i]
    }

    /// All items, in order.
    pub fn as_slice(&self) -> &[T]
        ensures { result.now ≡ self.now }
    {
        self.items.as_slice()
    }
}
