//! A cursor along a set. It tests whether the set has versions, which are asked for in rising order.
use block_list::Iter;
use photo_device::{HeldSet, SharedHeld};
use std::marker::Model;

/// A cursor along a set. Contracts see the list of the versions that are left.
#[derive(Drop)]
pub(crate) struct SetCursor<'a> {
    next: Option<&'a SharedHeld>,
    others: Iter<'a, SharedHeld>,
}

impl<'a> Model for SetCursor<'a> {
    ghost use Rattle.std.specs.Prelude.{List};
    ghost use Rattle.photo_device.specs.declared.held.Held as spec;
    ghost use Rattle.photo_pull.specs.OnHeld.{left_of};

    ghost Value = { List spec.Held };

    ghost view = { λ left. left_of left.next left.others };
}

impl<'a> SetCursor<'a> {
    ghost use Rattle.std.specs.Prelude.{◌≡◌, true};
    ghost use Rattle.photo_device.specs.Held.{are_in_order};
    ghost use Rattle.photo_pull.specs.OnHeld.{has_same, HasPassed};

    /// A cursor at the start of a set.
    pub fn of(set: &'a HeldSet) -> SetCursor<'a>
        ensures all { result ≡ set.now }
        ensures order { are_in_order result ≡ true }
    {
        let mut others = set.iter();
        let next = others.next();
        SetCursor { next, others }
    }

    /// Whether the version is left. The cursor skips the versions before it.
    #[tactic(auto, using(crate::proofs::Passing::not_before_itself, crate::proofs::Passing::first_found, crate::proofs::Passing::passed_next))]
    pub fn has(&mut self, held: &SharedHeld) -> bool
        requires { are_in_order self.old ≡ true }
        ensures is { result ≡ has_same self.old held.now }
        ensures passed { HasPassed held.now self.old self.new }
    {
        let (picture, version) = (held.picture(), held.version());
        while let Some(other) = self.next {
            if !other.is_before(picture, version) {
                return other.is_of(picture, version);
            }
            self.next = self.others.next();
        }
        false
    }
}
