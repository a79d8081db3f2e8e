//! What a device learned by a command, as data: what changed in what it knows.
use item_knowledge::{Fragment, Knowledge};
use photo_device::Device;
use photo_version::Author;
use std::alloc::{AllocError, Global};
use std::collections::BTreeMap;

// What a device knows: up to which number of each author of every picture, and what each picture has beyond that.
#[derive(Drop)]
struct Known {
    star: BTreeMap<u64, u32>,
    // The bounds of each fragment that exceed the star, as data.
    rows: Vec<String>,
    // Which of these each picture has.
    places: BTreeMap<u64, usize>,
    alloc: Global,
}

/// Appends to a text, as data, what changed in what a device knows: its number, 1 where it forgot what it had known and
/// else 0, the bounds that rose for every picture, and what pictures have beyond these. Nothing where nothing did.
pub fn push_learning(
    text: &mut String,
    device: u16,
    was: &Device,
    is: &Device,
) -> Result<(), AllocError> {
    let anew = was.author().epoch() != is.author().epoch();
    if !anew && was.knowledge().same(is.knowledge()) {
        return Ok(());
    }
    let alloc = *text.allocator();
    let before = if anew { None } else { Some(was.knowledge()) };
    let before = known_of(alloc, before)?;
    push_since(alloc, text, (device, anew), &before, is.knowledge())
}

fn push_since(
    alloc: Global,
    text: &mut String,
    device: (u16, bool),
    before: &Known,
    knowledge: &Knowledge,
) -> Result<(), AllocError> {
    let known = known_of(alloc, Some(knowledge))?;
    push_different(text, device, before, &known, knowledge)
}

fn push_different(
    text: &mut String,
    device: (u16, bool),
    before: &Known,
    known: &Known,
    knowledge: &Knowledge,
) -> Result<(), AllocError> {
    let (place, anew) = (device.0, u8::from(device.1));
    write!(text, "[{place},{anew},[")?;
    push_star(text, before, knowledge)?;
    text.push_str("],[")?;
    push_rows(text, before, known)?;
    text.push_str("]]")
}

// What is known, which is nothing where there is no knowledge.
fn known_of(alloc: Global, knowledge: Option<&Knowledge>) -> Result<Known, AllocError> {
    let mut known = Known {
        star: BTreeMap::new(alloc),
        rows: Vec::new(alloc),
        places: BTreeMap::new(alloc),
        alloc,
    };
    if let Some(knowledge) = knowledge {
        note_knowledge(&mut known, knowledge)?;
    }
    Ok(known)
}

fn note_knowledge(known: &mut Known, knowledge: &Knowledge) -> Result<(), AllocError> {
    for k in 0..knowledge.fragments() {
        let fragment = knowledge.fragment(k);
        if fragment.star() {
            note_star(known, &fragment)?;
        } else {
            note_row(known, &fragment)?;
        }
    }
    Ok(())
}

fn note_star(known: &mut Known, star: &Fragment<'_>) -> Result<(), AllocError> {
    let mut entries = star.entries();
    for _ in 0..star.len() {
        if let Some((author, number)) = entries.next_entry() {
            let _ = known.star.insert(author.word(), number)?;
        }
    }
    Ok(())
}

fn note_row(known: &mut Known, fragment: &Fragment<'_>) -> Result<(), AllocError> {
    let mut row = String::new(known.alloc);
    push_bounds_beyond(&mut row, &known.star, fragment)?;
    let place = known.rows.len();
    known.rows.push(row)?;
    for picture in fragment.pictures() {
        let _ = known.places.insert(*picture, place)?;
    }
    Ok(())
}

// The bounds of a fragment that exceed others.
fn push_bounds_beyond(
    row: &mut String,
    others: &BTreeMap<u64, u32>,
    fragment: &Fragment<'_>,
) -> Result<(), AllocError> {
    let mut entries = fragment.entries();
    for _ in 0..fragment.len() {
        if let Some((author, number)) = entries.next_entry() {
            if others.get(&author.word()).copied() != Some(number) {
                push_bound(row, author, number)?;
            }
        }
    }
    Ok(())
}

fn push_bound(row: &mut String, author: Author, number: u32) -> Result<(), AllocError> {
    let (device, epoch) = (author.value(), author.epoch());
    if !row.is_empty() {
        row.push_str(",")?;
    }
    write!(row, "{device},{epoch},{number}")
}

// The bounds that rose for every picture.
fn push_star(text: &mut String, before: &Known, knowledge: &Knowledge) -> Result<(), AllocError> {
    let mut risen = String::new(before.alloc);
    if knowledge.fragments() > 0 {
        push_bounds_beyond(&mut risen, &before.star, &knowledge.fragment(0))?;
    }
    text.push_str(risen.as_str())
}

// What pictures have beyond the star, for those where that changed.
fn push_rows(text: &mut String, before: &Known, known: &Known) -> Result<(), AllocError> {
    let mut lists = Vec::new(known.alloc);
    for _ in 0..known.rows.len() {
        lists.push(String::new(known.alloc))?;
    }
    fill_lists(&mut lists, before, known)?;
    push_lists(text, before, known, &lists)
}

// Puts each picture into the list of its row.
fn fill_lists(lists: &mut [String], before: &Known, known: &Known) -> Result<(), AllocError> {
    for (picture, place) in known.places.iter() {
        if row_of(before, *picture) != row_at(known, *place) {
            if let Some(list) = lists.get_mut(*place) {
                push_picture(list, *picture)?;
            }
        }
    }
    Ok(())
}

fn row_of(known: &Known, picture: u64) -> &str {
    match known.places.get(&picture) {
        Some(place) => row_at(known, *place),
        None => "",
    }
}

fn row_at(known: &Known, place: usize) -> &str {
    match known.rows.get(place) {
        Some(row) => row.as_str(),
        None => "",
    }
}

fn push_picture(list: &mut String, picture: u64) -> Result<(), AllocError> {
    let comma = if list.is_empty() { "" } else { "," };
    write!(list, "{comma}{picture}")
}

fn push_lists(
    text: &mut String,
    before: &Known,
    known: &Known,
    lists: &[String],
) -> Result<(), AllocError> {
    let mut comma = "";
    for (place, list) in lists.iter().enumerate() {
        if !list.is_empty() {
            let row = row_at(known, place);
            write!(text, "{comma}[[{list}],[{row}]]")?;
            comma = ",";
        }
    }
    push_gone(text, comma, before, known)
}

// The pictures that have nothing beyond the star any more.
fn push_gone(
    text: &mut String,
    comma: &str,
    before: &Known,
    known: &Known,
) -> Result<(), AllocError> {
    let mut gone = String::new(known.alloc);
    for (picture, _) in before.places.iter() {
        if !known.places.contains_key(picture) {
            push_picture(&mut gone, *picture)?;
        }
    }
    if gone.is_empty() {
        return Ok(());
    }
    write!(text, "{comma}[[{gone}],[]]")
}
