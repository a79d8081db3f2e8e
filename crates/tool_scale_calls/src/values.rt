//! The calls of the libraries of values and lists.
use crate::told::tell;
use block_list::BlockList;
use fragment_arena::{FragmentArena, RawWords};
use photo_filter_rules::Filter;
use photo_filter_text::{FilterTree, print, read};
use photo_record::{Word, Words};
use photo_version::{Author, Vector, Version};
use script_reader::{read_filter, read_record};
use std::alloc::{AllocError, Global};
use tool_value_refusals::{Verdict, rated, verdict_on};

/// Makes them, on lists and arenas of so many items.
pub fn make(rt: HostRuntime, count: u32) {
    lists(rt, count);
    arenas(rt, count);
    words(rt);
    word(rt);
    record(rt);
    filters(rt);
    vectors(rt, count);
    small(rt, "photo_version", "Vector::from_entries");
    small(rt, "work_ledger", "open");
}

// A call that takes as much memory whatever its values are.
fn small(rt: HostRuntime, library: &str, call: &str) {
    let word = match verdict_on(rt.alloc(), library, call) {
        Some(Verdict::Answered) => "answered",
        _ => "refused",
    };
    let _ = println!(rt; "{library}::{call}: {word}");
}

// Puts so many numbers into a list, each at the end.
fn fill(list: &mut BlockList<u32>, count: u32) -> Result<(), AllocError> {
    for i in 0..count {
        let end = list.len();
        list.insert(end, i)?;
    }
    Ok(())
}

fn lists(rt: HostRuntime, count: u32) {
    let mut list = BlockList::new(rt.alloc());
    let done = fill(&mut list, count).is_ok();
    tell(rt, "block_list::BlockList::insert", done);
    let done = list.room(count as usize).is_ok();
    tell(rt, "block_list::BlockList::room", done);
    let done = list.replace_between(|x| *x < 7, |x| *x <= 7, 7).is_ok();
    tell(rt, "block_list::BlockList::replace_between", done);
}

// Puts so many rows into an arena.
fn fill_rows(arena: &mut FragmentArena, count: u32) -> Result<(), AllocError> {
    for i in 0..count {
        arena.place(&[u64::from(i), 5])?;
    }
    Ok(())
}

fn arenas(rt: HostRuntime, count: u32) {
    let mut arena = FragmentArena::new(rt.alloc());
    let done = fill_rows(&mut arena, count).is_ok();
    tell(rt, "fragment_arena::FragmentArena::place", done);
    let done = arena.try_clone().is_ok();
    tell(rt, "fragment_arena::FragmentArena::try_clone", done);
    let many = count as usize;
    let done = arena.reserve(many, many).is_ok();
    tell(rt, "fragment_arena::FragmentArena::reserve", done);
    let done = RawWords::make(rt.alloc(), many).is_ok();
    tell(rt, "fragment_arena::RawWords::make", done);
}

// A word of 64 bytes.
const LONGEST: &str = "abcdefghijklmnopqrstuvwxyzabcdefghijklmnopqrstuvwxyzabcdefghijkl";

// With two digits a word of 64 bytes.
const LONG: &str = "abcdefghijklmnopqrstuvwxyzabcdefghijklmnopqrstuvwxyzabcdefghij";

// Sixteen words of 64 bytes.
fn sixteen(alloc: Global) -> Result<String, AllocError> {
    let mut text = String::new(alloc);
    for i in 0u32..16 {
        let comma = if i == 0 { "" } else { "," };
        write!(text, "{comma}{LONG}{}{}", i / 10, i % 10)?;
    }
    Ok(text)
}

fn words(rt: HostRuntime) {
    let made = sixteen(rt.alloc());
    if let Ok(text) = &made {
        read_words(rt, text);
    }
    drop(made);
}

fn read_words(rt: HostRuntime, text: &str) {
    let done = read_record(rt.alloc(), "4", "2024-01-01", text).is_ok();
    tell(rt, "script_reader::read_record", done);
    let made = Words::read(rt.alloc(), text);
    tell(rt, "photo_record::Words::read", made.is_ok());
    if let Ok(words) = &made {
        let done = words.try_clone().is_ok();
        tell(rt, "photo_record::Words::try_clone", done);
    }
    drop(made);
}

fn word(rt: HostRuntime) {
    let made = Word::read(rt.alloc(), LONGEST);
    tell(rt, "photo_record::Word::read", made.is_ok());
    if let Ok(word) = &made {
        let done = word.try_clone().is_ok();
        tell(rt, "photo_record::Word::try_clone", done);
    }
    drop(made);
}

fn record(rt: HostRuntime) {
    let made = rated(rt.alloc(), 4);
    if let Some(record) = &made {
        let done = record.try_clone().is_ok();
        tell(rt, "photo_record::Record::try_clone", done);
    }
    drop(made);
}

// A filter of 64 alternatives, in brackets by eight.
fn alternatives(alloc: Global) -> Result<String, AllocError> {
    let mut text = String::new(alloc);
    for i in 0u32..64 {
        let front = match i % 8 {
            0 if i == 0 => "( ",
            0 => " ) or ( ",
            _ => " or ",
        };
        write!(text, "{front}keyword w{i}")?;
    }
    write!(text, " )")?;
    Ok(text)
}

fn filters(rt: HostRuntime) {
    let made = alternatives(rt.alloc());
    if let Ok(text) = &made {
        read_tree(rt, text);
    }
    drop(made);
}

fn read_tree(rt: HostRuntime, text: &str) {
    let done = read_filter(rt.alloc(), text).is_ok();
    tell(rt, "script_reader::read_filter", done);
    let made = read(rt.alloc(), text);
    tell(rt, "photo_filter_text::read", made.is_ok());
    if let Ok(tree) = made {
        build(rt, tree);
    }
}

fn build(rt: HostRuntime, tree: FilterTree) {
    let done = print(rt.alloc(), &tree).is_ok();
    tell(rt, "photo_filter_text::print", done);
    let done = tree.try_clone().is_ok();
    tell(rt, "photo_filter_text::FilterTree::try_clone", done);
    let made = Filter::build(rt.alloc(), tree);
    tell(rt, "photo_filter_rules::Filter::build", made.is_ok());
    if let Ok(filter) = &made {
        let done = filter.try_clone().is_ok();
        tell(rt, "photo_filter_rules::Filter::try_clone", done);
    }
    drop(made);
}

// A version of each of so many devices, from one on, but of no more than 1,000.
fn of_devices(alloc: Global, first: u16, count: u32) -> Result<Vector, AllocError> {
    let mut vector = Vector::new(alloc);
    for i in 0u16..1000 {
        if u32::from(i) == count {
            return Ok(vector);
        }
        let author = Author::new(first.wrapping_add(i));
        if let Some(version) = Version::new(author, 1) {
            vector = vector.with(version)?;
        }
    }
    Ok(vector)
}

fn vectors(rt: HostRuntime, count: u32) {
    let made = of_devices(rt.alloc(), 0, count);
    tell(rt, "photo_version::Vector::with", made.is_ok());
    if let Ok(vector) = &made {
        join(rt, vector, count);
    }
    drop(made);
}

fn join(rt: HostRuntime, vector: &Vector, count: u32) {
    let made = of_devices(rt.alloc(), 2000, count);
    if let Ok(other) = &made {
        let done = vector.join(other).is_ok();
        tell(rt, "photo_version::Vector::join", done);
    }
    drop(made);
    let done = vector.try_clone().is_ok();
    tell(rt, "photo_version::Vector::try_clone", done);
}
