//! Tests of filters: their alternatives, what they match, and what they cover.
use crate::answers::{Pieces, is_answer, push_pieces};
use photo_filter_rules::{BuildFault, Filter, covers};
use photo_filter_text::{FilterTree, read};
use photo_record::{Day, Rating, Record, Words};
use std::alloc::Global;

// Each function here owns its value and takes no `rt`, and each table is a constant: this keeps the proofs short.

fn built(alloc: Global, text: &str) -> Option<Filter> {
    let tree = read(alloc, text).ok()?;
    Filter::build(alloc, tree).ok()
}

// How many alternatives the filter has, or why it isn't built.
fn width_of(alloc: Global, tree: FilterTree) -> Result<usize, BuildFault> {
    match Filter::build(alloc, tree) {
        Ok(filter) => Ok(filter.alternatives()),
        Err((_, fault)) => Err(fault),
    }
}

fn is_so_wide(alloc: Global, text: &str, want: &str) -> bool {
    match read(alloc, text) {
        Ok(tree) => is_answer(alloc, &width_of(alloc, tree), want),
        Err(_) => false,
    }
}

// Whether the filter of the pieces has that many alternatives, or is refused with that fault.
fn are_so_wide(alloc: Global, pieces: Pieces, want: &str) -> bool {
    let mut text = String::new(alloc);
    push_pieces(&mut text, pieces).is_ok() && is_so_wide(alloc, &text, want)
}

const OR_EIGHT: (&str, usize) = (
    " or (all or all or all or all or all or all or all or all)",
    8,
);

const AND_EIGHT: (&str, usize) = (
    " and (none and none and none and none and none and none and none and none)",
    8,
);

// Tests for one of several words.
const OF_EIGHT: &str =
    "(keyword a or keyword b or keyword c or keyword d or keyword e or keyword f or keyword g or keyword h)";

const OF_EIGHT_OTHERS: &str =
    "(keyword i or keyword j or keyword k or keyword l or keyword m or keyword n or keyword o or keyword p)";

const OF_FIVE: &str = "(keyword a or keyword b or keyword c or keyword d or keyword e)";

const OF_THIRTEEN: &str =
    "(keyword f or keyword g or keyword h or keyword i or keyword j or keyword k or keyword l or keyword m or keyword n or keyword o or keyword p or keyword q or keyword r)";

const WIDTHS: &[(Pieces, &str)] = &[
    (&[("none", 1), OR_EIGHT], "64"),
    (&[("all", 1), OR_EIGHT], "TooWide"),
    (&[("not (all", 1), AND_EIGHT, (")", 1)], "64"),
    (&[("not (none", 1), AND_EIGHT, (")", 1)], "TooWide"),
    (&[(OF_EIGHT, 1), (" and ", 1), (OF_EIGHT_OTHERS, 1)], "64"),
    (&[(OF_FIVE, 1), (" and ", 1), (OF_THIRTEEN, 1)], "TooWide"),
    (
        &[
            (OF_FIVE, 1),
            (" and ", 1),
            (OF_THIRTEEN, 1),
            (" and none", 1),
        ],
        "TooWide",
    ),
    (
        &[
            ("not (", 1),
            (OF_FIVE, 1),
            (" and ", 1),
            (OF_THIRTEEN, 1),
            (")", 1),
        ],
        "2",
    ),
];

#[test]
fn widths_up_to_the_limit(rt: HostRuntime) {
    for (pieces, want) in WIDTHS {
        assert!(rt; are_so_wide(rt.alloc(), pieces, want), "{pieces:?}");
    }
}

fn picture(alloc: Global, rating: u8, date: &str, words: &str) -> Option<Record> {
    let rating = Rating::new(rating)?;
    let day = Day::read(date)?;
    match Words::read(alloc, words) {
        Ok(words) => Some(Record::Picture { rating, day, words }),
        Err(_) => None,
    }
}

const PICTURES: &[(u8, &str, &str)] = &[
    (3, "2024-02-29", "x"),
    (4, "2024-02-28", "e\u{301}"),
    (0, "9999-12-31", "-"),
    (5, "0000-01-01", "x,\u{e9}"),
];

// Whether the filter matches a picture exactly where it should.
fn matches_as(
    alloc: Global,
    filter: &Filter,
    (rating, date, words): (u8, &str, &str),
    want: bool,
) -> bool {
    match picture(alloc, rating, date, words) {
        Some(record) => filter.matches(&record) == want,
        None => false,
    }
}

// Whether the filter matches exactly the pictures whose letter is `y`, and has `count` alternatives.
fn is_filter(alloc: Global, filter: &Filter, count: usize, letters: &[u8]) -> bool {
    if letters.len() != PICTURES.len() {
        return false;
    }
    for i in 0..letters.len() {
        if !matches_as(alloc, filter, PICTURES[i], letters[i] == b'y') {
            return false;
        }
    }
    filter.alternatives() == count && !filter.matches(&Record::Removed)
}

fn copy_is_filter(alloc: Global, filter: &Filter, count: usize, letters: &[u8]) -> bool {
    match filter.try_clone() {
        Ok(copy) => is_filter(alloc, &copy, count, letters),
        Err(_) => false,
    }
}

fn is_built(alloc: Global, text: &str, count: usize, letters: &[u8]) -> bool {
    match built(alloc, text) {
        Some(filter) => {
            is_filter(alloc, &filter, count, letters)
                && copy_is_filter(alloc, &filter, count, letters)
        }
        None => false,
    }
}

// Filters, each with the number of its alternatives and the pictures that it matches.
const FILTERS: &[(&str, usize, &[u8])] = &[
    ("all", 1, b"yyyy"),
    ("none", 0, b"nnnn"),
    ("not (rating = 0 or keyword x)", 1, b"nynn"),
    ("rating >= 4", 1, b"nyny"),
    ("not rating <= 3", 1, b"nyny"),
    ("not rating = 3", 2, b"nyyy"),
    ("rating >= 4 and rating <= 3", 0, b"nnnn"),
    ("rating >= 3 and rating <= 3", 1, b"ynnn"),
    ("day = 2024-02-29", 1, b"ynnn"),
    ("not day >= 2024-02-29", 1, b"nyny"),
    ("not day >= 0000-01-01", 0, b"nnnn"),
    ("not day <= 9999-12-31", 0, b"nnnn"),
    ("keyword and and all", 1, b"nnnn"),
    ("all or none and all", 1, b"yyyy"),
    // the letter é in two forms
    ("keyword \u{e9}", 1, b"nyny"),
    ("keyword x and not keyword e\u{301}", 1, b"ynnn"),
    ("keyword x and not keyword x", 0, b"nnnn"),
    ("keyword x or keyword x", 2, b"ynny"),
];

#[test]
fn filters_match(rt: HostRuntime) {
    for (text, count, letters) in FILTERS {
        assert!(rt; is_built(rt.alloc(), text, *count, letters), "{text}");
    }
}

// Whether the filter covers that of a text exactly where it should.
fn covers_text(alloc: Global, filter: &Filter, text: &str, want: bool) -> bool {
    match built(alloc, text) {
        Some(other) => covers(filter, &other) == want,
        None => false,
    }
}

fn covers_so(alloc: Global, first: &str, second: &str, want: bool) -> bool {
    match built(alloc, first) {
        Some(filter) => covers_text(alloc, &filter, second, want),
        None => false,
    }
}

const COVERS: &[(&str, &str, bool)] = &[
    ("rating >= 3", "rating = 4 and keyword x", true),
    ("all", "not keyword x", true),
    ("none", "not day >= 0000-01-01", true),
    ("none", "all", false),
    ("keyword x", "all", false),
    ("rating = 3 or rating >= 4", "rating >= 3", false),
    ("not keyword x", "not (keyword y or keyword x)", true),
    ("not (keyword y or keyword x)", "not keyword x", false),
    ("not keyword x", "keyword x", false),
    // the letter é in two forms
    ("keyword \u{e9}", "keyword x and keyword e\u{301}", true),
    ("day >= 2024-02-28", "day = 2024-02-29", true),
    ("day >= 2024-02-29", "day >= 2024-02-28", false),
    ("keyword x or rating >= 4", "rating = 5 or keyword x", true),
    (
        "keyword x or rating >= 4",
        "keyword x or rating >= 3",
        false,
    ),
];

#[test]
fn covering(rt: HostRuntime) {
    for (first, second, want) in COVERS {
        assert!(rt;
            covers_so(rt.alloc(), first, second, *want),
            "{first}, {second}"
        );
    }
}
