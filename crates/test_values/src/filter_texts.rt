//! Tests of filters' texts: how they are read and printed, and their faults.
use crate::answers::{Pieces, is_answer, is_shown, push_pieces};
use photo_filter_text::{FilterTree, print, read};
use std::alloc::Global;

// Each function here owns its value and takes no `rt`, and each table is a constant: this keeps the proofs short.

// Whether a tree's printed text is its shown text, and its copy equals it.
fn is_printed(alloc: Global, tree: &FilterTree) -> bool {
    match print(alloc, tree) {
        Ok(text) => is_shown(alloc, tree, &text) && is_copied(tree),
        Err(_) => false,
    }
}

fn is_copied(tree: &FilterTree) -> bool {
    match tree.try_clone() {
        Ok(copy) => copy == *tree,
        Err(_) => false,
    }
}

// Whether a text is read and shown as `want`, or refused with that fault.
fn is_read(alloc: Global, text: &str, want: &str) -> bool {
    let answer = read(alloc, text);
    let printed = match &answer {
        Ok(tree) => is_printed(alloc, tree),
        Err(_) => true,
    };
    printed && is_answer(alloc, &answer, want)
}

const TEXTS: &[(&str, &str)] = &[
    (
        "not (rating = 0 or keyword x)",
        "not ( rating = 0 or keyword x )",
    ),
    ("not rating = 3", "not rating = 3"),
    ("keyword and and all", "( keyword and and all )"),
    ("all or none and all", "( all or ( none and all ) )"),
    ("all or none or all", "( ( all or none ) or all )"),
    ("all and none and all", "( ( all and none ) and all )"),
    ("  (((  all)) )  ", "all"),
    ("not day >= 0000-01-01", "not day >= 0000-01-01"),
    ("day = 2024-02-29", "day = 2024-02-29"),
    ("day <= 9999-12-31", "day <= 9999-12-31"),
    ("day >= 0007-01-31", "day >= 0007-01-31"),
    (
        "rating >= 1 or rating <= 4",
        "( rating >= 1 or rating <= 4 )",
    ),
    ("keyword e\u{301}", "keyword \u{e9}"),
    ("keyword \u{e9}", "keyword \u{e9}"),
    ("", "Empty"),
    ("   ", "Empty"),
    ("all all", "Unexpected 2"),
    ("rating >= 6", "Unexpected 3"),
    ("rating >= 05", "Unexpected 3"),
    ("rating >=4", "Unexpected 2"),
    ("day = 2023-02-29", "Unexpected 3"),
    ("ALL", "Unexpected 1"),
    ("all\tand all", "Unexpected 1"),
    ("all )", "Unexpected 2"),
    ("keyword (", "Unexpected 2"),
    ("keyword x)", "Unexpected 3"),
    ("( all", "EndsEarly"),
    ("keyword", "EndsEarly"),
    ("keyword a,b", "BadWord"),
    ("keyword a,b )", "BadWord"),
    // each front of one filter
    ("not", "EndsEarly"),
    ("not (", "EndsEarly"),
    ("not ( rating", "EndsEarly"),
    ("not ( rating >=", "EndsEarly"),
    ("not ( rating >= 4", "EndsEarly"),
    ("not ( rating >= 4 and", "EndsEarly"),
    ("not ( rating >= 4 and keyword", "EndsEarly"),
    ("not ( rating >= 4 and keyword sun", "EndsEarly"),
    (
        "not ( rating >= 4 and keyword sun )",
        "not ( rating >= 4 and keyword sun )",
    ),
    ("not ( rating >= 4 and keyword sun ) or", "EndsEarly"),
    ("not ( rating >= 4 and keyword sun ) or day", "EndsEarly"),
    ("not ( rating >= 4 and keyword sun ) or day =", "EndsEarly"),
    (
        "not ( rating >= 4 and keyword sun ) or day = 2024-02-29",
        "( not ( rating >= 4 and keyword sun ) or day = 2024-02-29 )",
    ),
];

#[test]
fn texts_are_read_and_printed_or_refused(rt: HostRuntime) {
    for (text, want) in TEXTS {
        assert!(rt; is_read(rt.alloc(), text, want), "{text:?}");
    }
}

// Whether the text of the pieces is refused with that fault, or is shown as it was read where no fault is given.
fn is_within_limits(alloc: Global, pieces: Pieces, want: Option<&str>) -> bool {
    let mut text = String::new(alloc);
    push_pieces(&mut text, pieces).is_ok() && is_read(alloc, &text, want.unwrap_or(&text))
}

const LIMITS: &[(Pieces, Option<&str>)] = &[
    (&[("not ", 31), ("all", 1)], None),
    (&[("not ", 32), ("all", 1)], Some("TooDeep")),
    (&[("( ", 256)], Some("EndsEarly")),
    (&[("( ", 255), ("or", 1)], Some("Unexpected 256")),
    (&[(") ", 257)], Some("TooManyTokens")),
    (&[("keyword ", 1), ("x", 64)], None),
    (&[("keyword ", 1), ("x", 65)], Some("BadWord")),
    (&[("(", 127), ("not all", 1), (")", 127)], Some("not all")),
    (&[("(", 128), ("all", 1), (")", 128)], Some("TooManyTokens")),
];

#[test]
fn limits_are_kept(rt: HostRuntime) {
    for (pieces, want) in LIMITS {
        assert!(rt; is_within_limits(rt.alloc(), pieces, *want), "{pieces:?}");
    }
}
