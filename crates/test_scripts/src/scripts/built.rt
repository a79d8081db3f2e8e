// Tests of texts that are built of parts.
use super::{Wanted, is_so};
use std::alloc::{AllocError, Global};

/// A text repeated that many times. If there is another text, each repetition is followed by its number, from 0, and that text.
type Part = (u32, &'static str, Option<&'static str>);

fn push(text: &mut String, (count, front, back): &Part) -> Result<(), AllocError> {
    for i in 0..*count {
        text.push_str(front)?;
        if let Some(back) = back {
            write!(text, "{i}{back}")?;
        }
    }
    Ok(())
}

fn push_all(text: &mut String, parts: &[Part]) -> Result<(), AllocError> {
    for part in parts {
        push(text, part)?;
    }
    Ok(())
}

fn is_built(alloc: Global, parts: &[Part], wanted: &Wanted<'_>) -> bool {
    let mut text = String::new(alloc);
    push_all(&mut text, parts).is_ok() && is_so(alloc, text.as_bytes(), wanted)
}

const EACH_KIND: &str = "device cam all
device hall rating >= 3
new cam 7 5 2024-05-01 beach,sun
edit cam 7 4 0000-01-01 -
pull hall cam
preview hall cam
narrow hall ( rating >= 3 and keyword sun )
refilter cam not ( rating = 0 or day <= 9999-12-31 )
list cam
conflicts hall
knowledge hall
knows hall 7 cam:2
knows hall 7 cam.100000:100000
remove cam 999999999
";

const EIGHT: &str = "all and all and all and all and all and all and all and all";

const OR_EIGHT: &str = " or all and all and all and all and all and all and all and all";

const PRINTED: &[(&[Part], Wanted<'static>)] = &[
    // the printed texts of scripts
    (&[(1, "", None)], Wanted::Printed("")),
    (&[(1, "# nothing\n\n", None)], Wanted::Printed("")),
    (
        &[(1, "device  a   all or none and all\r\n#\n list a", None)],
        Wanted::Printed("device a ( all or ( none and all ) )\nlist a\n"),
    ),
    (
        &[(
            1,
            "device a not(rating = 0 or keyword x)\nnew a 1 0 1970-01-01 x,-",
            None,
        )],
        Wanted::Printed("device a not ( rating = 0 or keyword x )\nnew a 1 0 1970-01-01 -,x\n"),
    ),
    // the reader keeps the set of equal texts of words
    (
        &[(
            1,
            "device a all\nedit a 1 5 2024-01-01 b,a\nedit a 2 5 2024-01-01 b,a\nedit a 3 5 2024-01-01 a,b\nedit a 4 5 2024-01-01 -",
            None,
        )],
        Wanted::Printed(
            "device a all\nedit a 1 5 2024-01-01 a,b\nedit a 2 5 2024-01-01 a,b\nedit a 3 5 2024-01-01 a,b\nedit a 4 5 2024-01-01 -\n",
        ),
    ),
    (
        &[(
            1,
            "device a all\nedit a 1 5 2024-01-01 b,a\nedit a 7 5 2024-01-01 a,a",
            None,
        )],
        Wanted::Is("line 3: F14 BadKeyword"),
    ),
    (
        &[(
            1,
            "device a all\n device  b  not rating = 3 \r\n narrow   b   not rating = 3 \r\nrefilter b rating = 3",
            None,
        )],
        Wanted::Printed(
            "device a all\ndevice b not rating = 3\nnarrow b not rating = 3\nrefilter b rating = 3\n",
        ),
    ),
    (&[(1, EACH_KIND, None)], Wanted::Printed(EACH_KIND)),
    (
        &[(1, EACH_KIND, None)],
        Wanted::Line(2, "edit cam 7 4 0000-01-01 -"),
    ),
    (
        &[(1, EACH_KIND, None)],
        Wanted::Line(11, "knows hall 7 cam.100000:100000"),
    ),
    (&[(1, EACH_KIND, None)], Wanted::Tally(5, 1, 6)),
    // with all their brackets 64 have 253 tokens; 65 have 257, which is too many
    (
        &[
            (1, "device a ", None),
            (1, EIGHT, None),
            (7, OR_EIGHT, None),
        ],
        Wanted::HasText(true),
    ),
    (
        &[
            (1, "device a ", None),
            (1, EIGHT, None),
            (7, OR_EIGHT, None),
            (1, " or all", None),
        ],
        Wanted::HasText(false),
    ),
];

const TALLIED: &[(&[Part], Wanted<'static>)] = &[
    // the numbers of changes, pulls and reports
    (&[(1, "", None)], Wanted::Tally(0, 0, 0)),
    (&[(1, "device a all", None)], Wanted::Tally(0, 0, 0)),
    (
        &[(1, "# new a 1 5 2024-05-01 -\n\n", None)],
        Wanted::Tally(0, 0, 0),
    ),
    (
        &[(1, "device a all\nnew a 1 5 2024-05-01 -", None)],
        Wanted::Tally(1, 0, 0),
    ),
    (
        &[(1, "device a all\nedit a 1 5 2024-05-01 -", None)],
        Wanted::Tally(1, 0, 0),
    ),
    (
        &[(1, "device a all\nremove a 1", None)],
        Wanted::Tally(1, 0, 0),
    ),
    (
        &[(1, "device a all\nnarrow a none", None)],
        Wanted::Tally(1, 0, 0),
    ),
    (
        &[(1, "device a all\nrefilter a none", None)],
        Wanted::Tally(1, 0, 0),
    ),
    (
        &[(1, "device a all\ndevice b all\npull a b", None)],
        Wanted::Tally(0, 1, 0),
    ),
    (
        &[(1, "device a all\ndevice b all\npreview a b", None)],
        Wanted::Tally(0, 0, 1),
    ),
    (&[(1, "device a all\nlist a", None)], Wanted::Tally(0, 0, 1)),
    (
        &[(1, "device a all\nconflicts a", None)],
        Wanted::Tally(0, 0, 1),
    ),
    (
        &[(1, "device a all\nknowledge a", None)],
        Wanted::Tally(0, 0, 1),
    ),
    (
        &[(1, "device a all\nknows a 1 a:1", None)],
        Wanted::Tally(0, 0, 1),
    ),
];

const LIMITS: &[(&[Part], Wanted<'static>)] = &[
    // deep filters
    (
        &[(1, "device a ", None), (31, "not ", None), (1, "all", None)],
        Wanted::Is("read"),
    ),
    (
        &[(1, "device a ", None), (32, "not ", None), (1, "all", None)],
        Wanted::Is("line 1: F15 BadFilter"),
    ),
    (
        &[
            (1, "device a ", None),
            (127, "(", None),
            (1, "all", None),
            (127, ")", None),
        ],
        Wanted::Is("read"),
    ),
    (
        &[
            (1, "device a ", None),
            (128, "(", None),
            (1, "all", None),
            (128, ")", None),
        ],
        Wanted::Is("line 1: F15 BadFilter"),
    ),
    // wide filters
    (
        &[
            (1, "device a (", None),
            (7, "keyword x", Some(" or ")),
            (1, "keyword x) and (", None),
            (7, "keyword y", Some(" or ")),
            (1, "keyword y)", None),
        ],
        Wanted::Is("read"),
    ),
    (
        &[
            (1, "device a (", None),
            (4, "keyword x", Some(" or ")),
            (1, "keyword x) and (", None),
            (12, "keyword y", Some(" or ")),
            (1, "keyword y)", None),
        ],
        Wanted::Is("line 1: F15 BadFilter"),
    ),
    (
        &[
            (1, "device a (", None),
            (12, "keyword x", Some(" or ")),
            (1, "keyword x) and (", None),
            (4, "keyword y", Some(" or ")),
            (1, "keyword y)", None),
        ],
        Wanted::Is("line 1: F15 BadFilter"),
    ),
    (
        &[
            (1, "device a (", None),
            (15, "keyword x", Some(" or ")),
            (1, "keyword x) and (", None),
            (3, "keyword y", Some(" or ")),
            (1, "keyword y)", None),
        ],
        Wanted::Is("read"),
    ),
    // long lines
    (&[(1, "#", None), (1023, "x", None)], Wanted::Is("read")),
    (
        &[(1, "#", None), (1023, "x", None), (1, "\r\n", None)],
        Wanted::Is("read"),
    ),
    (
        &[(1, "#", None), (1024, "x", None)],
        Wanted::Is("line 1: F4 LineTooLong"),
    ),
    (
        &[(1, "#", None), (1024, "x", None), (1, "\r\n", None)],
        Wanted::Is("line 1: F4 LineTooLong"),
    ),
    (
        &[(1, "#", None), (1023, "x", None), (1, "\r\r\n", None)],
        Wanted::Is("line 1: F4 LineTooLong"),
    ),
];

const MANY: &[(&[Part], Wanted<'static>)] = &[
    // many devices
    (
        &[(64, "device d", Some(" all\n")), (1, "device e all", None)],
        Wanted::Is("read"),
    ),
    (
        &[(255, "device d", Some(" all\n")), (1, "device e all", None)],
        Wanted::Is("read"),
    ),
    (
        &[(256, "device d", Some(" all\n")), (1, "list d255", None)],
        Wanted::Is("read"),
    ),
    (
        &[(256, "device d", Some(" all\n")), (1, "device e all", None)],
        Wanted::Is("line 257: F17 TooMany"),
    ),
    (
        &[(256, "device d", Some(" all\n")), (1, "device E all", None)],
        Wanted::Is("line 257: F17 TooMany"),
    ),
    (
        &[
            (256, "device d", Some(" all\n")),
            (1, "device d0 all", None),
        ],
        Wanted::Is("line 257: F17 TooMany"),
    ),
    (
        &[
            (256, "device d", Some(" all\n")),
            (1, "device e none", None),
        ],
        Wanted::Is("line 257: F17 TooMany"),
    ),
    (
        &[(256, "device d", Some(" all\n")), (1, "device e", None)],
        Wanted::Is("line 257: F6 WrongFields"),
    ),
    // many commands
    (
        &[(1, "device a all\n", None), (100_000, "list a\n", None)],
        Wanted::Tally(0, 0, 100_000),
    ),
    (
        &[
            (1, "device a all\n", None),
            (100_000, "list a\n", None),
            (1, "list b", None),
        ],
        Wanted::Is("line 100002: F17 TooMany"),
    ),
    (
        &[
            (1, "device a all\ndevice b all\n", None),
            (50_000, "preview a b\nrefilter a all\n", None),
            (1, "preview c c", None),
        ],
        Wanted::Is("line 100003: F17 TooMany"),
    ),
    (
        &[
            (1, "device a all\ndevice b all\n", None),
            (50_000, "preview a b\nrefilter a all\n", None),
            (1, "refilter c none", None),
        ],
        Wanted::Is("line 100003: F17 TooMany"),
    ),
    // large texts
    (&[(8_388_608, "\n", None)], Wanted::Is("read")),
    (&[(8_388_609, "\n", None)], Wanted::Is("F2 TooLarge")),
    // the reader keeps the sets of 4,096 texts of words
    (
        &[
            (1, "device a all\n", None),
            (4_100, "edit a 1 5 2024-01-01 w", Some("\n")),
        ],
        Wanted::Line(1, "edit a 1 5 2024-01-01 w0"),
    ),
    (
        &[
            (1, "device a all\n", None),
            (4_100, "edit a 1 5 2024-01-01 w", Some("\n")),
        ],
        Wanted::Line(4096, "edit a 1 5 2024-01-01 w4095"),
    ),
    (
        &[
            (1, "device a all\n", None),
            (4_100, "edit a 1 5 2024-01-01 w", Some("\n")),
        ],
        Wanted::Line(4097, "edit a 1 5 2024-01-01 w4096"),
    ),
    (
        &[
            (1, "device a all\n", None),
            (4_100, "edit a 1 5 2024-01-01 w", Some("\n")),
        ],
        Wanted::Line(4100, "edit a 1 5 2024-01-01 w4099"),
    ),
];

// The last part's text, which names a row.
fn last_of(parts: &[Part]) -> &'static str {
    match parts.last() {
        Some((_, text, _)) => *text,
        None => "",
    }
}

#[test]
fn texts_of_scripts(rt: HostRuntime) {
    for (parts, wanted) in PRINTED {
        assert!(rt;
            is_built(rt.alloc(), parts, wanted),
            "of {:?}",
            last_of(parts)
        );
    }
}

#[test]
fn tallies_of_scripts(rt: HostRuntime) {
    for (parts, wanted) in TALLIED {
        assert!(rt;
            is_built(rt.alloc(), parts, wanted),
            "of {:?}",
            last_of(parts)
        );
    }
}

#[test]
fn limits_of_lines(rt: HostRuntime) {
    for (parts, wanted) in LIMITS {
        assert!(rt;
            is_built(rt.alloc(), parts, wanted),
            "of {:?}",
            last_of(parts)
        );
    }
}

#[test]
fn limits_of_scripts(rt: HostRuntime) {
    for (parts, wanted) in MANY {
        assert!(rt;
            is_built(rt.alloc(), parts, wanted),
            "of {:?}",
            last_of(parts)
        );
    }
}

#[test]
fn not_utf8(rt: HostRuntime) {
    assert!(rt; is_so(rt.alloc(), &[0xff], &Wanted::Is("F3 NotUtf8")));
}
