// Texts, each with `read` or the text of its fault.
use super::is_answered;

const SINGLE_FAULTS: &[(&str, &str)] = &[
    ("", "read"),
    ("device a all", "read"),
    ("device a all\r\nlist a\r\n", "read"),
    ("frob", "line 1: F5 UnknownCommand"),
    ("device a all\nnew a 7", "line 2: F6 WrongFields"),
    ("device A all", "line 1: F7 BadName"),
    ("list b", "line 1: F8 UnknownDevice"),
    ("device a all\ndevice a all", "line 2: F9 RepeatedDevice"),
    (
        "device a all\nlist a\ndevice b all",
        "line 3: F10 LateDevice",
    ),
    (
        "device a all\nnew a 0 5 2024-01-01 -",
        "line 2: F11 BadNumber",
    ),
    (
        "device a all\nnew a 07 5 2024-01-01 -",
        "line 2: F11 BadNumber",
    ),
    (
        "device a all\nnew a +7 5 2024-01-01 -",
        "line 2: F11 BadNumber",
    ),
    ("device a all\nnew a 999999999 5 2024-01-01 -", "read"),
    (
        "device a all\nnew a 1000000000 5 2024-01-01 -",
        "line 2: F11 BadNumber",
    ),
    (
        "device a all\nnew a 99999999999999999999 5 2024-01-01 -",
        "line 2: F11 BadNumber",
    ),
    (
        "device a all\nnew a 7 6 2024-01-01 -",
        "line 2: F12 BadRating",
    ),
    (
        "device a all\nnew a 7 05 2024-01-01 -",
        "line 2: F12 BadRating",
    ),
    (
        "device a all\nnew a 7 5 2023-02-29 -",
        "line 2: F13 BadDate",
    ),
    (
        "device a all\nnew a 7 5 2024-01-01 x,x",
        "line 2: F14 BadKeyword",
    ),
    ("device a rating >= 6", "line 1: F15 BadFilter"),
    ("device a all all", "line 1: F15 BadFilter"),
    (
        "device a all\nnew a 7 5 2024-01-01 -\nnew a 7 5 2024-01-01 -",
        "line 3: F16 RepeatedPicture",
    ),
];

const LINES_AND_FIELDS: &[(&str, &str)] = &[
    ("\n\n  \n# device A\ndevice a all\n#\n", "read"),
    ("  device   a  all  \n   list a", "read"),
    ("device\ta all", "line 1: F5 UnknownCommand"),
    ("\u{feff}device a all", "line 1: F5 UnknownCommand"),
    ("device a all\nlist\ra", "line 2: F5 UnknownCommand"),
    ("device a all\nlist a\r\r\n", "line 2: F8 UnknownDevice"),
    ("device a all\nlist a\r", "read"),
    (
        "device a all\r\nlist a\r\nfrob",
        "line 3: F5 UnknownCommand",
    ),
    ("device a all\n\r\n\r", "read"),
    ("device a all\nlist a\n", "read"),
    ("device a2345678901234b6 all", "read"),
    ("device a2345678901234b67 all", "line 1: F7 BadName"),
    ("device a-b all", "line 1: F7 BadName"),
    ("device 1a all", "line 1: F7 BadName"),
    ("device é all", "line 1: F7 BadName"),
    ("device a all\nlist a a", "line 2: F6 WrongFields"),
    ("device a all\nlist", "line 2: F6 WrongFields"),
    ("device", "line 1: F6 WrongFields"),
    ("device a", "line 1: F6 WrongFields"),
    (
        "device a all\nnew a 7 5 2024-01-01",
        "line 2: F6 WrongFields",
    ),
    (
        "device a all\nnew a 7 5 2024-01-01 x y",
        "line 2: F6 WrongFields",
    ),
    ("device a all\nLIST a", "line 2: F5 UnknownCommand"),
    ("device a all\nlist A-B", "line 2: F8 UnknownDevice"),
];

const FIRST_OF_TWO_FAULTS: &[(&str, &str)] = &[
    ("device a all\nlist a\ndevice b", "line 3: F10 LateDevice"),
    (
        "device a all\nnew b 7 9 2024-01-01 -",
        "line 2: F8 UnknownDevice",
    ),
    (
        "device a all\nnew a 7 5 2024-01-01 -\nnew b 7 5 2024-01-01 -",
        "line 3: F8 UnknownDevice",
    ),
    (
        "device a all\nnew a 7 5 2024-01-01 -\nnew a 7 9 2024-01-01 -",
        "line 3: F16 RepeatedPicture",
    ),
    (
        "device a all\nnew a 0 9 2024-01-01 -",
        "line 2: F11 BadNumber",
    ),
    (
        "device a all\nnew a 7 9 2024-13-01 -",
        "line 2: F12 BadRating",
    ),
    (
        "device a all\nnew a 7 5 2024-13-01 x,x",
        "line 2: F13 BadDate",
    ),
    ("device A none", "line 1: F7 BadName"),
    ("device a all\ndevice a none", "line 2: F9 RepeatedDevice"),
    ("frob\nlist", "line 1: F5 UnknownCommand"),
];

const FILTERS: &[(&str, &str)] = &[
    ("device a not(rating = 0 or keyword x)", "read"),
    ("  device  a   keyword   and and all  ", "read"),
    ("device a not day >= 0000-01-01", "read"),
    ("device a all all", "line 1: F15 BadFilter"),
    ("device a rating >=4", "line 1: F15 BadFilter"),
    ("device a keyword (", "line 1: F15 BadFilter"),
    ("device a ( all", "line 1: F15 BadFilter"),
    ("device a keyword", "line 1: F15 BadFilter"),
    ("device a keyword a,b", "line 1: F15 BadFilter"),
    ("device a ALL", "line 1: F15 BadFilter"),
    ("device a\tall all", "line 1: F7 BadName"),
    ("device A rating >= 6", "line 1: F7 BadName"),
    (
        "device a all\ndevice a rating >= 6",
        "line 2: F9 RepeatedDevice",
    ),
    (
        "device a all\nlist a\ndevice b rating >= 6",
        "line 3: F10 LateDevice",
    ),
    ("device a rating >= 6\nfrob", "line 1: F15 BadFilter"),
    (
        "device a all\ndevice b rating >= 6\nlist c",
        "line 2: F15 BadFilter",
    ),
];

const BEHIND_A: &[(&str, &str)] = &[
    ("pull a a", "line 2: F19 SameDevice"),
    ("pull a b", "line 2: F8 UnknownDevice"),
    ("pull b a", "line 2: F8 UnknownDevice"),
    ("pull b b", "line 2: F8 UnknownDevice"),
    ("pull a", "line 2: F6 WrongFields"),
    ("pull a a a", "line 2: F6 WrongFields"),
    ("pull a a\nfrob", "line 2: F19 SameDevice"),
    ("device b all\npull a b\npull b a", "read"),
    (
        "device b all\npull a b\ndevice c all",
        "line 4: F10 LateDevice",
    ),
    ("preview a a", "line 2: F19 SameDevice"),
    ("preview a b", "line 2: F8 UnknownDevice"),
    ("preview b a", "line 2: F8 UnknownDevice"),
    ("preview a", "line 2: F6 WrongFields"),
    ("preview a a a", "line 2: F6 WrongFields"),
    ("device b all\npreview a b\npull b a\npreview b a", "read"),
    (
        "device b all\npreview a b\ndevice c all",
        "line 4: F10 LateDevice",
    ),
    ("narrow a none", "read"),
    ("  narrow  a   not rating = 3 \r", "read"),
    ("narrow a rating >= 6", "line 2: F15 BadFilter"),
    ("narrow a all all", "line 2: F15 BadFilter"),
    ("narrow b all", "line 2: F8 UnknownDevice"),
    ("narrow b rating >= 6", "line 2: F8 UnknownDevice"),
    ("narrow a", "line 2: F6 WrongFields"),
    ("narrow", "line 2: F6 WrongFields"),
    ("narrow a all\ndevice b all", "line 3: F10 LateDevice"),
    ("refilter a none\nrefilter a all", "read"),
    ("  refilter  a   not rating = 3 \r", "read"),
    ("refilter a rating >= 6", "line 2: F15 BadFilter"),
    ("refilter a all all", "line 2: F15 BadFilter"),
    ("refilter b rating >= 6", "line 2: F8 UnknownDevice"),
    ("refilter a", "line 2: F6 WrongFields"),
    ("refilter", "line 2: F6 WrongFields"),
    ("refilter a all\ndevice b all", "line 3: F10 LateDevice"),
    ("conflicts a", "read"),
    ("conflicts b", "line 2: F8 UnknownDevice"),
    ("conflicts", "line 2: F6 WrongFields"),
    ("conflicts a a", "line 2: F6 WrongFields"),
];

const QUESTIONS: &[(&str, &str)] = &[
    ("knowledge a", "read"),
    ("knows a 7 a:100000", "read"),
    ("knows a 7 a:100001", "line 2: F11 BadNumber"),
    ("knows a 7 a:0", "line 2: F11 BadNumber"),
    ("knows a 7 a:01", "line 2: F11 BadNumber"),
    ("knows a 7 a1", "line 2: F11 BadNumber"),
    ("knows a 7 a.1:1", "read"),
    ("knows a 7 a.0:1", "line 2: F11 BadNumber"),
    ("knows a 7 a.01:1", "line 2: F11 BadNumber"),
    ("knows a 7 a.:1", "line 2: F11 BadNumber"),
    ("knows a 7 a.1", "line 2: F11 BadNumber"),
    ("knows a 7 a.100001:1", "line 2: F11 BadNumber"),
    ("knows a 7 a.1.2:3", "line 2: F11 BadNumber"),
    ("knows a 7 b.1:1", "line 2: F8 UnknownDevice"),
    ("knows a 7 .1:1", "line 2: F8 UnknownDevice"),
    ("knows a 7 b:x", "line 2: F8 UnknownDevice"),
    ("knows b 7 a:1", "line 2: F8 UnknownDevice"),
    ("knows a 0 b", "line 2: F11 BadNumber"),
    ("knows a 7", "line 2: F6 WrongFields"),
    ("knowledge a a", "line 2: F6 WrongFields"),
    ("knows a 7 :1", "line 2: F8 UnknownDevice"),
    ("knows a 7 A:1", "line 2: F8 UnknownDevice"),
    ("knows a 7 a:", "line 2: F11 BadNumber"),
    ("knows a 7 a:1:1", "line 2: F11 BadNumber"),
    ("knows a 7 a:1 a:2", "line 2: F6 WrongFields"),
];

const CHANGES: &[(&str, &str)] = &[
    ("edit", "line 1: F6 WrongFields"),
    ("edit a 7 5 2024-01-01", "line 1: F6 WrongFields"),
    ("edit a 7 5 2024-01-01 - -", "line 1: F6 WrongFields"),
    ("edit b 0 6 x ,", "line 1: F8 UnknownDevice"),
    ("device a all\nedit a 0 6 x ,", "line 2: F11 BadNumber"),
    (
        "device a all\nedit a 07 5 2024-01-01 -",
        "line 2: F11 BadNumber",
    ),
    ("device a all\nedit a 7 6 x ,", "line 2: F12 BadRating"),
    (
        "device a all\nedit a 7 5 2023-02-29 ,",
        "line 2: F13 BadDate",
    ),
    (
        "device a all\nedit a 7 5 2024-01-01 x,x",
        "line 2: F14 BadKeyword",
    ),
    ("remove a", "line 1: F6 WrongFields"),
    ("remove a 7 -", "line 1: F6 WrongFields"),
    ("remove b 0", "line 1: F8 UnknownDevice"),
    ("device a all\nremove a 0", "line 2: F11 BadNumber"),
    ("device a all\nremove a 1000000000", "line 2: F11 BadNumber"),
    (
        "device a all\nremove a 7\ndevice b all",
        "line 3: F10 LateDevice",
    ),
    (
        "device a all\nEdit a 7 5 2024-01-01 -",
        "line 2: F5 UnknownCommand",
    ),
];

#[test]
fn single_faults_of_texts(rt: HostRuntime) {
    for (text, wanted) in SINGLE_FAULTS {
        assert!(rt; is_answered(rt.alloc(), "", text, wanted), "of {text:?}");
    }
}

#[test]
fn fields_of_lines(rt: HostRuntime) {
    for (text, wanted) in LINES_AND_FIELDS {
        assert!(rt; is_answered(rt.alloc(), "", text, wanted), "of {text:?}");
    }
}

#[test]
fn first_faults(rt: HostRuntime) {
    for (text, wanted) in FIRST_OF_TWO_FAULTS {
        assert!(rt; is_answered(rt.alloc(), "", text, wanted), "of {text:?}");
    }
}

#[test]
fn texts_of_filters(rt: HostRuntime) {
    for (text, wanted) in FILTERS {
        assert!(rt; is_answered(rt.alloc(), "", text, wanted), "of {text:?}");
    }
}

#[test]
fn lines_of_changes(rt: HostRuntime) {
    for (text, wanted) in CHANGES {
        assert!(rt; is_answered(rt.alloc(), "", text, wanted), "of {text:?}");
    }
}

#[test]
fn lines_behind_a_device(rt: HostRuntime) {
    for (text, wanted) in BEHIND_A {
        assert!(rt;
            is_answered(rt.alloc(), "device a all\n", text, wanted),
            "of {text:?}"
        );
    }
}

#[test]
fn lines_of_questions(rt: HostRuntime) {
    for (text, wanted) in QUESTIONS {
        assert!(rt;
            is_answered(rt.alloc(), "device a all\n", text, wanted),
            "of {text:?}"
        );
    }
}
