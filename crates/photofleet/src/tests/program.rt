//! Tests of command lines: their statuses, and what they write to the output and to `err`.
use super::memory::{Full, OUTPUT, SCRIPT, Shelf, Sink, does, runs, serves};
use crate::arguments::Arguments;
use photofleet_cli::{serve, without_words};
use std::alloc::Global;
use std::env::{Env, FillError};
use std::io::{self, BufWriter, Write};
use std::sync::Wait;
use std::test::Fail;
use std::thread::Threads;

const STATUSES: &[(&str, u8, &str, &str)] = &[
    (SCRIPT, 0, OUTPUT, ""),
    ("", 0, "", ""),
    ("device a all", 0, "", ""),
    (
        "device a all\nfrob\n",
        3,
        "",
        "script fault: line 2: F5 UnknownCommand\n",
    ),
    (
        "device a all\nlist a\nfrob",
        3,
        "",
        "script fault: line 3: F5 UnknownCommand\n",
    ),
    (
        "device a all\nnew a 1 0 2024-05-01 x(y\n",
        3,
        "",
        "script fault: line 2: F14 BadKeyword\n",
    ),
];

#[test]
fn statuses_and_texts(rt: HostRuntime) {
    for (script, status, output, error) in STATUSES {
        assert!(rt;
            runs(rt, rt.alloc(), script, *status, output, error),
            "{script}"
        );
    }
}

// The commands of `a` and of `b` share no device before the pull, so they may change places.
const APART: &str =
    "device a all\ndevice b all\nnew a 1 5 2024-01-01 -\nnew b 2 4 2024-01-01 -\npull b a\nlist a\n";

const APART_REPORTS: &str =
    "1 made a:1 store\n2 made b:1 store\n3 pulled taken 1 handed 0 notices 0 dropped 0 learned yes
4 list a store 1 out 0\n  store 1 a:1 rating 5 day 2024-01-01 words -\n";

const APART_PLAN: &str =
    "1 batch 0 after -\n2 batch 0 after -\n3 batch 1 after 2\n4 batch 2 after 3\nbatches 3\n";

const UNLAWFUL: &str = "run error: E3 NotLawful\n";

// Words behind the program's name, the script, the status, the output, and the text on `err`.
const WORK: &[(&[&str], &str, u8, &str, &str)] = &[
    (&["batches", "script"], APART, 0, APART_PLAN, ""),
    (&["batches", "script"], "", 0, "batches 0\n", ""),
    (
        &["run", "--workers", "1", "script"],
        APART,
        0,
        APART_REPORTS,
        "",
    ),
    (
        &["run", "script", "--workers=256"],
        APART,
        0,
        APART_REPORTS,
        "",
    ),
    (&["run", "--workers", "7", "script"], "", 0, "", ""),
    (
        &["run", "--workers", "2", "script"],
        "frob",
        3,
        "",
        "script fault: line 1: F5 UnknownCommand\n",
    ),
    (
        &["run", "--workers", "2", "elsewhere"],
        APART,
        3,
        "",
        "script fault: F1 Read\n",
    ),
    (
        &["replay", "script", "2", "1", "3", "4"],
        APART,
        0,
        APART_REPORTS,
        "",
    ),
    (&["replay", "script"], "device a all", 0, "", ""),
    (&["replay", "script"], APART, 4, "", UNLAWFUL),
    (&["replay", "script", "1"], "", 4, "", UNLAWFUL),
    (
        &["replay", "script", "1", "3", "2", "4"],
        APART,
        4,
        "",
        UNLAWFUL,
    ),
    (
        &["replay", "script", "1", "2", "3", "100000"],
        APART,
        4,
        "",
        UNLAWFUL,
    ),
    (
        &["replay", "script", "1"],
        "frob",
        3,
        "",
        "script fault: line 1: F5 UnknownCommand\n",
    ),
    (
        &["replay", "elsewhere", "1"],
        APART,
        3,
        "",
        "script fault: F1 Read\n",
    ),
    (
        &["batches", "elsewhere"],
        APART,
        3,
        "",
        "script fault: F1 Read\n",
    ),
];

#[test]
fn workers_plans_and_orders(rt: HostRuntime) {
    for (words, script, status, output, error) in WORK {
        assert!(rt;
            does(rt, rt.alloc(), words, script, *status, output, error),
            "{words:?} {script}"
        );
    }
}

#[test]
fn more_devices_than_a_script_may_have(rt: HostRuntime) -> Result<(), Fail> {
    let alloc = rt.alloc();
    let mut script = String::new(alloc);
    for n in 0..256 {
        writeln!(script, "device d{n} all")?;
    }
    assert!(rt; runs(rt, alloc, script.as_str(), 0, "", ""));
    script.push_str("device d256 all\n")?;
    assert!(rt;
        runs(
            rt,
            alloc,
            script.as_str(),
            3,
            "",
            "script fault: line 257: F17 TooMany\n"
        )
    );
    Ok(())
}

#[test]
fn files_that_give_no_text(rt: HostRuntime) {
    let alloc = rt.alloc();
    for (file, script, error) in [
        ("script", b"\xff".as_slice(), "script fault: F3 NotUtf8\n"),
        ("elsewhere", b"".as_slice(), "script fault: F1 Read\n"),
    ] {
        let words = ["photofleet", "plain", file];
        assert!(rt;
            serves(
                rt,
                alloc,
                words.as_slice(),
                script,
                3,
                b"",
                error.as_bytes()
            ),
            "{error}"
        );
    }
}

const REFUSED: &[&[&str]] = &[
    &["photofleet"],
    &["photofleet", "frob"],
    &["photofleet", "plain"],
    &["photofleet", "plain", "script", "more"],
    &["photofleet", "plain", "--frob", "script"],
    &["photofleet", "run", "--workers", "2"],
    &["photofleet", "run", "script"],
    &["photofleet", "run", "--workers", "0", "script"],
    &["photofleet", "run", "--workers", "257", "script"],
    &["photofleet", "run", "--workers", "", "script"],
    &["photofleet", "run", "--workers", "two", "elsewhere"],
    &["photofleet", "batches"],
    &["photofleet", "batches", "script", "1"],
    &["photofleet", "replay"],
    &["photofleet", "replay", "script", "0"],
    &["photofleet", "replay", "script", "1", "100001"],
    &["photofleet", "replay", "elsewhere", "one"],
];

// Whether `clap` refuses the words with a text, and nothing is written to the output.
fn refuses<T: Threads + Wait + Copy + Send + 'static>(
    rt: T,
    alloc: Global,
    words: &[&str],
) -> bool {
    let mut out = Sink::new(alloc);
    let mut err = Sink::new(alloc);
    serve(
        rt,
        alloc,
        words,
        &mut Shelf { script: b"" },
        &mut out,
        &mut err,
    ) == 2
        && out.taken.is_empty()
        && err.taken.as_slice().starts_with(b"error: ")
}

#[test]
fn words_that_are_refused(rt: HostRuntime) {
    for words in REFUSED {
        assert!(rt; refuses(rt, rt.alloc(), words), "{words:?}");
    }
}

#[test]
fn words_that_are_no_text(rt: HostRuntime) {
    let mut err = Sink::new(rt.alloc());
    assert_eq!(rt;
        without_words(rt.alloc(), io::ErrorKind::InvalidData, &mut err),
        2
    );
    assert!(rt; err.taken.as_slice().starts_with(b"error: invalid UTF-8 "));
    let mut err = Sink::new(rt.alloc());
    assert_eq!(rt;
        without_words(rt.alloc(), io::ErrorKind::OutOfMemory, &mut err),
        4
    );
    assert!(rt; err.taken.as_slice() == b"run error: E1 NoMemory\n".as_slice());
}

// The words of a command line, each with its bytes.
#[derive(Drop)]
struct Given<'a> {
    words: &'a [&'a [u8]],
}

impl Env for Given<'_> {
    fn arg(&self, i: usize, buf: &mut [u8]) -> Result<usize, FillError> {
        let Some(word) = self.words.get(i) else {
            return Err(FillError::NotPresent);
        };
        if word.len() > buf.len() {
            return Err(FillError::TooLong);
        }
        buf[..word.len()].copy_from_slice(word);
        Ok(word.len())
    }

    fn var(&self, _name: &str, _buf: &mut [u8]) -> Result<usize, FillError> {
        Err(FillError::NotPresent)
    }

    fn var_at(&self, _i: usize, _buf: &mut [u8]) -> Result<usize, FillError> {
        Err(FillError::NotPresent)
    }
}

// Whether the words are read unchanged, or refused where one isn't UTF-8.
fn are_given(alloc: Global, words: &[&[u8]], is_text: bool) -> bool {
    match Arguments::read(&Given { words }, alloc) {
        Ok(given) => are_in(alloc, &given, words, is_text),
        Err(error) => !is_text && error.kind() == io::ErrorKind::InvalidData,
    }
}

// Whether these words were read, or one of them isn't UTF-8.
fn are_in(alloc: Global, given: &Arguments, words: &[&[u8]], is_text: bool) -> bool {
    match given.words(alloc) {
        Ok(given) => {
            is_text
                && given.len() == words.len()
                && given
                    .iter()
                    .zip(words)
                    .all(|(given, word)| given.as_bytes() == *word)
        }
        Err(error) => !is_text && error.kind() == io::ErrorKind::InvalidData,
    }
}

const LONG: &[u8] = &[b'a'; 1_025];

const GIVEN: &[(&[&[u8]], bool)] = &[
    (&[], true),
    (&[b"photofleet", b"", LONG, b"plain"], true),
    (&[LONG, b"\xc3\xa9", b"1"], true),
    (&[b"photofleet", b"a\xff"], false),
    (&[b"photofleet", b"a\xc3", b"\xa9"], false),
];

#[test]
fn words_as_they_were_given(rt: HostRuntime) {
    for (words, is_text) in GIVEN {
        assert!(rt; are_given(rt.alloc(), words, *is_text), "{words:?}");
    }
}

// The status of a request for help that writes to that writer, or `None` where the text on `err` isn't `error`.
fn helped<W: Write, T: Threads + Wait + Copy + Send + 'static>(
    rt: T,
    alloc: Global,
    words: &[&str],
    out: &mut W,
    error: &[u8],
) -> Option<u8> {
    let mut err = Sink::new(alloc);
    let status = serve(rt, alloc, words, &mut Shelf { script: b"" }, out, &mut err);
    (err.taken.as_slice() == error).then_some(status)
}

// Whether the program reports on `err` that help wasn't written, where the output is buffered and its flush fails.
fn is_told_unflushed<T: Threads + Wait + Copy + Send + 'static>(
    rt: T,
    alloc: Global,
    words: &[&str],
) -> bool {
    match BufWriter::new(alloc, Sink::of_room(alloc, 5, Full::Error)) {
        Ok(mut out) => helped(rt, alloc, words, &mut out, b"write fault: E5 Write\n") == Some(5),
        Err(_) => false,
    }
}

const HELPS: &[(&[&str], &str)] = &[
    (&["photofleet", "--help"], "is standard input.\n"),
    (&["photofleet", "--version"], "photofleet 1.0.0\n"),
    (&["photofleet", "plain", "--help"], "plain my.script'.\n"),
    (
        &["photofleet", "run", "--help"],
        "run --workers 2 my.script'.\n",
    ),
    (&["photofleet", "batches", "--help"], "batches 3\n"),
    (
        &["photofleet", "replay", "--help"],
        "replay my.script 2 4 1 3'.\n",
    ),
];

#[test]
fn help(rt: HostRuntime) {
    let alloc = rt.alloc();
    for (words, end) in HELPS {
        let mut out = Sink::new(alloc);
        assert!(rt;
            helped(rt, alloc, words, &mut out, b"") == Some(0),
            "{words:?}"
        );
        assert!(rt; out.taken.as_slice().ends_with(end.as_bytes()), "{words:?}");
        let mut full = Sink::of_room(alloc, 5, Full::Error);
        assert!(rt; helped(rt, alloc, words, &mut full, b"write fault: E5 Write\n") == Some(5));
        assert!(rt; is_told_unflushed(rt, alloc, words), "{words:?}");
    }
}

// Whether an output of that capacity, which then fails, keeps a front of the text, with that status and error text.
fn filled<T: Threads + Wait + Copy + Send + 'static>(
    rt: T,
    alloc: Global,
    words: &[&str],
    room: usize,
    full: Full,
    printed: &str,
) -> bool {
    let mut out = Sink::of_room(alloc, room, full);
    let mut err = Sink::new(alloc);
    let mut shelf = Shelf {
        script: APART.as_bytes(),
    };
    serve(rt, alloc, words, &mut shelf, &mut out, &mut err) == 5
        && out.taken.as_slice() == &printed.as_bytes()[..room.min(printed.len())]
        && err.taken.as_slice() == b"write fault: E5 Write\n".as_slice()
}

const PRINTED: &[(&[&str], &str)] = &[
    (&["photofleet", "plain", "script"], APART_REPORTS),
    (
        &["photofleet", "run", "--workers", "2", "script"],
        APART_REPORTS,
    ),
    (&["photofleet", "batches", "script"], APART_PLAN),
    (
        &["photofleet", "replay", "script", "2", "1", "3", "4"],
        APART_REPORTS,
    ),
];

#[test]
fn an_output_that_is_full(rt: HostRuntime) {
    for (words, printed) in PRINTED {
        for full in [Full::Error, Full::Zero] {
            assert!(rt;
                filled(rt, rt.alloc(), words, 30, full, printed),
                "{words:?}"
            );
        }
    }
}

// Whether a refused order is reported before anything is written to the output.
fn is_refused_first<T: Threads + Wait + Copy + Send + 'static>(rt: T, alloc: Global) -> bool {
    let mut out = Sink::of_room(alloc, 0, Full::Error);
    let mut err = Sink::new(alloc);
    let words = ["photofleet", "replay", "script", "1"];
    let mut shelf = Shelf {
        script: APART.as_bytes(),
    };
    serve(rt, alloc, words.as_slice(), &mut shelf, &mut out, &mut err) == 4
        && err.taken.as_slice() == UNLAWFUL.as_bytes()
}

#[test]
fn an_order_is_judged_before_the_output(rt: HostRuntime) {
    assert!(rt; is_refused_first(rt, rt.alloc()));
}

// Whether a run with a buffered output has that status, and the writer took that many bytes.
fn is_buffered<T: Threads + Wait + Copy + Send + 'static>(
    rt: T,
    alloc: Global,
    room: usize,
    status: u8,
) -> bool {
    match BufWriter::new(alloc, Sink::of_room(alloc, room, Full::Error)) {
        Ok(mut out) => {
            let given = ran_into(rt, alloc, &mut out);
            let (sink, _) = out.into_parts();
            given == status && sink.taken.as_slice() == &OUTPUT.as_bytes()[..room.min(OUTPUT.len())]
        }
        Err(_) => false,
    }
}

// The status of a run that writes to that writer.
fn ran_into<T: Threads + Wait + Copy + Send + 'static>(
    rt: T,
    alloc: Global,
    out: &mut BufWriter<Sink>,
) -> u8 {
    let words = ["photofleet", "plain", "script"];
    let mut shelf = Shelf {
        script: SCRIPT.as_bytes(),
    };
    let mut err = Sink::new(alloc);
    serve(rt, alloc, words.as_slice(), &mut shelf, out, &mut err)
}

#[test]
fn an_output_that_is_gathered(rt: HostRuntime) {
    for (room, status) in [(100, 0), (99, 5), (0, 5)] {
        assert!(rt;
            is_buffered(rt, rt.alloc(), room, status),
            "room for {room}"
        );
    }
}

#[test]
fn errors_that_cannot_be_told(rt: HostRuntime) {
    let alloc = rt.alloc();
    let mut shelf = Shelf { script: b"frob" };
    let mut out = Sink::new(alloc);
    let mut err = Sink::of_room(alloc, 0, Full::Error);
    let words = ["photofleet", "plain", "script"];
    assert_eq!(rt;
        serve(rt, alloc, words.as_slice(), &mut shelf, &mut out, &mut err),
        3
    );
    assert!(rt; err.taken.is_empty());
}
