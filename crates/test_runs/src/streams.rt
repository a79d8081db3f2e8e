//! Tests with readers that give single bytes, fail or never end, and writers that take single bytes, fill up or fail.
use super::memory::{
    Endless, Full, OUTPUT, SCRIPT, Sink, Source, WAYS, Way, runs_bytes, stream, streams,
};
use fleet_runner::{RunError, laws};
use photo_script::ScriptFault;
use std::alloc::{AllocError, Global};
use std::io::ErrorKind;
use std::sync::Wait;
use std::thread::Threads;

// Whether each way's run gives that answer and leaves those bytes written. Its reader gives the bytes, and then its error, in
// pieces of a given size; its writer takes pieces of a given size.
fn is_right<T: Threads + Wait + Copy + Send + 'static>(
    rt: T,
    alloc: Global,
    bytes: &[u8],
    step: usize,
    error: Option<ErrorKind>,
    answer: Result<(), RunError>,
    output: &[u8],
) -> bool {
    for way in WAYS {
        let source = Source {
            left: bytes,
            step,
            error,
        };
        let mut sink = Sink::new(alloc);
        sink.step = step;
        if !streams(rt, alloc, *way, source, sink, answer, output) {
            return false;
        }
    }
    true
}

#[test]
fn pieces_of_one_byte(rt: HostRuntime) {
    let (bytes, output) = (SCRIPT.as_bytes(), OUTPUT.as_bytes());
    assert!(rt; is_right(rt, rt.alloc(), bytes, 1, None, Ok(()), output));
}

// The first length of a front of the script, and the answer to it and to the longer fronts up to the next row's.
const FRONTS: &[(usize, &str, &str)] = &[
    (0, "", ""),
    (1, "", "line 1: F5 UnknownCommand"),
    (6, "", "line 1: F6 WrongFields"),
    (12, "", "line 1: F15 BadFilter"),
    (14, "", ""),
    (16, "", "line 2: F5 UnknownCommand"),
    (18, "", "line 2: F6 WrongFields"),
    (39, "1 made cam:1 store\n", ""),
    (42, "", "line 2: F14 BadKeyword"),
    (43, "1 made cam:1 store\n", ""),
    (49, "", "line 3: F5 UnknownCommand"),
    (52, "", "line 3: F6 WrongFields"),
    (54, "", "line 3: F8 UnknownDevice"),
    (56, OUTPUT, ""),
];

// The answer to the front of `count` bytes.
fn answer_to(count: usize) -> (&'static str, &'static str) {
    let mut answer = ("", "");
    for (first, output, error) in FRONTS {
        if *first <= count {
            answer = (*output, *error);
        }
    }
    answer
}

#[test]
fn each_front_of_the_script(rt: HostRuntime) {
    let bytes = SCRIPT.as_bytes();
    assert_eq!(rt; bytes.len(), 57);
    for k in 0..58 {
        let (output, error) = answer_to(k);
        assert!(rt;
            runs_bytes(rt, rt.alloc(), &bytes[..k], output, error),
            "{k} bytes"
        );
    }
}

#[test]
fn a_reader_that_fails_after_each_count_of_bytes(rt: HostRuntime) {
    let bytes = SCRIPT.as_bytes();
    assert_eq!(rt; bytes.len(), 57);
    let answer = Err(RunError::Script(ScriptFault::Read));
    for kind in [ErrorKind::BrokenPipe, ErrorKind::Interrupted] {
        for k in 0..58 {
            assert!(rt;
                is_right(rt, rt.alloc(), &bytes[..k], 10, Some(kind), answer, b""),
                "after {k}"
            );
        }
    }
}

// Whether each way's run fails and leaves that front of its output written, where the writer has capacity for no more.
fn fills<T: Threads + Wait + Copy + Send + 'static>(
    rt: T,
    alloc: Global,
    front: &[u8],
    full: Full,
) -> bool {
    for way in WAYS {
        let source = Source::new(SCRIPT.as_bytes());
        let sink = Sink::of_room(alloc, front.len(), full);
        if !streams(rt, alloc, *way, source, sink, Err(RunError::Write), front) {
            return false;
        }
    }
    true
}

#[test]
fn a_writer_that_fills_after_each_count_of_bytes(rt: HostRuntime) {
    let output = OUTPUT.as_bytes();
    assert_eq!(rt; output.len(), 100);
    for full in [Full::Error, Full::Zero] {
        for k in 0..output.len() {
            assert!(rt; fills(rt, rt.alloc(), &output[..k], full), "after {k}");
        }
    }
}

// Whether each way's run fails at the flush, after the whole output.
fn flushes<T: Threads + Wait + Copy + Send + 'static>(rt: T, alloc: Global) -> bool {
    for way in WAYS {
        let mut sink = Sink::new(alloc);
        sink.flush_fails = true;
        let source = Source::new(SCRIPT.as_bytes());
        let answer = Err(RunError::Write);
        if !streams(rt, alloc, *way, source, sink, answer, OUTPUT.as_bytes()) {
            return false;
        }
    }
    true
}

#[test]
fn a_flush_that_fails(rt: HostRuntime) {
    assert!(rt; flushes(rt, rt.alloc()));
}

fn stops<T: Threads + Wait + Copy + Send + 'static>(rt: T, alloc: Global, way: Way) -> bool {
    let mut source = Endless { given: 0 };
    let mut sink = Sink::new(alloc);
    let answer = stream(rt, alloc, way, &mut source, &mut sink);
    answer == Err(RunError::Script(ScriptFault::TooLarge))
        && source.given == 8_388_609
        && sink.taken.is_empty()
}

#[test]
fn a_reader_without_end(rt: HostRuntime) {
    assert!(rt; stops(rt, rt.alloc(), Way::Plain));
    assert!(rt; stops(rt, rt.alloc(), Way::By(2)));
}

// Appends 8,192 comments of 1,024 bytes.
fn push_comments(text: &mut Vec<u8>) -> Result<(), AllocError> {
    let mut line = [b'#'; 1024];
    line[1023] = b'\n';
    for _ in 0..8192 {
        text.extend_from_slice(line.as_slice())?;
    }
    Ok(())
}

fn is_largest<T: Threads + Wait + Copy + Send + 'static>(rt: T, alloc: Global) -> bool {
    let mut text = Vec::new(alloc);
    push_comments(&mut text).is_ok()
        && text.len() == 8_388_608
        && runs_bytes(rt, alloc, text.as_slice(), "", "")
        && text.push(b'\n').is_ok()
        && runs_bytes(rt, alloc, text.as_slice(), "", "F2 TooLarge")
}

#[test]
fn the_largest_text(rt: HostRuntime) {
    assert!(rt; is_largest(rt, rt.alloc()));
}

#[test]
fn the_first_picture(rt: HostRuntime) {
    assert!(rt;
        laws::first_picture(rt.alloc()).is_ok_and(|output| output.as_slice() == OUTPUT.as_bytes())
    );
}
