//! Readers and writers in memory, and runs between them.
use fleet_runner::{OpenGate, RunError, Workers, plain_stream, run_stream};
use std::alloc::Global;
use std::io::{self, ErrorKind, Read, Write};
use std::sync::{Arc, Wait};
use std::thread::Threads;

/// The stored run's script.
pub const SCRIPT: &str = "device cam all\nnew cam 7 5 2024-05-01 sun,beach\nlist cam\n";

/// The output of the stored run.
pub const OUTPUT: &str =
    "1 made cam:1 store\n2 list cam store 1 out 0\n  store 7 cam:1 rating 5 day 2024-05-01 words beach,sun\n";

/// Gives its bytes in pieces of at most `step`, and then its error, if it has one, in place of the end.
#[derive(Drop)]
pub struct Source<'a> {
    pub left: &'a [u8],
    pub step: usize,
    pub error: Option<ErrorKind>,
}

impl<'a> Source<'a> {
    /// A reader that gives its bytes in pieces as large as the caller takes.
    pub fn new(left: &'a [u8]) -> Source<'a> {
        Source {
            left,
            step: usize::MAX,
            error: None,
        }
    }
}

impl Read for Source<'_> {
    fn read(&mut self, buf: &mut [u8]) -> io::Result<usize> {
        let count = self.left.len().min(buf.len()).min(self.step);
        if count == 0 {
            if let Some(kind) = self.error {
                return Err(kind.into());
            }
        }
        let (piece, left) = self.left.split_at(count);
        buf[..count].copy_from_slice(piece);
        self.left = left;
        Ok(count)
    }
}

/// Gives LFs without end, and counts them.
#[derive(Drop)]
pub struct Endless {
    pub given: u64,
}

impl Read for Endless {
    fn read(&mut self, buf: &mut [u8]) -> io::Result<usize> {
        let count = buf.len().min(4096);
        buf[..count].fill(b'\n');
        self.given = self.given.saturating_add(count as u64);
        Ok(count)
    }
}

/// What a writer answers once it is full.
#[derive(Clone, Copy, PartialEq, Eq)]
pub enum Full {
    Error,
    Zero,
}

/// Takes at most `step` bytes in one write and `room` in total, and keeps them.
#[derive(Drop)]
pub struct Sink {
    pub taken: Vec<u8>,
    pub step: usize,
    pub room: usize,
    pub full: Full,
    pub flush_fails: bool,
}

impl Sink {
    /// A writer that takes all bytes.
    pub fn new(alloc: Global) -> Sink {
        Sink::of_room(alloc, usize::MAX, Full::Error)
    }

    /// A writer that takes at most `room` bytes in total.
    pub fn of_room(alloc: Global, room: usize, full: Full) -> Sink {
        Sink {
            taken: Vec::new(alloc),
            step: usize::MAX,
            room,
            full,
            flush_fails: false,
        }
    }
}

impl Write for Sink {
    fn write(&mut self, buf: &[u8]) -> io::Result<usize> {
        let count = buf.len().min(self.step).min(self.room);
        if count == 0 && self.full == Full::Error && !buf.is_empty() {
            return Err(ErrorKind::StorageFull.into());
        }
        self.taken.extend_from_slice(&buf[..count])?;
        self.room -= count;
        Ok(count)
    }

    fn flush(&mut self) -> io::Result<()> {
        if self.flush_fails {
            return Err(ErrorKind::BrokenPipe.into());
        }
        Ok(())
    }
}

/// How a script's commands are run.
#[derive(Clone, Copy)]
pub enum Way {
    /// One after another, without workers.
    Plain,
    /// By that many workers.
    By(u16),
}

/// The ways that have to give the same output.
pub const WAYS: &[Way] = &[Way::Plain, Way::By(1), Way::By(2), Way::By(7), Way::By(256)];

/// The stream of that way.
pub fn stream<R: Read, W: Write, T: Threads + Wait + Copy + Send + 'static>(
    rt: T,
    alloc: Global,
    way: Way,
    reader: &mut R,
    writer: &mut W,
) -> Result<(), RunError> {
    match way {
        Way::Plain => plain_stream(alloc, reader, writer),
        Way::By(count) => stream_by(rt, alloc, count, reader, writer),
    }
}

fn stream_by<R: Read, W: Write, T: Threads + Wait + Copy + Send + 'static>(
    rt: T,
    alloc: Global,
    count: u16,
    reader: &mut R,
    writer: &mut W,
) -> Result<(), RunError> {
    let Some(workers) = Workers::new(count) else {
        return Err(RunError::NoWorker);
    };
    let Ok(gate) = Arc::new(alloc, OpenGate) else {
        return Err(RunError::NoMemory);
    };
    run_stream(rt, alloc, reader, writer, workers, gate)
}

/// Whether each way's run of the script writes that output, and ends with an error of that text, or without an error where the
/// text is empty.
pub fn runs<T: Threads + Wait + Copy + Send + 'static>(
    rt: T,
    alloc: Global,
    script: &str,
    output: &str,
    error: &str,
) -> bool {
    runs_bytes(rt, alloc, script.as_bytes(), output, error)
}

/// The same for a script's bytes.
pub fn runs_bytes<T: Threads + Wait + Copy + Send + 'static>(
    rt: T,
    alloc: Global,
    script: &[u8],
    output: &str,
    error: &str,
) -> bool {
    for way in WAYS {
        if !runs_so(rt, alloc, *way, script, output, error) {
            return false;
        }
    }
    true
}

fn runs_so<T: Threads + Wait + Copy + Send + 'static>(
    rt: T,
    alloc: Global,
    way: Way,
    script: &[u8],
    output: &str,
    error: &str,
) -> bool {
    let mut source = Source::new(script);
    let mut sink = Sink::new(alloc);
    let answer = stream(rt, alloc, way, &mut source, &mut sink);
    sink.taken.as_slice() == output.as_bytes() && is_told(alloc, answer, error)
}

// Whether an answer is an error of that text, or no error where the text is empty.
fn is_told(alloc: Global, answer: Result<(), RunError>, error: &str) -> bool {
    match answer {
        Ok(()) => error.is_empty(),
        Err(told) => is_written(alloc, told, error),
    }
}

fn is_written(alloc: Global, told: RunError, error: &str) -> bool {
    match told.to_string(alloc) {
        Ok(text) => text.as_str() == error,
        Err(_) => false,
    }
}

/// Whether a run from that reader to that writer gives that answer and leaves those bytes written.
pub fn streams<R: Read + Drop, T: Threads + Wait + Copy + Send + 'static>(
    rt: T,
    alloc: Global,
    way: Way,
    mut source: R,
    mut sink: Sink,
    answer: Result<(), RunError>,
    output: &[u8],
) -> bool {
    stream(rt, alloc, way, &mut source, &mut sink) == answer && sink.taken.as_slice() == output
}
