//! Writers and files in memory, and runs of the program over them.
ghost use Rattle.std.specs.Prelude.{Some, None, codes, if◌then◌else◌};
ghost use Rattle.std.specs.Str.{bytes_eq};

use photo_script::ScriptFault;
use photofleet_cli::{Opener, serve};
use std::alloc::Global;
use std::io::{self, ErrorKind, Write};
use std::sync::Wait;
use std::thread::Threads;

/// The stored run's script.
pub const SCRIPT: &str = "device cam all\nnew cam 7 5 2024-05-01 sun,beach\nlist cam\n";

/// What the stored run prints.
pub const OUTPUT: &str =
    "1 made cam:1 store\n2 list cam store 1 out 0\n  store 7 cam:1 rating 5 day 2024-05-01 words beach,sun\n";

/// What a writer answers once it is full.
#[derive(Clone, Copy, PartialEq, Eq)]
pub enum Full {
    Error,
    Zero,
}

/// Takes at most `room` bytes in total, and keeps them.
#[derive(Drop)]
pub struct Sink {
    pub taken: Vec<u8>,
    pub room: usize,
    pub full: Full,
}

impl Sink {
    /// A writer that takes all bytes.
    pub fn new(alloc: Global) -> Sink {
        Sink::of_room(alloc, usize::MAX, Full::Error)
    }

    /// A writer that takes at most `room` bytes in total.
    pub fn of_room(alloc: Global, room: usize, full: Full) -> Sink {
        Sink {
            taken: Vec::new(alloc),
            room,
            full,
        }
    }
}

impl Write for Sink {
    fn write(&mut self, buf: &[u8]) -> io::Result<usize> {
        let count = buf.len().min(self.room);
        if count == 0 && self.full == Full::Error && !buf.is_empty() {
            return Err(ErrorKind::StorageFull.into());
        }
        self.taken.extend_from_slice(&buf[..count])?;
        self.room -= count;
        Ok(count)
    }

    fn flush(&mut self) -> io::Result<()> {
        Ok(())
    }
}

/// Has one file in memory, `script`; no other can be opened.
#[derive(Drop)]
pub struct Shelf<'a> {
    pub script: &'a [u8],
}

impl<'a> Opener for Shelf<'a> {
    type Source = &'a [u8];

    ghost content = { λ shelf file. if bytes_eq file (codes "script") then Some shelf.script.now else None };

    fn open(&mut self, file: &str) -> Result<&'a [u8], ScriptFault> {
        if file != "script" {
            return Err(ScriptFault::Read);
        }
        Ok(self.script)
    }
}

/// Whether the program gives this status, output and error text for these words, with the script in the one file.
pub fn serves<T: Threads + Wait + Copy + Send + 'static>(
    rt: T,
    alloc: Global,
    words: &[&str],
    script: &[u8],
    status: u8,
    output: &[u8],
    error: &[u8],
) -> bool {
    let mut shelf = Shelf { script };
    let mut out = Sink::new(alloc);
    let mut err = Sink::new(alloc);
    serve(rt, alloc, words, &mut shelf, &mut out, &mut err) == status
        && out.taken.as_slice() == output
        && err.taken.as_slice() == error
}

/// The same for the words that run the script.
pub fn runs<T: Threads + Wait + Copy + Send + 'static>(
    rt: T,
    alloc: Global,
    script: &str,
    status: u8,
    output: &str,
    error: &str,
) -> bool {
    let words = ["photofleet", "plain", "script"];
    serves(
        rt,
        alloc,
        words.as_slice(),
        script.as_bytes(),
        status,
        output.as_bytes(),
        error.as_bytes(),
    )
}

/// The same for words behind the program's name.
pub fn does<T: Threads + Wait + Copy + Send + 'static>(
    rt: T,
    alloc: Global,
    words: &[&str],
    script: &str,
    status: u8,
    output: &str,
    error: &str,
) -> bool {
    let mut line = ["photofleet"; 8];
    let count = words.len().min(7);
    line[1..=count].copy_from_slice(&words[..count]);
    serves(
        rt,
        alloc,
        &line[..=count],
        script.as_bytes(),
        status,
        output.as_bytes(),
        error.as_bytes(),
    )
}
