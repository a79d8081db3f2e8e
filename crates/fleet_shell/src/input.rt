//! The lines of an input. Of none more is kept than a script may have, however long it is.
ghost use Rattle.std.specs.Prelude.{◌++◌, ℕ, List};
ghost use Rattle.fleet_shell.specs.Input.{IsBegun, IsNext};

use photo_script::MAX_TEXT_BYTES;
use std::alloc::{AllocError, Global};
use std::io::{self, Read};

// How many bytes are read at once, at most.
const PIECE: usize = 4096;

/// An input that is read line by line.
#[derive(Drop)]
pub struct Input<R> {
    /// Whether someone types it, and is asked for each line.
    pub is_typed: bool,
    reader: R,
    // What was read stands in front, up to `end`; of that the bytes before `from` are told.
    piece: Vec<u8>,
    from: usize,
    end: usize,
    alloc: Global,
}

/// What comes next of an input.
#[derive(Drop)]
pub enum Next {
    /// A line, without the LF that ends it.
    Line(Vec<u8>),
    /// A line with more bytes than a script may have.
    TooLong,
    /// A line for which memory was refused.
    NoMemory,
    /// Nothing.
    End,
    /// The system's reason why nothing can be read.
    Failed(io::Error),
}

// A line as far as it is read.
#[derive(Drop)]
struct Begun {
    line: Vec<u8>,
    is_short: bool,
    has_room: bool,
}

impl<R: Read + Drop> Input<R> {
    /// An input of which nothing is read.
    pub fn new(alloc: Global, reader: R, is_typed: bool) -> Result<Input<R>, AllocError> {
        let piece = vec![in alloc; 0; PIECE]?;
        Ok(Input {
            is_typed,
            reader,
            piece,
            from: 0,
            end: 0,
            alloc,
        })
    }

    /// The next line. What stands behind the last LF is one, if it isn't empty. A line that isn't kept is read to its end.
    pub fn next_line(&mut self) -> Next {
        let mut begun = Begun {
            line: Vec::new(self.alloc),
            is_short: true,
            has_room: true,
        };
        for turn in 0..u64::MAX {
            match self.refill() {
                Ok(true) => {}
                Ok(false) if turn == 0 => return Next::End,
                Ok(false) => return begun.ended(),
                Err(error) => return Next::Failed(error),
            }
            if self.tell_part(&mut begun) {
                return begun.ended();
            }
        }
        Next::End
    }

    // Reads a piece where all of the last one is told, and says whether there is something to tell.
    fn refill(&mut self) -> io::Result<bool> {
        if self.from >= self.end {
            self.from = 0;
            self.end = 0;
            self.end = self.reader.read(&mut self.piece)?;
        }
        Ok(self.from < self.end)
    }

    // Puts what was read into a line, up to its LF, and says whether that stands there.
    fn tell_part(&mut self, begun: &mut Begun) -> bool {
        let rest = self.piece.get(self.from..self.end).unwrap_or(&[]);
        match rest.iter().position(|byte| *byte == b'\n') {
            Some(place) => {
                begun.keep(&rest[..place]);
                self.from = self.from.saturating_add(place).saturating_add(1);
                true
            }
            None => {
                begun.keep(rest);
                self.from = self.end;
                false
            }
        }
    }
}

impl Begun {
    // Appends a part of the line, if all of the line may be kept.
    fn keep(&mut self, part: &[u8])
        ensures { (read : List ℕ) → IsBegun read self.old → IsBegun (read ++ part.now) self.new }
    {
        if part.len() > MAX_TEXT_BYTES.saturating_sub(self.line.len()) {
            self.is_short = false;
        }
        if self.is_short && self.line.extend_from_slice(part).is_err() {
            self.has_room = false;
        }
    }

    // The line, which is whole.
    fn ended(self) -> Next
        ensures { (read : List ℕ) → IsBegun read self → IsNext read result }
    {
        if !self.is_short {
            return Next::TooLong;
        }
        if !self.has_room {
            return Next::NoMemory;
        }
        Next::Line(self.line)
    }
}
