//! The system's files, and standard input, which is named `-`.
use photo_script::ScriptFault;
use photofleet_cli::Opener;
use std::io::Read;
use std::rt::{Files, Stdin};
use std::{fs, io};

/// Opens the system's files, and standard input, which is named `-`.
#[derive(Drop)]
pub struct FileOpener<'a, R: Files> {
    rt: &'a R,
    input: Stdin,
}

impl<'a, R: Files> FileOpener<'a, R> {
    /// An opener that takes files from that runtime.
    pub fn new(rt: &'a R, input: Stdin) -> FileOpener<'a, R> {
        FileOpener { rt, input }
    }
}

impl<R: Files> Opener for FileOpener<'_, R> {
    type Source = FileSource<R::File>;

    fn open(&mut self, file: &str) -> Result<FileSource<R::File>, ScriptFault> {
        if file == "-" {
            return Ok(FileSource::Input(self.input));
        }
        match fs::open(self.rt, file) {
            Ok(opened) => Ok(FileSource::Opened(opened)),
            Err(_) => Err(ScriptFault::Read),
        }
    }
}

/// Reads one of the system's files, or standard input.
#[derive(Drop)]
pub enum FileSource<F> {
    Opened(F),
    Input(Stdin),
}

impl<F: Read> Read for FileSource<F> {
    fn read(&mut self, buf: &mut [u8]) -> io::Result<usize> {
        match self {
            FileSource::Opened(file) => file.read(buf),
            FileSource::Input(input) => input.read(buf),
        }
    }
}
