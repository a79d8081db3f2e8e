//! Opens the files that the command line names.
ghost use Rattle.std.specs.Prelude.{◌≡◌, ℕ, List, Option, Some, None, IfOk, IfSome};

use photo_script::ScriptFault;
use std::io::Read;

/// Opens a file that the command line names, and gives its reader.
pub trait Opener {
    /// The reader of a file.
    type Source: Read + Drop;

    // The bytes of a file, if they are known.
    ghost content: { Self → List ℕ → Option (List ℕ) } = { λ _ _. None };

    /// Opens the file. The reader gives the file's bytes; a fault says why the file can't be read.
    fn open(&mut self, file: &str) -> Result<Self::Source, ScriptFault>
        ensures { IfOk result (λ source. IfSome (content self.old file.now) (λ bytes. Self.Source.remaining source ≡ Some bytes)) };
}
