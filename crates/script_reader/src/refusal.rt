// Why reading stops in a line.
ghost use Rattle.std.specs.Prelude.{◌≡◌};
ghost use Rattle.script_reader.specs.Steps.{fault_at};

use crate::{LineFault, ScriptFault};
use std::alloc::{AllocError, AllocFailed};

/// Why reading stops in a line or a field.
#[derive(Clone, Copy, Debug, PartialEq, Eq, Drop)]
pub enum Refusal {
    /// Memory was refused.
    Memory,
    /// The line or the field has this fault.
    Fault(LineFault),
}

impl Refusal {
    /// Gives the fault of a script whose reading stops in the line of that number.
    pub(crate) fn in_line(self, line: u32) -> ScriptFault
        ensures { result ≡ fault_at line self }
    {
        match self {
            Refusal::Memory => ScriptFault::NoMemory,
            Refusal::Fault(fault) => ScriptFault::Line { line, fault },
        }
    }
}

impl From<LineFault> for Refusal {
    ghost use Rattle.script_reader.specs.declared.refusal.Refusal.TheVariants.{Fault};

    ghost from_gives = { λ fault e. e ≡ Fault fault };

    fn from(fault: LineFault) -> Refusal {
        Refusal::Fault(fault)
    }
}

impl From<AllocError> for Refusal {
    ghost use Rattle.script_reader.specs.declared.refusal.Refusal.TheVariants.{Memory};

    ghost from_gives = { λ _ e. e ≡ Memory };

    fn from(_refused: AllocError) -> Refusal {
        Refusal::Memory
    }
}

impl<T: Drop> From<AllocFailed<T>> for Refusal {
    ghost use Rattle.script_reader.specs.declared.refusal.Refusal.TheVariants.{Memory};

    ghost from_gives = { λ _ e. e ≡ Memory };

    fn from(_refused: AllocFailed<T>) -> Refusal {
        Refusal::Memory
    }
}
