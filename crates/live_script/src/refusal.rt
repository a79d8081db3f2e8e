//! Why a text or a line isn't taken.
use photo_script::ScriptFault;

/// Why a text or a line isn't taken.
#[derive(Clone, Copy, Debug, PartialEq, Eq, Drop)]
pub enum Refusal {
    /// The lines are no script, or memory was refused while they were read.
    Script(ScriptFault),
    /// The lines are a script, and memory was refused for its run or for its texts.
    NoMemory,
}
