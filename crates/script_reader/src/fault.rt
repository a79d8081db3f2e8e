// The faults of scripts and of their lines.
use thiserror::Error;

/// Why a text is no script.
#[derive(Clone, Copy, Debug, PartialEq, Eq, Drop, Error)]
pub enum ScriptFault {
    /// The source could not be opened or read.
    #[error("{}", self.text())]
    Read,
    /// The text has over 8,388,608 bytes.
    #[error("{}", self.text())]
    TooLarge,
    /// The text is not UTF-8.
    #[error("{}", self.text())]
    NotUtf8,
    /// Memory was refused.
    #[error("{}", self.text())]
    NoMemory,
    /// The first line that has a fault, numbered from 1, and its first fault.
    #[error("line {line}: {fault}")]
    Line { line: u32, fault: LineFault },
}

impl ScriptFault {
    ghost use Rattle.std.specs.Prelude.{◌≡◌, ◌≤◌, length};
    ghost use Rattle.script_reader.specs.FaultTexts.{fault_name};

    /// The fault's code and name, without the line's number. Takes no memory.
    pub fn text(&self) -> &'static str
        ensures text { result.now ≡ fault_name self.now }
        ensures short { length result.now ≤ 20 }
    {
        match self {
            ScriptFault::Read => "F1 Read",
            ScriptFault::TooLarge => "F2 TooLarge",
            ScriptFault::NotUtf8 => "F3 NotUtf8",
            ScriptFault::NoMemory => "F18 NoMemory",
            ScriptFault::Line { fault, .. } => fault.text(),
        }
    }
}

/// What is wrong with a line.
#[derive(Clone, Copy, Debug, PartialEq, Eq, Drop, Error)]
#[error("{}", self.text())]
pub enum LineFault {
    /// The line has over 1,024 bytes.
    LineTooLong,
    /// The first field is no word that a line may begin with.
    UnknownCommand,
    /// There are too many fields or too few.
    WrongFields,
    /// A declared name is not a letter from a to z and then at most 15 such letters and digits.
    BadName,
    /// A device is not declared.
    UnknownDevice,
    /// A name is declared again.
    RepeatedDevice,
    /// A device is declared after a command.
    LateDevice,
    /// A picture's number is not a decimal from 1 to 999999999 without a leading zero. Or a version has no colon, or its number
    /// or its author's epoch is no such decimal from 1 to 100000.
    BadNumber,
    /// A rating is not a digit from 0 to 5.
    BadRating,
    /// A date is not written `YYYY-MM-DD`, or the calendar has no such day.
    BadDate,
    /// The last field is not a set of words.
    BadKeyword,
    /// The text from the third field on is not a filter, or the filter has too many parts.
    BadFilter,
    /// An earlier `new` makes a picture of this number.
    RepeatedPicture,
    /// There are over 256 devices or over 100,000 commands.
    TooMany,
    /// A pull or a preview names the same device twice.
    SameDevice,
}

impl LineFault {
    ghost use Rattle.std.specs.Prelude.{◌≡◌, ◌≤◌, length};
    ghost use Rattle.script_reader.specs.FaultTexts.{line_fault_text};

    /// The fault's code and name. Takes no memory.
    pub fn text(&self) -> &'static str
        ensures text { result.now ≡ line_fault_text self.now }
        ensures short { length result.now ≤ 20 }
    {
        match self {
            LineFault::LineTooLong => "F4 LineTooLong",
            LineFault::UnknownCommand => "F5 UnknownCommand",
            LineFault::WrongFields => "F6 WrongFields",
            LineFault::BadName => "F7 BadName",
            LineFault::UnknownDevice => "F8 UnknownDevice",
            LineFault::RepeatedDevice => "F9 RepeatedDevice",
            LineFault::LateDevice => "F10 LateDevice",
            LineFault::BadNumber => "F11 BadNumber",
            LineFault::BadRating => "F12 BadRating",
            LineFault::BadDate => "F13 BadDate",
            LineFault::BadKeyword => "F14 BadKeyword",
            LineFault::BadFilter => "F15 BadFilter",
            LineFault::RepeatedPicture => "F16 RepeatedPicture",
            LineFault::TooMany => "F17 TooMany",
            LineFault::SameDevice => "F19 SameDevice",
        }
    }
}
