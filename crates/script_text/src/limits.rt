// The limits of a script, as its reader sets them.

/// The most bytes of a line, without its LF.
pub const MAX_LINE_BYTES: usize = 1024;

/// The greatest version number that a script may name.
pub const MAX_VERSION: u32 = 100_000;

/// The greatest epoch that a script may name.
pub const MAX_EPOCH: u32 = 100_000;

/// The most characters of a device's name.
pub const MAX_NAME_CHARACTERS: usize = 16;
