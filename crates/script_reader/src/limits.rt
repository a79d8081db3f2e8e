// The limits of a script.

/// The most bytes of a script.
pub const MAX_TEXT_BYTES: usize = 8_388_608;

/// The most bytes of a line, without its LF.
pub const MAX_LINE_BYTES: usize = 1024;

/// The most devices of a script.
pub const MAX_DEVICES: usize = 256;

/// The most commands of a script.
pub const MAX_COMMANDS: usize = 100_000;

/// The greatest number of a version in a script.
pub const MAX_VERSION: u32 = 100_000;

/// The greatest epoch in a script.
pub const MAX_EPOCH: u32 = 100_000;

/// The most characters of a device's name.
pub const MAX_NAME_CHARACTERS: usize = 16;
