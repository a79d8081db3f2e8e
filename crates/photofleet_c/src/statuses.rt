//! The statuses of calls.

/// Done.
pub const DONE: u8 = 0;
/// The session was closed and had to be open, or it was open and had to be closed.
pub const BAD_SESSION: u8 = 2;
/// The bytes are no script, or memory was refused while they were read.
pub const BAD_SCRIPT: u8 = 3;
/// Memory was refused.
pub const NO_MEMORY: u8 = 4;
/// The texts of the reports have no room in the caller's memory.
pub const TOO_SMALL: u8 = 5;
