//! Tests of the program over files and writers in memory.
mod memory;
mod program;
