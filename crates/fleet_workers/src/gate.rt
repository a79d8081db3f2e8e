// The gate that workers call before and after each command.
use photo_script::Totals;

/// A worker calls the gate before and after each of its commands, on its own thread.
pub trait Gate: Send + Sync + Drop {
    /// The command of that number is about to run.
    fn before(&self, number: u32);

    /// The command of that number has run and has been counted. `seen` is what all workers together had counted at some moment
    /// since: at least this command and those that the worker counted before it.
    fn after(&self, number: u32, seen: Totals);
}

/// A gate that does nothing.
#[derive(Debug, Drop)]
pub struct OpenGate;

impl Gate for OpenGate {
    fn before(&self, _number: u32) {}

    fn after(&self, _number: u32, _seen: Totals) {}
}
