// The kinds of commands that a ledger counts.

/// The kind of a command that has run, and what it moved.
#[derive(Clone, Copy, Debug, PartialEq, Eq)]
pub enum Kind {
    /// The command changed a device.
    Change,
    /// The command was a pull.
    Pull {
        /// How many versions the target took: at most 100,000.
        taken: u64,
        /// How many versions the source handed over: at most 100,000.
        handed: u64,
    },
    /// The command asked for a report.
    Report,
}
