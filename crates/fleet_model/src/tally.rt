// Tallies of commands by kind, and the totals of a run.
/// How many commands of each kind a script has. A command counts even where a run refuses it.
#[derive(Clone, Copy, Debug, PartialEq, Eq)]
pub struct Tally {
    /// How many commands are `new`, `edit`, `remove`, `narrow` or `refilter`.
    pub changes: u64,
    /// How many commands are `pull`.
    pub pulls: u64,
    /// How many are `preview`, `list`, `conflicts`, `knowledge` or `knows`.
    pub reports: u64,
}

/// What a run did: the commands of each kind, as in [`Tally`], and the versions that its pulls moved.
#[derive(Clone, Copy, Debug, PartialEq, Eq)]
pub struct Totals {
    /// How many commands are `new`, `edit`, `remove`, `narrow` or `refilter`.
    pub changes: u64,
    /// How many commands are `pull`.
    pub pulls: u64,
    /// How many are `preview`, `list`, `conflicts`, `knowledge` or `knows`.
    pub reports: u64,
    /// How many versions all pulls moved: those that targets took and those that sources handed over.
    pub moved: u64,
}
