/// What a pull moved, and whether the target learned all.
#[derive(Clone, Copy, Debug, PartialEq, Eq)]
pub struct PullCounts {
    /// How many versions the target took from the source's store.
    pub taken: u64,
    /// How many versions the source handed over from its out.
    pub handed: u64,
    /// How many versions the target noticed, which come without their records.
    pub notices: u64,
    /// How many held versions the target gave up.
    pub dropped: u64,
    /// Whether the target learned all that the source knows: it does where the source's filter covers the target's.
    pub learned: bool,
}
