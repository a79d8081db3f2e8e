/// Where a search in a list ended: a hint for the next search, with no other meaning.
#[derive(Clone, Copy, Debug)]
pub struct Position {
    pub(crate) block: usize,
    pub(crate) place: usize,
}

impl Position {
    /// The hint before any search.
    pub fn start() -> Position {
        Position { block: 0, place: 0 }
    }
}
