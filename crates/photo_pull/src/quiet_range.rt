// A range of pictures without news.
use photo_record::PicNo;

/// The pictures from `from` to before `end`, of which there is no news. News of pictures from `from` on begins at the place
/// `stored` in the store's news, and at `waiting` in the out's.
#[derive(Clone, Copy, Debug)]
pub(crate) struct QuietRange {
    pub from: u32,
    pub end: u32,
    pub stored: usize,
    pub waiting: usize,
}

impl QuietRange {
    ghost use Rattle.std.specs.Prelude.{◌≡◌, ◌&&◌, nat_le, nat_lt};

    /// An empty range, before any search.
    pub fn none() -> QuietRange
        ensures { result ≡ record { from = 0; end = 0; stored = 0; waiting = 0 } }
    {
        QuietRange {
            from: 0,
            end: 0,
            stored: 0,
            waiting: 0,
        }
    }

    /// Whether the picture lies in the range.
    pub fn has(&self, picture: PicNo) -> bool
        ensures { result ≡ (nat_le self.now.from picture && nat_lt picture self.now.end) }
    {
        self.from <= picture.value() && picture.value() < self.end
    }
}
