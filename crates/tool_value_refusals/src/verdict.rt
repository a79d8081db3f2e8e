//! The verdicts on calls, and the word for each.
use std::alloc::Global;

/// The verdict on a call.
#[derive(Clone, Copy)]
pub enum Verdict {
    /// The call gave the right answer.
    Answered,
    /// The call was refused memory. What was lent to it is as it was, and it gave back what it was given.
    Refused,
    /// The call did anything else.
    Wrong,
}

/// The verdict on a call. `right` tells whether the answer is right, and is `None` where memory was refused.
pub fn judged(right: Option<bool>, unchanged: bool) -> Verdict {
    match right {
        Some(true) => Verdict::Answered,
        Some(false) => Verdict::Wrong,
        None if unchanged => Verdict::Refused,
        None => Verdict::Wrong,
    }
}

/// The word for a verdict. `None` means that the values for the call couldn't be made, or that no call has its name.
pub fn word_of(verdict: Option<Verdict>) -> &'static str {
    match verdict {
        Some(Verdict::Answered) => "answered",
        Some(Verdict::Refused) => "refused",
        Some(Verdict::Wrong) => "wrong",
        None => "not made",
    }
}

// No other request is for exactly this size, in bytes.
const MARK: usize = 1_000_003;

/// Begins or ends the stretch in which requests for memory are counted.
pub fn mark(alloc: Global) {
    let block = Vec::<u8>::with_capacity(alloc, MARK);
    drop(block);
}
