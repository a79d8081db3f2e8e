//! What came of a call, as it is told.

/// Tells whether a call was answered; where it wasn't it wanted memory. A line that can't be written is missing from the list,
/// which shows it.
pub fn tell(rt: HostRuntime, call: &str, is_answered: bool) {
    let word = if is_answered { "answered" } else { "refused" };
    let _ = println!(rt; "{call}: {word}");
}
