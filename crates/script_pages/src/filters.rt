//! The texts of filters.
use crate::escaping::push_escaped;
use crate::json::push_quoted;
use photo_filter_rules::Filter;
use photo_filter_text::print;
use std::alloc::{AllocError, Global};

/// The most characters that a lane shows of its filter.
pub const AT_LEFT: usize = 28;
/// The most characters that stand below another filter's mark.
pub const AT_MARK: usize = 16;

/// A filter's text, cut to `most` characters.
pub fn shown_filter(alloc: Global, filter: &Filter, most: usize) -> Result<String, AllocError> {
    let whole = print(alloc, filter.tree())?;
    cut(alloc, &whole, most)
}

fn cut(alloc: Global, whole: &str, most: usize) -> Result<String, AllocError> {
    let mut text = String::new(alloc);
    push_cut(&mut text, whole, most)?;
    Ok(text)
}

fn push_cut(text: &mut String, whole: &str, most: usize) -> Result<(), AllocError> {
    for c in whole.chars().take(most) {
        text.push(c)?;
    }
    if text.len() < whole.len() {
        text.push_str("\u{2026}")?;
    }
    Ok(())
}

/// Appends a filter's whole text to another, escaped for XML.
pub fn push_whole_filter(text: &mut String, filter: &Filter) -> Result<(), AllocError> {
    let whole = print(*text.allocator(), filter.tree())?;
    push_escaped(text, &whole)
}

/// Appends a filter's whole text to another as a JSON string.
pub fn push_quoted_filter(text: &mut String, filter: &Filter) -> Result<(), AllocError> {
    let whole = print(*text.allocator(), filter.tree())?;
    push_quoted(text, &whole)
}
