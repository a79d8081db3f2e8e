//! Draws the run of a script of a photo collection: as a chart for a browser, and as a page to step through. Its invariant: **what
//! is shown comes from public calls of the libraries alone**, and a script's text stands in a chart or a page as text, never as
//! marks of XML, HTML or JSON.
//!
//! Tests: `tools/gate/check-view`.
#![tactic(auto)]

mod chart;
mod columns;
mod drawing;
mod escaping;
mod events;
mod filters;
mod json;
mod layout;
mod learning;
mod page;
mod page_text;
mod running;
mod strife;
mod style;

pub use chart::push_chart;
pub use columns::Columns;
pub use page::push_page;
