//! Ratings, days, picture numbers, words and records: the values of a photo collection. Invariant: **each value is one that a
//! text can denote**. Numbers and days are in range, words are in form C, and sets of words are in order.
//!
//! Tests: `test_values`.
#![tactic(auto)]

mod day;
mod each_word;
mod fault;
pub mod laws;
mod pic_no;
mod rating;
mod record;
mod show;
mod word;
mod word_list;
mod words;

pub use day::Day;
pub use fault::WordFault;
pub use pic_no::PicNo;
pub use rating::Rating;
pub use record::Record;
pub use word::Word;
pub use words::Words;
