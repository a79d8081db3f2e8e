//! The calls that read single fields of a line.
use photo_record::Record;
use script_reader::{Refusal, read_filter, read_record};
use std::alloc::Global;
use tool_value_refusals::{Verdict, judged, mark};

/// The verdict on a call. `None` where no call has that name.
pub fn verdict(alloc: Global, call: &str) -> Option<Verdict> {
    match call {
        "read_record" => Some(judged(reads_record(alloc), true)),
        "read_filter" => Some(judged(reads_filter(alloc), true)),
        _ => None,
    }
}

fn reads_record(alloc: Global) -> Option<bool> {
    mark(alloc);
    let read = read_record(alloc, "4", "2024-01-01", "sun,sea");
    mark(alloc);
    let right = match &read {
        Ok(Record::Picture { rating, words, .. }) => Some(rating.value() == 4 && words.len() == 2),
        Err(Refusal::Memory) => None,
        _ => Some(false),
    };
    drop(read);
    right
}

fn reads_filter(alloc: Global) -> Option<bool> {
    mark(alloc);
    let read = read_filter(alloc, "rating >= 4 or keyword sea");
    mark(alloc);
    let right = match &read {
        Ok(filter) => Some(filter.alternatives() == 2),
        Err(Refusal::Memory) => None,
        Err(_) => Some(false),
    };
    drop(read);
    right
}
