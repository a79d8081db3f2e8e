// What a worker gets, and what it gives back.
use crate::parcel::Parcel;
use photo_device::SharedHeld;
use photo_script::Report;
use work_ledger::{Books, Share};

// A command's number and the one or two devices on which it works.
#[derive(Debug, Drop)]
pub(crate) struct Job {
    pub number: u32,
    pub first: Parcel,
    pub second: Option<Parcel>,
}

// A command's results: its devices after it, its report, and the log's new entry, if any.
#[derive(Debug, Drop)]
pub(crate) struct Done {
    pub number: u32,
    pub first: Parcel,
    pub second: Option<Parcel>,
    pub report: Report,
    pub entry: Option<SharedHeld>,
}

// A worker's results: its share of the ledger, and its commands' results in order.
#[derive(Drop)]
pub(crate) struct Finished<B: Books> {
    pub share: Share<B>,
    pub done: Vec<Done>,
}
