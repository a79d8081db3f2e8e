// The outcome of a run.
use crate::IssueLog;
use photo_device::Device;
use photo_script::{Report, Totals};

/// What a run gives: the devices in order of declaration, the commands' reports in the order of their numbers, the totals, and
/// the versions that were made, oldest first.
#[derive(Debug, Drop)]
pub struct Outcome {
    pub devices: Vec<Device>,
    pub reports: Vec<Report>,
    pub totals: Totals,
    pub log: IssueLog,
}
