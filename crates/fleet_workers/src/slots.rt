// The slots of the devices, between batches and while workers have some of the devices.
use crate::number::Workers;
use crate::parcel::Parcel;
use photo_device::SharedHeld;
use photo_script::Report;

// A slot for each device, in order of declaration; the report of each command that has run, at its number's place, and a
// placeholder for each that hasn't; the log; and how many workers there may be.
#[derive(Debug, Drop)]
pub(crate) struct Slots {
    pub devices: Vec<Option<Parcel>>,
    pub reports: Vec<Report>,
    pub log: Vec<SharedHeld>,
    pub workers: Workers,
}
