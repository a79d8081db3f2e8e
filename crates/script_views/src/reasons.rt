//! Why a device doesn't keep a version.
use photo_device::{Device, Held};
use photo_record::Record;
use std::alloc::AllocError;

/// Appends to a text why the device's filter doesn't select a version.
pub fn push_unselected(text: &mut String, device: &Device, held: &Held) -> Result<(), AllocError> {
    match &held.content {
        Record::Removed => text.push_str("no filter selects a removal"),
        record => {
            let filter = device.filter().tree();
            write!(text, "its filter '{filter}' doesn't select {record}")
        }
    }
}
