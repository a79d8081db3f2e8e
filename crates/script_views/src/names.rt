//! Names of devices and of versions, as reports write them.
use photo_script::Script;
use photo_version::Version;
use std::alloc::AllocError;

/// The name of the device at a place; a place that no device has gets a mark of its own.
pub fn device_name(script: &Script, place: u16) -> &str {
    if usize::from(place) < script.devices() {
        script.name(place)
    } else {
        "?"
    }
}

/// Appends a version's name to a text: `phone:2`, or `phone.1:2` of a later epoch.
pub fn push_version(
    text: &mut String,
    script: &Script,
    version: Version,
) -> Result<(), AllocError> {
    let author = version.author();
    let name = device_name(script, author.value());
    let (epoch, number) = (author.epoch(), version.n());
    if epoch == 0 {
        write!(text, "{name}:{number}")
    } else {
        write!(text, "{name}.{epoch}:{number}")
    }
}
