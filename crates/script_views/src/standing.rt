//! How a device stands to a version of a picture.
ghost use Rattle.std.specs.Prelude.{◌≡◌};
ghost use Rattle.script_views.specs.Standings.{standing_of};

use photo_device::Device;
use photo_record::PicNo;
use photo_version::Version;

/// How a device stands to a version of a picture.
#[derive(Clone, Copy, Debug, PartialEq, Eq)]
pub enum Standing {
    /// It is in the store.
    Stored,
    /// It waits in the out.
    Waiting,
    /// It is known and not held.
    Known,
    /// The device doesn't know it.
    Unknown,
}

/// How the device stands to that version of that picture.
pub fn standing_of(device: &Device, picture: PicNo, version: Version) -> Standing
    ensures { result ≡ standing_of device.now picture version }
{
    if device.store().has(picture, version) {
        Standing::Stored
    } else if device.out().has(picture, version) {
        Standing::Waiting
    } else if device.knowledge().knows(picture, version) {
        Standing::Known
    } else {
        Standing::Unknown
    }
}
