//! Audits all devices and the log.
ghost use Rattle.std.specs.Prelude.{◌≡◌, ◌&&◌, List};
ghost use Rattle.std.specs.List.{AllZip, list_all};
ghost use Rattle.photo_device.specs.Held.{entries_of};
ghost use Rattle.photo_model.specs.Device.{ModelDevice};
ghost use Rattle.photo_device.specs.Device.{Shows};
ghost use Rattle.fleet_model.specs.Sound.{is_sound, is_kept};

use crate::kept::is_kept;
use crate::sound::is_sound;
use fleet_steps::IssueLog;
use photo_device::Device;

/// Whether each device stores exactly what its filter selects of the newest versions that it knows, and some device holds each
/// version of the log that no other supersedes. It takes no memory and requires nothing of the devices.
pub fn audit(devices: &[Device], log: &IssueLog) -> bool
    ensures { (models : List ModelDevice) → AllZip Shows devices.now models
        → result ≡ (list_all (is_sound (entries_of log.now)) models && is_kept (entries_of log.now) models) }
{
    for device in devices {
        if !is_sound(device, log) {
            return false;
        }
    }
    is_kept(devices, log)
}
