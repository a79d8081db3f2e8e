//! Whether some device holds each current version.
ghost use Rattle.std.specs.Prelude.{◌≡◌, ◌++◌};
ghost use Rattle.std.specs.List.{list_any, list_all};
ghost use Rattle.photo_device.specs.Held.{has_version_of};
ghost use Rattle.fleet_audit.specs.Audited.{has, is_held, is_kept};

use crate::current::current_of;
use crate::stretch::stretch_len;
use fleet_steps::IssueLog;
use photo_device::{Device, Held, SharedHeld};

/// Whether some device holds each version of a log that no other version of it supersedes.
pub fn is_kept(devices: &[Device], log: &IssueLog) -> bool
    ensures { result ≡ is_kept log.now devices.now }
{
    let mut rest = log.by_picture();
    while !rest.is_empty() {
        let (stretch, others) = rest.split_at(stretch_len(rest));
        if !are_held(devices, current_of(None, log, stretch)) {
            return false;
        }
        rest = others;
    }
    true
}

fn are_held(devices: &[Device], helds: &[SharedHeld]) -> bool
    ensures { result ≡ list_all (is_held devices.now) helds.now }
{
    helds.iter().all(|held| is_held(devices, held.as_held()))
}

// Whether some device holds the version. It searches by picture first.
fn is_held(devices: &[Device], held: &Held) -> bool
    ensures { result ≡ is_held devices.now held.now }
{
    is_found(devices, held) || is_anywhere(devices, held)
}

fn is_found(devices: &[Device], held: &Held) -> bool
    ensures { result ≡ list_any (λ d. has_version_of held.now.picture held.now.version (d.store ++ d.out)) devices.now }
{
    devices.iter().any(|device| finds(device, held))
}

// Whether a search by picture finds the version on the device.
fn finds(device: &Device, held: &Held) -> bool
    ensures { result ≡ has_version_of held.now.picture held.now.version (device.now.store ++ device.now.out) }
{
    device.held_of(held.picture, held.version).is_some()
}

fn is_anywhere(devices: &[Device], held: &Held) -> bool
    ensures { result ≡ is_held devices.now held.now }
{
    devices.iter().any(|device| has(device, held))
}

// Whether the device holds the version, under any picture.
fn has(device: &Device, held: &Held) -> bool
    ensures { result ≡ has (device.now.store ++ device.now.out) held.now.version }
{
    device.held(held.version).is_some()
}
