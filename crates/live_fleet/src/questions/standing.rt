//! Which devices of a fleet hold a picture, and which know of it.
ghost use Rattle.std.specs.Prelude.{◌≡◌, not, filter, IfOk};
ghost use Rattle.live_fleet.specs.Standing.{has, holds, is_picture, knows_of, numbers_of};

use crate::Fleet;
use photo_device::{Device, Held, HeldSet, SharedHeld};
use photo_record::{PicNo, Record};
use std::alloc::{AllocError, Global};

/// The numbers of the devices that hold a picture, in order. Such a device has in its store or its out a version of the picture
/// that doesn't remove it. Its only error is want of memory.
pub fn holding(alloc: Global, fleet: &Fleet, picture: PicNo) -> Result<Vec<u16>, AllocError>
    ensures { IfOk result (λ numbers. numbers.items ≡ numbers_of (filter (holds picture) fleet.now.devices)) }
{
    let mut numbers = Vec::new(alloc);
    for device in fleet.devices() {
        if holds(device, picture) {
            numbers.push(device.author().value())?;
        }
    }
    Ok(numbers)
}

/// The numbers of all other devices, in order: those that hold no version of a picture, or only versions that remove it. Such a
/// device may know of the picture: its filter may not match it, or it may know that the picture was removed. Its only error is
/// want of memory.
pub fn lacking(alloc: Global, fleet: &Fleet, picture: PicNo) -> Result<Vec<u16>, AllocError>
    ensures { IfOk result (λ numbers. numbers.items ≡ numbers_of (filter (λ d. not (holds picture d)) fleet.now.devices)) }
{
    let mut numbers = Vec::new(alloc);
    for device in fleet.devices() {
        if !holds(device, picture) {
            numbers.push(device.author().value())?;
        }
    }
    Ok(numbers)
}

/// The numbers of the devices that know some version that was made of a picture, in order, whether or not they hold one. A
/// version that removes it counts. Its only error is want of memory.
pub fn knowing(alloc: Global, fleet: &Fleet, picture: PicNo) -> Result<Vec<u16>, AllocError>
    ensures { IfOk result (λ numbers. numbers.items ≡ numbers_of (filter (knows_of fleet.now.log picture) fleet.now.devices)) }
{
    let mut numbers = Vec::new(alloc);
    for device in fleet.devices() {
        if knows_of(device, fleet.log(), picture) {
            numbers.push(device.author().value())?;
        }
    }
    Ok(numbers)
}

// Whether a device holds a picture.
fn holds(device: &Device, picture: PicNo) -> bool
    ensures { result ≡ holds picture device.now }
{
    has(device.store(), picture) || has(device.out(), picture)
}

// Whether a set has a version of a picture that doesn't remove it.
fn has(set: &HeldSet, picture: PicNo) -> bool
    ensures { result ≡ has picture set.now }
{
    for block in set.blocks() {
        if is_among(block, picture) {
            return true;
        }
    }
    false
}

fn is_among(helds: &[SharedHeld], picture: PicNo) -> bool
    ensures { result ≡ has picture helds.now }
{
    helds.iter().any(|held| held.picture() == picture && is_picture(held.content()))
}

fn is_picture(record: &Record) -> bool
    ensures { result ≡ is_picture «record».now }
{
    match record {
        Record::Picture { .. } => true,
        Record::Removed => false,
    }
}

// Whether a device knows a version that was made of a picture.
fn knows_of(device: &Device, log: &[Held], picture: PicNo) -> bool
    ensures { result ≡ knows_of log.now picture device.now }
{
    log.iter().any(|held| {
        held.picture == picture && device.knowledge().knows(picture, held.version)
    })
}
