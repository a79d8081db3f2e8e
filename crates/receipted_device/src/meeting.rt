//! What a device with receipts does by a copy of another one, which is lent and stays as it is.
ghost use Rattle.std.specs.Prelude.{◌≡◌, None, filter, length, IfOk, OnOk, OnErr};
ghost use Rattle.photo_model.specs.Device.{ModelDevice};
ghost use Rattle.photo_device.specs.Device.{Shows, unstaged};
ghost use Rattle.photo_device.specs.Own.{IsDevice};
ghost use Rattle.household_model.specs.Replica as model;
ghost use Rattle.receipted_device.specs.Shown.{ShowsReplica};
ghost use Rattle.receipted_device.specs.Settling.{is_settled, settled};

use crate::receipt_sets::{Receipts, forget, has_receipt, with_receipts};
use crate::{Receipt, ReceiptedDevice};
use photo_device::{Device, SharedHeld};
use photo_pull::{PullCounts, preview, stage_pull};
use std::alloc::{AllocError, Global};

/// What a pull from a copy does.
#[derive(Clone, Copy, Debug, PartialEq, Eq)]
pub struct Pulled {
    /// The five counts of the pull.
    pub counts: PullCounts,
    /// How many versions were settled before it.
    pub settled: u64,
}

// The versions of the device's out for which the copy has receipts from the device's present author. Its only error is want of
// memory.
fn receipted(
    alloc: Global,
    device: &Device,
    copy: &ReceiptedDevice,
) -> Result<Vec<SharedHeld>, AllocError>
    ensures list { IfOk result (λ list. list.items ≡ filter (is_settled device.now.author copy.now) device.now.out) }
    ensures device { IsDevice (unstaged device.now) }
{
    let mut list = Vec::new(alloc);
    for held in device.out().iter() {
        let receipt = Receipt {
            giver: device.author(),
            picture: held.picture(),
            version: held.version(),
        };
        if has_receipt(&copy.receipts, receipt) {
            list.push(held.try_clone()?)?;
        }
    }
    Ok(list)
}

// Settles by the copy: the answer is how many versions leave the out. Its only error is want of memory, which leaves the device as
// it was.
fn settle_device(
    alloc: Global,
    device: &mut Device,
    copy: &ReceiptedDevice,
) -> Result<u64, AllocError>
    ensures shows { OnOk result ((d : ModelDevice) (c : model.Replica) → Shows device.old d → ShowsReplica copy.now c → Shows device.new (settled d c)) }
    ensures count { IfOk result (λ count. (d : ModelDevice) (c : model.Replica) → Shows device.old d → ShowsReplica copy.now c
        → count ≡ length (filter (model.is_receipted d c) d.out)) }
    ensures staged { OnOk result (device.new.staged ≡ None) }
    ensures err { OnErr result (device.new ≡ device.old) }
{
    let list = receipted(alloc, device, copy)?;
    device.hand_over(&list);
    Ok(list.len() as u64)
}

impl ReceiptedDevice {
    ghost use Rattle.std.specs.Prelude.{◌≡◌, None, IfOk, OnOk, OnErr};
    ghost use Rattle.photo_model.specs.Pull.{counts_of};
    ghost use Rattle.household_model.specs.Replica as model;
    ghost use Rattle.receipted_device.specs.Shown.{ShowsReplica};
    ghost use Rattle.receipted_device.specs.Meeting.{MayMeet};

    /// Settles by the copy, and then forgets the receipts that the copy shows to be obsolete. The answer is how many versions leave
    /// the out. Any two replicas may be handed over. The only error is want of memory, which leaves all as it was.
    pub fn settle(&mut self, alloc: Global, copy: &ReceiptedDevice) -> Result<u64, AllocError>
        ensures shows { OnOk result ((m c : model.Replica) → ShowsReplica self.old m → ShowsReplica copy.now c
            → ShowsReplica self.new (model.after_forgetting (model.is_obsolete c.device) (model.after_settling m c))) }
        ensures count { IfOk result (λ count. (m c : model.Replica) → ShowsReplica self.old m → ShowsReplica copy.now c
            → count ≡ model.count_settled m c) }
        ensures err { OnErr result (self.new ≡ self.old) }
    {
        let count = settle_device(alloc, &mut self.device, copy)?;
        forget(&mut self.receipts, &copy.device);
        Ok(count)
    }

    /// Pulls from the copy: settles by it, takes from it with a receipt for each version that is handed over, and forgets the
    /// receipts that it shows to be obsolete. The only error is want of memory, which leaves all as it was.
    pub fn pull(&mut self, alloc: Global, copy: &ReceiptedDevice) -> Result<Pulled, AllocError>
        requires { MayMeet self.old copy.now }
        ensures shows { OnOk result ((m c : model.Replica) → ShowsReplica self.old m → ShowsReplica copy.now c
            → ShowsReplica self.new (model.after_pulling m c)) }
        ensures counts { IfOk result (λ pulled. (m c : model.Replica) → ShowsReplica self.old m → ShowsReplica copy.now c
            → pulled.counts ≡ counts_of (model.after_settling m c).device c.device) }
        ensures settled { IfOk result (λ pulled. (m c : model.Replica) → ShowsReplica self.old m → ShowsReplica copy.now c
            → pulled.settled ≡ model.count_settled m c) }
        ensures err { OnErr result (self.new ≡ self.old) }
    {
        let mut device = self.device.try_clone()?;
        let settled = settle_device(alloc, &mut device, copy)?;
        let found = stage_pull(alloc, &mut device, &copy.device)?;
        let counts = found.counts;
        let mut receipts = with_receipts(&self.receipts, copy.device.author(), &found)?;
        found.commit(&mut device);
        forget(&mut receipts, &copy.device);
        self.exchange(device, receipts);
        Ok(Pulled { counts, settled })
    }

    /// What a pull from the copy would do. Nothing changes. The only error is want of memory.
    pub fn preview(&self, alloc: Global, copy: &ReceiptedDevice) -> Result<Pulled, AllocError>
        requires { MayMeet self.now copy.now }
        ensures counts { IfOk result (λ pulled. (m c : model.Replica) → ShowsReplica self.now m → ShowsReplica copy.now c
            → pulled.counts ≡ counts_of (model.after_settling m c).device c.device) }
        ensures settled { IfOk result (λ pulled. (m c : model.Replica) → ShowsReplica self.now m → ShowsReplica copy.now c
            → pulled.settled ≡ model.count_settled m c) }
    {
        let mut device = self.device.try_clone()?;
        let settled = settle_device(alloc, &mut device, copy)?;
        let counts = preview(alloc, &device, &copy.device)?;
        drop(device);
        Ok(Pulled { counts, settled })
    }

    // Takes another device and other receipts in the place of its own.
    fn exchange(&mut self, device: Device, receipts: Receipts)
        requires { device.staged ≡ None }
        ensures { self.new ≡ record { device = device; receipts = receipts.keys } }
    {
        self.device = device;
        self.receipts = receipts;
    }
}
