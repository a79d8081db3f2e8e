//! A device with receipts: what contracts see of it, and what it does by itself.
use crate::Receipt;
use photo_device::{ChangeFault, Device, NarrowFault, Place};
use photo_filter_rules::Filter;
use photo_record::{PicNo, Record};
use photo_version::Version;
use std::alloc::{AllocError, Global};
use std::collections::BTreeSet;
use std::marker::Model;

/// A device, and the receipts for what others handed over to it. A copy of it is such a device too.
///
/// Contracts see both, and by `ShowsReplica` the model replica. Nothing is ever staged on the device.
#[derive(Debug, Drop)]
pub struct ReceiptedDevice {
    pub(crate) device: Device,
    pub(crate) receipts: BTreeSet<Receipt, Global>,
}

impl Model for ReceiptedDevice {
    ghost use Rattle.std.specs.Prelude.{◌≡◌, None};
    ghost use Rattle.receipted_device.specs.Shown.{KeptReplica};
    ghost use Rattle.receipted_device.specs.Coding.{replica_code};

    ghost Value = { KeptReplica };

    ghost coded = { replica_code };

    ghost view = { λ r. record { device = r.device; receipts = r.receipts.keys } };

    ghost invariant = { λ r. r.device.staged ≡ None };
}

impl ReceiptedDevice {
    ghost use Rattle.std.specs.Prelude.{◌≡◌, ◌≢◌, ◌<◌, length, true, false, Err, IfOk, IfErr, OnOk, OnErr};
    ghost use Rattle.photo_version.specs.Author.{epoch_of_author};
    ghost use Rattle.photo_filter_rules.specs.Covers.{covers};
    ghost use Rattle.photo_record.specs.declared.record.Record.TheVariants.{Removed};
    ghost use Rattle.photo_model.specs.Device.{ModelDevice, is_held, made, next_version, new_place, narrowed, moved};
    ghost use Rattle.photo_model.specs.Refiltered.{begun};
    ghost use Rattle.photo_device.specs.Device.{Shows};
    ghost use Rattle.photo_device.specs.declared.fault.ChangeFault.TheVariants.{NotHeld};
    ghost use Rattle.photo_device.specs.declared.fault.NarrowFault.TheVariants.{NotNarrower, NoMemory};
    ghost use Rattle.household_model.specs.Replica as model;
    ghost use Rattle.household_model.specs.Household.{new_replica};
    ghost use Rattle.receipted_device.specs.Shown.{ShowsReplica};

    /// The device, with no receipts. What was staged on it is dropped. Takes no memory.
    pub fn new(alloc: Global, device: Device) -> ReceiptedDevice
        ensures { (d : ModelDevice) → Shows device d → ShowsReplica result (new_replica d) }
    {
        let mut device = device;
        device.unstage();
        ReceiptedDevice {
            device,
            receipts: BTreeSet::new(alloc),
        }
    }

    /// A copy; a change of either doesn't change the other. Its only error is want of memory.
    pub fn try_clone(&self) -> Result<ReceiptedDevice, AllocError>
        ensures { IfOk result (λ copy. copy ≡ self.now) }
    {
        let device = self.device.try_clone()?;
        Ok(ReceiptedDevice {
            device,
            receipts: self.receipts.clone()?,
        })
    }

    /// The device.
    pub fn device(&self) -> &Device
        ensures { result.now ≡ self.now.device }
    {
        &self.device
    }

    /// The receipts, in their order.
    pub fn receipts(&self) -> &BTreeSet<Receipt, Global>
        ensures { result.now.keys ≡ self.now.receipts }
    {
        &self.receipts
    }

    /// Makes the device's next version of a picture, as `Device::make` does. Its only error is want of memory, which leaves all
    /// as it was.
    pub fn make(&mut self, picture: PicNo, content: &Record) -> Result<(Version, Place), AllocError>
        requires { self.old.device.counter < 4_294_967_295 }
        ensures shows { OnOk result ((m : model.Replica) → ShowsReplica self.old m
            → ShowsReplica self.new (record m { device = made m.device picture content.now })) }
        ensures version { IfOk result (λ answer. (m : model.Replica) → ShowsReplica self.old m → answer.0 ≡ next_version m.device) }
        ensures place { IfOk result (λ answer. (m : model.Replica) → ShowsReplica self.old m → answer.1 ≡ new_place m.device content.now) }
        ensures err { OnErr result (self.new ≡ self.old) }
    {
        self.device.make(picture, content)
    }

    /// Makes the next version of a picture of which the device holds one, as `Device::edit` does. Any error leaves all as it was.
    pub fn edit(
        &mut self,
        picture: PicNo,
        content: &Record,
    ) -> Result<(Version, Place), ChangeFault>
        requires { self.old.device.counter < 4_294_967_295 }
        ensures shows { OnOk result ((m : model.Replica) → ShowsReplica self.old m
            → ShowsReplica self.new (record m { device = made m.device picture content.now })) }
        ensures version { IfOk result (λ answer. (m : model.Replica) → ShowsReplica self.old m → answer.0 ≡ next_version m.device) }
        ensures place { IfOk result (λ answer. (m : model.Replica) → ShowsReplica self.old m → answer.1 ≡ new_place m.device content.now) }
        ensures held { result ≢ Err NotHeld → (m : model.Replica) → ShowsReplica self.old m → is_held m.device picture ≡ true }
        ensures not_held { result ≡ Err NotHeld → (m : model.Replica) → ShowsReplica self.old m → is_held m.device picture ≡ false }
        ensures err { OnErr result (self.new ≡ self.old) }
    {
        self.device.edit(picture, content)
    }

    /// Makes a version that removes a picture of which the device holds one. Any error leaves all as it was.
    pub fn remove(&mut self, picture: PicNo) -> Result<(Version, Place), ChangeFault>
        requires { self.old.device.counter < 4_294_967_295 }
        ensures shows { OnOk result ((m : model.Replica) → ShowsReplica self.old m
            → ShowsReplica self.new (record m { device = made m.device picture Removed })) }
        ensures version { IfOk result (λ answer. (m : model.Replica) → ShowsReplica self.old m → answer.0 ≡ next_version m.device) }
        ensures place { IfOk result (λ answer. (m : model.Replica) → ShowsReplica self.old m → answer.1 ≡ new_place m.device Removed) }
        ensures held { result ≢ Err NotHeld → (m : model.Replica) → ShowsReplica self.old m → is_held m.device picture ≡ true }
        ensures not_held { result ≡ Err NotHeld → (m : model.Replica) → ShowsReplica self.old m → is_held m.device picture ≡ false }
        ensures err { OnErr result (self.new ≡ self.old) }
    {
        self.device.remove(picture)
    }

    /// Takes a filter that the device's own covers, as `Device::narrow` does; the answer is how many versions go to the out. Any
    /// error leaves all as it was, and gives the filter back.
    pub fn narrow(&mut self, filter: Filter) -> Result<u64, (Filter, NarrowFault)>
        ensures shows { OnOk result ((m : model.Replica) → ShowsReplica self.old m
            → ShowsReplica self.new (record m { device = narrowed filter m.device })) }
        ensures moved { IfOk result (λ count. (m : model.Replica) → ShowsReplica self.old m → count ≡ moved filter m.device) }
        ensures covered { OnOk result (covers self.old.device.tree filter ≡ true) }
        ensures refused { IfErr result (λ e. e.1 ≡ NotNarrower → covers self.old.device.tree filter ≡ false) }
        ensures no_memory { IfErr result (λ e. e.1 ≡ NoMemory → covers self.old.device.tree filter ≡ true) }
        ensures returned { IfErr result (λ e. e.0 ≡ filter) }
        ensures err { OnErr result (self.new ≡ self.old) }
    {
        self.device.narrow(filter)
    }

    /// Begins a later epoch with any filter, as `Device::begin` does; the answer is how many versions are then in the store, and in
    /// the out. The receipts stay. Its only error is want of memory, which leaves all as it was and gives the filter back.
    pub fn begin(&mut self, epoch: u32, filter: Filter) -> Result<(u64, u64), (Filter, AllocError)>
        requires { epoch_of_author self.old.device.author < epoch }
        ensures shows { OnOk result ((m : model.Replica) → ShowsReplica self.old m
            → ShowsReplica self.new (record m { device = begun epoch filter m.device })) }
        ensures store { IfOk result (λ sizes. sizes.0 ≡ length self.new.device.store) }
        ensures out { IfOk result (λ sizes. sizes.1 ≡ length self.new.device.out) }
        ensures returned { IfErr result (λ e. e.0 ≡ filter) }
        ensures err { OnErr result (self.new ≡ self.old) }
    {
        self.device.begin(epoch, filter)
    }
}
