// A list device with receipts, which settles by copies and takes from them.
ghost use Rattle.std.specs.Prelude.{◌≡◌, ◌<◌, if◌then◌else◌, map, IfOk, OnOk, OnErr};
ghost use Rattle.photo_version.specs.Author.{epoch_of_author};
ghost use Rattle.photo_filter_rules.specs.Covers.{covers};
ghost use Rattle.photo_model.specs.Device.{made, narrowed};
ghost use Rattle.photo_model.specs.Pull.{counts_of};
ghost use Rattle.photo_model.specs.Refiltered.{begun};
ghost use Rattle.household_model.specs.Replica.{receipt_for, after_settling, count_settled, after_taking, after_forgetting, is_obsolete, has_entry_of};
ghost use Rattle.household_model.specs.Household.{new_replica};
ghost use Rattle.test_list_device.specs.Entries.{entry_of, entries_of};
ghost use Rattle.test_list_device.specs.Shown.{shown};
ghost use Rattle.test_list_device.specs.Replicas.{receipt_of, receipts_in, replica_shown};

use crate::pulling::{handed, pull_from};
use crate::{ListDevice, ListEntry};
use photo_filter_rules::{Filter, covers};
use photo_model::PullCounts;
use photo_record::{PicNo, Record};
use photo_version::{Author, Version};
use std::alloc::{AllocError, Global};

/// A receipt: the giver handed over this version of this picture.
#[derive(Clone, Copy, Debug)]
pub struct ListReceipt {
    pub giver: Author,
    pub picture: PicNo,
    pub version: Version,
}

/// A list device, and the receipts for what others handed over to it. A copy of it is such a replica too.
#[derive(Debug, Drop)]
pub struct ListReplica {
    pub device: ListDevice,
    pub receipts: Vec<ListReceipt>,
}

// Whether an entry of the list has the receipt's picture and version.
fn has_entry(list: &[ListEntry], receipt: &ListReceipt) -> bool
    ensures { result ≡ has_entry_of (entries_of list.now) (receipt_of receipt.now) }
{
    list.iter().any(|e| e.picture == receipt.picture && e.version == receipt.version)
}

// Whether a copied device shows the receipt to be obsolete.
fn is_shown_obsolete(copied: &ListDevice, receipt: &ListReceipt) -> bool
    ensures { result ≡ is_obsolete (shown copied.now) (receipt_of receipt.now) }
{
    let giver = receipt.giver;
    let later = giver.value() == copied.author.value() && giver < copied.author;
    let held = has_entry(&copied.store, receipt) || has_entry(&copied.out, receipt);
    later || (giver == copied.author && (copied.knows(receipt.picture, receipt.version) && !held))
}

// The receipts for entries that the giver handed over. Its only error is want of memory.
fn receipts_for(
    alloc: Global,
    giver: Author,
    entries: &[ListEntry],
) -> Result<Vec<ListReceipt>, AllocError>
    ensures { IfOk result (λ list. list.items ≡ map (λ e. record { giver = giver; picture = e.picture; version = e.version }) entries.now) }
{
    entries
        .iter()
        .map(|e| ListReceipt {
            giver,
            picture: e.picture,
            version: e.version,
        })
        .collect(alloc)
}

impl ListReplica {
    /// A replica with no receipts.
    pub fn new(alloc: Global, device: ListDevice) -> ListReplica
        ensures { replica_shown result ≡ new_replica (shown device) }
    {
        ListReplica {
            device,
            receipts: Vec::new(alloc),
        }
    }

    /// A copy of the replica as it is now. Its only error is want of memory.
    pub fn copy(&self, alloc: Global) -> Result<ListReplica, AllocError>
        ensures { IfOk result (λ copy. replica_shown copy ≡ replica_shown self.now) }
    {
        Ok(ListReplica {
            device: self.device.try_clone(alloc)?,
            receipts: Vec::from_slice(alloc, &self.receipts)?,
        })
    }

    /// Makes the next version of a picture. Its only error is want of memory, after which the replica is as it was.
    pub fn make(
        &mut self,
        alloc: Global,
        picture: PicNo,
        content: &Record,
    ) -> Result<(), AllocError>
        requires { self.old.device.counter < 4_294_967_295 }
        ensures shows { OnOk result (replica_shown self.new
            ≡ record (replica_shown self.old) { device = made (shown self.old.device) picture content.now }) }
        ensures err { OnErr result (self.new ≡ self.old) }
    {
        self.device.make(alloc, picture, content)?;
        Ok(())
    }

    /// Takes a filter that its own covers. Gives whether that is so; if not, nothing changes. Its only error is want of memory,
    /// after which the replica is as it was.
    pub fn narrow(&mut self, alloc: Global, wanted: Filter) -> Result<bool, AllocError>
        ensures covered { IfOk result (λ covered. covered ≡ covers self.old.device.filter wanted) }
        ensures shows { IfOk result (λ covered. replica_shown self.new
            ≡ (if covered then record (replica_shown self.old) { device = narrowed wanted (shown self.old.device) } else replica_shown self.old)) }
        ensures err { OnErr result (self.new ≡ self.old) }
    {
        let covered = covers(&self.device.filter, &wanted);
        if covered {
            self.device.narrow(alloc, wanted)?;
        }
        Ok(covered)
    }

    /// Begins a later epoch with any filter. Its only error is want of memory, after which the replica is as it was.
    pub fn begin(&mut self, alloc: Global, epoch: u32, wanted: Filter) -> Result<(), AllocError>
        requires { epoch_of_author self.old.device.author < epoch }
        ensures shows { OnOk result (replica_shown self.new
            ≡ record (replica_shown self.old) { device = begun epoch wanted (shown self.old.device) }) }
        ensures err { OnErr result (self.new ≡ self.old) }
    {
        let next = Author::at(self.device.author.value(), epoch);
        self.device.refilter(alloc, wanted)?;
        self.device.author = next;
        Ok(())
    }

    // Whether the replica has the receipt for an entry, from that giver.
    fn has_receipt(&self, giver: Author, entry: &ListEntry) -> bool
        ensures { result ≡ receipts_in self.now.receipts.items (receipt_for giver (entry_of entry.now)) }
    {
        self.receipts.iter().any(|r| {
            giver == r.giver && (r.picture == entry.picture && r.version == entry.version)
        })
    }

    /// Gives up, from the out, what the copy has receipts for from the replica's present author. Gives how many versions left.
    pub fn settle(&mut self, copy: &ListReplica) -> usize
        ensures shows { replica_shown self.new ≡ after_settling (replica_shown self.old) (replica_shown copy.now) }
        ensures count { result ≡ count_settled (replica_shown self.old) (replica_shown copy.now) }
    {
        let giver = self.device.author;
        let before = self.device.out.len();
        self.device.out.retain(|e| !copy.has_receipt(giver, e));
        before - self.device.out.len()
    }

    /// Takes from a copy what a pull from its device would take, and keeps a receipt for each version that was handed over. The
    /// copy stays as it is. Its only error is want of memory, after which the replica is as it was.
    pub fn take(&mut self, alloc: Global, copy: &ListReplica) -> Result<PullCounts, AllocError>
        ensures shows { OnOk result (replica_shown self.new ≡ after_taking (replica_shown self.old) (replica_shown copy.now)) }
        ensures counts { IfOk result (λ counts. counts ≡ counts_of (shown self.old.device) (shown copy.now.device)) }
        ensures err { OnErr result (self.new ≡ self.old) }
    {
        let given = handed(alloc, &self.device, &copy.device)?;
        let mut gained = receipts_for(alloc, copy.device.author, &given)?;
        let mut receipts = Vec::from_slice(alloc, &self.receipts)?;
        receipts.append(&mut gained)?;
        let counts = pull_from(alloc, &mut self.device, &copy.device)?;
        self.receipts = receipts;
        Ok(counts)
    }

    /// Forgets the receipts that the copy shows to be obsolete.
    pub fn forget(&mut self, copy: &ListReplica)
        ensures { replica_shown self.new ≡ after_forgetting (is_obsolete (shown copy.now.device)) (replica_shown self.old) }
    {
        self.receipts
            .retain(|r| !is_shown_obsolete(&copy.device, r));
    }
}
