//! Sets of receipts: which a set has, which are added for a pull, and which a copied device shows to be obsolete.
ghost use Rattle.std.specs.Prelude.{◌≡◌, ◌||◌, ◌&&◌, not, IfOk, OnOk};
ghost use Rattle.photo_model.specs.Device.{ModelDevice};
ghost use Rattle.photo_device.specs.Device.{Shows};
ghost use Rattle.photo_device.specs.Held.{entries_of};
ghost use Rattle.photo_pull.specs.StagedPulls.{handed_of};
ghost use Rattle.household_model.specs.Replica as model;
ghost use Rattle.receipted_device.specs.Receipts.{receipt_of, receipts_in};

use crate::Receipt;
use photo_device::{Device, SharedHeld};
use photo_pull::StagedPull;
use photo_version::Author;
use std::alloc::{AllocError, Global};
use std::collections::BTreeSet;

/// A set of receipts, in their order.
pub(crate) type Receipts = BTreeSet<Receipt, Global>;

/// Whether the set has the receipt. Takes a number of steps that is logarithmic in the set's length.
pub(crate) fn has_receipt(set: &Receipts, receipt: Receipt) -> bool
    ensures { result ≡ receipts_in set.now.keys (receipt_of receipt) }
{
    set.contains(&receipt)
}

// The set gains receipts from the giver for the versions. The only error is want of memory, after which it has some of them.
fn add_receipts(set: &mut Receipts, giver: Author, handed: &[SharedHeld]) -> Result<(), AllocError>
    ensures { OnOk result ((q : model.Receipt) → receipts_in set.new.keys q
        ≡ (receipts_in set.old.keys q || model.receipts_for giver (entries_of handed.now) q)) }
{
    for held in handed {
        set.insert(Receipt {
            giver,
            picture: held.picture(),
            version: held.version(),
        })?;
    }
    Ok(())
}

/// A copy of the set, with receipts from the giver for what the pull has handed over. Its only error is want of memory.
pub(crate) fn with_receipts(
    set: &Receipts,
    giver: Author,
    found: &StagedPull,
) -> Result<Receipts, AllocError>
    ensures { IfOk result (λ new. (q : model.Receipt) → receipts_in new.keys q
        ≡ (receipts_in set.now.keys q || model.receipts_for giver (entries_of (handed_of found.now)) q)) }
{
    let mut receipts = set.clone()?;
    if let Some(handed) = &found.handed {
        add_receipts(&mut receipts, giver, handed)?;
    }
    Ok(receipts)
}

// Whether the copied device shows the receipt to be obsolete: it is in a later epoch than the giver; or it is the giver, and knows
// the version and no longer holds it.
fn is_obsolete(copied: &Device, receipt: &Receipt) -> bool
    ensures { (c : ModelDevice) → Shows copied.now c → result ≡ model.is_obsolete c (receipt_of receipt.now) }
{
    // For its fact alone: a picture's number is above 0.
    let _number = receipt.picture.value();
    let (giver, present) = (receipt.giver, copied.author());
    if giver != present {
        return giver.value() == present.value() && giver < present;
    }
    let known = copied.knowledge().knows(receipt.picture, receipt.version);
    known && copied.held_of(receipt.picture, receipt.version).is_none()
}

/// Drops the receipts that the copied device shows to be obsolete. Takes no memory.
pub(crate) fn forget(set: &mut Receipts, copied: &Device)
    ensures { (c : ModelDevice) → Shows copied.now c → (q : model.Receipt)
        → receipts_in set.new.keys q ≡ (receipts_in set.old.keys q && not (model.is_obsolete c q)) }
{
    set.retain(|receipt| !is_obsolete(copied, receipt));
}
