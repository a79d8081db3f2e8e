// Two devices that meet through copies. `cam` keeps ratings from 4 on, and has a version for others; `srv` keeps all.
ghost use Rattle.std.specs.Prelude.{IfSome};
ghost use Rattle.fleet_steps.specs.Between.{AreReady};
ghost use Rattle.receipted_device.specs.Meeting.{MayMeet};

use fleet_steps::{Outcome, run_plain};
use photo_device::{ChangeFault, Device, Place};
use photo_filter_rules::Filter;
use photo_filter_text::read;
use photo_pull::PullCounts;
use photo_record::{Day, PicNo, Rating, Record, Words};
use photo_script::{Script, read_script};
use receipted_device::{Pulled, ReceiptedDevice};
use std::alloc::Global;

const BEFORE: &str =
    "device cam rating >= 4\ndevice srv all\nnew cam 7 5 2024-01-01 -\nnew cam 8 1 2024-01-01 -\n";

// `srv` takes the version that `cam` keeps, and the other one is handed over.
const PULLED: Pulled = Pulled {
    counts: PullCounts {
        taken: 1,
        handed: 1,
        notices: 0,
        dropped: 0,
        learned: false,
    },
    settled: 0,
};

#[derive(Drop)]
struct Pair {
    cam: ReceiptedDevice,
    srv: ReceiptedDevice,
}

// The two, before they meet.
fn opened(alloc: Global) -> Option<Pair>
    ensures { IfSome result (λ pair. MayMeet pair.srv pair.cam) }
{
    let script = read_script(alloc, BEFORE.as_bytes()).ok()?;
    let outcome = outcome(alloc, &script)?;
    pair_of(alloc, outcome.devices.as_slice())
}

#[tactic(auto, using(crate::proofs::Ready::ready_after))]
fn outcome(alloc: Global, script: &Script) -> Option<Outcome>
    ensures { IfSome result (λ outcome. AreReady outcome.devices.items) }
{
    // For their facts alone: what is true of every script.
    let _devices = script.devices();
    let _commands = script.commands();
    run_plain(alloc, script).ok()
}

fn pair_of(alloc: Global, devices: &[Device]) -> Option<Pair>
    requires { AreReady devices.now }
    ensures { IfSome result (λ pair. MayMeet pair.srv pair.cam) }
{
    if devices.len() != 2 {
        return None;
    }
    let Ok(cam) = devices[0].try_clone() else {
        return None;
    };
    let Ok(srv) = devices[1].try_clone() else {
        return None;
    };
    Some(Pair {
        cam: ReceiptedDevice::new(alloc, cam),
        srv: ReceiptedDevice::new(alloc, srv),
    })
}

fn rated(alloc: Global, rating: u8) -> Option<Record> {
    let rating = Rating::new(rating)?;
    let day = Day::read("2024-05-01")?;
    let words = Words::read(alloc, "-").ok()?;
    Some(Record::Picture { rating, day, words })
}

fn filter_of(alloc: Global, text: &str) -> Option<Filter> {
    let parsed = read(alloc, text).ok()?;
    Filter::build(alloc, parsed).ok()
}

// Whether a replica has so many versions in its store and its out, and so many receipts.
fn has(replica: &ReceiptedDevice, store: usize, out: usize, receipts: usize) -> bool {
    replica.device().store().len() == store
        && replica.device().out().len() == out
        && replica.receipts().len() == receipts
}

// What two replicas do that have not met yet.
#[derive(Clone, Copy)]
enum Case {
    // `srv` pulls, as the preview says, and `cam` settles once; then `srv` learns that its receipt is obsolete.
    Once,
    // `cam` begins another epoch before it settles: the receipt settles nothing, and is obsolete.
    Late,
    // `srv` settles by a copy from before the taking: its receipt stays, since that device still holds the version.
    Early,
    // `cam` makes, edits and removes a version, and narrows.
    Alone,
}

// Whether a case goes as it has to. `None` where memory was refused.
fn goes(alloc: Global, case: Case) -> Option<bool> {
    let mut made = opened(alloc);
    let right = match &mut made {
        Some(pair) => Some(goes_between(alloc, &mut pair.cam, &mut pair.srv, case)),
        None => None,
    };
    drop(made);
    right
}

fn goes_between(
    alloc: Global,
    cam: &mut ReceiptedDevice,
    srv: &mut ReceiptedDevice,
    case: Case,
) -> bool
    requires { MayMeet srv.old cam.old }
{
    match case {
        Case::Once => pulls(alloc, cam, srv) && is_settled_once(alloc, cam, srv),
        Case::Late => pulls(alloc, cam, srv) && is_late(alloc, cam, srv),
        Case::Early => is_early(alloc, cam, srv),
        Case::Alone => makes(alloc, cam) && narrows(alloc, cam),
    }
}

fn pulls(alloc: Global, cam: &ReceiptedDevice, srv: &mut ReceiptedDevice) -> bool
    requires { MayMeet srv.old cam.now }
{
    if srv.preview(alloc, cam) != Ok(PULLED) || !has(srv, 0, 0, 0) {
        return false;
    }
    srv.pull(alloc, cam) == Ok(PULLED) && has(srv, 2, 0, 1)
}

fn is_settled_once(alloc: Global, cam: &mut ReceiptedDevice, srv: &mut ReceiptedDevice) -> bool {
    if cam.settle(alloc, srv) != Ok(1) || !has(cam, 1, 0, 0) {
        return false;
    }
    if cam.settle(alloc, srv) != Ok(0) {
        return false;
    }
    srv.settle(alloc, cam) == Ok(0) && has(srv, 2, 0, 0)
}

fn is_late(alloc: Global, cam: &mut ReceiptedDevice, srv: &mut ReceiptedDevice) -> bool {
    if !begins(alloc, cam) || cam.settle(alloc, srv) != Ok(0) || !has(cam, 1, 1, 0) {
        return false;
    }
    srv.settle(alloc, cam) == Ok(0) && has(srv, 2, 0, 0)
}

fn begins(alloc: Global, cam: &mut ReceiptedDevice) -> bool {
    let Some(filter) = filter_of(alloc, "rating >= 5") else {
        return false;
    };
    if cam.device().author().epoch() >= 3 {
        drop(filter);
        return false;
    }
    matches!(cam.begin(3, filter), Ok((1, 1)))
}

fn is_early(alloc: Global, cam: &ReceiptedDevice, srv: &mut ReceiptedDevice) -> bool
    requires { MayMeet srv.old cam.now }
{
    let Ok(copy) = cam.try_clone() else {
        return false;
    };
    let right = pulls(alloc, cam, srv) && srv.settle(alloc, &copy) == Ok(0) && has(srv, 2, 0, 1);
    drop(copy);
    right
}

fn makes(alloc: Global, cam: &mut ReceiptedDevice) -> bool {
    let made = rated(alloc, 4);
    let right = match &made {
        Some(content) => makes_with(cam, content),
        None => false,
    };
    drop(made);
    right
}

fn makes_with(cam: &mut ReceiptedDevice, content: &Record) -> bool {
    let (Some(picture), Some(other)) = (PicNo::new(9), PicNo::new(10)) else {
        return false;
    };
    if cam.device().counter() > 100 {
        return false;
    }
    if !matches!(cam.make(picture, content), Ok((_, Place::Store))) {
        return false;
    }
    changes(cam, picture, other, content)
}

fn changes(cam: &mut ReceiptedDevice, picture: PicNo, other: PicNo, content: &Record) -> bool {
    if cam.device().counter() > 101 || cam.edit(other, content) != Err(ChangeFault::NotHeld) {
        return false;
    }
    if cam.device().counter() > 101
        || !matches!(cam.edit(picture, content), Ok((_, Place::Store)))
    {
        return false;
    }
    cam.device().counter() < 103
        && matches!(cam.remove(picture), Ok((_, Place::Out)))
        && has(cam, 1, 2, 0)
}

fn narrows(alloc: Global, cam: &mut ReceiptedDevice) -> bool {
    match filter_of(alloc, "rating >= 5") {
        Some(filter) => matches!(cam.narrow(filter), Ok(0)),
        None => false,
    }
}

#[test]
fn a_receipt_is_settled_once(rt: HostRuntime) {
    assert!(rt; goes(rt.alloc(), Case::Once) == Some(true));
}

#[test]
fn a_receipt_of_an_earlier_epoch_settles_nothing(rt: HostRuntime) {
    assert!(rt; goes(rt.alloc(), Case::Late) == Some(true));
}

#[test]
fn an_early_copy_makes_no_receipt_obsolete(rt: HostRuntime) {
    assert!(rt; goes(rt.alloc(), Case::Early) == Some(true));
}

#[test]
fn a_replica_makes_versions_as_its_device_does(rt: HostRuntime) {
    assert!(rt; goes(rt.alloc(), Case::Alone) == Some(true));
}
