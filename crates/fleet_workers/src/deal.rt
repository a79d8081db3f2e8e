// Deals a batch to workers: each job has a command's number and the devices on which the command works.
ghost use Rattle.std.specs.Prelude.{◌≡◌, ◌<◌, []};
ghost use Rattle.std.specs.Prelude.{ℕ, List, Option, Some, None, true, length, map, replicate, IsSome, IfSome, IfOk};
ghost use Rattle.std.specs.Prelude.{OnOk, slice_index_or, slice_set};
ghost use Rattle.std.specs.List.{AllByRecursion};
ghost use Rattle.photo_device.specs.Device.{Kept};
ghost use Rattle.photo_batcher.specs.Related.{IsNumber, uses};
ghost use Rattle.fleet_workers.specs.Batch.{IsJobAt, AreApart, IsTaken, with_other, taken_slots};
ghost use Rattle.fleet_workers.specs.Dealing.{IsDealt, with_job};

use crate::parcel::Parcel;
use crate::work::Job;
use photo_batcher::places_of;
use photo_script::Script;
use std::alloc::{AllocError, Global};
use std::mem;

// Deals the commands of a batch to `count` workers in turn: worker `k` gets those at each index `i` with `i mod count = k`. It
// takes their devices out of the slots.
pub(crate) fn deal(
    alloc: Global,
    script: &Script,
    slots: &mut Vec<Option<Parcel>>,
    members: &[u32],
    count: usize,
) -> Result<Vec<Vec<Job>>, AllocError>
    requires numbers { AllByRecursion (IsNumber script.now) members.now }
    requires apart { AreApart script.now members.now }
    requires long { length slots.old.items ≡ length script.now.names }
    requires here { (devices : List Kept) × (slots.old.items ≡ map Some devices) }
    requires count { 0 < length members.now → 0 < count }
    ensures { IfOk result (λ groups. (devices : List Kept) → slots.old.items ≡ map Some devices
        → IsDealt script.now members.now devices count groups.items slots.new.items) }
{
    let mut groups = no_groups(alloc, count)?;
    for i in 0..members.len() {
        let job = take_job(script, slots, members[i]);
        add_job(&mut groups, i % count, job)?;
    }
    Ok(groups)
}

// `count` groups without jobs.
fn no_groups(alloc: Global, count: usize) -> Result<Vec<Vec<Job>>, AllocError>
    ensures { IfOk result (λ groups. map (λ v. v.items) groups.items ≡ replicate count []) }
{
    let mut groups = Vec::new(alloc);
    for _ in 0..count {
        groups.push(Vec::new(alloc))?;
    }
    Ok(groups)
}

// Appends a job to a group.
fn add_job(groups: &mut Vec<Vec<Job>>, place: usize, job: Job) -> Result<(), AllocError>
    requires { place < length groups.old.items }
    ensures len { length groups.new.items ≡ length groups.old.items }
    ensures jobs { OnOk result (map (λ v. v.items) groups.new.items ≡ with_job place job (map (λ v. v.items) groups.old.items)) }
{
    groups[place].push(job)?;
    Ok(())
}

// Takes a command's devices out of their slots.
fn take_job(script: &Script, slots: &mut Vec<Option<Parcel>>, number: u32) -> Job
    requires number { IsNumber script.now number }
    requires long { length slots.old.items ≡ length script.now.names }
    requires here { (k : ℕ) → k < length slots.old.items → uses script.now number k ≡ true → (x : Option Kept)
        → IsSome (slice_index_or slots.old.items k x) }
    ensures job { (devices : List Kept) → length devices ≡ length slots.old.items
        → ((k : ℕ) → k < length devices → uses script.now number k ≡ true → (x : Option Kept) (d : Kept)
        → slice_index_or slots.old.items k x ≡ Some (slice_index_or devices k d))
        → IsJobAt script.now devices result }
    ensures number { result.number ≡ number }
    ensures slots { slots.new.items ≡ taken_slots script.now number slots.old.items }
    ensures long { length slots.new.items ≡ length script.now.names }
{
    let (place, other) = places_of(script.command(number));
    let first = take_device(slots, place);
    let second = take_second(slots, other);
    Job {
        number,
        first,
        second,
    }
}

fn take_second(slots: &mut Vec<Option<Parcel>>, place: Option<usize>) -> Option<Parcel>
    requires within { IfSome place (λ k. k < length slots.old.items) }
    requires here { IfSome place (λ k. (x : Option Kept) → IsSome (slice_index_or slots.old.items k x)) }
    ensures device { IsTaken place slots.old.items result }
    ensures slots { slots.new.items ≡ with_other place (Some None) slots.old.items }
{
    match place {
        Some(place) => Some(take_device(slots, place)),
        None => None,
    }
}

fn take_device(slots: &mut Vec<Option<Parcel>>, place: usize) -> Parcel
    requires within { place < length slots.old.items }
    requires here { (x : Option Kept) → IsSome (slice_index_or slots.old.items place x) }
    ensures device { (x : Option Kept) → slice_index_or slots.old.items place x ≡ Some result }
    ensures slots { slots.new.items ≡ slice_set slots.old.items place None }
{
    let Some(device) = mem::replace(&mut slots[place], None) else {
        unreachable!()
    };
    device
}
