//! The same work on each of several knowledges, in each of several rounds. A round's results are kept until the next round, as
//! a device keeps its knowledge.
ghost use Rattle.std.specs.Prelude.{◌≡◌, true};
ghost use Rattle.item_knowledge.specs.Tables.{in_order};

use crate::table::{learn, of_table, table};
use item_knowledge::Knowledge;
use photo_record::PicNo;
use photo_version::Vector;
use std::alloc::{AllocError, Global};

// All knowledges of a round together have that many pictures, however many each has, so each round works on as much memory.
const PICTURES: u32 = 64_000;

/// How many knowledges a round has if each has `n` pictures.
pub fn count_of(n: u32) -> u32 {
    PICTURES / n.max(1)
}

/// The knowledges of a round; all know the same versions of a device.
pub fn of_round(alloc: Global, device: u16, n: u32) -> Result<Vec<Knowledge>, AllocError> {
    let mut all = Vec::new(alloc);
    for _ in 0..count_of(n) {
        all.push(of_table(alloc, device, n)?)?;
    }
    Ok(all)
}

// Empty knowledges, on which a round works.
fn unworked(alloc: Global, count: usize) -> Result<Vec<Knowledge>, AllocError> {
    let mut all = Vec::new(alloc);
    for _ in 0..count {
        all.push(Knowledge::new(alloc)?)?;
    }
    Ok(all)
}

/// Copies each of several knowledges and makes the copy learn what another knowledge knows of the same pictures. Gives a number
/// that depends on the result.
pub fn work(alloc: Global, kind: &str, n: u32, times: u32) -> Result<u64, AllocError> {
    let mut all = of_round(alloc, 1, n)?;
    work_all(alloc, kind, &mut all, n, times)
}

fn work_all(
    alloc: Global,
    kind: &str,
    all: &mut [Knowledge],
    n: u32,
    times: u32,
) -> Result<u64, AllocError> {
    let device = if kind == "learn_all_again" { 1 } else { 2 };
    let others = of_round(alloc, device, n)?;
    work_with(alloc, kind, all, &others, times)
}

fn work_with(
    alloc: Global,
    kind: &str,
    all: &mut [Knowledge],
    others: &[Knowledge],
    times: u32,
) -> Result<u64, AllocError> {
    let mut worked = unworked(alloc, all.len())?;
    work_each(kind, all, others, &mut worked, times)
}

fn work_each(
    kind: &str,
    all: &mut [Knowledge],
    others: &[Knowledge],
    worked: &mut [Knowledge],
    times: u32,
) -> Result<u64, AllocError> {
    let mut sum = 0u64;
    for _ in 0..times {
        for k in 0..all.len().min(others.len()).min(worked.len()) {
            work_one(kind, &mut all[k], &others[k], &mut worked[k])?;
            sum = sum.wrapping_add(worked[k].fragments() as u64);
        }
    }
    Ok(sum)
}

fn work_one(
    kind: &str,
    one: &mut Knowledge,
    other: &Knowledge,
    worked: &mut Knowledge,
) -> Result<(), AllocError> {
    match kind {
        "try_clone" => copy(one, worked),
        "learn_all" => copy_and_learn(one, other, worked),
        "learn_all_again" => one.learn_all(other),
        _ => Ok(()),
    }
}

fn copy(one: &Knowledge, worked: &mut Knowledge) -> Result<(), AllocError> {
    *worked = one.try_clone()?;
    Ok(())
}

fn copy_and_learn(
    one: &Knowledge,
    other: &Knowledge,
    worked: &mut Knowledge,
) -> Result<(), AllocError> {
    copy(one, worked)?;
    worked.learn_all(other)
}

/// The table that a knowledge is told.
#[derive(Drop)]
struct Told {
    table: Vec<(PicNo, Vector)>,
    ghost in_order: { in_order table.items ≡ true },
}

// As many tables as a round has knowledges.
fn told_of_round(alloc: Global, n: u32) -> Result<Vec<Told>, AllocError> {
    let mut all = Vec::new(alloc);
    for _ in 0..count_of(n) {
        all.push(make_told(alloc, n)?)?;
    }
    Ok(all)
}

fn make_told(alloc: Global, n: u32) -> Result<Told, AllocError> {
    let table = table(alloc, 1, n)?;
    Ok(Told { table })
}

/// New knowledges learn one table each.
pub fn learn_table(alloc: Global, n: u32, times: u32) -> Result<u64, AllocError> {
    let all = told_of_round(alloc, n)?;
    learn_tables(alloc, &all, times)
}

fn learn_tables(alloc: Global, all: &[Told], times: u32) -> Result<u64, AllocError> {
    let mut worked = unworked(alloc, all.len())?;
    learn_each_table(alloc, all, &mut worked, times)
}

fn learn_each_table(
    alloc: Global,
    all: &[Told],
    worked: &mut [Knowledge],
    times: u32,
) -> Result<u64, AllocError> {
    let mut sum = 0u64;
    for _ in 0..times {
        for k in 0..all.len().min(worked.len()) {
            learn_anew(alloc, &all[k], &mut worked[k])?;
            sum = sum.wrapping_add(worked[k].fragments() as u64);
        }
    }
    Ok(sum)
}

fn learn_anew(alloc: Global, told: &Told, worked: &mut Knowledge) -> Result<(), AllocError> {
    *worked = Knowledge::new(alloc)?;
    learn(alloc, worked, &told.table)
}
