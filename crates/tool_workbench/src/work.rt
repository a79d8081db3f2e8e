//! The kinds of work on knowledges, by the lines that ask for them.
ghost use Rattle.std.specs.Prelude.{◌<◌};

use crate::growing::{Growing, LATER};
use crate::questions::ask;
use crate::rounds::{count_of, learn_table, of_round, work};
use crate::table::{of_table, version};
use item_knowledge::Knowledge;
use photo_record::PicNo;
use photo_version::Vector;
use std::alloc::{AllocError, Global};

/// Does the work of a line, and gives a number that depends on the result.
pub fn of_line(alloc: Global, line: &str) -> Result<u64, AllocError> {
    match words_of(line) {
        Some((kind, n, times)) => of_kind(alloc, kind, n, times),
        None => Ok(0),
    }
}

// The kind of work, the number of pictures and how often.
fn words_of(line: &str) -> Option<(&str, u32, u32)> {
    let (kind, numbers) = line.split_once(' ')?;
    let (n, times) = numbers.split_once(' ')?;
    Some((kind, n.parse::<u32>().ok()?, times.parse::<u32>().ok()?))
}

fn of_kind(alloc: Global, kind: &str, n: u32, times: u32) -> Result<u64, AllocError> {
    match kind {
        "learn_table" => learn_table(alloc, n, times),
        "learn_own" => learn_own(alloc, n, times),
        "learn" | "learn_few" => learn_of_one(alloc, kind, n, times),
        "learn_risen" => learn_risen(alloc, n, times),
        "knows" | "knows_of_star" => ask(alloc, kind, n, times),
        _ => work(alloc, kind, n, times),
    }
}

// Each of several knowledges learns the next version of an author, in each round.
fn learn_own(alloc: Global, n: u32, times: u32) -> Result<u64, AllocError> {
    let mut all = Vec::new(alloc);
    for _ in 0..count_of(n) {
        all.push(Growing::new(alloc, n)?)?;
    }
    learn_own_each(&mut all, times)
}

fn learn_own_each(all: &mut [Growing], times: u32) -> Result<u64, AllocError> {
    for _ in 0..times {
        for k in 0..all.len() {
            all[k].learn_own()?;
        }
    }
    Ok(all.len() as u64)
}

// Each of several knowledges learns a vector of a picture.
fn learn_each(all: &mut [Knowledge], picture: PicNo, vector: &Vector) -> Result<(), AllocError> {
    for one in all {
        one.learn(picture, vector)?;
    }
    Ok(())
}

// Each of several knowledges learns all that another one knows.
fn learn_all_of(all: &mut [Knowledge], other: &Knowledge) -> Result<(), AllocError> {
    for one in all {
        one.learn_all(other)?;
    }
    Ok(())
}

// In each round several knowledges learn one more version of one picture: by its vector, or from another knowledge that learned
// it.
fn learn_of_one(alloc: Global, kind: &str, n: u32, times: u32) -> Result<u64, AllocError> {
    let Some(picture) = PicNo::new(n / 2 + 1) else {
        return Ok(0);
    };
    let mut all = of_round(alloc, 1, n)?;
    match kind {
        "learn" => learn_rounds(alloc, &mut all, picture, times),
        _ => learn_few(alloc, &mut all, picture, n, times),
    }
}

// The vector of the later author's version after its first `i`.
fn next(alloc: Global, i: u32) -> Result<Vector, AllocError>
    requires { i < 4_294_967_295 }
{
    Vector::new(alloc).with(version(LATER, i + 1))
}

fn learn_rounds(
    alloc: Global,
    all: &mut [Knowledge],
    picture: PicNo,
    times: u32,
) -> Result<u64, AllocError> {
    for i in 0..times {
        learn_each(all, picture, &next(alloc, i)?)?;
    }
    Ok(all.len() as u64)
}

fn learn_few(
    alloc: Global,
    all: &mut [Knowledge],
    picture: PicNo,
    n: u32,
    times: u32,
) -> Result<u64, AllocError> {
    let mut other = of_table(alloc, 1, n)?;
    learn_few_of(alloc, all, &mut other, picture, times)
}

fn learn_few_of(
    alloc: Global,
    all: &mut [Knowledge],
    other: &mut Knowledge,
    picture: PicNo,
    times: u32,
) -> Result<u64, AllocError> {
    for i in 0..times {
        other.learn(picture, &next(alloc, i)?)?;
        learn_all_of(all, other)?;
    }
    Ok(all.len() as u64)
}

// In each round another knowledge learns the next version of an author of every picture, and each of several knowledges learns
// all that it knows.
fn learn_risen(alloc: Global, n: u32, times: u32) -> Result<u64, AllocError> {
    let mut all = of_round(alloc, 1, n)?;
    learn_risen_of(alloc, &mut all, n, times)
}

fn learn_risen_of(
    alloc: Global,
    all: &mut [Knowledge],
    n: u32,
    times: u32,
) -> Result<u64, AllocError> {
    let mut other = Growing::new(alloc, n)?;
    rise_each(all, &mut other, times)
}

fn rise_each(all: &mut [Knowledge], other: &mut Growing, times: u32) -> Result<u64, AllocError> {
    for _ in 0..times {
        other.learn_own()?;
        learn_all_of(all, &other.knowledge)?;
    }
    Ok(all.len() as u64)
}
