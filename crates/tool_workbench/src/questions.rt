//! Asks whether a knowledge has a version of a picture.
use crate::table::{of_table, star, version};
use item_knowledge::Knowledge;
use photo_record::PicNo;
use std::alloc::{AllocError, Global};

/// Asks `times` questions of a knowledge of `n` pictures, or of one that has a version of every picture, and counts the answers
/// yes.
pub fn ask(alloc: Global, kind: &str, n: u32, times: u32) -> Result<u64, AllocError> {
    let knowledge = match kind {
        "knows_of_star" => star(alloc),
        _ => of_table(alloc, 1, n),
    };
    Ok(known(&knowledge?, kind, n, times))
}

fn known(knowledge: &Knowledge, kind: &str, n: u32, times: u32) -> u64 {
    match kind {
        "knows" => known_at_random(knowledge, n, times),
        _ => known_of_star(knowledge, n, times),
    }
}

// Asks of pictures in random order whether their last version is known, or the one after it.
fn known_at_random(knowledge: &Knowledge, n: u32, times: u32) -> u64 {
    let mut sum = 0u64;
    let mut seed = 1u32;
    for i in 0..times {
        seed = seed.wrapping_mul(1_664_525).wrapping_add(1_013_904_223);
        let number = (seed >> 8) % n.max(1) + 1;
        if let Some(picture) = PicNo::new(number) {
            if knowledge.knows(picture, version(1, number + i % 2)) {
                sum = sum.wrapping_add(1);
            }
        }
    }
    sum
}

// Asks of pictures in rising order, again and again, whether the first version of every picture is known, or the one after it.
fn known_of_star(knowledge: &Knowledge, n: u32, times: u32) -> u64 {
    let mut sum = 0u64;
    for i in 0..times {
        if let Some(picture) = PicNo::new(i % n.max(1) + 1) {
            if knowledge.knows(picture, version(1, 1 + i % 2)) {
                sum = sum.wrapping_add(1);
            }
        }
    }
    sum
}
