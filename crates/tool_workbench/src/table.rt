//! Tables of pictures, and a knowledge made from one.
ghost use Rattle.std.specs.Prelude.{◌≡◌, ◌<◌, true, IfOk, OnOk};
ghost use Rattle.photo_version.specs.Author.{Author, author};
ghost use Rattle.photo_version.specs.Version as versions;
ghost use Rattle.item_knowledge.specs.Kept.{star_bound};
ghost use Rattle.item_knowledge.specs.Tables.{in_order};

use item_knowledge::{Knowledge, Told};
use photo_record::PicNo;
use photo_version::{Author, Vector, Version};
use std::alloc::{AllocError, Global};

/// A device's version number `n`.
pub fn version(device: u16, n: u32) -> Version
    requires { 0 < n }
    ensures { result ≡ versions.version (author device) n }
{
    Version::new(Author::new(device), n).unwrap()
}

/// A table of the pictures 1 to `n`, each with as many versions of a device as its number.
pub fn table(alloc: Global, device: u16, n: u32) -> Result<Vec<(PicNo, Vector)>, AllocError>
    ensures { IfOk result (λ table. in_order table.items ≡ true) }
{
    let mut table = Vec::new(alloc);
    for i in 0..n {
        let Some(picture) = PicNo::new(i + 1) else {
            return Ok(table);
        };
        let vector = Vector::new(alloc).with(version(device, i + 1))?;
        table.push((picture, vector))?;
    }
    Ok(table)
}

/// A knowledge of exactly what that table tells.
pub fn of_table(alloc: Global, device: u16, n: u32) -> Result<Knowledge, AllocError>
    ensures { IfOk result (λ knowledge. (a : Author) → star_bound knowledge.known a ≡ 0) }
{
    let table = table(alloc, device, n)?;
    told(alloc, &table)
}

fn told(alloc: Global, table: &[(PicNo, Vector)]) -> Result<Knowledge, AllocError>
    requires { in_order table.now ≡ true }
    ensures { IfOk result (λ knowledge. (a : Author) → star_bound knowledge.known a ≡ 0) }
{
    let mut knowledge = Knowledge::new(alloc)?;
    match learn(alloc, &mut knowledge, table) {
        Ok(()) => Ok(knowledge),
        Err(error) => Err(error),
    }
}

/// The knowledge learns what a table tells.
pub fn learn(
    alloc: Global,
    knowledge: &mut Knowledge,
    table: &[(PicNo, Vector)],
) -> Result<(), AllocError>
    requires { in_order table.now ≡ true }
    ensures { OnOk result ((a : Author) → star_bound knowledge.new.known a ≡ star_bound knowledge.old.known a) }
{
    let told = Told::of_table(alloc, table)?;
    knowledge.stage_told(&told)?;
    knowledge.commit();
    Ok(())
}

/// A knowledge of exactly the first version of device 1, of every picture.
pub fn star(alloc: Global) -> Result<Knowledge, AllocError> {
    let mut knowledge = Knowledge::new(alloc)?;
    match knowledge.learn_own(version(1, 1)) {
        Ok(()) => Ok(knowledge),
        Err(error) => Err(error),
    }
}
