//! Tables of pictures, and a knowledge of one.
ghost use Rattle.std.specs.Prelude.{◌≡◌, ◌<◌, true, IfOk, OnOk};
ghost use Rattle.photo_version.specs.Author.{Author, author};
ghost use Rattle.photo_version.specs.Version as versions;
ghost use Rattle.item_knowledge.specs.Kept.{star_bound};
ghost use Rattle.item_knowledge.specs.Tables.{in_order};

use item_knowledge::{Knowledge, Told};
use photo_record::PicNo;
use photo_version::{Author, Vector, Version};
use std::alloc::{AllocError, Global};

/// The `n`th version of a device.
pub fn version(device: u16, n: u32) -> Version
    requires { 0 < n }
    ensures { result ≡ versions.version (author device) n }
{
    Version::new(Author::new(device), n).unwrap()
}

/// Pictures 1 to `n`, of each of which as many versions of a device are told as its number.
pub fn table(alloc: Global, device: u16, n: u32) -> Result<Vec<(PicNo, Vector)>, AllocError>
    ensures { IfOk result (λ table. in_order table.items ≡ true) }
{
    let mut table = Vec::new(alloc);
    for i in 0..n {
        let Some(picture) = PicNo::new(i + 1) else {
            return Ok(table);
        };
        let vector = Vector::new(alloc).with(version(device, i + 1))?;
        table.push((picture, vector))?;
    }
    Ok(table)
}

/// A knowledge of such a table alone.
pub fn of_table(alloc: Global, table: &[(PicNo, Vector)]) -> Result<Knowledge, AllocError>
    requires { in_order table.now ≡ true }
    ensures { IfOk result (λ knowledge. (a : Author) → star_bound knowledge.known a ≡ 0) }
{
    let told = Told::of_table(alloc, table)?;
    let mut knowledge = Knowledge::new(alloc)?;
    match learn(&mut knowledge, &told) {
        Ok(()) => Ok(knowledge),
        Err(error) => Err(error),
    }
}

fn learn(knowledge: &mut Knowledge, told: &Told) -> Result<(), AllocError>
    ensures { OnOk result ((a : Author) → star_bound knowledge.new.known a ≡ star_bound knowledge.old.known a) }
{
    knowledge.stage_told(told)?;
    knowledge.commit();
    Ok(())
}
