//! The calls of `item_knowledge`, on pictures of which each has a fragment of its own.
ghost use Rattle.std.specs.Prelude.{◌≡◌, true};
ghost use Rattle.photo_version.specs.Author.{Author};
ghost use Rattle.item_knowledge.specs.Kept.{star_bound};
ghost use Rattle.item_knowledge.specs.Tables.{in_order};

use crate::table::{of_table, table, version};
use crate::told::tell;
use item_knowledge::{Knowledge, Told};
use photo_record::PicNo;
use photo_version::Vector;

/// Makes the calls on a knowledge of `count` pictures.
pub fn make(rt: HostRuntime, count: u32) {
    let done = Knowledge::new(rt.alloc()).is_ok();
    tell(rt, "item_knowledge::Knowledge::new", done);
    let made = table(rt.alloc(), 1, count);
    if let Ok(table) = &made {
        on_table(rt, table, count);
    }
    drop(made);
}

fn on_table(rt: HostRuntime, one: &[(PicNo, Vector)], count: u32)
    requires { in_order one.now ≡ true }
{
    let made = table(rt.alloc(), 2, count);
    if let Ok(other) = &made {
        on_tables(rt, one, other);
    }
    drop(made);
}

fn on_tables(rt: HostRuntime, one: &[(PicNo, Vector)], other: &[(PicNo, Vector)])
    requires one { in_order one.now ≡ true }
    requires other { in_order other.now ≡ true }
{
    let mut made = of_table(rt.alloc(), one);
    if let Ok(knowledge) = &mut made {
        stage_told(rt, knowledge, other);
        learn_others(rt, knowledge, other);
    }
    drop(made);
}

// Stages as many fragments more, as a table tells them, which are all others.
fn stage_told(rt: HostRuntime, knowledge: &mut Knowledge, table: &[(PicNo, Vector)])
    requires { in_order table.now ≡ true }
{
    let made = Told::of_table(rt.alloc(), table);
    tell(rt, "item_knowledge::Told::of_table", made.is_ok());
    if let Ok(told) = &made {
        let done = knowledge.stage_told(told).is_ok();
        tell(rt, "item_knowledge::Knowledge::stage_told", done);
    }
    drop(made);
}

// Learns them from another knowledge, which learns versions of two more devices then.
fn learn_others(rt: HostRuntime, knowledge: &mut Knowledge, table: &[(PicNo, Vector)])
    requires { in_order table.now ≡ true }
{
    let mut made = of_table(rt.alloc(), table);
    if let Ok(other) = &mut made {
        learn_all(rt, knowledge, other);
        learn_own(rt, other);
    }
    drop(made);
}

fn learn_all(rt: HostRuntime, knowledge: &mut Knowledge, other: &Knowledge) {
    let done = knowledge.stage(other).is_ok();
    tell(rt, "item_knowledge::Knowledge::stage", done);
    let done = knowledge.learn_all(other).is_ok();
    tell(rt, "item_knowledge::Knowledge::learn_all", done);
    let done = knowledge.try_clone().is_ok();
    tell(rt, "item_knowledge::Knowledge::try_clone", done);
}

fn learn_own(rt: HostRuntime, knowledge: &mut Knowledge)
    requires { (a : Author) → star_bound knowledge.old.known a ≡ 0 }
{
    let done = knowledge.learn_own(version(3, 1)).is_ok();
    tell(rt, "item_knowledge::Knowledge::learn_own", done);
    if let Some(picture) = PicNo::new(1) {
        learn(rt, knowledge, picture);
    }
}

fn learn(rt: HostRuntime, knowledge: &mut Knowledge, picture: PicNo) {
    let made = Vector::new(rt.alloc()).with(version(4, 1));
    if let Ok(vector) = &made {
        let done = knowledge.learn(picture, vector).is_ok();
        tell(rt, "item_knowledge::Knowledge::learn", done);
    }
    drop(made);
    let done = knowledge.of(picture).is_ok();
    tell(rt, "item_knowledge::Knowledge::of", done);
}
