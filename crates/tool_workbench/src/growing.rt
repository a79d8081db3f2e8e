//! A knowledge that learns one author's versions, one after another.
ghost use Rattle.std.specs.Prelude.{◌≡◌};
ghost use Rattle.photo_version.specs.Author.{author};
ghost use Rattle.item_knowledge.specs.Kept.{star_bound};

use crate::table::{of_table, version};
use item_knowledge::Knowledge;
use std::alloc::{AllocError, Global};

/// The author of the versions that are learned later.
pub const LATER: u16 = 7;

/// A knowledge, and how many versions of the later author it knows, of every picture.
#[derive(Drop)]
pub struct Growing {
    pub knowledge: Knowledge,
    learned: u32,
    ghost learned_of_all: { star_bound knowledge.known (author 7) ≡ learned },
}

impl Growing {
    pub fn new(alloc: Global, n: u32) -> Result<Growing, AllocError> {
        let knowledge = of_table(alloc, 1, n)?;
        Ok(Growing {
            knowledge,
            learned: 0,
        })
    }

    /// Learns the next version of the later author.
    pub fn learn_own(&mut self) -> Result<(), AllocError> {
        if self.learned < u32::MAX {
            self.knowledge.learn_own(version(LATER, self.learned + 1))?;
            self.learned += 1;
        }
        Ok(())
    }
}
