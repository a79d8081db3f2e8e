// Plans: batches, the command after which each command goes, and chains.
ghost use Rattle.std.specs.Prelude.{◌≡◌, ◌<◌, ◌≤◌, ◌-◌, length, IfSome, IfOk, Some, slice_get};
ghost use Rattle.fleet_model.specs.Contents.{Contents};
ghost use Rattle.fleet_model.specs.Limits.{max_commands};
ghost use Rattle.photo_batcher.specs.Batches.{IsFollowed, IsLongestChainTo};
ghost use Rattle.photo_batcher.specs.Plans.{batch_in, after_in, IsShaped, IsPlan};

use std::alloc::{AllocError, Global};
use std::marker::Model;

/// The batches of a script. Commands of one batch work on no common device; they may run in any order once the batches before
/// theirs have run.
///
/// For each command the plan has its batch, which is one less than the length of the longest chain of related commands that
/// ends with it, and the command just before it in such a chain. Two commands are related if they work on a common device.
#[derive(Debug, Drop)]
pub struct Plan {
    pub(crate) batches: Vec<u32>,
    // The command that each command goes after, or 0.
    pub(crate) afters: Vec<u32>,
    pub(crate) members: Vec<Vec<u32>>,
}

impl Model for Plan {
    ghost use Rattle.std.specs.Prelude.{map};
    ghost use Rattle.photo_batcher.specs.Plans.{Planned, planned, IsShaped};
    ghost use Rattle.photo_batcher.specs.Coding.{planned_code};

    ghost Value = { Planned };

    ghost coded = { planned_code };

    ghost view = { λ p. planned p.batches.items p.afters.items (map (λ v. v.items) p.members.items) };

    ghost invariant = { λ p. IsShaped (planned p.batches.items p.afters.items (map (λ v. v.items) p.members.items)) };
}

impl Plan {
    /// The number of commands, at most 100,000.
    pub fn commands(&self) -> u32
        ensures count { result ≡ length self.now.batches }
        ensures at_most { result ≤ max_commands }
    {
        self.batches.len() as u32
    }

    /// The number of batches.
    pub fn batches(&self) -> u32
        ensures count { result ≡ length self.now.members }
        ensures at_most { result ≤ max_commands }
    {
        self.members.len() as u32
    }

    /// The commands of a batch, in the order of their numbers; batches are counted from 0.
    pub fn members(&self, batch: u32) -> &[u32]
        requires { batch < length self.now.members }
        ensures { slice_get self.now.members batch ≡ Some result.now }
    {
        self.members[batch as usize].as_slice()
    }

    /// The batch of a command, which is given by its number from 1.
    pub fn batch_of(&self, number: u32) -> u32
        requires first { 0 < number }
        requires within { number ≤ length self.now.batches }
        ensures { result ≡ batch_in self.now number }
    {
        self.batches[number as usize - 1]
    }

    /// The command that a command goes after: the greatest earlier one that is related to it and is in the batch just below. A
    /// command of batch 0 goes after none.
    pub fn after(&self, number: u32) -> Option<u32>
        requires first { 0 < number }
        requires within { number ≤ length self.now.batches }
        ensures after { result ≡ after_in self.now number }
        ensures earlier { IfSome result (λ m. m < number) }
        ensures some { IfSome result (λ m. 0 < m) }
    {
        match self.afters[number as usize - 1] {
            0 => None,
            before => Some(before),
        }
    }

    /// The commands from one of batch 0 up to this one, each going after the one before it (`after`).
    ///
    /// In the script of this plan they are a chain, and no longer chain ends with this command. Its only error is want of
    /// memory.
    pub fn chain_of(&self, alloc: Global, number: u32) -> Result<Vec<u32>, AllocError>
        requires first { 0 < number }
        requires within { number ≤ length self.now.batches }
        ensures followed { IfOk result (λ chain. IsFollowed (after_in self.now) number chain.items) }
        ensures longest { IfOk result (λ chain. (script : Contents) → IsPlan script self.now → IsLongestChainTo script number chain.items) }
    {
        let mut chain = Vec::new(alloc);
        let mut last = number;
        chain.push(last)?;
        while let Some(before) = self.after(last) {
            chain.push(before)?;
            last = before;
        }
        chain.reverse();
        Ok(chain)
    }
}
