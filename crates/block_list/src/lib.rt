//! A list in blocks, so that an insertion or a removal moves few elements. Its invariant: **the blocks joined are the
//! list**, and no block is empty.
//!
//! Tests: `test_values`.
#![tactic(auto)]

mod block_list;
mod blocks;
mod elements;
mod kept;
mod placed;
mod position;
mod reservation;
mod search;
mod spare;
mod taken;

pub use block_list::BlockList;
pub use elements::Iter;
pub use position::Position;
pub use reservation::{GrowingList, Reservation};
