//! A ledger that counts commands exactly, over any number of threads.
//!
//! A lock protects the book: the number of commands of each kind that all shares have counted, and the versions that their
//! pulls moved. Each counting thread has a share. Contracts see three values of a share: its parts, of 1,000, the commands that
//! it may still count, and what it has counted. Contracts know two sums of the book: whenever the lock is free, the book is the
//! sum of what all shares have done, and for each kind, what all shares have left and done is the tally of [`open`]. So no
//! command is counted twice or left out unnoticed: a share that has all parts again has exactly what the book has.
//!
//! # How it is called
//!
//! Shares and ledger have a type parameter `B: Books`, which names the ledger and its tally in proofs and doesn't exist at run
//! time. Functions that count are generic in `B`; no other function needs it:
//!
//! - The function that opens, counts and closes takes the [`Blanks`] and the tally. Its signature has `B` in no type, since its
//!   caller picks `B`. It passes on the conditions of [`open`]:
//!
//!   ```text
//!   fn count_all<B: Books, R: Wait>(rt: &R, alloc: Global, blanks: Blanks, tally: Tally) -> Result<Totals, AllocError>
//!       requires names { blanks ≡ B.names }
//!       requires tally { tally ≡ B.tally }
//!       requires countable { IsCountable tally }
//!   ```
//!
//! - Its caller calls it at `Brand`, as `count_all::<Brand, R>(rt, alloc, Blanks::new(), tally)`, and states the names and the
//!   tally in its `Invariants.antt`:
//!
//!   ```text
//!   abbrev pub ghosts-count_all-B-Names : goal.ghosts-count_all-B-Names
//!   ghosts-count_all-B-Names g a = record { names = a.blanks }
//!
//!   abbrev pub ghosts-count_all-B-Books : goal.ghosts-count_all-B-Books
//!   ghosts-count_all-B-Books g a = record { tally = a.tally }
//!   ```
//!
//! - A share moves to a thread by value and comes back; the `Arc` of the ledger is shared. A function that starts threads
//!   bounds `B: Books + Send + Sync + 'static`. A thread's promise (`spawn_with`) states its share when it comes back:
//!   `share ≡ stake 1 none_left done`, where `done` is what it had to count.
//! - [`Share::join`] requires that both shares together were given at most 100,000 commands of each kind. A caller that splits
//!   off a share and joins it again gets this from [`Share::left`], called before the split, whose contract says it of every
//!   share.
//!
//! Tests: `test_batches`.
#![tactic(auto)]

mod blanks;
mod kind;
mod ledger;
mod names;
mod page;
mod share;

pub use blanks::Blanks;
pub use kind::Kind;
pub use ledger::{Ledger, open};
pub use names::{Books, Names};
pub use share::Share;
