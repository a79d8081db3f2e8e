//! Questions to a fleet: which of a device's pictures a filter selects, which devices hold a picture or know of it, and which
//! versions a pull would move. No question changes anything, and none has a precondition.

mod moving;
mod selecting;
mod standing;

pub use moving::{Moves, pull_moves};
pub use selecting::selected;
pub use standing::{holding, knowing, lacking};
