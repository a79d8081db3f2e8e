//! Shows people where each picture of a photo collection is once a script has run, what happened to a picture, and why a device
//! lacks it. Its invariant: **what is shown comes from public calls of the libraries alone**, of devices as they are before and
//! after a command.
//!
//! Tests: `tools/gate/check-view`.
#![tactic(auto)]

mod current;
mod happenings;
mod lines;
mod moves;
mod names;
mod padding;
mod playing;
mod reasons;
mod standing;
mod story;
mod table;
mod whereabouts;

pub use happenings::{
    Happened, Happening, Moment, Seen, devices_before, first_seen, happenings_of, is_change,
    superseder,
};
pub use moves::push_moved;
pub use names::{device_name, push_version};
pub use story::push_story;
pub use whereabouts::{Wanted, push_whereabouts, push_whereabouts_in};
