//! Which versions of a picture are current.
use photo_device::Held;
use photo_version::Version;
use std::alloc::{AllocError, Global};

/// Given the versions of one picture, oldest first, the current ones, oldest first: no other one has them in its history.
///
/// A younger current version supersedes each superseded one; so each is compared with the younger current ones alone.
pub fn current_of<'a>(alloc: Global, versions: &[&'a Held]) -> Result<Vec<&'a Held>, AllocError> {
    let mut current: Vec<&'a Held> = Vec::new(alloc);
    for held in versions.iter().rev() {
        if !is_superseded(&current, held.version) {
            current.push(*held)?;
        }
    }
    current.as_mut_slice().reverse();
    Ok(current)
}

fn is_superseded(current: &[&Held], version: Version) -> bool {
    for later in current {
        if later.made_with.has(version) {
            return true;
        }
    }
    false
}

/// Whether a version is one of the current ones.
pub fn is_current(current: &[&Held], version: Version) -> bool {
    for held in current {
        if held.version == version {
            return true;
        }
    }
    false
}
