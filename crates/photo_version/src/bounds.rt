// Vectors as slices of bounds, in the order of authors.
ghost use Rattle.std.specs.Prelude.{◌≡◌, true, ◌<◌, IfOk, IfSome};
ghost use Rattle.photo_version.specs.Version.{Version};
ghost use Rattle.photo_version.specs.Vector as spec;

use crate::{Author, Version};
use std::alloc::{AllocError, Global};

/// An author with the number of its last version in a vector.
pub type Bound = (Author, u32);

// Whether the bounds have the version, if the bound of its author is at that index; else `None`.
fn has_there(bounds: &[Bound], place: usize, version: Version) -> Option<bool>
    requires { spec.is_vector bounds.now ≡ true }
    ensures { IfSome result (λ is. is ≡ spec.denotes bounds.now version) }
{
    if place >= bounds.len() {
        return None;
    }
    let bound = bounds[place];
    if bound.0 != version.author() {
        return None;
    }
    Some(version.n() <= bound.1)
}

/// Whether the bounds have the version.
pub fn has(bounds: &[Bound], version: Version) -> bool
    requires { spec.is_vector bounds.now ≡ true }
    ensures { result ≡ spec.denotes bounds.now version }
{
    let author = version.author();
    // The author's bound is at its device's number if each earlier device has just one bound.
    if let Some(is) = has_there(bounds, author.value() as usize, version) {
        return is;
    }
    let place = bounds.partition_point(|b| b.0 < author);
    if place == bounds.len() {
        return false;
    }
    let bound = bounds[place];
    bound.0 == author && version.n() <= bound.1
}

/// Whether each version of the bounds is among those of the others.
pub fn is_within(bounds: &[Bound], others: &[Bound]) -> bool
    requires left { spec.is_vector bounds.now ≡ true }
    requires right { spec.is_vector others.now ≡ true }
    ensures { result ≡ spec.is_within bounds.now others.now }
{
    let mut i = 0;
    let mut j = 0;
    while i < bounds.len() {
        if j == others.len() {
            return false;
        }
        let x = bounds[i];
        let y = others[j];
        if y.0 < x.0 {
            j += 1;
            continue;
        }
        if x.0 < y.0 {
            return false;
        }
        if y.1 < x.1 {
            return false;
        }
        i += 1;
        j += 1;
    }
    true
}

/// The union: for each author the greater bound. Its only error is want of memory.
pub fn joined(alloc: Global, bounds: &[Bound], others: &[Bound]) -> Result<Vec<Bound>, AllocError>
    requires left { spec.is_vector bounds.now ≡ true }
    requires right { spec.is_vector others.now ≡ true }
    ensures { IfOk result (λ r. r.items ≡ spec.joined bounds.now others.now) }
{
    let mut all = Vec::with_capacity(alloc, bounds.len().max(others.len()))?;
    let mut i = 0;
    let mut j = 0;
    while i < bounds.len() && j < others.len() {
        let x = bounds[i];
        let y = others[j];
        if x.0 < y.0 {
            all.push(x)?;
            i += 1;
            continue;
        }
        if y.0 < x.0 {
            all.push(y)?;
            j += 1;
            continue;
        }
        all.push((x.0, x.1.max(y.1)))?;
        i += 1;
        j += 1;
    }
    all.extend_from_slice(&bounds[i..])?;
    all.extend_from_slice(&others[j..])?;
    Ok(all)
}
