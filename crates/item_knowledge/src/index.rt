// The entries of an index, which leads from a picture to its fragment.
ghost use Rattle.std.specs.Prelude.{◌≡◌, ◌≤◌, ◌^◌, IfOk, OnErr};

use std::alloc::AllocError;

/// A picture and the number of its fragment. An index has one for each listed picture, and each union goes along all of them, so it
/// is small.
pub(crate) type IndexEntry = (u32, u32);

/// A count in 32 bits. Pictures are fewer than 2^32, and so are the fragments beside the star. A count of 2^32 or more is refused as
/// if there were no memory for it.
pub(crate) fn to_u32(count: usize) -> Result<u32, AllocError>
    ensures value { IfOk result (λ kept. kept ≡ count) }
    ensures refused { OnErr result (2 ^ 32 ≤ count) }
{
    if count > u32::MAX as usize {
        return Err(AllocError);
    }
    Ok(count as u32)
}

/// An estimate of how many pictures two indexes name together, for reserving memory. It expects that the shorter index names few
/// pictures of its own.
pub(crate) fn pictures_together(xs: &[IndexEntry], ys: &[IndexEntry]) -> usize {
    let more = xs.len().max(ys.len());
    let fewer = xs.len().min(ys.len());
    more.saturating_add(fewer.min(more / 8 + 16))
}
