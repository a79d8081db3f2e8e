// Lists of versions, and of pictures' versions, as sets.
ghost use Rattle.std.specs.Prelude.{◌≡◌, ℕ, ◌||◌, ◌==◌, [], ◌∷◌, map, filter, OnOk, IfOk};
ghost use Rattle.photo_version.specs.Version as spec;
ghost use Rattle.photo_model.specs.Telling.{tell};
ghost use Rattle.test_list_device.specs.Sets.{listed, listed_of};
ghost use Rattle.test_list_device.specs.Entries.{entry_of, entries_of};

use crate::ListEntry;
use photo_record::PicNo;
use photo_version::Version;
use std::alloc::{AllocError, Global};

/// A version that a device knows of a picture.
#[derive(Clone, Copy, Debug)]
pub struct Known {
    pub picture: PicNo,
    pub version: Version,
}

/// Whether a version is in a list.
pub(crate) fn has(versions: &[Version], version: Version) -> bool
    ensures { result ≡ listed versions.now version }
{
    versions.iter().any(|v| *v == version)
}

/// Whether a version of a picture is in a list.
pub(crate) fn has_of(pairs: &[Known], picture: PicNo, version: Version) -> bool
    ensures { result ≡ listed_of pairs.now picture version }
{
    pairs
        .iter()
        .any(|k| k.picture == picture && k.version == version)
}

/// The versions of a picture in a list of pairs.
pub(crate) fn versions_of(
    alloc: Global,
    pairs: &[Known],
    picture: PicNo,
) -> Result<Vec<Version>, AllocError>
    ensures { IfOk result (λ versions. versions.items ≡ map (λ k. k.version) (filter (λ k. k.picture == picture) pairs.now)) }
{
    pairs
        .iter()
        .filter(|k| k.picture == picture)
        .map(|k| k.version)
        .collect(alloc)
}

/// Adds to a list what an entry tells of its picture: the entry's history and its version.
fn tell_one(pairs: &mut Vec<Known>, entry: &ListEntry) -> Result<(), AllocError>
    ensures { OnOk result ((picture : ℕ) (v : spec.Version) → listed_of pairs.new.items picture v
        ≡ (listed_of pairs.old.items picture v || tell (entry_of entry.now ∷ []) picture v)) }
{
    let picture = entry.picture;
    for version in &entry.history {
        pairs.push(Known {
            picture,
            version: *version,
        })?;
    }
    pairs.push(Known {
        picture,
        version: entry.version,
    })?;
    Ok(())
}

/// Adds to a list everything that entries tell.
pub(crate) fn tell_all(pairs: &mut Vec<Known>, entries: &[ListEntry]) -> Result<(), AllocError>
    ensures { OnOk result ((picture : ℕ) (v : spec.Version) → listed_of pairs.new.items picture v
        ≡ (listed_of pairs.old.items picture v || tell (entries_of entries.now) picture v)) }
{
    for entry in entries {
        tell_one(pairs, entry)?;
    }
    Ok(())
}
