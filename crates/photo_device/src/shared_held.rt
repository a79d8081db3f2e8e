// Held versions that several sets share.
ghost use Rattle.std.specs.Prelude.{◌≡◌, IfOk};

use crate::Held;
use photo_record::{PicNo, Record};
use photo_version::{Vector, Version};
use std::alloc::{AllocError, Global};
use std::marker::Model;
use std::sync::Arc;

/// A held version that its copies share, in any set of any device. Contracts see the held version.
///
/// Picture and version stand beside the pointer, since most callers that go along held versions need only these two.
#[derive(Debug, Drop)]
pub struct SharedHeld {
    picture: PicNo,
    version: Version,
    held: Arc<Held>,
}

impl Model for SharedHeld {
    ghost use Rattle.std.specs.Prelude.{◌≡◌};
    ghost use Rattle.photo_device.specs.declared.held.Held as spec;
    ghost use Rattle.photo_device.specs.Coding.{held_code};

    ghost Value = { spec.Held };

    ghost coded = { held_code };

    ghost view = { λ s. s.held.value };

    ghost invariant = { λ s. (s.picture ≡ s.held.value.picture) × (s.version ≡ s.held.value.version) };
}

impl SharedHeld {
    ghost use Rattle.std.specs.Prelude.{◌≡◌, IfOk};
    ghost use Rattle.photo_device.specs.Held.{stands_before, is_of};

    /// Makes a held version that can be shared. The only error is refused memory.
    pub fn new(alloc: Global, held: Held) -> Result<SharedHeld, AllocError>
        ensures { IfOk result (λ shared. shared ≡ held) }
    {
        Ok(SharedHeld {
            picture: held.picture,
            version: held.version,
            held: Arc::new(alloc, held)?,
        })
    }

    /// The held version.
    pub fn as_held(&self) -> &Held
        ensures { result.now ≡ self.now }
    {
        &self.held
    }

    /// The picture of the version.
    pub fn picture(&self) -> PicNo
        ensures { result ≡ self.now.picture }
    {
        self.picture
    }

    /// The version.
    pub fn version(&self) -> Version
        ensures { result ≡ self.now.version }
    {
        self.version
    }

    /// The version's history.
    pub fn made_with(&self) -> &Vector
        ensures { result.now ≡ self.now.made_with }
    {
        &self.held.made_with
    }

    /// The record that the version gives the picture.
    pub fn content(&self) -> &Record
        ensures { result.now ≡ self.now.content }
    {
        &self.held.content
    }

    /// Another owner of the same held version. Takes no memory; the only error is a count of owners that can't grow.
    pub fn try_clone(&self) -> Result<SharedHeld, AllocError>
        ensures { IfOk result (λ copy. copy ≡ self.now) }
    {
        Ok(SharedHeld {
            picture: self.picture,
            version: self.version,
            held: Arc::try_clone(&self.held)?,
        })
    }

    /// Whether this held version stands before that version of that picture, in the order of a set.
    pub fn is_before(&self, picture: PicNo, version: Version) -> bool
        ensures { result ≡ stands_before self.now picture version }
    {
        self.picture < picture || (self.picture == picture && self.version < version)
    }

    /// Whether this held version is that version of that picture.
    pub fn is_of(&self, picture: PicNo, version: Version) -> bool
        ensures { result ≡ is_of self.now picture version }
    {
        self.picture == picture && self.version == version
    }
}
