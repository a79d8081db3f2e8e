//! The handle of a session, as C has it.
ghost use Rattle.std.specs.Prelude.{◌≡◌, Option, Some, None};
ghost use Rattle.std.specs.Option.{option_map};
ghost use Rattle.photofleet_c.specs.declared.session.Session.{Session};

use crate::loose::Loose;
use crate::session::Session;
use std::alloc::Global;
use std::marker::Model;
use std::ptr::null_mut;

/// C's handle of a session: a pointer to it, if the session is open. C makes one of zeros, and reads none of its fields.
#[repr(C)]
#[derive(Drop)]
pub struct Handle {
    at: *mut u8,
    is_open: bool,
    ghost kept: { Option Session },
}

impl Model for Handle {
    ghost use Rattle.photofleet_c.specs.contracts.session.Session.{the_row};
    ghost use Rattle.photofleet_c.specs.Kept.{may_own};

    ghost also_owns = { λ h. may_own the_row h.at h.is_open h.kept };
}

impl Handle {
    /// Makes a handle without a session.
    pub fn closed() -> Handle
        ensures { result.kept ≡ None }
    {
        Handle {
            at: null_mut(),
            is_open: false,
        }
    }

    /// Makes a handle that owns a session.
    pub fn of(session: Loose<Session, Global>) -> Handle
        ensures { result.kept ≡ Some session.value }
    {
        let Loose { at, alloc: _ } = session;
        Handle {
            at: at.cast::<u8>(),
            is_open: true,
        }
    }

    /// Gives the session that it owns, if it owns one.
    pub fn into_loose(self, alloc: Global) -> Option<Loose<Session, Global>>
        ensures { option_map (λ session. session.value) result ≡ self.kept }
    {
        let Handle { at, is_open } = self;
        if !is_open {
            return None;
        }
        Some(Loose {
            at: at.cast::<Session>(),
            alloc,
        })
    }
}
