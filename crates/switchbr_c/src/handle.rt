//! What C keeps of a session: a pointer to its box, and whether there is one.
ghost use Rattle.std.specs.Coded.{coded_option};
ghost use Rattle.std.specs.Prelude.{Option};
ghost use Rattle.whole_texts.specs.contracts.session.Session.{the_row};
ghost use Rattle.whole_texts.specs.declared.session.Session.{Session};

use crate::loose::Loose;
use std::alloc::Global;
use std::marker::Model;
use std::mem::replace;
use whole_texts::Session;

/// A handle of zero bytes has no session.
#[repr(C)]
pub struct Handle {
    at: *mut u8,
    is_open: bool,
    ghost value: { Option Session } by { coded_option the_row.coded },
}

impl Model for Handle {
    ghost use Rattle.switchbr_c.specs.Handles.{holds};

    ghost also_owns = { λ h. holds h.at h.is_open h.value };
}

impl Handle {
    ghost use Rattle.std.specs.Prelude.{◌≡◌, None, Some};
    ghost use Rattle.std.specs.Option.{MatchOption};
    ghost use Rattle.whole_texts.specs.Sessions.{IsSound};

    pub(crate) fn none() -> Handle
        ensures { result.value ≡ None }
    {
        let at = std::ptr::null_mut();
        Handle { at, is_open: false }
    }

    fn of(kept: Loose<Session, Global>) -> Handle
        requires { IsSound kept.value }
        ensures { result.value ≡ Some kept.value }
    {
        let Loose { at, alloc: _ } = kept;
        Handle {
            at: at as *mut u8,
            is_open: true,
        }
    }

    fn into_loose(self, alloc: Global) -> Option<Loose<Session, Global>>
        ensures { MatchOption result (self.value ≡ None) (λ l. (self.value ≡ Some l.value) × IsSound l.value) }
    {
        let Handle { at, is_open } = self;
        if is_open {
            let at = at as *mut Session;
            Some(Loose { at, alloc })
        } else {
            None
        }
    }

    /// Takes the session out of the handle.
    pub(crate) fn take(&mut self, alloc: Global) -> Option<Box<Session>>
        ensures none { self.new.value ≡ None }
        ensures taken { MatchOption result (self.old.value ≡ None) (λ b. (self.old.value ≡ Some b.value) × IsSound b.value) }
    {
        match replace(self, Handle::none()).into_loose(alloc) {
            Some(kept) => Some(kept.into_box()),
            None => None,
        }
    }

    /// Lets go of the session.
    pub(crate) fn end(self, alloc: Global) {
        if let Some(kept) = self.into_loose(alloc) {
            let _ = kept.into_box();
        }
    }

    /// Puts a session into the handle. One that was there ends.
    pub(crate) fn put(&mut self, alloc: Global, session: Box<Session>)
        requires { IsSound session.value }
        ensures { self.new.value ≡ Some session.value }
    {
        replace(self, Handle::of(Loose::of(session))).end(alloc);
    }
}
