//! What C keeps of an open document: one pointer, which is null where none is open.

ghost use Rattle.std.specs.Prelude.{◌≡◌, Option, Some, None, option_map};
ghost use Rattle.marker_c.specs.Owned.{Content, content_coded, handle_owns};

use crate::loose::Loose;
use marker_session::session::Session;
use std::alloc::Global;
use std::marker::Model;

/// C declares it as a struct of one pointer, which it makes null and then leaves alone.
#[repr(C)]
pub struct Handle {
    at: *mut u8,
    ghost session: { Option Content } by { content_coded },
}

impl Model for Handle {
    ghost also_owns = { λ handle. handle_owns handle.at handle.session };
}

impl Handle {
    /// A handle without a session.
    pub(crate) fn closed() -> Handle
        ensures { result.session ≡ None }
    {
        Handle {
            at: std::ptr::null_mut(),
        }
    }

    /// A handle of this session.
    pub(crate) fn of(session: Box<Session>) -> Handle
        ensures { result.session ≡ Some session.value }
    {
        Handle::of_loose(Loose::of(session))
    }

    /// The session of the handle, if it has one.
    pub(crate) fn into_session(self, alloc: Global) -> Option<Box<Session>>
        ensures { option_map (λ session. session.value) result ≡ self.session }
    {
        match self.into_loose(alloc) {
            Some(loose) => Some(loose.into_box()),
            None => None,
        }
    }

    fn of_loose(loose: Loose<Session, Global>) -> Handle
        ensures { result.session ≡ Some loose.content }
    {
        let Loose { at, alloc: _ } = loose;
        Handle { at: at as *mut u8 }
    }

    fn into_loose(self, alloc: Global) -> Option<Loose<Session, Global>>
        ensures { option_map (λ loose. loose.content) result ≡ self.session }
    {
        let Handle { at } = self;
        if at.is_null() {
            return None;
        }
        Some(Loose {
            at: at as *mut Session,
            alloc,
        })
    }
}
