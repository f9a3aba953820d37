//! A session is taken out of its handle and put back.

ghost use Rattle.std.specs.Prelude.{◌≡◌, Some, None, option_map};

use crate::handle::Handle;
use marker_session::session::Session;
use std::alloc::Global;
use std::mem;

/// Takes the session out, if there is one.
pub(crate) fn take(alloc: Global, document: &mut Handle) -> Option<Box<Session>>
    ensures session { option_map (λ session. session.value) result ≡ document.old.session }
    ensures closed { document.new.session ≡ None }
{
    mem::replace(document, Handle::closed()).into_session(alloc)
}

/// Puts a session in. One that is there already is closed.
pub(crate) fn put(alloc: Global, document: &mut Handle, session: Box<Session>)
    ensures session { document.new.session ≡ Some session.value }
{
    drop(mem::replace(document, Handle::of(session)).into_session(alloc));
}
