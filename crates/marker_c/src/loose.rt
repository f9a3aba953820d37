//! A box as its pointer.

ghost use Rattle.std.specs.Prelude.{◌≡◌};
ghost use Rattle.std.specs.Box.Ownership.{box_owns};

use std::alloc::Allocator;
use std::marker::Model;

/// The pointer of a box, with the right to free what it points to.
pub(crate) struct Loose<T, A: Allocator> {
    pub(crate) at: *mut T,
    pub(crate) alloc: A,
    pub(crate) ghost content: { T },
}

impl<T, A: Allocator> Model for Loose<T, A> {
    ghost also_owns = { λ loose. box_owns (A.dealloc_token loose.alloc) T.row loose.at loose.content };
}

impl<T, A: Allocator> Loose<T, A> {
    /// The pointer of a box.
    pub(crate) fn of(content: Box<T, A>) -> Loose<T, A>
    where
        T: Drop,
        ensures { result.content ≡ content.value }
    {
        let (at, alloc) = Box::into_raw_with_allocator(content);
        Loose { at, alloc }
    }

    /// The box of the pointer.
    pub(crate) fn into_box(self) -> Box<T, A>
        ensures { result.value ≡ self.content }
    {
        let Loose { at, alloc } = self;
        unsafe { Box::from_raw(alloc, at) }
    }
}
