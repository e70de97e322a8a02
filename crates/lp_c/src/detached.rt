//! A box taken apart: what C can hold of it is the pointer, and the allocator comes back with the next call.
ghost use Rattle.std.specs.Prelude.{◌≡◌};
ghost use Rattle.std.specs.Box.Ownership.{box_owns};

use std::alloc::Allocator;
use std::marker::Model;

/// The pointer of a box and its allocator, apart. It owns what the box owned.
pub(crate) struct Detached<T, A: Allocator> {
    pub(crate) at: *mut T,
    pub(crate) alloc: A,
    pub(crate) ghost value: { T },
}

impl<T, A: Allocator> Model for Detached<T, A> {
    ghost also_owns = { λ d. box_owns (A.dealloc_token d.alloc) T.row d.at d.value };
}

impl<T: Drop, A: Allocator> Detached<T, A> {
    /// A box, taken apart.
    pub(crate) fn of(whole: Box<T, A>) -> Detached<T, A>
        ensures { result.value ≡ whole.value }
    {
        let (at, alloc) = Box::into_raw_with_allocator(whole);
        Detached { at, alloc }
    }

    /// The box, whole again.
    pub(crate) fn into_box(self) -> Box<T, A>
        ensures { result.value ≡ self.value }
    {
        let Detached { at, alloc } = self;
        unsafe { Box::from_raw(alloc, at) }
    }
}
