//! The place in which C keeps an engine.
ghost use Rattle.std.specs.Prelude.{◌≡◌, Option, None, Some};
ghost use Rattle.std.specs.Option.{option_map};
ghost use Rattle.std.specs.Prelude.{Box};
ghost use Rattle.std.specs.Global.{Global};
ghost use Rattle.lp_c.specs.Held.{Held};
ghost use Rattle.lp_c.specs.declared.detached.Detached.{Detached};

use crate::detached::Detached;
use crate::session::Session;
use std::alloc::Global;
use std::marker::Model;
use std::{mem, ptr};

/// What C sees of an engine: nothing.
#[repr(C)]
pub struct Hidden {
    byte: u8,
}

/// A place for an engine: in C a struct with one pointer, which is null where no engine is there.
#[repr(C)]
pub struct Slot {
    at: *mut Hidden,
    pub ghost held: { Option Held },
}

impl Model for Slot {
    ghost use Rattle.lp_c.specs.Slot.{slot_owns};

    ghost also_owns = { λ s. slot_owns s.at s.held };
}

impl Slot {
    /// A place with nothing there. C writes it as a null pointer.
    pub(crate) fn empty() -> Slot
        ensures { result.held ≡ None }
    {
        Slot {
            at: ptr::null_mut(),
        }
    }

    fn of_detached(session: Detached<Session, Global>) -> Slot
        ensures { result.held ≡ Some session.value }
    {
        let Detached { at, alloc: _ } = session;
        Slot { at: at.cast() }
    }

    fn into_detached(self, alloc: Global) -> Option<Detached<Session, Global>>
        ensures { option_map (λ (l : Detached Held Global). l.value) result ≡ self.held }
    {
        let Slot { at } = self;
        if at.is_null() {
            None
        } else {
            Some(Detached {
                at: at.cast(),
                alloc,
            })
        }
    }

    fn of(session: Box<Session>) -> Slot
        ensures { result.held ≡ Some session.value }
    {
        Slot::of_detached(Detached::of(session))
    }

    /// What is there, and the place itself is gone.
    pub(crate) fn into_box(self, alloc: Global) -> Option<Box<Session>>
        ensures { option_map (λ (b : Box Held Global). b.value) result ≡ self.held }
    {
        match self.into_detached(alloc) {
            Some(session) => Some(session.into_box()),
            None => None,
        }
    }

    /// What is there, taken out.
    pub(crate) fn take(&mut self, alloc: Global) -> Option<Box<Session>>
        ensures taken { option_map (λ (b : Box Held Global). b.value) result ≡ self.old.held }
        ensures empty { self.new.held ≡ None }
    {
        mem::replace(self, Slot::empty()).into_box(alloc)
    }

    /// Puts this there, in place of what was there.
    pub(crate) fn put(&mut self, alloc: Global, session: Box<Session>)
        ensures { self.new.held ≡ Some session.value }
    {
        drop(mem::replace(self, Slot::of(session)).into_box(alloc));
    }
}
