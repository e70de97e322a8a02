//! From why an event took no number to why it wasn't taken from a seat.
ghost use Rattle.std.specs.Prelude.{◌≡◌};
ghost use Rattle.lp_log.specs.Turned.{turned_by};
ghost use Rattle.lp_log.specs.declared.seat.TurnedBy.TheVariants.{NoMemory};

use crate::seat::TurnedBy;
use lp_transition::Halt;
use std::alloc::{AllocError, AllocFailed};

impl From<Halt> for TurnedBy {
    ghost from_gives = { λ halt cause. cause ≡ turned_by halt };

    fn from(halt: Halt) -> TurnedBy {
        match halt {
            Halt::JournalFull => TurnedBy::JournalFull,
            Halt::NoMemory => TurnedBy::NoMemory,
        }
    }
}

impl From<AllocError> for TurnedBy {
    ghost from_gives = { λ _ cause. cause ≡ NoMemory };

    fn from(_error: AllocError) -> TurnedBy {
        TurnedBy::NoMemory
    }
}

impl<T: Drop> From<AllocFailed<T>> for TurnedBy {
    ghost from_gives = { λ _ cause. cause ≡ NoMemory };

    fn from(_error: AllocFailed<T>) -> TurnedBy {
        TurnedBy::NoMemory
    }
}
