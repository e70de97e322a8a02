//! Why a trace was not replayed.
ghost use Rattle.std.specs.Prelude.{◌≡◌};
ghost use Rattle.lp_replay.specs.declared.replays.fault.ReplayFault.TheVariants.{NoMemory};

use std::alloc::{AllocError, AllocFailed};
use thiserror::Error;

/// Why a trace was not replayed to its end.
#[derive(Clone, Copy, Debug, PartialEq, Eq, Error)]
pub enum ReplayFault {
    /// An allocation failed.
    #[error("out of memory")]
    NoMemory,
}

impl From<AllocError> for ReplayFault {
    ghost from_gives = { λ _ e. e ≡ NoMemory };

    fn from(_e: AllocError) -> ReplayFault {
        ReplayFault::NoMemory
    }
}

impl<T: Drop> From<AllocFailed<T>> for ReplayFault {
    ghost from_gives = { λ _ e. e ≡ NoMemory };

    fn from(_e: AllocFailed<T>) -> ReplayFault {
        ReplayFault::NoMemory
    }
}
