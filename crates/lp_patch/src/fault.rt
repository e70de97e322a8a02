//! Faults of patches.
ghost use Rattle.lp_patch.specs.declared.fault.PatchFault.TheVariants.{NoMemory};

use lp_symbols::SymId;
use std::alloc::{AllocError, AllocFailed};
use thiserror::Error;

/// Why a patch, or a stack of patches, was not made.
#[derive(Clone, Copy, Debug, PartialEq, Eq, Error)]
pub enum PatchFault {
    /// P1: no symbol, or no patch.
    #[error("P1: no symbol, or no patch")]
    Empty,
    /// P2: there is no such symbol.
    #[error("P2: there is no symbol {}", .0.0)]
    Unknown(SymId),
    /// P3: the symbol is there twice.
    #[error("P3: symbol {} is there twice", .0.0)]
    Doubled(SymId),
    /// P4: more than 256 symbols.
    #[error("P4: more than 256 symbols")]
    TooMany,
    /// P5: an allocation failed.
    #[error("P5: out of memory")]
    NoMemory,
    /// P6: more than 16 patches.
    #[error("P6: more than 16 patches")]
    TooManyPatches,
}

impl From<AllocError> for PatchFault {
    ghost use Rattle.std.specs.Prelude.{◌≡◌};

    ghost from_gives = { λ _ e. e ≡ NoMemory };

    fn from(_e: AllocError) -> PatchFault {
        PatchFault::NoMemory
    }
}

impl<T: Drop> From<AllocFailed<T>> for PatchFault {
    ghost use Rattle.std.specs.Prelude.{◌≡◌};

    ghost from_gives = { λ _ e. e ≡ NoMemory };

    fn from(_e: AllocFailed<T>) -> PatchFault {
        PatchFault::NoMemory
    }
}
