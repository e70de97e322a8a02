//! Why no desk was launched.
ghost use Rattle.std.specs.Prelude.{◌≡◌};
ghost use Rattle.lp_transition.specs.declared.engine.boot.BootFault.TheVariants as boot_fault;
ghost use Rattle.lp_board.specs.declared.launch.LaunchFault.TheVariants.{Boot};

use lp_transition::BootFault;
use std::alloc::AllocError;
use thiserror::Error;

/// The most readers of a board, and the most workers of a desk's scans.
pub const MOST_CREW: usize = 64;

/// Why no desk was launched. The first that fits is given.
#[derive(Clone, Copy, Debug, PartialEq, Eq, Error)]
pub enum LaunchFault {
    /// T4: a number of readers or of workers outside 1 to 64.
    #[error("T4: a number of readers or of workers outside 1 to 64")]
    BadCrew,
    /// T1, T2 or T3: no engine was made, or an allocation failed after.
    #[error("{0}")]
    Boot(BootFault),
    /// T5: a reader of the board couldn't be had.
    #[error("T5: a reader of the board couldn't be had")]
    NoBoard,
}

impl From<BootFault> for LaunchFault {
    ghost from_gives = { λ fault e. e ≡ Boot fault };

    fn from(fault: BootFault) -> LaunchFault {
        LaunchFault::Boot(fault)
    }
}

impl From<AllocError> for LaunchFault {
    ghost from_gives = { λ _ e. e ≡ Boot boot_fault.NoMemory };

    fn from(_e: AllocError) -> LaunchFault {
        LaunchFault::Boot(BootFault::NoMemory)
    }
}
