//! Why a reader's text was not read.
ghost use Rattle.std.specs.Prelude.{◌≡◌};
ghost use Rattle.lp_text.specs.declared.stream_fault.StreamFault.TheVariants.{NoMemory as StreamNoMemory};
ghost use Rattle.lp_text.specs.inside.Streams.{of_input};
ghost use Rattle.lp_text.specs.Input.{of_read};

use crate::fault::{Cause, ReadFault, TraceFault};
use crate::input::InputFault;
use std::alloc::AllocError;
use std::io;
use thiserror::Error;

/// Why a reader gave no trace, or no trace with a certificate after it.
#[derive(Debug, Drop, Error)]
pub enum StreamFault {
    /// The reader failed, or was interrupted.
    #[error("the input can't be read: {0}")]
    Read(io::Error),
    /// The text is no trace; of a check, no trace with a certificate after it.
    #[error(transparent)]
    Trace(TraceFault),
    /// An allocation failed.
    #[error("out of memory")]
    NoMemory,
}

impl From<InputFault> for StreamFault {
    ghost from_gives = { λ fault e. e ≡ of_input fault };

    fn from(fault: InputFault) -> StreamFault {
        match fault {
            InputFault::Failed(error) => StreamFault::Read(error),
            InputFault::Long => StreamFault::Trace(TraceFault {
                line: 0,
                cause: Cause::Long,
            }),
            InputFault::NoMemory => StreamFault::NoMemory,
        }
    }
}

impl From<ReadFault> for StreamFault {
    ghost from_gives = { λ fault e. e ≡ of_read fault };

    fn from(fault: ReadFault) -> StreamFault {
        match fault {
            ReadFault::Trace(fault) => StreamFault::Trace(fault),
            ReadFault::NoMemory => StreamFault::NoMemory,
        }
    }
}

impl From<AllocError> for StreamFault {
    ghost from_gives = { λ _ e. e ≡ StreamNoMemory };

    fn from(_e: AllocError) -> StreamFault {
        StreamFault::NoMemory
    }
}
