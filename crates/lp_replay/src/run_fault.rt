//! How a run ends that gives nothing, or not all.
ghost use Rattle.std.specs.Prelude.{◌≡◌};
ghost use Rattle.lp_replay.specs.declared.run_fault.RunFault.TheVariants.{NoMemory as RunNoMemory};
ghost use Rattle.lp_replay.specs.Runs.{of_stream};

use crate::replays::ReplayFault;
use lp_text::{StreamFault, TraceFault, WriteFault};
use std::alloc::AllocError;
use std::io;
use thiserror::Error;

/// Why a run, a check, a comparison or a play by threads didn't write its output, or not all of it.
#[derive(Debug, Drop, Error)]
pub enum RunFault {
    /// The reader failed, or was interrupted. Nothing was written.
    #[error("the input can't be read: {0}")]
    Read(io::Error),
    /// The input is no trace; of a check, no trace with a certificate after it. Nothing was written.
    #[error("line {line}: L{number}", line = .0.line, number = .0.cause.number())]
    Trace(TraceFault),
    /// An allocation failed. Nothing was written.
    #[error("out of memory")]
    NoMemory,
    /// The writer failed, was interrupted or took no byte. What was written is a prefix of the output.
    #[error("the output can't be written")]
    Write(WriteFault),
}

impl From<StreamFault> for RunFault {
    ghost from_gives = { λ fault e. e ≡ of_stream fault };

    fn from(fault: StreamFault) -> RunFault {
        match fault {
            StreamFault::Read(error) => RunFault::Read(error),
            StreamFault::Trace(fault) => RunFault::Trace(fault),
            StreamFault::NoMemory => RunFault::NoMemory,
        }
    }
}

impl From<ReplayFault> for RunFault {
    ghost from_gives = { λ _ e. e ≡ RunNoMemory };

    fn from(fault: ReplayFault) -> RunFault {
        match fault {
            ReplayFault::NoMemory => RunFault::NoMemory,
        }
    }
}

impl From<AllocError> for RunFault {
    ghost from_gives = { λ _ e. e ≡ RunNoMemory };

    fn from(_e: AllocError) -> RunFault {
        RunFault::NoMemory
    }
}
