//! Why threads didn't play a trace to its end.
ghost use Rattle.std.specs.Prelude.{◌≡◌, ◌⊎◌, Err, IfErr, IfOk, Ok};
ghost use Rattle.lp_transition.specs.declared.engine.boot.BootFault.TheVariants as boot_fault;
ghost use Rattle.lp_board.specs.declared.launch.LaunchFault.TheVariants.{Boot, NoBoard};
ghost use Rattle.lp_threads.specs.Codes.{code_of};
ghost use Rattle.lp_threads.specs.Faults.{IsOfPlay};
ghost use Rattle.lp_threads.specs.declared.fault.ThreadsFault.TheVariants.{Run};
ghost use Rattle.lp_replay.specs.declared.run_fault.RunFault.TheVariants.{NoMemory, Write};

use lp_board::LaunchFault;
use lp_replay::{ReplayFault, RunFault, WriteFault};
use lp_transition::BootFault;
use std::alloc::AllocError;
use thiserror::Error;

/// Why threads didn't play a trace to its end, or why its report wasn't written.
#[derive(Debug, Drop, Error)]
pub enum ThreadsFault {
    /// As of a run: the reader, the trace, an allocation, or the writer.
    #[error("{0}")]
    Run(RunFault),
    /// T5: a reader of the board couldn't be had.
    #[error("a reader of the board couldn't be had")]
    NoReader,
    /// D5: a thread couldn't be started.
    #[error("a thread couldn't be started")]
    NoThread,
}

impl ThreadsFault {
    /// The desk's fault by its letter and number, as D5; else the fault of a run.
    pub fn code(self) -> Result<&'static str, RunFault>
        ensures code { IfOk result (λ code. code_of self ≡ Ok code.now) }
        ensures run { IfErr result (λ fault. code_of self ≡ Err fault) }
    {
        match self {
            ThreadsFault::Run(fault) => Err(fault),
            ThreadsFault::NoReader => Ok("T5"),
            ThreadsFault::NoThread => Ok("D5"),
        }
    }

    /// No desk was launched, of boot tasks that are in order: want of memory is a run's fault, whichever call meets it.
    pub(crate) fn of_launch(fault: LaunchFault) -> ThreadsFault
        requires { (fault ≡ Boot boot_fault.NoMemory) ⊎ (fault ≡ NoBoard) }
        ensures { IsOfPlay result }
    {
        match fault {
            LaunchFault::Boot(_) | LaunchFault::BadCrew => ThreadsFault::Run(RunFault::NoMemory),
            LaunchFault::NoBoard => ThreadsFault::NoReader,
        }
    }
}

impl From<RunFault> for ThreadsFault {
    ghost from_gives = { λ fault e. e ≡ Run fault };

    fn from(fault: RunFault) -> ThreadsFault {
        ThreadsFault::Run(fault)
    }
}

impl From<ReplayFault> for ThreadsFault {
    ghost from_gives = { λ _ e. e ≡ Run NoMemory };

    fn from(fault: ReplayFault) -> ThreadsFault {
        ThreadsFault::Run(RunFault::from(fault))
    }
}

impl From<WriteFault> for ThreadsFault {
    ghost from_gives = { λ fault e. e ≡ Run (Write fault) };

    fn from(fault: WriteFault) -> ThreadsFault {
        ThreadsFault::Run(RunFault::Write(fault))
    }
}

impl From<AllocError> for ThreadsFault {
    ghost from_gives = { λ _ e. e ≡ Run NoMemory };

    fn from(_e: AllocError) -> ThreadsFault {
        ThreadsFault::Run(RunFault::NoMemory)
    }
}
