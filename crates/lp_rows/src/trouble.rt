//! Why a row was not played to its end.

use lp_board::LaunchFault;
use lp_log::{CloseCause, TurnedBy};
use lp_trace::{OfFault, ReadFault, ReplayFault};
use lp_transition::{BootFault, Halt};
use std::alloc::{AllocError, AllocFailed};
use std::io::{self, ErrorKind};

#[derive(Clone, Copy, Debug)]
pub enum Trouble {
    /// Something differs from what is wanted, and it was said where.
    Differs,
    /// A data file can't be read, or a line can't be written.
    File(ErrorKind),
    /// A line of a data file says nothing that a row has.
    NoRow,
    /// A recording is no trace.
    NoTrace,
    /// No engine was booted for a trace.
    Boot(BootFault),
    /// An engine took no event of a trace.
    Halted(Halt),
    /// No trace was made of a trace's parts.
    Unmade(OfFault),
    /// A read or a write in memory failed.
    Stream,
    /// No desk was launched for a trace.
    Launch(LaunchFault),
    /// A desk turned an event of a trace back.
    Turned(TurnedBy),
    /// A desk's journal has other events than a trace.
    OtherEvents,
    /// What was sent isn't what a desk's journal says.
    Unclosed(CloseCause),
    /// An allocation failed.
    NoMemory,
}

impl From<AllocError> for Trouble {
    fn from(_error: AllocError) -> Trouble {
        Trouble::NoMemory
    }
}

impl<T: Drop> From<AllocFailed<T>> for Trouble {
    fn from(_failed: AllocFailed<T>) -> Trouble {
        Trouble::NoMemory
    }
}

impl From<io::Error> for Trouble {
    fn from(error: io::Error) -> Trouble {
        Trouble::File(error.kind())
    }
}

impl From<ReplayFault> for Trouble {
    fn from(_fault: ReplayFault) -> Trouble {
        Trouble::NoMemory
    }
}

impl From<ReadFault> for Trouble {
    fn from(fault: ReadFault) -> Trouble {
        match fault {
            ReadFault::Trace(_) => Trouble::NoTrace,
            ReadFault::NoMemory => Trouble::NoMemory,
        }
    }
}

impl From<BootFault> for Trouble {
    fn from(fault: BootFault) -> Trouble {
        Trouble::Boot(fault)
    }
}

impl From<Halt> for Trouble {
    fn from(halt: Halt) -> Trouble {
        Trouble::Halted(halt)
    }
}

impl From<OfFault> for Trouble {
    fn from(fault: OfFault) -> Trouble {
        Trouble::Unmade(fault)
    }
}
