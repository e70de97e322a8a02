//! Why a certificate is refused.
ghost use Rattle.std.specs.Prelude.{Some};
ghost use Rattle.lp_definitions.specs.Printed.{cert_fault_text};
ghost use Rattle.lp_definitions.specs.declared.cert_fault.CertFault.TheVariants.{NoMemory};

use std::alloc::AllocError;
use std::fmt;
use thiserror::Error;

/// Why a certificate is refused. Events have their numbers in the run.
#[derive(Clone, Copy, Debug, PartialEq, Eq, Error)]
pub enum CertFault {
    /// C1: the group waits nowhere: no births lead to it from a group that waited at the opening,
    /// a line names another group than its place says, or the group has no live member at the end.
    NoSuchGroup,
    /// C2: after this event the frame of a line isn't on the task's stack.
    NotOnStack(u64),
    /// C3: at this event there is no such blame, or it isn't in the time of its group.
    NoBlame(u64),
    /// C4: no line says why the check of this event refused.
    Gap(u64),
    /// C5: this event is no such birth.
    BadBirth(u64),
    /// C6: the certificate is for another claim or another leg, or ends outside of it or past event 1,000,000.
    NoLeg,
    /// C7: an allocation failed.
    NoMemory,
}

impl CertFault {
    ghost use Rattle.std.specs.Prelude.{◌≡◌};
    ghost use Rattle.lp_definitions.specs.Faults.{fault_number};

    /// The number of the fault, from 1 to 7.
    pub fn number(self) -> u8
        ensures { result ≡ fault_number self }
    {
        match self {
            CertFault::NoSuchGroup => 1,
            CertFault::NotOnStack(_) => 2,
            CertFault::NoBlame(_) => 3,
            CertFault::Gap(_) => 4,
            CertFault::BadBirth(_) => 5,
            CertFault::NoLeg => 6,
            CertFault::NoMemory => 7,
        }
    }
}

impl fmt::Display for CertFault {
    ghost output = { λ fault. Some (cert_fault_text fault) };

    fn fmt<W: fmt::Write>(&self, f: &mut fmt::Formatter<W>) -> fmt::Result {
        match self {
            CertFault::NoSuchGroup => f.write_str("C1: the group waits nowhere"),
            CertFault::NotOnStack(event) => write!(
                f,
                "C2: after event {event} the frame isn't on the task's stack"
            ),
            CertFault::NoBlame(event) => write!(
                f,
                "C3: at event {event} there is no such blame, or it isn't in the time of its group"
            ),
            CertFault::Gap(event) => write!(
                f,
                "C4: no line says why the check of event {event} refused"
            ),
            CertFault::BadBirth(event) => write!(f, "C5: event {event} is no such birth"),
            CertFault::NoLeg => f.write_str(
                "C6: another claim or another leg, or an end outside of it",
            ),
            CertFault::NoMemory => f.write_str("C7: out of memory"),
        }
    }
}

impl From<AllocError> for CertFault {
    ghost use Rattle.std.specs.Prelude.{◌≡◌};

    ghost from_gives = { λ _ e. e ≡ NoMemory };

    fn from(_e: AllocError) -> CertFault {
        CertFault::NoMemory
    }
}
