//! A certificate.

use crate::line::LineList;
use lp_stack::GroupId;
use std::fmt;

/// What a certificate is for. Both claims say that the group still waits after the last event.
#[derive(Clone, Copy, Debug, PartialEq, Eq)]
pub enum Claim {
    /// The group waits.
    Waiting,
    /// No legal schedule of the leg completes it by then, as the group waits.
    Floor,
}

/// The word that begins it in a text.
impl fmt::Display for Claim {
    fn fmt<W: fmt::Write>(&self, f: &mut fmt::Formatter<W>) -> fmt::Result {
        f.write_str(match self {
            Claim::Waiting => "waiting",
            Claim::Floor => "floor",
        })
    }
}

/// Why a group still waits in a leg, after an event.
#[derive(Drop)]
pub struct Cert {
    /// What is claimed.
    pub claim: Claim,
    /// The number of the event that opened the leg.
    pub leg: u64,
    /// The group that waits.
    pub group: GroupId,
    /// The number of the last event after which it waits.
    pub upto: u64,
    /// The reasons, in the order of the births that lead to the group.
    pub lines: LineList,
}

/// As `lpt check` reads it after `lpcert 1`; the last line has no end.
impl fmt::Display for Cert {
    fn fmt<W: fmt::Write>(&self, f: &mut fmt::Formatter<W>) -> fmt::Result {
        let claim = self.claim;
        write!(f, "{claim} {} {} {}", self.leg, self.group.0, self.upto)?;
        for line in self.lines.as_slice() {
            write!(f, "\n{line}")?;
        }
        Ok(())
    }
}
