//! How a leg ended, with its certificates.
ghost use Rattle.std.specs.Prelude.{◌≡◌};
ghost use Rattle.lp_cert.specs.Ends.{end_in};

use crate::cert_list::{CertList, CertListRef};
use lp_stack::Level;
use std::marker::Model;

/// How a leg ended: a transition, from the control event that opened it up to the next, or to the
/// last event so far.
///
/// Contracts see the record that the definitions have of it.
#[derive(Drop)]
pub struct LegEnd {
    /// The number of the event that opened it.
    pub opened: u64,
    /// The level to which it took the tasks.
    pub target: Level,
    /// The number of the event from which on no task was off the target, if there was one; the
    /// opening's where it was complete at once.
    pub completed: Option<u64>,
    /// Of a leg that isn't complete one for each group that waits, of one that completed after its
    /// opening one that it wasn't complete just before.
    pub certs: CertList,
}

impl Model for LegEnd {
    ghost use Rattle.lp_definitions.specs.Ends.{LegEnd as EndOfLeg};

    ghost Value = { EndOfLeg };

    ghost view = { λ e. record { opened = e.opened; target = e.target; completed = e.completed; certs = e.certs } };
}

/// The end of a leg, borrowed from a list of ends or from an owned one.
#[derive(Drop)]
pub struct LegEndRef<'a> {
    /// As that of `LegEnd`.
    pub opened: u64,
    /// As that of `LegEnd`.
    pub target: Level,
    /// As that of `LegEnd`.
    pub completed: Option<u64>,
    /// As those of `LegEnd`.
    pub certs: CertListRef<'a>,
}

impl LegEnd {
    /// The end, borrowed.
    pub fn borrowed(&self) -> LegEndRef<'_>
        ensures { end_in result ≡ self.now }
    {
        LegEndRef {
            opened: self.opened,
            target: self.target,
            completed: self.completed,
            certs: self.certs.borrowed(),
        }
    }
}
