//! The leg under way.
ghost use Rattle.std.specs.Prelude.{◌≡◌, ◌||◌, ℕ, true, false, None, is_some, IfOk, Some};
ghost use Rattle.lp_cert.specs.CommonHeads.{head_after};
ghost use Rattle.lp_cert.specs.Invariant.{certs_at};
ghost use Rattle.lp_cert.specs.inside.Invariant.{IsCompletedAt, leg_at};
ghost use Rattle.lp_cert.specs.inside.LegRows.{row_after};

use crate::cert_head::CommonHead;
use crate::cert_list::CertList;
use crate::leg_end::LegEnd;
use crate::leg_rows::{LegRow, RowKind};
use crate::waiters::Waiters;
use lp_definitions::Claim;
use lp_stack::Level;
use lp_transition::Reply;
use std::alloc::{AllocError, Global};

/// A leg that a control event opened.
#[derive(Clone, Copy)]
pub(crate) struct OpenLeg {
    /// The event that opened it.
    pub(crate) opened: u32,
    /// The level to which it takes the tasks.
    pub(crate) target: Level,
    /// The event from which on no task was off the target, if there was one.
    pub(crate) completed: Option<u32>,
}

impl OpenLeg {
    /// The leg that opens with an event, and is complete at once or isn't.
    pub(crate) fn new(opened: u32, target: Level, is_complete: bool) -> OpenLeg
        ensures { result ≡ leg_at opened target.0 is_complete }
    {
        let completed = if is_complete { Some(opened) } else { None };
        OpenLeg {
            opened,
            target,
            completed,
        }
    }

    /// The end of the leg, with these certificates. Never allocates.
    pub(crate) fn end(self, certs: CertList) -> LegEnd
        ensures { result ≡ record { opened = self.opened; target = self.target; completed = self.completed; certs = certs } }
    {
        LegEnd {
            opened: u64::from(self.opened),
            target: self.target,
            completed: self.completed.map(u64::from),
            certs,
        }
    }

    /// The certificates as they stand after so many events; AllocError where an allocation failed.
    pub(crate) fn certs(
        self,
        alloc: Global,
        noted: u32,
        waiters: &Waiters,
    ) -> Result<CertList, AllocError>
        ensures { IfOk result (λ certs. certs ≡ certs_at noted waiters.now self) }
    {
        let list = waiters.list(alloc)?;
        let (chains, scans) = waiters.copy_past(alloc)?;
        Ok(CertList::new(self.head(noted), list, chains, scans))
    }

    /// The same, with the older reasons and the scans moved. They may be as many as the events.
    pub(crate) fn into_certs(
        self,
        alloc: Global,
        noted: u32,
        waiters: Waiters,
    ) -> Result<CertList, AllocError>
        ensures { IfOk result (λ certs. certs ≡ certs_at noted waiters self) }
    {
        let list = waiters.list(alloc)?;
        let (chains, scans) = waiters.into_past();
        Ok(CertList::new(self.head(noted), list, chains, scans))
    }

    /// Whether an event that was answered so leaves nothing to note of the leg: it was complete, or is so from this event on, which
    /// is kept. Of the groups that waited the least alone is kept then, as it shows that the leg wasn't complete before. Never
    /// allocates.
    pub(crate) fn is_over(&mut self, number: u32, reply: &Reply, waiters: &mut Waiters) -> bool
        ensures over { result ≡ (is_some self.old.completed || reply.now.completed) }
        ensures complete { (at : ℕ) → self.old.completed ≡ Some at → (self.new ≡ self.old) × (waiters.new ≡ waiters.old) }
        ensures completes { self.old.completed ≡ None → reply.now.completed ≡ true → IsCompletedAt number self.old self.new waiters.old waiters.new }
        ensures goes_on { result ≡ false → (self.new ≡ self.old) × (waiters.new ≡ waiters.old) }
    {
        if self.completed.is_some() {
            return true;
        }
        if !reply.completed {
            return false;
        }
        waiters.keep_least();
        self.completed = Some(number);
        true
    }

    /// What the certificates have in common, after so many events.
    pub(crate) fn head(self, noted: u32) -> CommonHead
        ensures { result ≡ head_after noted self }
    {
        let (claim, upto) = match self.completed {
            None => (Claim::Waiting, noted),
            Some(at) => (Claim::Floor, at.saturating_sub(1)),
        };
        CommonHead {
            claim,
            leg: self.opened,
            upto,
        }
    }

    /// The row of the end after so many events, if its certificates have no line, with the place where their groups
    /// begin and how many these are.
    pub(crate) fn row(self, noted: u32, start: u32, count: u16) -> LegRow
        ensures { result ≡ row_after noted self start count }
    {
        let (at, kind) = match self.completed {
            None => (noted, RowKind::Waiting),
            Some(at) => (at, RowKind::Complete),
        };
        LegRow {
            opened: self.opened,
            at,
            start,
            count,
            target: self.target,
            kind,
        }
    }
}
