//! The ends of legs, in as little memory as a run with as many legs as events wants.
ghost use Rattle.std.specs.Prelude.{◌≡◌, ◌+◌, ◌<◌, ◌≤◌, ◌++◌, [], drop, false, length, option_to_list, slice_get, take, true, IfOk, OnOk, Some};
ghost use Rattle.std.specs.Option.{option_map};
ghost use Rattle.lp_cert.specs.Ends.{end_in};
ghost use Rattle.lp_cert.specs.Invariant.{open_end};
ghost use Rattle.lp_cert.specs.inside.LegRows.{bare_end, is_other, leg_of};
ghost use Rattle.lp_cert.specs.inside.Waiters.{AreBare};

use crate::cert_list::CertListRef;
use crate::leg_end::{LegEnd, LegEndRef};
use crate::open_leg::OpenLeg;
use crate::waiters::Waiters;
use lp_stack::{GroupId, Level};
use std::alloc::{AllocError, Global};
use std::marker::Model;

/// The last place of which a row can tell.
const MOST_PLACES: usize = u32::MAX as usize;

/// The most groups of which a row can tell.
const MOST_GROUPS: usize = u16::MAX as usize;

/// Where the end of a leg is kept.
#[derive(Clone, Copy, PartialEq, Eq)]
pub(crate) enum RowKind {
    /// Here: a leg that isn't complete, whose certificates have no line.
    Waiting,
    /// Here: one that is complete.
    Complete,
    /// Among the others, at `start`.
    Other,
}

/// The end of a leg.
#[derive(Clone, Copy)]
pub(crate) struct LegRow {
    /// The event that opened the leg.
    pub(crate) opened: u32,
    /// The event from which on it was complete; of one that isn't the event up to which its certificates go.
    pub(crate) at: u32,
    /// Where the groups of its certificates begin, or its place among the others.
    pub(crate) start: u32,
    /// How many certificates there are.
    pub(crate) count: u16,
    pub(crate) target: Level,
    pub(crate) kind: RowKind,
}

/// Ends of legs. Nearly all certificates of short legs have no line: of these the groups are
/// enough, and their legs take 16 bytes and 2 for each of their groups.
///
/// Contracts see the ends, and the one that is ready to be put after them.
#[derive(Drop)]
pub(crate) struct LegRows {
    rows: Vec<LegRow>,
    groups: Vec<GroupId>,
    others: Vec<LegEnd>,
    /// The row of an end that is made before its leg is over, and for which there is room.
    closing: Option<LegRow>,
}

impl Model for LegRows {
    ghost use Rattle.std.specs.Prelude.{◌-◌, length, map, vec_len, vec_capacity};
    ghost use Rattle.std.specs.Option.{option_map};
    ghost use Rattle.lp_cert.specs.inside.LegRows.{AreFitting, KeptEnds, row_end};

    ghost Value = { KeptEnds };

    ghost view = { λ l. record { ends = map (row_end l.groups.items l.others.items) l.rows.items; closing = option_map (row_end l.groups.items l.others.items) l.closing } };

    ghost invariant = { λ l. AreFitting (length l.groups.items) (length l.others.items) (vec_capacity l.rows - vec_len l.rows) l.rows.items l.closing };
}

impl LegRows {
    /// No end. Never allocates.
    pub(crate) fn new(alloc: Global) -> LegRows
        ensures { result.ends ≡ [] }
    {
        LegRows {
            rows: Vec::new(alloc),
            groups: Vec::new(alloc),
            others: Vec::new(alloc),
            closing: None,
        }
    }

    /// How many ends there are.
    pub(crate) fn len(&self) -> usize
        ensures { result ≡ length self.now.ends }
    {
        self.rows.len()
    }

    /// Makes the end of the leg under way, if there is one, as it stands after so many events, so that `push_closed` needs no
    /// memory. AllocError where an allocation failed.
    pub(crate) fn close(
        &mut self,
        alloc: Global,
        current: Option<OpenLeg>,
        noted: u32,
        waiters: &Waiters,
    ) -> Result<(), AllocError>
        ensures ends { self.new.ends ≡ self.old.ends }
        ensures closing { OnOk result (self.new.closing ≡ option_map (open_end noted waiters.now) current) }
    {
        let Some(leg) = current else {
            self.closing = None;
            return Ok(());
        };
        if waiters.are_bare() {
            if self.close_bare(leg, noted, waiters)? {
                return Ok(());
            }
        }
        let certs = leg.certs(alloc, noted, waiters)?;
        self.close_whole(leg.end(certs))
    }

    /// The same, where no certificate has a line and a row can tell all. Says whether it can.
    fn close_bare(
        &mut self,
        leg: OpenLeg,
        noted: u32,
        waiters: &Waiters,
    ) -> Result<bool, AllocError>
        requires { AreBare waiters.now }
        ensures ends { self.new.ends ≡ self.old.ends }
        ensures closing { IfOk result (λ told. told ≡ true → self.new.closing ≡ Some (open_end noted waiters.now leg)) }
    {
        let start = self.groups.len();
        waiters.append_to(&mut self.groups)?;
        let count = self.groups.len() - start;
        if start > MOST_PLACES || count > MOST_GROUPS {
            return Ok(false);
        }
        self.rows.reserve(1)?;
        self.closing = Some(leg.row(noted, start as u32, count as u16));
        Ok(true)
    }

    /// The same of an end that is kept whole.
    pub(crate) fn close_whole(&mut self, end: LegEnd) -> Result<(), AllocError>
        ensures ends { self.new.ends ≡ self.old.ends }
        ensures closing { OnOk result (self.new.closing ≡ Some end) }
    {
        let place = self.others.len();
        if place > MOST_PLACES {
            return Err(AllocError);
        }
        self.rows.reserve(1)?;
        self.others.push(end)?;
        self.closing = Some(other_row(place as u32));
        Ok(())
    }

    /// The end that was made is the last one now, if one was. Never allocates.
    pub(crate) fn push_closed(&mut self)
        ensures { self.new.ends ≡ self.old.ends ++ option_to_list self.old.closing }
    {
        let Some(row) = self.closing.take() else {
            return;
        };
        self.rows.push_reserved(row);
    }

    /// The end at a place, from 0, borrowed.
    pub(crate) fn end(&self, place: usize) -> LegEndRef<'_>
        requires { place < length self.now.ends }
        ensures { slice_get self.now.ends place ≡ Some (end_in result) }
    {
        let row = self.rows[place];
        if row.kind == RowKind::Other {
            return self.others[row.start as usize].borrowed();
        }
        row.borrowed(self.groups.as_slice())
    }

    /// The first end alone, if there is one. Never allocates.
    pub(crate) fn keep_first(&mut self)
        ensures { self.new.ends ≡ option_to_list (slice_get self.old.ends 0) }
    {
        self.rows.truncate(1);
    }
}

impl LegRow {
    /// The end of a leg whose certificates have no line, over the groups of all, borrowed.
    fn borrowed(self, groups: &[GroupId]) -> LegEndRef<'_>
        requires own { is_other self.kind ≡ false }
        requires within { self.start + self.count ≤ length groups.now }
        ensures { end_in result ≡ bare_end self (take self.count (drop self.start groups.now)) }
    {
        let leg = self.leg();
        let (_, from_start) = groups.split_at(self.start as usize);
        let (own, _) = from_start.split_at(usize::from(self.count));
        LegEndRef {
            opened: u64::from(leg.opened),
            target: leg.target,
            completed: leg.completed.map(u64::from),
            certs: CertListRef::bare(leg.head(self.at), own),
        }
    }

    /// The leg.
    fn leg(self) -> OpenLeg
        ensures { result ≡ leg_of self }
    {
        let completed = match self.kind {
            RowKind::Complete => Some(self.at),
            _ => None,
        };
        OpenLeg {
            opened: self.opened,
            target: self.target,
            completed,
        }
    }
}

/// The row of an end that is kept whole, at a place among those.
fn other_row(place: u32) -> LegRow
    ensures kind { is_other result.kind ≡ true }
    ensures place { result.start ≡ place }
{
    LegRow {
        opened: 0,
        at: 0,
        start: place,
        count: 0,
        target: Level(0),
        kind: RowKind::Other,
    }
}
