//! The reasons of a group as it waits.
ghost use Rattle.std.specs.Prelude.{◌≡◌, ◌+◌, ◌<◌, ◌≤◌, ℕ, List, [], ◌++◌, length, reverse, slice_index_or, option_to_list, IsTrue};
ghost use Rattle.lp_cert.specs.Heads.{hold_end, lines_of, ongoing_reasons, head_lines};
ghost use Rattle.lp_cert.specs.inside.Chains.{IsTail};
ghost use Rattle.lp_cert.specs.declared.ongoing.Ongoing.TheVariants.{Busy};
ghost use Rattle.lp_cert.specs.inside.Heads.{IsHead, Keeps};

use crate::cert_lines::CertLines;
use crate::chains::{ChainId, Chains};
use crate::oldest_first::OldestFirst;
use crate::ongoing::{Checked, Ongoing};
use crate::reason::Reason;
use lp_definitions::Line;
use lp_model::Blame;
use lp_stack::{GroupId, TaskId};

/// The reasons of a group: the one that continues, in front of a list.
#[derive(Clone, Copy)]
pub(crate) struct Head {
    pub(crate) ongoing: Ongoing,
    pub(crate) older: ChainId,
}

/// A check that refuses a group.
#[derive(Clone, Copy)]
pub(crate) struct Refused {
    /// The event of the check.
    pub(crate) at: u32,
    /// The refused member of the least number.
    pub(crate) task: TaskId,
    /// Why it isn't admitted.
    pub(crate) blame: Blame,
    /// Whether the frame of a hold that continues is still on its task's stack.
    pub(crate) frame_stands: bool,
}

/// A fork of a task into a group of its own.
#[derive(Clone, Copy)]
pub(crate) struct OwnFork {
    /// The child's group.
    pub(crate) child: GroupId,
    /// The task that forked.
    pub(crate) parent: TaskId,
    /// The event of the fork.
    pub(crate) at: u64,
}

/// A group that waits, as it stands.
#[derive(Clone, Copy)]
pub(crate) struct Waiter {
    /// The group.
    pub(crate) group: GroupId,
    /// Its reasons.
    pub(crate) head: Head,
}

impl Head {
    /// The lines of the reasons as they stand, the oldest first: the one way from reasons to lines.
    /// Never allocates.
    pub(crate) fn lines<'a>(
        self,
        chains: &'a Chains,
        scans: &'a [u32],
        group: GroupId,
    ) -> CertLines<'a>
        requires { IsHead chains.now.lists (length scans.now) self }
        ensures { result ≡ reverse (head_lines chains.now.lists scans.now group self) }
    {
        if self.is_bare(chains) {
            return CertLines::none();
        }
        self.lines_after(chains, scans, group, chains.none())
    }

    /// The lines of the reasons as they stand but for those of a list that the older ones end with.
    #[inline(always)]
    pub(crate) fn lines_after<'a>(
        self,
        chains: &'a Chains,
        scans: &'a [u32],
        group: GroupId,
        shared: ChainId,
    ) -> CertLines<'a>
        requires head { IsHead chains.now.lists (length scans.now) self }
        requires shared { shared.0 < length chains.now.lists }
        requires tail { IsTail (slice_index_or chains.now.lists shared.0 []) (slice_index_or chains.now.lists self.older.0 []) }
        ensures { reverse (head_lines chains.now.lists scans.now group self) ≡ reverse (lines_of scans.now (slice_index_or chains.now.lists shared.0 [])) ++ result }
    {
        let ongoing = ongoing_reason(scans, group, self.ongoing);
        let reasons = OldestFirst::after(chains, self.older, shared, ongoing);
        CertLines::new(group, scans, reasons)
    }

    /// Whether there is no reason.
    pub(crate) fn is_bare(self, chains: &Chains) -> bool
        requires { self.older.0 < length chains.now.lists }
        ensures { IsTrue result → (scans : List ℕ) (group : GroupId) → head_lines chains.now.lists scans group self ≡ [] }
    {
        match self.ongoing {
            Ongoing::Nothing => chains.count(self.older) == 0,
            _ => false,
        }
    }

    /// The reasons as they stand, as a list. Never allocates.
    pub(crate) fn close(self, chains: &mut Chains, scans: &[u32], group: GroupId) -> ChainId
        requires known { self.older.0 < length chains.old.lists }
        requires room { 0 < chains.old.room }
        ensures list { slice_index_or chains.new.lists result.0 [] ≡ ongoing_reasons scans.now group self.ongoing ++ slice_index_or chains.old.lists self.older.0 [] }
        ensures known { result.0 < length chains.new.lists }
        ensures kept { Keeps chains.old.lists chains.new.lists }
        ensures room { chains.old.room ≤ chains.new.room + 1 }
    {
        match ongoing_reason(scans, group, self.ongoing) {
            Some(reason) => chains.push(reason, self.older),
            None => self.older,
        }
    }
}

/// The reason that continues, as it stands.
fn ongoing_reason(scans: &[u32], group: GroupId, ongoing: Ongoing) -> Option<Reason>
    ensures { option_to_list result ≡ ongoing_reasons scans.now group ongoing }
{
    match ongoing {
        Ongoing::Nothing => None,
        Ongoing::Hold {
            task,
            serial,
            from,
            last,
        } => Some(Reason::One(Line::Hold {
            group,
            task,
            serial,
            from: u64::from(from),
            to: u64::from(hold_end(scans, last)),
        })),
        Ongoing::Busy { task, first } => busy_reason(scans, group, task, first),
    }
}

/// The last check of a hold: the last scan, where one came after the check that is told.
fn hold_end(scans: &[u32], last: Checked) -> u32
    ensures { result ≡ hold_end scans.now last }
{
    match scans.last() {
        Some(at) if last.scans < scans.len() => *at,
        _ => last.at,
    }
}

/// A member is busy at each scan from a place on, if there is one.
fn busy_reason(scans: &[u32], group: GroupId, task: TaskId, first: usize) -> Option<Reason>
    ensures { option_to_list result ≡ ongoing_reasons scans.now group (Busy task first) }
{
    if first >= scans.len() {
        return None;
    }
    Some(Reason::Busy {
        group,
        task,
        first,
        end: scans.len(),
    })
}
