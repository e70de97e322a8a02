//! The reasons of each group in a leg.
ghost use Rattle.std.specs.Prelude.{◌≡◌, ◌≢◌, ◌+◌, ◌<◌, ◌≤◌, ◌↔◌, ℕ, List, [], ◌∷◌, ◌++◌, length, reverse, slice_index_or, IfOk, IsTrue, OnOk};
ghost use Rattle.lp_cert.specs.inside.Heads.{IsUsed, IsRefusedBy, IsRefusedAlone, IsBornBy, Keeps, busy_reasons, continues_after, reason_begun_by};
ghost use Rattle.lp_cert.specs.Heads.{head_lines};
ghost use Rattle.lp_cert.specs.Waiters.{no_head, head_of, waiter_in};
ghost use Rattle.lp_cert.specs.inside.Waiters.{lines_in, StandsAt};

use crate::cert_lines::CertLines;
use crate::chains::{ChainId, Chains};
use crate::head::{Head, OwnFork, Refused, Waiter};
use crate::ongoing::{Checked, Ongoing};
use crate::reason::Reason;
use lp_definitions::Line;
use lp_model::Blame;
use lp_numbers::NumberTable;
use lp_stack::GroupId;
use std::alloc::{AllocError, Global};
use std::marker::Model;

/// Nothing is known of a group yet.
const NO_REASON: Head = Head {
    ongoing: Ongoing::Nothing,
    older: ChainId(0),
};

/// How each group stands in a leg, over the lists that they share and the scans that refused a
/// group.
///
/// Contracts see the head of each group, the lists and the scans, and how many more reasons and
/// scans there is room for.
pub(crate) struct Reasons {
    heads: NumberTable<Head>,
    chains: Chains,
    scans: Vec<u32>,
}

/// By hand, so that the proof of who owns one lets go of it in one step, not field by field.
impl Drop for Reasons {
    fn drop(self) {
        let Reasons {
            heads: _,
            chains: _,
            scans: _,
        } = self;
    }
}

impl Model for Reasons {
    ghost use Rattle.std.specs.Prelude.{◌-◌, vec_len, vec_capacity};
    ghost use Rattle.lp_cert.specs.Waiters.{LegReasons};

    ghost Value = { LegReasons };

    ghost view = { λ r. record { heads = r.heads; lists = r.chains.lists; scans = r.scans.items; room = r.chains.room; scan_room = vec_capacity r.scans - vec_len r.scans } };
}

impl Reasons {
    /// No reason of any group; AllocError where an allocation failed.
    pub(crate) fn new(alloc: Global) -> Result<Reasons, AllocError>
        ensures heads { IfOk result (λ reasons. (group : ℕ) → head_of reasons group ≡ no_head) }
        ensures lists { IfOk result (λ reasons. reasons.lists ≡ [] ∷ []) }
        ensures scans { IfOk result (λ reasons. reasons.scans ≡ []) }
    {
        Ok(Reasons {
            heads: NumberTable::new(alloc)?,
            chains: Chains::new(alloc),
            scans: Vec::new(alloc),
        })
    }

    /// Makes room for so many more reasons, and for one more scan; AllocError where an allocation failed.
    pub(crate) fn reserve(&mut self, more: usize) -> Result<(), AllocError>
        ensures heads { self.new.heads ≡ self.old.heads }
        ensures lists { self.new.lists ≡ self.old.lists }
        ensures scans { self.new.scans ≡ self.old.scans }
        ensures room { OnOk result (more ≤ self.new.room) }
        ensures scan_room { OnOk result (0 < self.new.scan_room) }
    {
        self.scans.reserve(1)?;
        self.chains.reserve(more)
    }

    /// How a group stands.
    pub(crate) fn head(&self, group: GroupId) -> Head
        ensures { result ≡ head_of self.now group.0 }
    {
        match self.heads.get(group.0) {
            Some(head) => head,
            None => NO_REASON,
        }
    }

    /// A group as it stands.
    pub(crate) fn waiter(&self, group: GroupId) -> Waiter
        ensures { result ≡ waiter_in self.now group.0 }
    {
        Waiter {
            group,
            head: self.head(group),
        }
    }

    /// Whether nothing is known of a group yet.
    pub(crate) fn is_bare(&self, group: GroupId) -> bool
        requires { (head_of self.now group.0).older.0 < length self.now.lists }
        ensures { IsTrue result → (scans : List ℕ) → head_lines self.now.lists scans group (head_of self.now group.0) ≡ [] }
    {
        self.head(group).is_bare(&self.chains)
    }

    /// The lines of a group, the oldest first. Never allocates.
    pub(crate) fn lines(&self, group: GroupId) -> CertLines<'_>
        requires { StandsAt (length self.now.scans) self.now group.0 }
        ensures { result ≡ reverse (lines_in self.now group.0) }
    {
        let head = self.head(group);
        head.lines(&self.chains, self.scans.as_slice(), group)
    }

    /// A group without any reason. Never allocates.
    pub(crate) fn begin(&mut self, group: GroupId)
        ensures head { head_of self.new group.0 ≡ no_head }
        ensures others { (other : ℕ) → other ≢ group.0 → head_of self.new other ≡ head_of self.old other }
        ensures lists { self.new.lists ≡ self.old.lists }
        ensures scans { self.new.scans ≡ self.old.scans }
    {
        match self.heads.get(group.0) {
            Some(_) => self.heads.put(group.0, NO_REASON, NO_REASON),
            None => {}
        }
    }

    /// A scan, which isn't noted yet, has refused a group. Never allocates.
    pub(crate) fn refuse(&mut self, group: GroupId, refused: &Refused)
        requires head { StandsAt (length self.old.scans) self.old group.0 }
        requires room { 0 < self.old.room }
        requires used { IsUsed refused.now.blame }
        ensures refused { IsRefusedBy refused.now group self.old.scans (head_of self.old group.0) (head_of self.new group.0) self.old.lists self.new.lists }
        ensures others { (other : ℕ) → other ≢ group.0 → head_of self.new other ≡ head_of self.old other }
        ensures scans { self.new.scans ≡ self.old.scans }
        ensures room { self.old.room ≤ self.new.room + 1 }
        ensures scan_room { self.new.scan_room ≡ self.old.scan_room }
    {
        let head = self.head(group);
        if continues(head.ongoing, refused) {
            return;
        }
        let scans = self.scans.as_slice();
        let next = Head {
            ongoing: reason_begun(scans, refused),
            older: head.close(&mut self.chains, scans, group),
        };
        self.heads.put(group.0, next, NO_REASON);
    }

    /// The own check of a group's only member has refused it, which is no scan: so no other group's reasons continue with it.
    /// Never allocates.
    pub(crate) fn refuse_alone(&mut self, group: GroupId, refused: &Refused)
        requires head { StandsAt (length self.old.scans) self.old group.0 }
        requires room { 1 < self.old.room }
        requires used { IsUsed refused.now.blame }
        ensures refused { IsRefusedAlone refused.now group self.old.scans (head_of self.old group.0) (head_of self.new group.0) self.old.lists self.new.lists }
        ensures others { (other : ℕ) → other ≢ group.0 → head_of self.new other ≡ head_of self.old other }
        ensures scans { self.new.scans ≡ self.old.scans }
    {
        let head = self.head(group);
        let scans = self.scans.as_slice();
        if let Ongoing::Hold {
            task,
            serial,
            from,
            ..
        } = head.ongoing
        {
            if refused.frame_stands {
                let last = Checked {
                    at: refused.at,
                    scans: scans.len(),
                };
                let next = Head {
                    ongoing: Ongoing::Hold {
                        task,
                        serial,
                        from,
                        last,
                    },
                    older: head.older,
                };
                self.heads.put(group.0, next, NO_REASON);
                return;
            }
        }
        let before = head.close(&mut self.chains, scans, group);
        let next = Head {
            ongoing: reason_begun(scans, refused),
            older: with_own(&mut self.chains, before, group, refused),
        };
        self.heads.put(group.0, next, NO_REASON);
    }

    /// A group gives birth to another: the other's reasons begin as this one's stand, and with the birth. Never allocates.
    pub(crate) fn bear(&mut self, group: GroupId, birth: &OwnFork)
        requires head { StandsAt (length self.old.scans) self.old group.0 }
        requires room { 1 < self.old.room }
        ensures born { IsBornBy birth.now group self.old.scans (head_of self.old group.0) (head_of self.new birth.now.child.0) self.old.lists self.new.lists }
        ensures others { (other : ℕ) → other ≢ birth.now.child.0 → head_of self.new other ≡ head_of self.old other }
        ensures scans { self.new.scans ≡ self.old.scans }
    {
        let head = self.head(group);
        let before = head.close(&mut self.chains, self.scans.as_slice(), group);
        let born = Reason::One(Line::Born {
            group: birth.child,
            parent: birth.parent,
            at: birth.at,
        });
        let next = Head {
            ongoing: Ongoing::Nothing,
            older: self.chains.push(born, before),
        };
        self.heads.put(birth.child.0, next, NO_REASON);
    }

    /// A copy of the older reasons, and of the scans; AllocError where an allocation failed.
    pub(crate) fn copy_past(&self, alloc: Global) -> Result<(Chains, Vec<u32>), AllocError>
        ensures lists { IfOk result (λ past. past.0.lists ≡ self.now.lists) }
        ensures scans { IfOk result (λ past. past.1.items ≡ self.now.scans) }
    {
        let chains = self.chains.copy(alloc)?;
        let scans = Vec::from_slice(alloc, self.scans.as_slice())?;
        Ok((chains, scans))
    }

    /// The older reasons, and the scans. Never allocates.
    pub(crate) fn into_past(self) -> (Chains, Vec<u32>)
        ensures lists { result.0.lists ≡ self.lists }
        ensures scans { result.1.items ≡ self.scans }
    {
        let Self {
            heads: _,
            chains,
            scans,
        } = self;
        (chains, scans)
    }

    /// Takes all older reasons and scans out. Never allocates.
    pub(crate) fn clear_past(&mut self)
        ensures heads { self.new.heads ≡ self.old.heads }
        ensures lists { self.new.lists ≡ [] ∷ [] }
        ensures scans { self.new.scans ≡ [] }
    {
        self.chains.clear();
        self.scans.clear();
    }

    /// Whether one more scan can be noted.
    pub(crate) fn has_scan_room(&self) -> bool
        ensures { IsTrue result ↔ (0 < self.now.scan_room) }
    {
        self.scans.len() < self.scans.capacity()
    }

    /// A scan has refused the groups that were noted. Never allocates.
    pub(crate) fn scanned(&mut self, at: u32)
        requires { 0 < self.old.scan_room }
        ensures heads { self.new.heads ≡ self.old.heads }
        ensures lists { self.new.lists ≡ self.old.lists }
        ensures scans { self.new.scans ≡ self.old.scans ++ at ∷ [] }
    {
        self.scans.push_reserved(at);
    }
}

/// A list with the line of an own check that finds the task busy, where it is one: a run tells of scans
/// alone. A hold is told by what continues.
fn with_own(chains: &mut Chains, list: ChainId, group: GroupId, refused: &Refused) -> ChainId
    requires known { list.0 < length chains.old.lists }
    requires room { 0 < chains.old.room }
    ensures list { slice_index_or chains.new.lists result.0 [] ≡ busy_reasons group refused.now ++ slice_index_or chains.old.lists list.0 [] }
    ensures known { result.0 < length chains.new.lists }
    ensures kept { Keeps chains.old.lists chains.new.lists }
{
    if refused.blame != Blame::Busy {
        return list;
    }
    let line = Line::Busy {
        group,
        task: refused.task,
        at: u64::from(refused.at),
    };
    chains.push(Reason::One(line), list)
}

/// A hold continues while its frame stands, whoever is refused now: that frame alone keeps the group.
fn continues(ongoing: Ongoing, refused: &Refused) -> bool
    ensures { result ≡ continues_after ongoing refused.now }
{
    match ongoing {
        Ongoing::Nothing => false,
        Ongoing::Hold { .. } => refused.frame_stands,
        Ongoing::Busy { task, .. } => refused.blame == Blame::Busy && refused.task == task,
    }
}

/// The reason that begins with a refusal.
fn reason_begun(scans: &[u32], refused: &Refused) -> Ongoing
    ensures { result ≡ reason_begun_by (length scans.now) refused.now.task refused.now.at refused.now.blame }
{
    match refused.blame {
        Blame::Frame(serial) => Ongoing::Hold {
            task: refused.task,
            serial,
            from: refused.at,
            last: Checked {
                at: refused.at,
                scans: scans.len(),
            },
        },
        Blame::Busy => Ongoing::Busy {
            task: refused.task,
            first: scans.len(),
        },
        Blame::Unused => Ongoing::Nothing,
    }
}
