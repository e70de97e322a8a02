//! The groups that wait in a leg, each with its reasons.
ghost use Rattle.std.specs.Prelude.{◌≡◌, Bool, ◌+◌, ◌<◌, ◌≤◌, ◌↔◌, ℕ, [], true, false, Some, None, length, map, reverse, slice_set, take, IfOk, IfSome, IsTrue, OnOk, if◌then◌else◌, nat_eq};
ghost use Rattle.std.specs.List.{AllByRecursion};
ghost use Rattle.std.specs.Option.{option_map};
ghost use Rattle.lp_numbers.specs.Numbers.{has, IsEmpty, IsNextFrom};
ghost use Rattle.lp_definitions.specs.Events.{group_numbers};
ghost use Rattle.lp_definitions.specs.Leg.{State};
ghost use Rattle.lp_definitions.specs.Sound.{IsSound};
ghost use Rattle.lp_tasks.specs.Passing.{passing};
ghost use Rattle.lp_transition.specs.Blames.{has_frame_in};
ghost use Rattle.lp_machine.specs.Table.{slot, state_in};
ghost use Rattle.lp_tasks.specs.inside.Table.{is_in};
ghost use Rattle.lp_definitions.specs.Certificates.{after_refusal, group_id};
ghost use Rattle.lp_transition.specs.inside.ScanSteps.{groups_of};
ghost use Rattle.lp_cert.specs.inside.Heads.{HasFrameAs, IsUsed, is_held};
ghost use Rattle.lp_cert.specs.Waiters.{head_of, waiter_in, waiters_of};
ghost use Rattle.lp_cert.specs.inside.Waiters.{AreBare, IsLonger, AreHeads, AreStanding, StandsAt, IsJudged, AreJudged, IsUsedVerdict, is_left, after_birth, after_switch, has_off, lines_at, scanned_lines, AreTakenIn, IsTakenIn};

mod own_effect;

pub(crate) use self::own_effect::{OWN_REASONS, OwnEffect};
use crate::cert_lines::CertLines;
use crate::chains::Chains;
use crate::head::{OwnFork, Refused, Waiter};
use crate::ongoing::Ongoing;
use crate::reasons::Reasons;
use lp_model::{Consistency, Verdict};
use lp_numbers::NumberSet;
use lp_stack::{GroupId, Level};
use lp_transition::{Core, What};
use std::alloc::{AllocError, Global};
use std::marker::Model;

/// The groups that wait, each with its reasons.
///
/// Contracts see the set of these groups, and the reasons of all.
pub(crate) struct Waiters {
    groups: NumberSet,
    /// Within a scan the groups that it has refused so far.
    refused: NumberSet,
    reasons: Reasons,
}

/// By hand, so that the proof of who owns one lets go of it in one step, not field by field.
impl Drop for Waiters {
    fn drop(self) {
        let Waiters {
            groups: _,
            refused: _,
            reasons: _,
        } = self;
    }
}

impl Model for Waiters {
    ghost use Rattle.lp_cert.specs.Waiters.{WaitingGroups};
    ghost use Rattle.lp_cert.specs.inside.Waiters.{AreStanding};

    ghost Value = { WaitingGroups };

    ghost view = { λ w. record { groups = w.groups; reasons = w.reasons } };

    ghost invariant = { λ w. AreStanding (record { groups = w.groups; reasons = w.reasons }) };
}

impl Waiters {
    /// No group; AllocError where an allocation failed.
    pub(crate) fn new(alloc: Global) -> Result<Waiters, AllocError>
        ensures none { IfOk result (λ waiters. IsEmpty waiters.groups) }
    {
        Ok(Waiters {
            groups: NumberSet::new(alloc)?,
            refused: NumberSet::new(alloc)?,
            reasons: Reasons::new(alloc)?,
        })
    }

    /// Makes room for so many more reasons, and for one more scan; AllocError where an allocation failed.
    pub(crate) fn reserve(&mut self, more: usize) -> Result<(), AllocError>
        ensures groups { self.new.groups ≡ self.old.groups }
        ensures heads { (group : ℕ) → head_of self.new.reasons group ≡ head_of self.old.reasons group }
        ensures lists { self.new.reasons.lists ≡ self.old.reasons.lists }
        ensures scans { self.new.reasons.scans ≡ self.old.reasons.scans }
        ensures room { OnOk result (more ≤ self.new.reasons.room) }
        ensures scan_room { OnOk result (0 < self.new.reasons.scan_room) }
    {
        self.reasons.reserve(more)
    }

    /// Whether a group waits.
    pub(crate) fn waits(&self, group: GroupId) -> bool
        ensures { result ≡ has self.now.groups group.0 }
    {
        self.groups.contains(group.0)
    }

    /// The least group that waits.
    pub(crate) fn least(&self) -> Option<GroupId>
        ensures least { IsNextFrom (has self.now.groups) 0 (option_map (λ group. group.0) result) }
        ensures few { IfSome result (λ group. group.0 < 65536) }
    {
        let number = self.groups.next(0)?;
        Some(GroupId(number))
    }

    /// The lines of a group, the oldest first, if it waits. Never allocates.
    pub(crate) fn lines(&self, group: GroupId) -> Option<CertLines<'_>>
        ensures { result ≡ option_map reverse (lines_at self.now group.0) }
    {
        if !self.waits(group) {
            return None;
        }
        Some(self.reasons.lines(group))
    }

    /// The groups that wait, in increasing order; AllocError where an allocation failed.
    pub(crate) fn list(&self, alloc: Global) -> Result<Vec<Waiter>, AllocError>
        ensures list { IfOk result (λ list. list.items ≡ waiters_of self.now) }
        ensures stands { IfOk result (λ list. AreHeads self.now.reasons.lists (length self.now.reasons.scans) list.items) }
    {
        listed(alloc, &self.groups, &self.reasons)
    }

    /// Whether nothing is known of any group that waits.
    pub(crate) fn are_bare(&self) -> bool
        ensures { IsTrue result → AreBare self.now }
    {
        are_bare(&self.groups, &self.reasons)
    }

    /// Puts the groups that wait at the end of a list, in increasing order; AllocError where an allocation failed, and
    /// then some of them may be there.
    pub(crate) fn append_to(&self, list: &mut Vec<GroupId>) -> Result<(), AllocError>
        ensures { IsLonger list.old.items list.new.items result (map group_id (passing 0 65536 (has self.now.groups))) }
    {
        append(&self.groups, list)
    }

    /// A copy of the older reasons, and of the scans; AllocError where an allocation failed.
    pub(crate) fn copy_past(&self, alloc: Global) -> Result<(Chains, Vec<u32>), AllocError>
        ensures lists { IfOk result (λ past. past.0.lists ≡ self.now.reasons.lists) }
        ensures scans { IfOk result (λ past. past.1.items ≡ self.now.reasons.scans) }
    {
        self.reasons.copy_past(alloc)
    }

    /// The older reasons, and the scans. Never allocates.
    pub(crate) fn into_past(self) -> (Chains, Vec<u32>)
        ensures lists { result.0.lists ≡ self.reasons.lists }
        ensures scans { result.1.items ≡ self.reasons.scans }
    {
        let Self {
            groups: _,
            refused: _,
            reasons,
        } = self;
        reasons.into_past()
    }

    /// Of the groups that wait only the least waits on. Never allocates.
    pub(crate) fn keep_least(&mut self)
        ensures least { waiters_of self.new ≡ take 1 (waiters_of self.old) }
        ensures reasons { self.new.reasons ≡ self.old.reasons }
    {
        let Some(group) = self.groups.next(0) else {
            return;
        };
        self.groups.clear();
        self.groups.insert(group);
    }

    /// A group waits no longer. Never allocates.
    fn switch_one(&mut self, group: GroupId)
        ensures groups { self.new.groups ≡ slice_set self.old.groups group.0 false }
        ensures reasons { self.new.reasons ≡ self.old.reasons }
    {
        self.groups.remove(group.0);
    }

    /// A group that waits gives birth to another, which waits too. Never allocates.
    fn bear(&mut self, parent: GroupId, birth: &OwnFork)
        requires waits { has self.old.groups parent.0 ≡ true }
        requires room { 1 < self.old.reasons.room }
        ensures { (group : ℕ) → lines_at self.new group ≡ after_birth birth.now parent.0 (lines_at self.old) group }
    {
        self.reasons.bear(parent, birth);
        self.groups.insert(birth.child.0);
    }

    /// A leg opens that takes the tasks to a level: the groups of the live tasks off it wait,
    /// without any reason. Never allocates.
    pub(crate) fn open<M: Consistency>(&mut self, core: &Core<M>, level: Level)
        ensures { IsSound (state_in core.now) → (group : ℕ) → lines_at self.new group ≡ (if has_off (state_in core.now) level.0 group then Some [] else None) }
    {
        self.reasons.clear_past();
        self.groups.clear();
        take_in_all(
            core,
            level,
            core.groups(),
            &mut self.groups,
            &mut self.reasons,
        );
    }

    /// A scan, with what it found of the tasks that it looked at, by increasing number: the reasons
    /// of the groups that it refuses continue, and so do those that continue by themselves. Never
    /// allocates.
    pub(crate) fn scan<M: Consistency>(&mut self, core: &Core<M>, at: u32, verdicts: &[Verdict])
        requires used { AllByRecursion IsUsedVerdict verdicts.now }
        requires room { length verdicts.now ≤ self.old.reasons.room }
        requires scan_room { 0 < self.old.reasons.scan_room }
        ensures lines { (group : ℕ) → lines_at self.new group ≡ scanned_lines (state_in core.now) at verdicts.now self.old group }
        ensures stood { AreStanding self.old }
    {
        let refused = &mut self.refused;
        refused.clear();
        judge_all(core, at, verdicts, &self.groups, refused, &mut self.reasons);
        self.reasons.scanned(at);
    }

    /// The own check of the only member of a group that waits refuses it. Never allocates.
    fn refuse_alone(&mut self, group: GroupId, refused: &Refused)
        requires waits { has self.old.groups group.0 ≡ true }
        requires room { 1 < self.old.reasons.room }
        requires used { IsUsed refused.now.blame }
        ensures { (has_frame : (task serial : ℕ) → Bool) → HasFrameAs has_frame (head_of self.old.reasons group.0).ongoing refused.now.frame_stands → (other : ℕ) → lines_at self.new other ≡ (if nat_eq other group.0 then option_map (after_refusal has_frame other refused.now.at (refused.now.task.0, refused.now.blame)) (lines_at self.old other) else lines_at self.old other) }
    {
        self.reasons.refuse_alone(group, refused);
    }

    /// The groups that an event switched wait no longer. Never allocates.
    pub(crate) fn switch(&mut self, what: &What)
        ensures { (group : ℕ) → lines_at self.new group ≡ after_switch (groups_of what.now) (lines_at self.old) group }
    {
        if let What::Switched(groups) = what {
            self.switch_all(groups.as_slice());
        }
    }

    /// These groups wait no longer. Never allocates.
    fn switch_all(&mut self, groups: &[GroupId])
        ensures { (group : ℕ) → lines_at self.new group ≡ after_switch (group_numbers groups.now) (lines_at self.old) group }
    {
        for group in groups {
            self.switch_one(*group);
        }
    }

    /// Whether one more scan can be noted that looks at nobody.
    pub(crate) fn has_scan_room(&self) -> bool
        ensures { IsTrue result ↔ (0 < self.now.reasons.scan_room) }
    {
        self.reasons.has_scan_room()
    }

    /// A scan that looked at nobody: the reasons that continue by themselves do. Never allocates.
    pub(crate) fn scan_nobody(&mut self, at: u32)
        requires scan_room { 0 < self.old.reasons.scan_room }
        ensures lines { (s : State) (group : ℕ) → lines_at self.new group ≡ scanned_lines s at [] self.old group }
        ensures stood { AreStanding self.old }
    {
        // For the proof alone, which knows what every value keeps once a field is read.
        let _ = &self.groups;
        self.reasons.scanned(at);
    }
}

/// Notes what a scan found, and takes the groups that it refuses in among those that it has refused.
fn judge_all<M: Consistency>(
    core: &Core<M>,
    at: u32,
    verdicts: &[Verdict],
    waiting: &NumberSet,
    refused: &mut NumberSet,
    reasons: &mut Reasons,
)
    requires stand { (group : ℕ) → is_left waiting.now refused.old group ≡ true → StandsAt (length reasons.old.scans) reasons.old group }
    requires used { AllByRecursion IsUsedVerdict verdicts.now }
    requires room { length verdicts.now ≤ reasons.old.room }
    ensures { AreJudged (state_in core.now) at verdicts.now (is_left waiting.now refused.old) (is_left waiting.now refused.new) reasons.old reasons.new }
{
    for verdict in verdicts {
        judge(core, at, verdict, waiting, refused, reasons);
    }
}

/// Of the members that a scan refuses, the first has the least number: it alone is a group's reason.
fn judge<M: Consistency>(
    core: &Core<M>,
    at: u32,
    verdict: &Verdict,
    waiting: &NumberSet,
    refused: &mut NumberSet,
    reasons: &mut Reasons,
)
    requires stand { (group : ℕ) → is_left waiting.now refused.old group ≡ true → StandsAt (length reasons.old.scans) reasons.old group }
    requires used { IsUsedVerdict verdict.now }
    requires room { 0 < reasons.old.room }
    ensures { IsJudged (state_in core.now) at verdict.now (is_left waiting.now refused.old) (is_left waiting.now refused.new) reasons.old reasons.new }
{
    let Some(blame) = verdict.blame else {
        return;
    };
    let Some(group) = core.group_of(verdict.task) else {
        return;
    };
    if !is_left(waiting, refused, group) {
        return;
    }
    let refusal = Refused {
        at,
        task: verdict.task,
        blame,
        frame_stands: is_held(core, reasons.head(group).ongoing),
    };
    reasons.refuse(group, &refusal);
    refused.insert(group.0);
}

/// Whether a reason is a hold whose frame is still on its task's stack.
fn is_held<M: Consistency>(core: &Core<M>, ongoing: Ongoing) -> bool
    ensures { result ≡ is_held (has_frame_in (state_in core.now)) ongoing }
{
    match ongoing {
        Ongoing::Hold { task, serial, .. } => core.has_frame(task, serial),
        _ => false,
    }
}

/// Whether a group waits and the scan hasn't refused it so far.
fn is_left(waiting: &NumberSet, refused: &NumberSet, group: GroupId) -> bool
    ensures { result ≡ is_left waiting.now refused.now group.0 }
{
    waiting.contains(group.0) && !refused.contains(group.0)
}

/// Whether nothing is known of any of these groups.
fn are_bare(groups: &NumberSet, reasons: &Reasons) -> bool
    requires { AreStanding (record { groups = groups.now; reasons = reasons.now }) }
    ensures { IsTrue result → AreBare (record { groups = groups.now; reasons = reasons.now }) }
{
    for number in groups {
        if !reasons.is_bare(GroupId(number)) {
            return false;
        }
    }
    true
}

/// Puts the groups of a set at the end of a list, in increasing order; AllocError where an allocation failed, and then
/// some of them may be there.
fn append(groups: &NumberSet, list: &mut Vec<GroupId>) -> Result<(), AllocError>
    ensures { IsLonger list.old.items list.new.items result (map group_id (passing 0 65536 (has groups.now))) }
{
    for number in groups {
        list.push(GroupId(number))?;
    }
    Ok(())
}

/// The groups of a set as they stand, in increasing order.
fn listed(alloc: Global, groups: &NumberSet, reasons: &Reasons) -> Result<Vec<Waiter>, AllocError>
    ensures { IfOk result (λ list. list.items ≡ map (waiter_in reasons.now) (passing 0 65536 (has groups.now))) }
{
    // A list that grows from nothing begins with room for four, which is most of what a short leg takes.
    let mut list = Vec::with_capacity(alloc, 1)?;
    for number in groups {
        list.push(reasons.waiter(GroupId(number)))?;
    }
    Ok(list)
}

/// Of these groups, which are all that have a live task, those off a level begin to wait, without any reason. The members of a group are on one level, so one
/// of them tells, and an opening costs no more where there are many.
fn take_in_all<M: Consistency>(
    core: &Core<M>,
    level: Level,
    named: &NumberSet,
    groups: &mut NumberSet,
    reasons: &mut Reasons,
)
    requires named { (group : ℕ) → has named.now group ≡ false → (t : ℕ) → is_in group (slot core.now.table t) ≡ false }
    requires few { (group : ℕ) → has named.now group ≡ true → group < 65536 }
    requires empty { IsEmpty groups.old }
    requires numbers { length groups.old ≡ 65536 }
    ensures taken { (bound : ℕ) → AreTakenIn core.now.table level.0 bound groups.new reasons.old reasons.new }
    ensures groups { IsSound (state_in core.now) → (group : ℕ) → has groups.new group ≡ has_off (state_in core.now) level.0 group }
{
    for number in named {
        take_in(core, level, GroupId(number), groups, reasons);
    }
}

/// A group begins to wait, if its live tasks are off a level.
fn take_in<M: Consistency>(
    core: &Core<M>,
    level: Level,
    group: GroupId,
    groups: &mut NumberSet,
    reasons: &mut Reasons,
)
    requires { length groups.old ≡ 65536 }
    ensures taken { IsTakenIn core.now.table level.0 group.0 groups.old groups.new reasons.old reasons.new }
    ensures numbers { length groups.new ≡ 65536 }
{
    let Some(own) = core.group_level(group) else {
        return;
    };
    if own == level {
        return;
    }
    reasons.begin(group);
    groups.insert(group.0);
}
