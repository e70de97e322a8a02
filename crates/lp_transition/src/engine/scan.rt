//! Scans, which look at the stacks of all waiting tasks.
ghost use Rattle.std.specs.Prelude.{◌≡◌, ℕ, ◌||◌, ◌&&◌, not, ◌<◌, ◌≤◌, ◌↔◌, true, false, Err, map, is_none, nat_eq, IfOk, IfSome, IsTrue};
ghost use Rattle.std.specs.List.{filter_map, list_any};
ghost use Rattle.std.specs.Option.{option_map};
ghost use Rattle.lp_stack.specs.TaskView.{seen};
ghost use Rattle.lp_patch.specs.Aimed.{aimed};
ghost use Rattle.lp_numbers.specs.Numbers.{has};
ghost use Rattle.lp_transition.specs.Blames.{AreBlamesAfter};
ghost use Rattle.lp_transition.specs.LastScan.{IsLastScanAfter};
ghost use Rattle.lp_machine.specs.Table.{state_in, slot};
ghost use Rattle.lp_tasks.specs.inside.Table.{is_in};
ghost use Rattle.lp_machine.specs.Machine.{view_of, waits_in, next};
ghost use Rattle.lp_definitions.specs.Events.{is_scan, group_numbers};
ghost use Rattle.lp_definitions.specs.Run.{switched};
ghost use Rattle.lp_transition.specs.Weigh.{IsWeighed, Tells};
ghost use Rattle.lp_machine.specs.Steps.{IsReply};
ghost use Rattle.lp_transition.specs.Scan.{is_scan_kind, scan_event, views_of, verdict_of, verdicts_of, verdicts_at, AreEnough};
ghost use Rattle.lp_tasks.specs.Passing.{passing};
ghost use Rattle.lp_transition.specs.inside.ScanSteps.{waiting_slot, tasks_of, is_found, switches_by, all_admit};
ghost use Rattle.lp_transition.specs.declared.engine.step.Halt.TheVariants.{JournalFull};

use super::Core;
use super::step::{Halt, Step};
use super::switches::switch_scanned;
use crate::{Event, GroupList, MOST_EVENTS, Reply, What};
use lp_model::{CheckKind, Consistency, Verdict};
use lp_numbers::NumberSet;
use lp_patch::Aim;
use lp_stack::{GroupId, TaskId, View};
use lp_tasks::{LiveView, TaskTable};
use std::alloc::{AllocError, Global};

impl<M: Consistency> Core<M> {
    /// The waiting tasks as checks see them, by increasing number; AllocError where an allocation
    /// failed.
    pub fn views(&self, alloc: Global) -> Result<Vec<View<'_>>, AllocError>
        ensures { IfOk result (λ views. map seen views.items ≡ views_of (state_in self.now)) }
    {
        views_in(alloc, &self.tasks, &self.waiting)
    }

    /// The groups that wait, which have a live member off the target, in increasing order;
    /// AllocError where an allocation failed.
    pub fn waiting(&self, alloc: Global) -> Result<GroupList, AllocError>
        ensures { IfOk result (λ list. list ≡ passing 0 65536 (waits_in (state_in self.now))) }
    {
        let groups = groups_in(alloc, &self.tasks, &self.waiting)?;
        group_list(alloc, &groups)
    }

    /// What a check finds of all waiting tasks.
    pub(super) fn all_verdicts(
        &self,
        alloc: Global,
        kind: CheckKind,
    ) -> Result<Vec<Verdict>, AllocError>
        ensures { IfOk result (λ found. found.items ≡ verdicts_of M.rules kind (state_in self.now)) }
    {
        self.verdicts_in(alloc, kind, &self.waiting)
    }

    /// What a check finds of the waiting tasks of a set.
    pub(super) fn verdicts_in(
        &self,
        alloc: Global,
        kind: CheckKind,
        tasks: &NumberSet,
    ) -> Result<Vec<Verdict>, AllocError>
        ensures { IfOk result (λ found. found.items ≡ verdicts_at M.rules kind (state_in self.now) (has tasks.now)) }
    {
        let aim = self.aim();
        found_in(
            alloc,
            &self.model,
            kind,
            &aim,
            &self.tasks,
            &self.waiting,
            tasks,
        )
    }

    /// The answer to a walk or a stop, by what its checks found of the waiting tasks: a group
    /// switches where a member is admitted and none is refused. NoMemory where an allocation
    /// failed, JournalFull where no event is left.
    pub fn weigh_scan(
        &self,
        alloc: Global,
        kind: CheckKind,
        verdicts: &[Verdict],
    ) -> Result<Step, Halt>
        requires scan { is_scan_kind kind ≡ true }
        requires found { verdicts.now ≡ verdicts_of M.rules kind (state_in self.now) }
        ensures full { (result ≡ Err JournalFull) ↔ (1000000 ≤ self.now.number) }
        ensures reply { IfOk result (λ step. IsReply M.rules (state_in self.now) (scan_event kind) step.reply) }
        ensures weighed { IfOk result (λ step. IsWeighed M.rules self.now step) }
        ensures event { IfOk result (λ step. step.event ≡ scan_event kind) }
        ensures verdicts { IfOk result (λ step. step.verdicts ≡ verdicts.now) }
    {
        if self.events >= MOST_EVENTS {
            return Err(Halt::JournalFull);
        }
        let copied = Vec::from_slice(alloc, verdicts)?;
        Ok(self.weigh_found(alloc, kind, copied)?)
    }

    /// Shared by scans that look at all and scans that leave out whom they would only refuse again.
    pub(super) fn weigh_found(
        &self,
        alloc: Global,
        kind: CheckKind,
        verdicts: Vec<Verdict>,
    ) -> Result<Step, AllocError>
        requires scan { is_scan_kind kind ≡ true }
        requires room { self.now.number < 1000000 }
        requires found { AreEnough M.rules kind (state_in self.now) verdicts.items }
        requires told { Tells M.rules self.now (scan_event kind) verdicts.items }
        ensures reply { IfOk result (λ step. IsReply M.rules (state_in self.now) (scan_event kind) step.reply) }
        ensures weighed { IfOk result (λ step. IsWeighed M.rules self.now step) }
        ensures event { IfOk result (λ step. step.event ≡ scan_event kind) }
        ensures verdicts { IfOk result (λ step. step.verdicts ≡ verdicts.items) }
    {
        let what = scanned(alloc, &self.tasks, verdicts.as_slice())?;
        let reply = Reply {
            what,
            completed: completes(&self.waiting, verdicts.as_slice()),
        };
        Ok(Step::scan(scan_event(kind), reply, verdicts))
    }

    /// Takes a walk or a stop that was weighed on this engine: the groups that switch do so. Never
    /// allocates.
    pub(super) fn take_scan(&mut self, step: &Step)
        requires weighed { IsWeighed M.rules self.old step.now }
        requires scan { is_scan step.now.event ≡ true }
        ensures state { state_in self.new ≡ next M.rules (state_in self.old) step.now.event }
        ensures blames { AreBlamesAfter M.rules self.old step.now.event step.now.verdicts self.new }
        ensures last_scan { IsLastScanAfter M.rules self.old step.now.event self.new }
    {
        self.events += 1;
        self.blames
            .note(&mut self.refused, &self.tasks, step.verdicts());
        let kind = scan_kind(step.event());
        switch_scanned(
            &mut self.tasks,
            &mut self.waiting,
            &self.refused,
            step,
            self.target,
        );
        if self.waiting.is_empty() {
            self.unchanged.reset();
            return;
        }
        let is_used = self.model.uses(kind);
        self.unchanged
            .scanned(kind, is_used, &self.waiting, step.verdicts());
    }
}

/// The tasks of a waiting set as checks see them, by increasing number.
#[tactic(auto, using(lp_tasks::proofs::AscendingLemmas::in_order))]
fn views_in<'a>(
    alloc: Global,
    tasks: &'a TaskTable,
    waiting: &NumberSet,
) -> Result<Vec<View<'a>>, AllocError>
    ensures { IfOk result (λ views. map seen views.items ≡ filter_map (λ t. option_map (view_of t) (waiting_slot tasks.now waiting.now t)) (passing 0 65536 (has waiting.now))) }
{
    let mut views = Vec::new(alloc);
    for number in waiting {
        let task = TaskId(number);
        if let Some(live) = waiting_task(tasks, waiting, task) {
            views.push(live.view(task))?;
        }
    }
    Ok(views)
}

/// What a check finds of the waiting tasks of a set, by increasing number.
#[tactic(auto, using(lp_tasks::proofs::AscendingLemmas::in_order))]
fn found_in<M: Consistency>(
    alloc: Global,
    model: &M,
    kind: CheckKind,
    aim: &Aim<'_>,
    tasks: &TaskTable,
    waiting: &NumberSet,
    set: &NumberSet,
) -> Result<Vec<Verdict>, AllocError>
    ensures { IfOk result (λ found. found.items ≡ map (verdict_of M.rules kind (aimed aim.now)) (filter_map (λ t. option_map (view_of t) (waiting_slot tasks.now waiting.now t)) (passing 0 65536 (has set.now)))) }
{
    let mut found = Vec::new(alloc);
    for number in set {
        let task = TaskId(number);
        if let Some(live) = waiting_task(tasks, waiting, task) {
            found.push(Verdict::of(model, kind, &live.view(task), aim))?;
        }
    }
    Ok(found)
}

/// The live task of a number, where it waits.
pub(super) fn waiting_task<'a>(
    tasks: &'a TaskTable,
    waiting: &NumberSet,
    task: TaskId,
) -> Option<LiveView<'a>>
    ensures { result ≡ waiting_slot tasks.now waiting.now task.0 }
{
    if !waiting.contains(task.0) {
        return None;
    }
    tasks.get(task)
}

/// The members of a set as groups, in increasing order.
#[tactic(auto, using(lp_tasks::proofs::AscendingLemmas::in_order))]
fn group_list(alloc: Global, set: &NumberSet) -> Result<GroupList, AllocError>
    ensures { IfOk result (λ list. list ≡ passing 0 65536 (has set.now)) }
{
    let mut groups = Vec::new(alloc);
    for number in set {
        groups.push(GroupId(number))?;
    }
    GroupList::from_vec(alloc, groups)
}

/// The event that is a check of this kind.
fn scan_event(kind: CheckKind) -> Event
    ensures { result ≡ scan_event kind }
{
    match kind {
        CheckKind::Stop => Event::Stop,
        _ => Event::Walk,
    }
}

/// The kind of check that a scan is.
fn scan_kind(event: Event) -> CheckKind
    requires { is_scan event ≡ true }
    ensures scan { is_scan_kind result ≡ true }
    ensures event { scan_event result ≡ event }
{
    match event {
        Event::Stop => CheckKind::Stop,
        _ => CheckKind::Walk,
    }
}

/// What a scan does by these verdicts. It never allocates where no task is admitted.
fn scanned(alloc: Global, tasks: &TaskTable, verdicts: &[Verdict]) -> Result<What, AllocError>
    ensures { IfOk result (λ what. what ≡ switched (passing 0 65536 (switches_by tasks.now verdicts.now))) }
{
    if !any_admits(verdicts) {
        return Ok(What::Done);
    }
    let groups = switching_groups(alloc, tasks, verdicts)?;
    Ok(switched(groups))
}

/// What an event did that switched these groups.
fn switched(groups: GroupList) -> What
    ensures { result ≡ switched groups }
{
    if groups.is_empty() {
        return What::Done;
    }
    What::Switched(groups)
}

/// The groups that switch by these verdicts, in increasing order: a member is admitted, and none is
/// refused. A set of full length is made only where the groups aren't in turn.
fn switching_groups(
    alloc: Global,
    tasks: &TaskTable,
    verdicts: &[Verdict],
) -> Result<GroupList, AllocError>
    ensures { IfOk result (λ list. list ≡ passing 0 65536 (switches_by tasks.now verdicts.now)) }
{
    match groups_in_turn(alloc, tasks, verdicts)? {
        Some(groups) => GroupList::from_vec(alloc, groups),
        None => {
            let switching = switching_set(alloc, tasks, verdicts)?;
            group_list(alloc, &switching)
        }
    }
}

/// The groups that switch by these verdicts, where each verdict is of a greater group than those
/// before it, as where each task is its own group: then each admitted one switches its group. None
/// where they aren't in turn.
fn groups_in_turn(
    alloc: Global,
    tasks: &TaskTable,
    verdicts: &[Verdict],
) -> Result<Option<Vec<GroupId>>, AllocError>
    ensures { IfOk result (λ told. IfSome told (λ groups. group_numbers groups.items ≡ passing 0 65536 (switches_by tasks.now verdicts.now))) }
{
    let mut groups = Vec::new(alloc);
    let mut from = 0u32;
    for verdict in verdicts {
        let Some(group) = group_from(tasks, verdict.task, from) else {
            return Ok(None);
        };
        if verdict.blame.is_none() {
            groups.push(group)?;
        }
        from = u32::from(group.0) + 1;
    }
    Ok(Some(groups))
}

/// The group of a live task, where its number is at or above another.
fn group_from(tasks: &TaskTable, task: TaskId, from: u32) -> Option<GroupId>
    ensures later { IfSome result (λ group. (from ≤ group.0) × (group.0 < 65536)) }
    ensures member { IfSome result (λ group. (n : ℕ) → is_in n (slot tasks.now task.0) ≡ nat_eq group.0 n) }
{
    let group = tasks.group_of(task)?;
    if u32::from(group.0) < from {
        return None;
    }
    Some(group)
}

/// The groups that switch by these verdicts as a set.
fn switching_set(
    alloc: Global,
    tasks: &TaskTable,
    verdicts: &[Verdict],
) -> Result<NumberSet, AllocError>
    ensures { IfOk result (λ set. (group : ℕ) → has set group ≡ switches_by tasks.now verdicts.now group) }
{
    let mut switching = NumberSet::new(alloc)?;
    add_admitted(&mut switching, tasks, verdicts);
    remove_refused(&mut switching, tasks, verdicts);
    Ok(switching)
}

/// A group of which no member was looked at must not switch, so the admitted come first.
fn add_admitted(groups: &mut NumberSet, tasks: &TaskTable, verdicts: &[Verdict])
    ensures { (group : ℕ) → has groups.new group ≡ (has groups.old group || list_any (is_found tasks.now false group) verdicts.now) }
{
    for verdict in verdicts {
        if verdict.blame.is_none() {
            add_group(groups, tasks, verdict.task);
        }
    }
}

/// One refused member keeps its whole group: else the group would run two versions.
fn remove_refused(groups: &mut NumberSet, tasks: &TaskTable, verdicts: &[Verdict])
    ensures { (group : ℕ) → has groups.new group ≡ (has groups.old group && not (list_any (is_found tasks.now true group) verdicts.now)) }
{
    for verdict in verdicts {
        if verdict.blame.is_some() {
            remove_group(groups, tasks, verdict.task);
        }
    }
}

/// The groups of the live tasks of a set.
#[tactic(auto, using(lp_tasks::proofs::AscendingLemmas::in_order))]
pub(super) fn groups_in(
    alloc: Global,
    tasks: &TaskTable,
    set: &NumberSet,
) -> Result<NumberSet, AllocError>
    ensures { IfOk result (λ groups. (group : ℕ) → has groups group ≡ list_any (λ t. is_in group (slot tasks.now t)) (passing 0 65536 (has set.now))) }
{
    let mut groups = NumberSet::new(alloc)?;
    for number in set {
        add_group(&mut groups, tasks, TaskId(number));
    }
    Ok(groups)
}

/// Takes in the group of a live task.
pub(super) fn add_group(groups: &mut NumberSet, tasks: &TaskTable, task: TaskId)
    ensures { (group : ℕ) → has groups.new group ≡ (has groups.old group || is_in group (slot tasks.now task.0)) }
{
    if let Some(live) = tasks.get(task) {
        groups.insert(live.group().0);
    }
}

/// Takes out the group of a live task.
pub(super) fn remove_group(groups: &mut NumberSet, tasks: &TaskTable, task: TaskId)
    ensures { (group : ℕ) → has groups.new group ≡ (has groups.old group && not (is_in group (slot tasks.now task.0))) }
{
    if let Some(live) = tasks.get(task) {
        groups.remove(live.group().0);
    }
}

/// Whether a task waits, and these verdicts, which are by increasing number, are of all that do and
/// admit each. It stops at the first that doesn't fit.
fn completes(waiting: &NumberSet, verdicts: &[Verdict]) -> bool
    ensures { IsTrue result ↔ ((all_admit verdicts.now ≡ true) × (tasks_of verdicts.now ≡ passing 0 65536 (has waiting.now))) }
{
    let mut tasks = waiting.iter();
    for verdict in verdicts {
        if verdict.blame.is_some() {
            return false;
        }
        if tasks.next() != Some(verdict.task.0) {
            return false;
        }
    }
    !verdicts.is_empty() && tasks.next().is_none()
}

/// Whether a task was admitted.
fn any_admits(verdicts: &[Verdict]) -> bool
    ensures { result ≡ list_any (λ verdict. is_none verdict.blame) verdicts.now }
{
    verdicts.iter().any(|verdict| verdict.blame.is_none())
}
