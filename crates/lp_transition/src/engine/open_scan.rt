//! Open scans, which ask the members of some groups alone: of each of the others a member's refusal
//! still stands.
ghost use Rattle.std.specs.Prelude.{◌≡◌, ◌<◌, ◌≤◌, ◌↔◌, ◌&&◌, ◌||◌, ℕ, true, Err, Some, map, nat_eq, IfOk, IfSome, IsTrue};
ghost use Rattle.std.specs.List.{filter, filter_map, list_any};
ghost use Rattle.std.specs.Option.{option_map};
ghost use Rattle.lp_patch.specs.Aimed.{aimed};
ghost use Rattle.lp_stack.specs.TaskView.{seen};
ghost use Rattle.lp_numbers.specs.Numbers.{has};
ghost use Rattle.lp_machine.specs.Table.{slot, state_in};
ghost use Rattle.lp_model.specs.declared.check.CheckKind.{CheckKind};
ghost use Rattle.lp_transition.specs.Blames.{is_open};
ghost use Rattle.lp_transition.specs.LastScan.{TellOfChanges, used_scan};
ghost use Rattle.lp_transition.specs.Weigh.{IsWeighed, may_allocate};
ghost use Rattle.lp_machine.specs.Steps.{IsReply};
ghost use Rattle.lp_transition.specs.Scan.{is_asked, is_scan_kind, scan_event, AreEnough, MayLeaveOut, verdict_of, verdicts_among, views_of};
ghost use Rattle.lp_tasks.specs.Passing.{passing};
ghost use Rattle.lp_transition.specs.inside.ScanSteps.{IsOwnGroup, waiting_slot};
ghost use Rattle.lp_tasks.specs.inside.Table.{is_in};
ghost use Rattle.lp_transition.specs.declared.engine.step.Halt.TheVariants.{NoMemory, JournalFull};
ghost use Rattle.lp_machine.specs.Machine.{answer, view_of};

use super::Core;
use super::scan::waiting_task;
use super::step::{Halt, Step};
use crate::{Event, MOST_EVENTS};
use lp_model::{CheckKind, Consistency, Verdict};
use lp_numbers::NumberSet;
use lp_patch::Aim;
use lp_stack::{GroupId, TaskId, View};
use lp_tasks::TaskTable;
use std::alloc::{AllocError, Global};

impl<M: Consistency> Core<M> {
    /// Any event, weighed; a walk or a stop after a look at the waiting tasks alone whose groups
    /// changed since the last scan of the leg, if that was of this kind. Makes each allocation that
    /// `take` needs: NoMemory where one failed, JournalFull where no event is left.
    pub fn weigh_changed(&self, alloc: Global, event: Event) -> Result<Step, Halt>
        ensures full { (result ≡ Err JournalFull) ↔ (1000000 ≤ self.now.number) }
        ensures memory { result ≡ Err NoMemory → IsTrue (may_allocate event (answer M.rules (state_in self.now) event).what) }
        ensures reply { IfOk result (λ step. IsReply M.rules (state_in self.now) event step.reply) }
        ensures weighed { IfOk result (λ step. IsWeighed M.rules self.now step) }
        ensures event { IfOk result (λ step. step.event ≡ event) }
        ensures told { IfOk result (λ step. (kind : CheckKind) → used_scan M.rules event ≡ Some kind → TellOfChanges M.rules self.now kind step.verdicts) }
    {
        match event {
            Event::Walk => self.weigh_changed_scan(alloc, CheckKind::Walk),
            Event::Stop => self.weigh_changed_scan(alloc, CheckKind::Stop),
            _ => self.weigh(alloc, event),
        }
    }

    /// The groups that a walk or a stop of this kind has to ask, if it needn't ask all that wait: the leg's last
    /// scan was of this kind, and nothing happened since to any other group that waits, so that the scan would
    /// refuse it again.
    pub fn changed_since(&self, kind: CheckKind) -> Option<&NumberSet>
        ensures last { IfSome result (λ changed. (self.now.last_scan.kind ≡ Some kind) × (changed.now ≡ self.now.last_scan.changed)) }
        ensures others { IfSome result (λ changed. MayLeaveOut M.rules kind (state_in self.now) (has changed.now)) }
    {
        self.unchanged.asked(kind)
    }

    /// The same of a walk or a stop of this kind.
    fn weigh_changed_scan(&self, alloc: Global, kind: CheckKind) -> Result<Step, Halt>
        requires scan { is_scan_kind kind ≡ true }
        ensures full { (result ≡ Err JournalFull) ↔ (1000000 ≤ self.now.number) }
        ensures reply { IfOk result (λ step. IsReply M.rules (state_in self.now) (scan_event kind) step.reply) }
        ensures weighed { IfOk result (λ step. IsWeighed M.rules self.now step) }
        ensures event { IfOk result (λ step. step.event ≡ scan_event kind) }
        ensures told { IfOk result (λ step. IsTrue (M.rules.uses kind) → TellOfChanges M.rules self.now kind step.verdicts) }
    {
        if self.events >= MOST_EVENTS {
            return Err(Halt::JournalFull);
        }
        let found = self.changed_verdicts(alloc, kind)?;
        Ok(self.weigh_found(alloc, kind, found)?)
    }

    /// After the first scan of a leg a further one costs what changed, and not what waits. The first looks at every waiting task, or at
    /// none where the model doesn't use the check.
    fn changed_verdicts(&self, alloc: Global, kind: CheckKind) -> Result<Vec<Verdict>, AllocError>
        ensures enough { IfOk result (λ found. AreEnough M.rules kind (state_in self.now) found.items) }
        ensures told { IfOk result (λ found. IsTrue (M.rules.uses kind) → TellOfChanges M.rules self.now kind found.items) }
    {
        // For the proof alone, which knows what every value keeps once a field is read.
        let _ = &self.tasks;
        if let Some(changed) = self.changed_since(kind) {
            return self.first_refusals(alloc, kind, changed);
        }
        if !self.model.uses(kind) {
            return Ok(Vec::new(alloc));
        }
        self.all_verdicts(alloc, kind)
    }

    /// What a check finds of the waiting tasks of some groups, by increasing number; None where a group has other members than the
    /// task of its number. Most groups have no other: then they are the tasks to look at, and no set of members has to be made.
    pub(super) fn own_verdicts(
        &self,
        alloc: Global,
        kind: CheckKind,
        groups: &NumberSet,
    ) -> Result<Option<Vec<Verdict>>, AllocError>
        ensures { IfOk result (λ told. IfSome told (λ found. found.items ≡ verdicts_among M.rules kind (state_in self.now) (has groups.now))) }
    {
        let aim = self.aim();
        own_found(
            alloc,
            &self.model,
            kind,
            &aim,
            &self.tasks,
            &self.waiting,
            groups,
        )
    }

    /// The waiting tasks as checks see them whose groups have no standing blame, by increasing number;
    /// AllocError where an allocation failed.
    pub fn open_views(&self, alloc: Global) -> Result<Vec<View<'_>>, AllocError>
        ensures { IfOk result (λ views. map seen views.items ≡ filter (λ view. is_asked (state_in self.now) (is_open self.now) view.task) (views_of (state_in self.now))) }
    {
        let all = self.views(alloc)?;
        let mut kept = Vec::new(alloc);
        for view in &all {
            if self.is_open_to(view.task) {
                kept.push(*view)?;
            }
        }
        Ok(kept)
    }

    /// Whether a task is live and its group has no standing blame.
    fn is_open_to(&self, task: TaskId) -> bool
        ensures { result ≡ is_asked (state_in self.now) (is_open self.now) task.0 }
    {
        match self.tasks.group_of(task) {
            Some(group) => self.blames.of(group).is_none(),
            None => false,
        }
    }

    /// The answer to a walk or a stop, by what its checks found of the waiting tasks whose groups have
    /// no standing blame: each other group it would refuse. NoMemory where an allocation failed,
    /// JournalFull where no event is left.
    pub fn weigh_open(
        &self,
        alloc: Global,
        kind: CheckKind,
        verdicts: &[Verdict],
    ) -> Result<Step, Halt>
        requires scan { is_scan_kind kind ≡ true }
        requires found { verdicts.now ≡ verdicts_among M.rules kind (state_in self.now) (is_open self.now) }
        ensures full { (result ≡ Err JournalFull) ↔ (1000000 ≤ self.now.number) }
        ensures reply { IfOk result (λ step. IsReply M.rules (state_in self.now) (scan_event kind) step.reply) }
        ensures weighed { IfOk result (λ step. IsWeighed M.rules self.now step) }
        ensures event { IfOk result (λ step. step.event ≡ scan_event kind) }
        ensures verdicts { IfOk result (λ step. step.verdicts ≡ verdicts.now) }
    {
        if self.events >= MOST_EVENTS {
            return Err(Halt::JournalFull);
        }
        let copied = Vec::from_slice(alloc, verdicts)?;
        Ok(self.weigh_found(alloc, kind, copied)?)
    }
}

/// What a check finds of the waiting tasks of the numbers of some groups, by increasing number; None where a group has another live
/// member, or the task of its number is of another group.
#[tactic(auto, using(lp_tasks::proofs::AscendingLemmas::in_order))]
fn own_found<M: Consistency>(
    alloc: Global,
    model: &M,
    kind: CheckKind,
    aim: &Aim<'_>,
    tasks: &TaskTable,
    waiting: &NumberSet,
    groups: &NumberSet,
) -> Result<Option<Vec<Verdict>>, AllocError>
    ensures own { IfOk result (λ told. IfSome told (λ found. (group : ℕ) → group < 65536 → has groups.now group ≡ true → IsOwnGroup tasks.now group)) }
    ensures found { IfOk result (λ told. IfSome told (λ found. found.items ≡ map (verdict_of M.rules kind (aimed aim.now)) (filter_map (λ t. option_map (view_of t) (waiting_slot tasks.now waiting.now t)) (passing 0 65536 (has groups.now))))) }
{
    let mut found = Vec::new(alloc);
    for number in groups {
        if !is_own(tasks, number) {
            return Ok(None);
        }
        let task = TaskId(number);
        if let Some(live) = waiting_task(tasks, waiting, task) {
            found.push(Verdict::of(model, kind, &live.view(task), aim))?;
        }
    }
    Ok(Some(found))
}

/// Whether a group has no other live member than the task of its number, which has no other group.
fn is_own(tasks: &TaskTable, number: u16) -> bool
    ensures { IsTrue result → IsOwnGroup tasks.now number }
{
    let group = GroupId(number);
    let task = TaskId(number);
    match tasks.get(task) {
        Some(_) => tasks.is_alone(group, task),
        None => tasks.is_empty_group(group),
    }
}

/// The live tasks of some groups, at the cost of the groups and of these tasks.
#[tactic(auto, using(lp_tasks::proofs::AscendingLemmas::in_order))]
pub(super) fn members_of(
    alloc: Global,
    tasks: &TaskTable,
    groups: &NumberSet,
) -> Result<NumberSet, AllocError>
    ensures { IfOk result (λ set. (task : ℕ) → has set task ≡ list_any (λ group. is_in group (slot tasks.now task)) (passing 0 65536 (has groups.now))) }
{
    let mut members = NumberSet::new(alloc)?;
    for group in groups {
        tasks.add_members(GroupId(group), &mut members);
    }
    Ok(members)
}
