//! Scans that ask of each group no more than it takes to know its first member that they refuse.
ghost use Rattle.std.specs.Prelude.{◌≡◌, ◌&&◌, ◌||◌, not, true, ℕ, Some, IfOk};
ghost use Rattle.lp_numbers.specs.Numbers.{has};
ghost use Rattle.lp_transition.specs.Scan.{is_asked, verdicts_at};
ghost use Rattle.lp_machine.specs.Table.{state_in};
ghost use Rattle.lp_transition.specs.inside.FirstRefusals.{asked_slot, AdmitsOthers, AreTold, HasAsked};
ghost use Rattle.lp_transition.specs.inside.ScanSteps.{is_found, is_judged};

use super::Core;
use super::open_scan::members_of;
use super::scan::{remove_group, waiting_task};
use lp_model::{CheckKind, Consistency, Verdict};
use lp_numbers::NumberSet;
use lp_stack::{GroupId, TaskId};
use lp_tasks::{LiveView, TaskTable};
use std::alloc::{AllocError, Global};

/// The most members of a group whose members are gone over one by one.
const SMALL_GROUP: usize = 64;

impl<M: Consistency> Core<M> {
    /// What a scan of the kind of the leg's last one finds of enough of the waiting tasks of some groups to
    /// tell of each of them the first member that it refuses. Where each group has one member, it looks
    /// at all waiting members.
    pub(super) fn first_refusals(
        &self,
        alloc: Global,
        kind: CheckKind,
        groups: &NumberSet,
    ) -> Result<Vec<Verdict>, AllocError>
        requires last { self.now.last_scan.kind ≡ Some kind }
        ensures { IfOk result (λ told. AreTold M.rules kind (state_in self.now) (has groups.now) told.items) }
    {
        if let Some(found) = self.own_verdicts(alloc, kind, groups)? {
            return Ok(found);
        }
        self.first_told(alloc, kind, self.unchanged.may_refuse(), groups)
    }

    /// What a check finds of enough of the waiting tasks of some groups to tell of each of them the
    /// first member that it refuses; it would admit each waiting task outside a set.
    fn first_told(
        &self,
        alloc: Global,
        kind: CheckKind,
        may_refuse: &NumberSet,
        groups: &NumberSet,
    ) -> Result<Vec<Verdict>, AllocError>
        requires { AdmitsOthers M.rules kind (state_in self.now) (has may_refuse.now) }
        ensures { IfOk result (λ told. AreTold M.rules kind (state_in self.now) (has groups.now) told.items) }
    {
        // For the proof alone, which knows what every value keeps once a field is read.
        let _ = &self.tasks;
        let mut unrefused = groups.copy(alloc)?;
        let found = self.ask_members(alloc, kind, may_refuse, &mut unrefused)?;
        if unrefused.is_empty() {
            return Ok(found);
        }
        self.with_unrefused(alloc, kind, found.as_slice(), &unrefused)
    }

    /// Asks the members of some groups that may be refused. Where the groups are small it goes over
    /// their members, and else over all tasks that may be refused: a scan of one large group is then
    /// over at the first refusal, at no cost for the members after it.
    fn ask_members(
        &self,
        alloc: Global,
        kind: CheckKind,
        may_refuse: &NumberSet,
        unrefused: &mut NumberSet,
    ) -> Result<Vec<Verdict>, AllocError>
        ensures { IfOk result (λ found. HasAsked M.rules kind self.now (λ t. true) (has may_refuse.now) (has unrefused.old) 65536 found.items (has unrefused.new)) }
    {
        if !self.are_small(unrefused) {
            return self.ask_in_turn(alloc, kind, may_refuse, may_refuse, unrefused);
        }
        let members = members_of(alloc, &self.tasks, unrefused)?;
        self.ask_in_turn(alloc, kind, &members, may_refuse, unrefused)
    }

    /// Whether no group of a set has more than some tens of members. Only the cost depends on it.
    fn are_small(&self, groups: &NumberSet) -> bool {
        for number in groups {
            if self.tasks.has_more_than(GroupId(number), SMALL_GROUP) {
                return false;
            }
        }
        true
    }

    /// What a check finds of the candidates that wait and may be refused, one after the other. A group
    /// that is refused leaves the set, and its later members aren't asked.
    fn ask_in_turn(
        &self,
        alloc: Global,
        kind: CheckKind,
        candidates: &NumberSet,
        may_refuse: &NumberSet,
        unrefused: &mut NumberSet,
    ) -> Result<Vec<Verdict>, AllocError>
        ensures { IfOk result (λ found. HasAsked M.rules kind self.now (has candidates.now) (has may_refuse.now) (has unrefused.old) 65536 found.items (has unrefused.new)) }
    {
        let aim = self.aim();
        let mut found = Vec::new(alloc);
        for number in candidates {
            if unrefused.is_empty() {
                return Ok(found);
            }
            let task = TaskId(number);
            if let Some(live) = asked_task(
                &self.tasks,
                &self.waiting,
                may_refuse,
                unrefused,
                task,
            ) {
                let verdict = Verdict::of(&self.model, kind, &live.view(task), &aim);
                remove_refused(unrefused, &self.tasks, &verdict);
                found.push(verdict)?;
            }
        }
        Ok(found)
    }

    /// What a check finds of those who were asked, and of the members of the groups that aren't
    /// refused: these switch, so that each has to be looked at.
    fn with_unrefused(
        &self,
        alloc: Global,
        kind: CheckKind,
        found: &[Verdict],
        unrefused: &NumberSet,
    ) -> Result<Vec<Verdict>, AllocError>
        ensures { IfOk result (λ all. all.items ≡ verdicts_at M.rules kind (state_in self.now) (λ t. is_asked (state_in self.now) (has unrefused.now) t || is_judged found.now t)) }
    {
        let mut tasks = members_of(alloc, &self.tasks, unrefused)?;
        add_judged(&mut tasks, found);
        self.verdicts_in(alloc, kind, &tasks)
    }
}

/// The live task of a number, where it waits, may be refused, and is of a group that isn't refused so
/// far.
fn asked_task<'a>(
    tasks: &'a TaskTable,
    waiting: &NumberSet,
    may_refuse: &NumberSet,
    unrefused: &NumberSet,
    task: TaskId,
) -> Option<LiveView<'a>>
    ensures { result ≡ asked_slot tasks.now waiting.now may_refuse.now unrefused.now task.0 }
{
    if !may_refuse.contains(task.0) {
        return None;
    }
    let live = waiting_task(tasks, waiting, task)?;
    if unrefused.contains(live.group().0) {
        Some(live)
    } else {
        None
    }
}

/// A refusal is all that its group's other members could tell.
fn remove_refused(groups: &mut NumberSet, tasks: &TaskTable, verdict: &Verdict)
    ensures { (group : ℕ) → has groups.new group ≡ (has groups.old group && not (is_found tasks.now true group verdict.now)) }
{
    if verdict.blame.is_some() {
        remove_group(groups, tasks, verdict.task);
    }
}

/// Takes in the tasks of verdicts.
fn add_judged(tasks: &mut NumberSet, verdicts: &[Verdict])
    ensures { (t : ℕ) → has tasks.new t ≡ (has tasks.old t || is_judged verdicts.now t) }
{
    for verdict in verdicts {
        tasks.insert(verdict.task.0);
    }
}
