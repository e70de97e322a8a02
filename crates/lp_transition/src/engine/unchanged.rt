//! Which waiting groups a scan needn't ask again, and which waiting tasks it would admit again.
ghost use Rattle.std.specs.Prelude.{◌≡◌, ◌⊎◌, ◌&&◌, ◌||◌, not, ℕ, None, Some, is_some, is_none, nat_eq, false, IfOk, IfSome, IsTrue};
ghost use Rattle.std.specs.List.{list_any};
ghost use Rattle.lp_numbers.specs.Numbers.{has, IsEmpty};
ghost use Rattle.lp_machine.specs.Table.{slot};
ghost use Rattle.lp_transition.specs.inside.Blames.{blame_at};
ghost use Rattle.lp_transition.specs.inside.Invariant.{IsNoted};
ghost use Rattle.lp_transition.specs.inside.ScanSteps.{admits_task};
ghost use Rattle.lp_tasks.specs.inside.Table.{is_in};

use super::blames::Blames;
use lp_model::{CheckKind, Verdict};
use lp_numbers::NumberSet;
use lp_stack::TaskId;
use lp_tasks::TaskTable;
use std::alloc::{AllocError, Global};
use std::marker::Model;

/// What the engine keeps of its last scan: each group that waits and hasn't changed since is
/// refused by a scan of this kind again, and each task that waits is admitted by one, but for those
/// of a set. A group that a frame holds back is refused whatever happens to it.
pub(super) struct Unchanged {
    /// The kind of the leg's last scan that the model uses; None where there was none, or nobody
    /// waits.
    kind: Option<CheckKind>,
    /// The groups to which something happened since that no frame held back then, and of use where
    /// there was a scan.
    changed: NumberSet,
    /// The tasks that a scan may refuse, and of use where there was a scan. A task that doesn't wait
    /// may be among them.
    may_refuse: NumberSet,
}

/// By hand, so that the proof of who owns one lets go of it in one step, not field by field.
impl Drop for Unchanged {
    fn drop(self) {
        let Unchanged {
            kind: _,
            changed: _,
            may_refuse: _,
        } = self;
    }
}

impl Model for Unchanged {
    ghost use Rattle.lp_transition.specs.inside.Invariant.{KeptScan};

    ghost Value = { KeptScan };

    ghost view = { λ u. record { kind = u.kind; changed = u.changed; may_refuse = u.may_refuse } };
}

impl Unchanged {
    /// No scan; AllocError where an allocation failed.
    pub(super) fn new(alloc: Global) -> Result<Unchanged, AllocError>
        ensures { IfOk result (λ unchanged. unchanged.kind ≡ None) }
    {
        Ok(Unchanged {
            kind: None,
            changed: NumberSet::new(alloc)?,
            may_refuse: NumberSet::new(alloc)?,
        })
    }

    /// The groups that a scan of this kind has to ask, if it needn't ask all that wait.
    pub(super) fn asked(&self, kind: CheckKind) -> Option<&NumberSet>
        ensures { IfSome result (λ asked. (self.now.kind ≡ Some kind) × (asked.now ≡ self.now.changed)) }
    {
        if self.kind == Some(kind) {
            Some(&self.changed)
        } else {
            None
        }
    }

    /// The tasks that a scan of the last one's kind may refuse: it would admit each other one that waits.
    pub(super) fn may_refuse(&self) -> &NumberSet
        ensures { result.now ≡ self.now.may_refuse }
    {
        &self.may_refuse
    }

    /// Something happens to a task, or it is born. Without a scan before there is nothing to note,
    /// so that a quiet event then costs a look at the kind.
    #[inline(always)]
    pub(super) fn touch(&mut self, tasks: &TaskTable, blames: &Blames, task: TaskId)
        ensures kind { self.new.kind ≡ self.old.kind }
        ensures changed { (group : ℕ) → has self.new.changed group ≡ (has self.old.changed group || (is_some self.old.kind && (is_in group (slot tasks.now task.0) && is_none (blame_at blames.now group)))) }
        ensures may_refuse { (t : ℕ) → has self.new.may_refuse t ≡ (has self.old.may_refuse t || (is_some self.old.kind && nat_eq t task.0)) }
    {
        if self.kind.is_some() {
            add_open_group(&mut self.changed, tasks, blames, task);
            self.may_refuse.insert(task.0);
        }
    }

    /// A scan of these verdicts refused each group that waits after it. One that the model doesn't
    /// use would refuse them as well, but what the last one told is of more use.
    #[inline(always)]
    pub(super) fn scanned(
        &mut self,
        kind: CheckKind,
        is_used: bool,
        waiting: &NumberSet,
        verdicts: &[Verdict],
    )
        ensures used { IsTrue is_used → IsNoted kind waiting.now verdicts.now self.old self.new }
        ensures unused { is_used ≡ false → self.new ≡ self.old }
    {
        if is_used {
            self.begin(kind, waiting);
            remove_admitted(&mut self.may_refuse, verdicts);
        }
    }

    /// Whom a scan of another kind admitted says nothing of one of this kind, so that it may refuse
    /// all that wait.
    #[inline(always)]
    fn begin(&mut self, kind: CheckKind, waiting: &NumberSet)
        ensures kind { self.new.kind ≡ Some kind }
        ensures changed { IsEmpty self.new.changed }
        ensures may_refuse { ((self.old.kind ≡ Some kind) × (self.new.may_refuse ≡ self.old.may_refuse)) ⊎ (self.new.may_refuse ≡ waiting.now) }
    {
        if self.kind != Some(kind) {
            self.may_refuse.copy_from(waiting);
        }
        self.kind = Some(kind);
        self.clear_changed();
    }

    /// A scan of the last one's kind refused each group that waits, and told nothing else.
    #[inline(always)]
    pub(super) fn clear_changed(&mut self)
        ensures kind { self.new.kind ≡ self.old.kind }
        ensures changed { IsEmpty self.new.changed }
        ensures may_refuse { self.new.may_refuse ≡ self.old.may_refuse }
    {
        self.changed.clear();
    }

    /// Against another target the last scan says nothing.
    pub(super) fn reset(&mut self)
        ensures { self.new.kind ≡ None }
    {
        self.kind = None;
    }

    /// Where nobody waits there is nobody to leave out, and the events that follow cost less.
    pub(super) fn reset_if_done(&mut self, waiting: &NumberSet)
        ensures { (self.new ≡ self.old) ⊎ (self.new.kind ≡ None) }
    {
        if waiting.is_empty() {
            self.reset();
        }
    }
}

/// Takes in the group of a live task, if it has no standing blame.
fn add_open_group(groups: &mut NumberSet, tasks: &TaskTable, blames: &Blames, task: TaskId)
    ensures { (group : ℕ) → has groups.new group ≡ (has groups.old group || (is_in group (slot tasks.now task.0) && is_none (blame_at blames.now group))) }
{
    let Some(live) = tasks.get(task) else {
        return;
    };
    let group = live.group();
    if blames.of(group).is_some() {
        return;
    }
    groups.insert(group.0);
}

/// Takes out the tasks that were admitted.
fn remove_admitted(tasks: &mut NumberSet, verdicts: &[Verdict])
    ensures { (t : ℕ) → has tasks.new t ≡ (has tasks.old t && not (list_any (admits_task t) verdicts.now)) }
{
    for verdict in verdicts {
        if verdict.blame.is_none() {
            tasks.remove(verdict.task.0);
        }
    }
}
