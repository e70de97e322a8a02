//! Own checks: those that a task makes of itself where it returns to user space, at its idle point,
//! and where it would let another run.
ghost use Rattle.std.specs.Prelude.{◌≡◌, ℕ, [], ◌<◌, None, true, if◌then◌else◌, IfOk, IsErr, IsTrue};
ghost use Rattle.std.specs.Option.{ForSome};
ghost use Rattle.lp_transition.specs.Weigh.{is_switched};
ghost use Rattle.lp_transition.specs.Blames.{AreBlamesAfter, frame_blame, refused_first};
ghost use Rattle.lp_transition.specs.LastScan.{IsLastScanAfter};
ghost use Rattle.lp_machine.specs.Table.{slot, state_in};
ghost use Rattle.lp_machine.specs.Machine.{affected, switches_at, refusal_of, answer, next};
ghost use Rattle.lp_tasks.specs.inside.Table.{is_in};
ghost use Rattle.lp_tasks.specs.inside.OwnChecks.{is_own_kind, own_check_event, own_check_mode};

use super::Core;
use super::dispatch::done;
use super::weigh::{group_of, is_only, one_group};
use crate::{Reply, What};
use lp_machine::StandingBlame;
use lp_model::{Blame, CheckKind, Consistency};
use lp_stack::{Mode, TaskId, View};
use lp_tasks::own_check_mode;
use std::alloc::{AllocError, Global};

impl<M: Consistency> Core<M> {
    /// The answer to an accepted own check; AllocError where an allocation failed, which
    /// there is only where the task's group switches.
    pub(super) fn answer_own_check(
        &self,
        alloc: Global,
        kind: CheckKind,
        task: TaskId,
    ) -> Result<Reply, AllocError>
        requires own_check { is_own_kind kind ≡ true }
        requires room { self.now.number < 1000000 }
        requires accepted { refusal_of M.rules (state_in self.now) (own_check_event kind task) ≡ None }
        ensures memory { IsErr result → IsTrue (is_switched (answer M.rules (state_in self.now) (own_check_event kind task)).what) }
        ensures answer { IfOk result (λ reply. reply ≡ answer M.rules (state_in self.now) (own_check_event kind task)) }
    {
        // For the proof alone, which knows what every value keeps once a field is read.
        let _ = &self.tasks;
        if !self.own_check_switches(kind, task) {
            return Ok(done());
        }
        let waits_alone = is_only(&self.waiting, task.0);
        let groups = one_group(alloc, group_of(&self.tasks, task))?;
        Ok(Reply {
            what: What::Switched(groups),
            completed: waits_alone,
        })
    }

    /// Only the last member is asked here: with another one in the kernel the group's stacks aren't
    /// all known, and a switch would split it. An exit finds its task in user space already.
    fn own_check_switches(&self, kind: CheckKind, task: TaskId) -> bool
        requires own_check { is_own_kind kind ≡ true }
        requires accepted { refusal_of M.rules (state_in self.now) (own_check_event kind task) ≡ None }
        ensures { ForSome (slot self.now.table task.0) (λ x. result ≡ switches_at M.rules (affected M.rules (state_in self.now) (own_check_event kind task)) (own_check_event kind task) x.group) }
    {
        // First, as nearly all tasks that check themselves don't wait.
        if !self.waiting.contains(task.0) {
            return false;
        }
        let Some(live) = self.tasks.get(task) else {
            return false;
        };
        let alone = self.tasks.is_alone(live.group(), task);
        if !alone {
            return false;
        }
        let view = live.view(task);
        let found = View {
            task,
            class: view.class,
            mode: own_check_mode(kind, view.mode),
            frames: view.frames,
        };
        let aim = self.aim();
        self.model.admits(kind, &found, &aim)
    }

    /// The frame for which an own check in the kernel refuses its task, where the task waits and is the only member of its
    /// group.
    fn own_blame(&self, kind: CheckKind, task: TaskId) -> Option<StandingBlame>
        requires own_check { is_own_kind kind ≡ true }
        ensures { (group : ℕ) → frame_blame (refused_first M.rules (state_in self.now) (own_check_event kind task) [] group) ≡ (if is_in group (slot self.now.table task.0) then result else None) }
    {
        // For the proof alone, which knows what every value keeps once a field is read.
        let _ = &self.tasks;
        let CheckKind::Resched = kind else {
            return None;
        };
        if !self.waiting.contains(task.0) {
            return None;
        }
        if !self.model.uses(kind) {
            return None;
        }
        let live = self.tasks.get(task)?;
        let lone = self.tasks.is_alone(live.group(), task);
        if !lone {
            return None;
        }
        let aim = self.aim();
        let why = self.model.blame(kind, &live.view(task), &aim)?;
        let Blame::Frame(serial) = why else {
            return None;
        };
        Some(StandingBlame { task, serial })
    }

    /// The answer says whether the group switches, so the model isn't asked twice: its second
    /// answer could only be the same, at the cost of the task's frames.
    pub(super) fn take_own_check(&mut self, kind: CheckKind, task: TaskId, switching: bool)
        requires own_check { is_own_kind kind ≡ true }
        requires room { self.old.number < 1000000 }
        requires accepted { refusal_of M.rules (state_in self.old) (own_check_event kind task) ≡ None }
        requires switching { switching ≡ is_switched (answer M.rules (state_in self.old) (own_check_event kind task)).what }
        ensures state { state_in self.new ≡ next M.rules (state_in self.old) (own_check_event kind task) }
        ensures blames { AreBlamesAfter M.rules self.old (own_check_event kind task) [] self.new }
        ensures last_scan { IsLastScanAfter M.rules self.old (own_check_event kind task) self.new }
    {
        let found = self.own_blame(kind, task);
        self.events += 1;
        self.blames.note_own(&self.tasks, task, found);
        self.unchanged.touch(&self.tasks, &self.blames, task);
        self.tasks.reach_own_check(kind, task);
        if !switching {
            return;
        }
        self.waiting.remove(task.0);
        self.tasks.set_level(task, self.target);
        self.unchanged.reset_if_done(&self.waiting);
    }
}
