//! What an accepted event does to the engine. Nothing here allocates.
//!
//! A quiet event changes its task before anything else is written: so the record by which it was found acceptable is still
//! known and isn't looked up once more.
ghost use Rattle.std.specs.Prelude.{◌≡◌, [], ◌<◌, None, Some};
ghost use Rattle.lp_transition.specs.inside.Births.{born_of};
ghost use Rattle.lp_transition.specs.Blames.{AreBlamesAfter};
ghost use Rattle.lp_transition.specs.LastScan.{IsLastScanAfter};
ghost use Rattle.lp_machine.specs.Table.{state_in};
ghost use Rattle.lp_machine.specs.Machine.{refusal_of, next};
ghost use Rattle.lp_transition.specs.inside.Moves.{moved_by};

use super::Core;
use super::control::put_number;
use super::weigh::{group_of, level_of};
use crate::Event;
use lp_model::{Consistency, ForkKind};
use lp_stack::{Class, Mode, TaskId};
use lp_symbols::SymId;
use lp_tasks::LiveTask;

impl<M: Consistency> Core<M> {
    /// The event's number is the frame's serial, so no serial comes twice in a run.
    #[inline(always)]
    pub(super) fn take_call(&mut self, task: TaskId, func: SymId)
        requires room { self.old.number < 1000000 }
        requires accepted { refusal_of M.rules (state_in self.old) (Event.Call task func) ≡ None }
        ensures state { state_in self.new ≡ next M.rules (state_in self.old) (Event.Call task func) }
        ensures blames { AreBlamesAfter M.rules self.old (Event.Call task func) [] self.new }
        ensures last_scan { IsLastScanAfter M.rules self.old (Event.Call task func) self.new }
    {
        self.tasks.call(task, func, self.events + 1);
        self.events += 1;
        self.unchanged.touch(&self.tasks, &self.blames, task);
    }

    /// An accepted return. The blame goes first: only then is a group that it held back one to which something happened.
    #[inline(always)]
    pub(super) fn take_ret(&mut self, task: TaskId)
        requires room { self.old.number < 1000000 }
        requires accepted { refusal_of M.rules (state_in self.old) (Event.Ret task) ≡ None }
        ensures state { state_in self.new ≡ next M.rules (state_in self.old) (Event.Ret task) }
        ensures blames { AreBlamesAfter M.rules self.old (Event.Ret task) [] self.new }
        ensures last_scan { IsLastScanAfter M.rules self.old (Event.Ret task) self.new }
    {
        self.tasks.ret(task);
        self.events += 1;
        self.blames.popped(&self.waiting, &self.tasks, task);
        self.unchanged.touch(&self.tasks, &self.blames, task);
    }

    /// An accepted event that moves a task: it is in this mode afterwards.
    #[inline(always)]
    pub(super) fn take_move(&mut self, event: Event, task: TaskId, mode: Mode)
        requires room { self.old.number < 1000000 }
        requires accepted { refusal_of M.rules (state_in self.old) event ≡ None }
        requires moves { moved_by event ≡ Some (task, mode) }
        ensures state { state_in self.new ≡ next M.rules (state_in self.old) event }
        ensures blames { AreBlamesAfter M.rules self.old event [] self.new }
        ensures last_scan { IsLastScanAfter M.rules self.old event self.new }
    {
        self.tasks.set_mode(task, mode);
        self.events += 1;
        self.unchanged.touch(&self.tasks, &self.blames, task);
    }

    /// A child of a parent that switched is on the target already, and waits for nothing.
    pub(super) fn take_fork(&mut self, parent: TaskId, child: TaskId, how: ForkKind)
        requires room { self.old.number < 1000000 }
        requires accepted { refusal_of M.rules (state_in self.old) (Event.Fork parent child how) ≡ None }
        ensures state { state_in self.new ≡ next M.rules (state_in self.old) (Event.Fork parent child how) }
        ensures blames { AreBlamesAfter M.rules self.old (Event.Fork parent child how) [] self.new }
        ensures last_scan { IsLastScanAfter M.rules self.old (Event.Fork parent child how) self.new }
    {
        let live = self.child(parent, child, how);
        let waits = live.level() != self.target;
        self.events += 1;
        put_number(&mut self.waiting, child.0, waits);
        self.tasks.put(child, live);
        self.unchanged.touch(&self.tasks, &self.blames, child);
    }

    /// The child of an accepted fork, which begins in the kernel on its parent's level.
    fn child(&self, parent: TaskId, child: TaskId, how: ForkKind) -> LiveTask
        requires { refusal_of M.rules (state_in self.now) (Event.Fork parent child how) ≡ None }
        ensures { born_of M.rules (state_in self.now) (Event.Fork parent child how) ≡ Some result }
    {
        let group = self
            .model
            .child_group(group_of(&self.tasks, parent), child, how);
        let level = level_of(&self.tasks, parent);
        LiveTask::new(Class::Normal, Mode::Kernel, group, level)
    }

    /// The number stays used: a name that meant two tasks would make certificates ambiguous.
    pub(super) fn take_die(&mut self, task: TaskId)
        requires room { self.old.number < 1000000 }
        requires accepted { refusal_of M.rules (state_in self.old) (Event.Die task) ≡ None }
        ensures state { state_in self.new ≡ next M.rules (state_in self.old) (Event.Die task) }
        ensures blames { AreBlamesAfter M.rules self.old (Event.Die task) [] self.new }
        ensures last_scan { IsLastScanAfter M.rules self.old (Event.Die task) self.new }
    {
        self.events += 1;
        self.waiting.remove(task.0);
        self.unchanged.touch(&self.tasks, &self.blames, task);
        self.tasks.remove(task);
        self.unchanged.reset_if_done(&self.waiting);
    }
}
