//! The engine: the tasks, and the transition that takes them from one level to another.
ghost use Rattle.std.specs.Prelude.{◌≡◌, ◌≤◌, ◌<◌, ℕ, None, Some, not, is_some, length, true, false, IfSome, IfNone};
ghost use Rattle.lp_numbers.specs.Numbers.{has};
ghost use Rattle.lp_tasks.specs.inside.Table.{is_in};
ghost use Rattle.std.specs.Option.{ForSome, option_map};
ghost use Rattle.lp_patch.specs.Aimed.{aimed};
ghost use Rattle.lp_tasks.specs.Passing.{passing};
ghost use Rattle.lp_transition.specs.Scan.{MayLeaveOut};
ghost use Rattle.lp_definitions.specs.Sound.{IsSound};
ghost use Rattle.lp_machine.specs.Table.{IsWide, slot, leg_tasks, bounds_of, state_in};
ghost use Rattle.lp_transition.specs.Blames.{blame_of, has_frame_in, is_open, AreOfWaiting};
ghost use Rattle.lp_model.specs.declared.check.CheckKind.{CheckKind};
ghost use Rattle.lp_definitions.specs.Leg.{is_alone};
ghost use Rattle.lp_stack.specs.TaskView.{seen};
ghost use Rattle.lp_machine.specs.Machine.{complete_in, outlines_of, view_of};

mod blames;
mod boot;
mod control;
mod dispatch;
mod first_refusals;
mod open_scan;
mod opening;
mod own_check;
mod quiet_scan;
mod refuse;
mod scan;
mod step;
mod switches;
mod take;
mod unchanged;
mod weigh;

use blames::Blames;
pub use boot::BootFault;
use lp_machine::StandingBlame;
use lp_model::Consistency;
use lp_numbers::{Ascending, NumberSet};
use lp_patch::{Aim, PatchStack};
use lp_stack::{GroupId, Level, TaskId, View};
use lp_tasks::TaskTable;
use std::marker::Model;
pub use step::{Halt, Step};
use unchanged::Unchanged;

/// The engine over a consistency model: it decides at each event which tasks switch.
///
/// Contracts see what it keeps: the number of events so far, the levels from which and to which it
/// goes, the patches, the tasks by their numbers, the standing blames of the groups, and what is
/// known of the last scan.
pub struct Core<M: Consistency> {
    model: M,
    patches: PatchStack,
    from: Level,
    target: Level,
    events: u32,
    tasks: TaskTable,
    /// The live tasks off the target.
    waiting: NumberSet,
    unchanged: Unchanged,
    blames: Blames,
    /// The groups of which the present scan refused a member; of use in a scan alone.
    refused: NumberSet,
}

/// By hand, so that the proof of who owns one lets go of it in one step, not field by field.
impl<M: Consistency> Drop for Core<M> {
    fn drop(self) {
        let Core {
            model: _,
            patches: _,
            from: _,
            target: _,
            events: _,
            tasks: _,
            waiting: _,
            unchanged: _,
            blames: _,
            refused: _,
        } = self;
    }
}

impl<M: Consistency> Model for Core<M> {
    ghost use Rattle.lp_machine.specs.Table.{Engine};
    ghost use Rattle.lp_transition.specs.inside.Invariant.{IsWhole, told_scan};

    ghost Value = { Engine };

    ghost view = { λ c. record { number = c.events; from = c.from.0; target = c.target.0; patches = c.patches; table = c.tasks; blames = c.blames; last_scan = told_scan c.unchanged } };

    ghost invariant = { λ c. IsWhole M.rules (record { number = c.events; from = c.from.0; target = c.target.0; patches = c.patches; table = c.tasks; blames = c.blames; last_scan = told_scan c.unchanged }) c.waiting c.unchanged };
}

impl<M: Consistency> Core<M> {
    ghost use Rattle.lp_patch.specs.Patches.{Aim};

    /// How many events are numbered.
    pub fn events(&self) -> u64
        ensures value { result ≡ self.now.number }
        ensures fits { result ≤ 1000000 }
        ensures sound { IsSound (state_in self.now) }
        ensures wide { IsWide self.now.table }
        ensures blamed { AreOfWaiting self.now }
    {
        u64::from(self.events)
    }

    /// The model.
    pub fn model(&self) -> M {
        self.model
    }

    /// The level to which the tasks switch, or on which all are.
    pub fn target(&self) -> Level
        ensures { result.0 ≡ self.now.target }
    {
        self.target
    }

    /// The patches and the target, borrowed.
    pub fn aim(&self) -> Aim<'_>
        ensures { aimed result ≡ record { patches = self.now.patches; target = self.now.target } }
    {
        Aim {
            patches: &self.patches,
            target: self.target,
        }
    }

    /// Whether a transition is under way: a live task is off the target.
    pub fn in_transition(&self) -> bool
        ensures { result ≡ not (complete_in (state_in self.now)) }
    {
        !self.waiting.is_empty()
    }

    /// The level of a live task; None for any other.
    pub fn side_of(&self, task: TaskId) -> Option<Level>
        ensures { option_map (λ level. level.0) result ≡ option_map (λ x. x.level) (slot self.now.table task.0) }
    {
        self.tasks.level_of(task)
    }

    /// A live task as it stands, borrowed; None for any other.
    pub fn task(&self, task: TaskId) -> Option<View<'_>>
        ensures { option_map seen result ≡ option_map (view_of task.0) (slot self.now.table task.0) }
    {
        let live = self.tasks.get(task)?;
        Some(live.view(task))
    }

    /// The group of a live task; None for any other.
    pub fn group_of(&self, task: TaskId) -> Option<GroupId>
        ensures { option_map (λ group. group.0) result ≡ option_map (λ x. x.group) (slot self.now.table task.0) }
    {
        self.tasks.group_of(task)
    }

    /// Whether a frame with this serial is on the stack of a live task.
    pub fn has_frame(&self, task: TaskId, serial: u64) -> bool
        ensures { result ≡ has_frame_in (state_in self.now) task.0 serial }
    {
        let Some(live) = self.tasks.get(task) else {
            return false;
        };
        live.has_frame(serial)
    }

    /// The standing blame of a group: a frame by which every check of it is refused until the frame is
    /// popped or the leg ends. None where there is none.
    pub fn standing_blame(&self, group: GroupId) -> Option<StandingBlame>
        ensures blame { result ≡ blame_of self.now group.0 }
        // A waiting group that has one is refused at every kind of check.
        ensures refused { (kind : CheckKind) → MayLeaveOut M.rules kind (state_in self.now) (is_open self.now) }
    {
        self.blames.of(group)
    }

    /// Whether a task is live, and the only live member of its group.
    pub fn is_alone(&self, task: TaskId) -> bool
        ensures dead { slot self.now.table task.0 ≡ None → result ≡ false }
        ensures alone { ForSome (slot self.now.table task.0) (λ x. result ≡ is_alone (bounds_of self.now.patches) (outlines_of (leg_tasks self.now.table)) x.group task.0) }
    {
        match self.tasks.get(task) {
            Some(live) => self.tasks.is_alone(live.group(), task),
            None => false,
        }
    }

    /// The numbers of the live tasks in increasing order.
    pub fn live(&self) -> Ascending<'_>
        ensures numbers { result ≡ passing 0 65536 (λ t. is_some (slot self.now.table t)) }
        ensures sound { IsSound (state_in self.now) }
        ensures wide { IsWide self.now.table }
    {
        self.tasks.live()
    }

    /// The groups that have a live task.
    pub fn groups(&self) -> &NumberSet
        ensures some { (group : ℕ) → has result.now group ≡ true → (t : ℕ) × (is_in group (slot self.now.table t) ≡ true) }
        ensures none { (group : ℕ) → has result.now group ≡ false → (t : ℕ) → is_in group (slot self.now.table t) ≡ false }
        ensures few { (group : ℕ) → has result.now group ≡ true → group < 65536 }
    {
        self.tasks.groups()
    }

    /// The level of a group's live tasks, which are all on one; None where it has none.
    pub fn group_level(&self, group: GroupId) -> Option<Level>
        ensures member { IfSome result (λ level. (t : ℕ) × (is_in group.0 (slot self.now.table t) ≡ true)) }
        ensures members { IfSome result (λ level. (t : ℕ) → is_in group.0 (slot self.now.table t) ≡ true → option_map (λ x. x.level) (slot self.now.table t) ≡ Some level.0) }
        ensures none { IfNone result ((t : ℕ) → is_in group.0 (slot self.now.table t) ≡ false) }
    {
        let task = self.tasks.first_of(group)?;
        self.tasks.level_of(task)
    }
}
