//! The engine as it stood when a leg opened.
ghost use Rattle.std.specs.Prelude.{◌≡◌, ◌≤◌, [], not, length, is_some, IfOk};
ghost use Rattle.std.specs.Option.{option_map};
ghost use Rattle.lp_stack.specs.TaskView.{seen};
ghost use Rattle.lp_tasks.specs.Passing.{passing};
ghost use Rattle.lp_definitions.specs.Tasks.{is_unused};
ghost use Rattle.lp_machine.specs.Machine.{view_of};
ghost use Rattle.lp_machine.specs.Table.{no_scan, slot, leg_tasks, state_in};
ghost use Rattle.lp_definitions.specs.Sound.{IsSound};
ghost use Rattle.lp_machine.specs.Steps.{OpensLegs};

use crate::task_table::TaskTable;
use lp_numbers::Ascending;
use lp_patch::PatchStack;
use lp_stack::{GroupId, Level, TaskId, View};
use std::marker::Model;

/// What an engine kept at some moment. Taken just after an accepted control event it is the opening
/// of that event's leg, which a checker needs long afterwards.
pub struct Opening {
    number: u32,
    from: Level,
    target: Level,
    patches: PatchStack,
    tasks: TaskTable,
}

/// By hand, so that the proof of who owns one lets go of it in one step, not field by field.
impl Drop for Opening {
    fn drop(self) {
        let Opening {
            number: _,
            from: _,
            target: _,
            patches: _,
            tasks: _,
        } = self;
    }
}

impl Model for Opening {
    ghost use Rattle.std.specs.Prelude.{[]};
    ghost use Rattle.lp_machine.specs.Table.{Engine, no_scan};
    ghost use Rattle.lp_tasks.specs.Openings.{IsOpening};

    ghost Value = { Engine };

    ghost view = { λ o. record { number = o.number; from = o.from.0; target = o.target.0; patches = o.patches; table = o.tasks; blames = []; last_scan = no_scan } };

    ghost invariant = { λ o. IsOpening (record { number = o.number; from = o.from.0; target = o.target.0; patches = o.patches; table = o.tasks; blames = []; last_scan = no_scan }) };
}

impl Opening {
    ghost use Rattle.lp_tasks.specs.Openings.{IsOpening};

    /// What an engine keeps that has numbered so many events, with the tasks in this table.
    pub fn new(
        number: u32,
        from: Level,
        target: Level,
        patches: PatchStack,
        tasks: TaskTable,
    ) -> Opening
        requires { IsOpening (record { number = number; from = from.0; target = target.0; patches = patches; table = tasks; blames = []; last_scan = no_scan }) }
        ensures { result ≡ record { number = number; from = from.0; target = target.0; patches = patches; table = tasks; blames = []; last_scan = no_scan } }
    {
        Opening {
            number,
            from,
            target,
            patches,
            tasks,
        }
    }

    /// How many events were numbered.
    pub fn number(&self) -> u64
        ensures value { result ≡ self.now.number }
        ensures sound { IsSound (state_in self.now) }
        ensures opening { IsOpening self.now }
    {
        u64::from(self.number)
    }

    /// The level from which the tasks switch.
    pub fn from(&self) -> Level
        ensures { result.0 ≡ self.now.from }
    {
        self.from
    }

    /// The level to which the tasks switch, or on which all were.
    pub fn target(&self) -> Level
        ensures { result.0 ≡ self.now.target }
    {
        self.target
    }

    /// The patches.
    pub fn patches(&self) -> &PatchStack
        ensures { result.now ≡ self.now.patches }
    {
        &self.patches
    }

    /// Whether a task had the number, then or before.
    pub fn used(&self, task: TaskId) -> bool
        ensures { result ≡ not (is_unused (leg_tasks self.now.table task.0)) }
    {
        self.tasks.is_used(task)
    }

    /// The numbers of the live tasks in increasing order.
    pub fn live(&self) -> Ascending<'_>
        ensures { result ≡ passing 0 65536 (λ t. is_some (slot self.now.table t)) }
    {
        self.tasks.live()
    }

    /// A live task as it stood, borrowed; None for any other.
    pub fn task(&self, task: TaskId) -> Option<View<'_>>
        ensures { option_map seen result ≡ option_map (view_of task.0) (slot self.now.table task.0) }
    {
        let live = self.tasks.get(task)?;
        Some(live.view(task))
    }

    /// The level of a live task; None for any other.
    pub fn level_of(&self, task: TaskId) -> Option<Level>
        ensures { option_map (λ level. level.0) result ≡ option_map (λ x. x.level) (slot self.now.table task.0) }
    {
        self.tasks.level_of(task)
    }

    /// The group of a live task; None for any other.
    pub fn group_of(&self, task: TaskId) -> Option<GroupId>
        ensures { option_map (λ group. group.0) result ≡ option_map (λ x. x.group) (slot self.now.table task.0) }
    {
        self.tasks.group_of(task)
    }
}
