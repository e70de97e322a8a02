//! The live tasks by their numbers.
ghost use Rattle.std.specs.Prelude.{◌≡◌, ℕ, ◌<◌, ◌≤◌, ◌&&◌, ◌||◌, false, not, length, nat_eq, true, None, IfSome, IfNone, IsTrue, ◌↔◌, is_some, slice_set, vec_capacity, IfOk};
ghost use Rattle.std.specs.Option.{ForSome, option_map};
ghost use Rattle.lp_numbers.specs.Numbers.{has};
ghost use Rattle.lp_numbers.specs.Groups.{is_member};
ghost use Rattle.lp_tasks.specs.inside.Slots.{padded};
ghost use Rattle.lp_tasks.specs.Passing.{passing};
ghost use Rattle.lp_definitions.specs.Tasks.{is_unused};
ghost use Rattle.lp_machine.specs.Machine.{put_in, calling, returning};
ghost use Rattle.lp_tasks.specs.inside.OwnChecks.{at_own_check};

use crate::deep_stacks::DeepStacks;
use crate::live_task::{LiveTask, LiveView};
use lp_model::CheckKind;
use lp_numbers::{Ascending, Members, NUMBERS, NumberSet};
use lp_stack::{GroupId, Level, Mode, TaskId};
use lp_symbols::SymId;
use std::alloc::{AllocError, Global};
use std::marker::Model;

/// The live tasks, and the numbers that were ever used. Only `new` and `copy` allocate.
///
/// There is room for a slot of each number, but slots are made only as far as the greatest number that
/// was used: memory that nothing was written to costs nothing.
pub struct TaskTable {
    slots: Vec<Option<LiveTask>>,
    /// The stacks that the records have no room for.
    deep: DeepStacks,
    live: NumberSet,
    used: NumberSet,
    /// The live tasks of each group.
    members: Members,
}

/// By hand, so that the proof of who owns one lets go of it in one step, not field by field.
impl Drop for TaskTable {
    fn drop(self) {
        let TaskTable {
            slots: _,
            deep: _,
            live: _,
            used: _,
            members: _,
        } = self;
    }
}

impl Model for TaskTable {
    ghost use Rattle.std.specs.Prelude.{◌≡◌, ℕ, List, Option, is_some, length, map, vec_capacity};
    ghost use Rattle.std.specs.Option.{option_map};
    ghost use Rattle.lp_numbers.specs.Numbers.{has};
    ghost use Rattle.lp_definitions.specs.Leg.{LegTask};
    ghost use Rattle.lp_machine.specs.Table.{Table, slot, IsWide};
    ghost use Rattle.lp_tasks.specs.inside.Slots.{padded, IsTable};
    ghost use Rattle.lp_tasks.specs.inside.Deep.{deep_at, with_stacks, IsStored};

    ghost Value = { Table };

    ghost view = { λ t. record { slots = with_stacks (padded t.slots.items) (deep_at t.deep); used = t.used } };

    ghost invariant = { λ t. IsStored t.slots.items (vec_capacity t.slots) (deep_at t.deep) t.live t.used t.members };
}

impl TaskTable {
    ghost use Rattle.lp_definitions.specs.Leg.{LegTask};
    ghost use Rattle.lp_machine.specs.Table.{slot, leg_tasks, IsWide};
    ghost use Rattle.lp_tasks.specs.inside.Table.{changed, with_task, without_task, is_in, IsKnown, IsBlank};

    /// A table without tasks.
    pub fn new(alloc: Global) -> Result<Self, AllocError>
        ensures { IfOk result (λ table. IsBlank table) }
    {
        Ok(TaskTable {
            slots: Vec::with_capacity(alloc, NUMBERS)?,
            deep: DeepStacks::new(alloc)?,
            live: NumberSet::new(alloc)?,
            used: NumberSet::new(alloc)?,
            members: Members::new(alloc)?,
        })
    }

    /// The live task of a number.
    #[inline(always)]
    pub fn get(&self, task: TaskId) -> Option<LiveView<'_>>
        ensures value { result ≡ slot self.now task.0 }
        ensures wide { IsWide self.now }
        ensures known { IsKnown self.now task.0 }
    {
        let at = usize::from(task.0);
        if at >= self.slots.len() {
            return None;
        }
        match &self.slots[at] {
            Some(live) => Some(live.view(&self.deep, task)),
            None => None,
        }
    }

    /// The group of a live task; None for any other.
    pub fn group_of(&self, task: TaskId) -> Option<GroupId>
        ensures { option_map (λ group. group.0) result ≡ option_map (λ x. x.group) (slot self.now task.0) }
    {
        let live = self.get(task)?;
        Some(live.group())
    }

    /// The level of a live task; None for any other.
    #[inline(always)]
    pub fn level_of(&self, task: TaskId) -> Option<Level>
        ensures { option_map (λ level. level.0) result ≡ option_map (λ x. x.level) (slot self.now task.0) }
    {
        let live = self.get(task)?;
        Some(live.level())
    }

    /// Whether a number was ever used.
    pub fn is_used(&self, task: TaskId) -> bool
        ensures value { result ≡ has self.now.used task.0 }
        ensures known { IsKnown self.now task.0 }
        ensures fate { result ≡ not (is_unused (leg_tasks self.now task.0)) }
    {
        self.used.contains(task.0)
    }

    /// The numbers of the live tasks in increasing order.
    pub fn live(&self) -> Ascending<'_>
        ensures numbers { result ≡ passing 0 65536 (λ t. is_some (slot self.now t)) }
        ensures wide { IsWide self.now }
    {
        // For the proof alone, which knows what every value keeps once a field is read.
        let _ = &self.slots;
        self.live.iter()
    }

    /// The live tasks, as a set.
    pub fn live_set(&self) -> &NumberSet
        ensures { (t : ℕ) → has result.now t ≡ is_some (slot self.now t) }
    {
        // For the proof alone, which knows what every value keeps once a field is read.
        let _ = &self.slots;
        &self.live
    }

    /// The groups that have a live task.
    pub fn groups(&self) -> &NumberSet
        ensures some { (group : ℕ) → has result.now group ≡ true → (t : ℕ) × (is_in group (slot self.now t) ≡ true) }
        ensures none { (group : ℕ) → has result.now group ≡ false → (t : ℕ) → is_in group (slot self.now t) ≡ false }
        ensures few { (group : ℕ) → has result.now group ≡ true → group < 65536 }
    {
        // For the proof alone, which knows what every value keeps once a field is read.
        let _ = &self.slots;
        self.members.groups()
    }

    /// A live task of a group; None where it has none.
    pub fn first_of(&self, group: GroupId) -> Option<TaskId>
        ensures some { IfSome result (λ task. is_in group.0 (slot self.now task.0) ≡ true) }
        ensures none { IfNone result ((t : ℕ) → is_in group.0 (slot self.now t) ≡ false) }
    {
        // For the proof alone, which knows what every value keeps once a field is read.
        let _ = &self.slots;
        let number = self.members.first(group.0)?;
        Some(TaskId(number))
    }

    /// Whether a task is the only live one of a group.
    pub fn is_alone(&self, group: GroupId, task: TaskId) -> bool
        ensures { IsTrue result ↔ ((t : ℕ) → is_in group.0 (slot self.now t) ≡ nat_eq t task.0) }
    {
        // For the proof alone, which knows what every value keeps once a field is read.
        let _ = &self.slots;
        self.members.is_only(group.0, task.0)
    }

    /// Whether a group has no live task.
    pub fn is_empty_group(&self, group: GroupId) -> bool
        ensures { IsTrue result ↔ ((t : ℕ) → is_in group.0 (slot self.now t) ≡ false) }
    {
        // For the proof alone, which knows what every value keeps once a field is read.
        let _ = &self.slots;
        self.members.is_empty_group(group.0)
    }

    /// Whether a group has more live tasks than a number says, at the cost of at most so many of them.
    /// Only what a scan costs depends on it.
    pub fn has_more_than(&self, group: GroupId, most: usize) -> bool {
        // For the proof alone, which knows what every value keeps once a field is read.
        let _ = &self.slots;
        self.members.has_more_than(group.0, most)
    }

    /// Adds the live tasks of a group to a set, at the cost of these tasks.
    pub fn add_members(&self, group: GroupId, set: &mut NumberSet)
        ensures { (t : ℕ) → has set.new t ≡ (has set.old t || is_in group.0 (slot self.now t)) }
    {
        // For the proof alone, which knows what every value keeps once a field is read.
        let _ = &self.slots;
        self.members.add_to(group.0, set);
    }

    /// Makes a task live, under a number from 1 that no live task has.
    pub fn put(&mut self, task: TaskId, live: LiveTask)
        requires positive { 0 < task.0 }
        requires free { slot self.old task.0 ≡ None }
        ensures { self.new ≡ with_task task.0 live self.old }
    {
        self.members.insert(live.group().0, task.0);
        let at = usize::from(task.0);
        reach(&mut self.slots, at);
        self.slots[at] = Some(live);
        self.live.insert(task.0);
        self.used.insert(task.0);
    }

    /// Ends a task.
    pub fn remove(&mut self, task: TaskId)
        ensures removed { self.new ≡ without_task task.0 self.old }
        ensures known { IsKnown self.old task.0 }
    {
        let group = self.group_of(task);
        leave(&mut self.members, group, task);
        self.deep.remove(task);
        empty(&mut self.slots, task);
        self.live.remove(task.0);
    }

    /// The task calls a function, if it is live; it has room for one more frame.
    #[inline(always)]
    pub fn call(&mut self, task: TaskId, func: SymId, serial: u32)
        requires { ForSome (slot self.old task.0) (λ x. length x.frames < 100) }
        ensures { self.new ≡ changed task.0 (calling serial func) self.old }
    {
        let at = usize::from(task.0);
        if at >= self.slots.len() {
            return;
        }
        if let Some(live) = &mut self.slots[at] {
            live.call(&mut self.deep, task, func, serial);
        }
    }

    /// The task returns from the function that it called last, if it is live.
    #[inline(always)]
    pub fn ret(&mut self, task: TaskId)
        ensures { self.new ≡ changed task.0 returning self.old }
    {
        let at = usize::from(task.0);
        if at >= self.slots.len() {
            return;
        }
        if let Some(live) = &mut self.slots[at] {
            live.ret(&mut self.deep, task);
        }
    }

    /// Puts the task in a mode, if it is live.
    #[inline(always)]
    pub fn set_mode(&mut self, task: TaskId, mode: Mode)
        ensures { self.new ≡ changed task.0 (put_in mode) self.old }
    {
        let at = usize::from(task.0);
        if at >= self.slots.len() {
            return;
        }
        if let Some(live) = &mut self.slots[at] {
            live.set_mode(mode);
        }
    }

    /// The task is checked alone, if it is live.
    pub fn reach_own_check(&mut self, kind: CheckKind, task: TaskId)
        ensures { self.new ≡ changed task.0 (at_own_check kind) self.old }
    {
        let at = usize::from(task.0);
        if at >= self.slots.len() {
            return;
        }
        if let Some(live) = &mut self.slots[at] {
            live.reach_own_check(kind);
        }
    }

    /// Puts the task on a level, if it is live.
    pub fn set_level(&mut self, task: TaskId, level: Level)
        ensures { self.new ≡ changed task.0 (λ x. record x { level = level.0 }) self.old }
    {
        let at = usize::from(task.0);
        if at >= self.slots.len() {
            return;
        }
        if let Some(live) = &mut self.slots[at] {
            live.set_level(level);
        }
    }

    /// A copy of the table; an `Err` only where an allocation failed.
    pub fn copy(&self, alloc: Global) -> Result<Self, AllocError>
        ensures { IfOk result (λ copied. copied ≡ self.now) }
    {
        Ok(TaskTable {
            slots: copied_slots(alloc, self.slots.as_slice())?,
            deep: self.deep.copy(alloc)?,
            live: self.live.copy(alloc)?,
            used: self.used.copy(alloc)?,
            members: self.members.copy(alloc)?,
        })
    }
}

/// Takes a task out of its group, if it has one.
fn leave(members: &mut Members, group: Option<GroupId>, task: TaskId)
    requires member { IfSome group (λ own. is_member members.old own.0 task.0 ≡ true) }
    requires stranger { IfNone group ((other : ℕ) → is_member members.old other task.0 ≡ false) }
    ensures { (other n : ℕ) → is_member members.new other n ≡ (is_member members.old other n && not (nat_eq n task.0)) }
{
    if let Some(own) = group {
        members.remove(own.0, task.0);
    }
}

/// Makes the slots up to this one, without a task where they are new.
fn reach(slots: &mut Vec<Option<LiveTask>>, at: usize)
    requires within { at < 65536 }
    requires room { 65536 ≤ vec_capacity slots.old }
    requires few { length slots.old.items ≤ 65536 }
    ensures same { padded slots.new.items ≡ padded slots.old.items }
    ensures room { vec_capacity slots.new ≡ vec_capacity slots.old }
    ensures few { length slots.new.items ≤ 65536 }
    ensures reached { at < length slots.new.items }
{
    while slots.len() <= at {
        slots.push_reserved(None);
    }
}

/// Takes the record out of a task's slot, if the slot is made.
fn empty(slots: &mut Vec<Option<LiveTask>>, task: TaskId)
    requires { length slots.old.items ≤ 65536 }
    ensures emptied { padded slots.new.items ≡ slice_set (padded slots.old.items) task.0 None }
    ensures room { vec_capacity slots.new ≡ vec_capacity slots.old }
    ensures few { length slots.new.items ≤ 65536 }
{
    if let Some(slot) = slots.get_mut(usize::from(task.0)) {
        *slot = None;
    }
}

/// A copy of each slot, with room for one of each number.
fn copied_slots(
    alloc: Global,
    slots: &[Option<LiveTask>],
) -> Result<Vec<Option<LiveTask>>, AllocError>
    requires { length slots.now ≤ 65536 }
    ensures same { IfOk result (λ copied. copied.items ≡ slots.now) }
    ensures room { IfOk result (λ copied. 65536 ≤ vec_capacity copied) }
{
    let mut copied = Vec::with_capacity(alloc, NUMBERS)?;
    for slot in slots {
        copied.push_reserved(match slot {
            Some(live) => Some(live.copy()),
            None => None,
        });
    }
    Ok(copied)
}
