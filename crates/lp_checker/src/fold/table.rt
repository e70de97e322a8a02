//! The live tasks by their numbers.
ghost use Rattle.std.specs.Prelude.{◌≡◌, ℕ, ◌<◌, ◌≤◌, None, not, length, count_by, is_some, option_copied, slice_index, nat_eq, if◌then◌else◌, Some, IfOk, OnOk, OnErr};
ghost use Rattle.std.specs.Option.{ForSome, option_map};
ghost use Rattle.lp_numbers.specs.Numbers.{has};
ghost use Rattle.lp_checker.specs.inside.Tables.{all_slots};
ghost use Rattle.lp_definitions.specs.Tasks.{is_unused, change, Live, Dead};
ghost use Rattle.lp_machine.specs.Machine.{put_in, calling, returning};

use super::task::FoldedTask;
use lp_numbers::NumberSet;
use lp_stack::{GroupId, Mode, TaskId};
use lp_symbols::SymId;
use std::alloc::{AllocError, Global};
use std::marker::Model;

/// The live tasks, the numbers that were ever used, and how many live members each group has.
///
/// The lists go as far as the greatest number that was put: each fold of a check would else begin
/// with more than a megabyte, for a handful of tasks.
pub(crate) struct FoldedTable {
    slots: Vec<Option<FoldedTask>>,
    used: NumberSet,
    members: Vec<u32>,
}

/// By hand, so that the proof of who owns one lets go of it in one step, not field by field.
impl Drop for FoldedTable {
    fn drop(self) {
        let FoldedTable {
            slots: _,
            used: _,
            members: _,
        } = self;
    }
}

impl Model for FoldedTable {
    ghost use Rattle.lp_machine.specs.Table.{Table};
    ghost use Rattle.lp_checker.specs.inside.Tables.{all_slots, IsKept};

    ghost Value = { Table };

    ghost view = { λ t. record { slots = all_slots t.slots.items; used = t.used } };

    ghost invariant = { λ t. IsKept t.slots.items t.used t.members.items };
}

impl FoldedTable {
    ghost use Rattle.lp_definitions.specs.Leg.{LegTask};
    ghost use Rattle.lp_machine.specs.Table.{slot, leg_tasks, IsWide};
    ghost use Rattle.lp_tasks.specs.inside.Table.{is_in, IsKnown, IsBlank};

    /// A table without tasks.
    pub(crate) fn new(alloc: Global) -> Result<Self, AllocError>
        ensures { IfOk result (λ table. IsBlank table) }
    {
        Ok(FoldedTable {
            slots: Vec::new(alloc),
            used: NumberSet::new(alloc)?,
            members: Vec::new(alloc),
        })
    }

    /// The live task of a number.
    pub(crate) fn get(&self, task: TaskId) -> Option<&FoldedTask>
        ensures value { option_copied result ≡ slot self.now task.0 }
        ensures wide { IsWide self.now }
        ensures known { IsKnown self.now task.0 }
    {
        let place = usize::from(task.0);
        if place < self.slots.len() {
            self.slots[place].as_ref()
        } else {
            None
        }
    }

    /// Whether a number was ever used.
    pub(crate) fn is_used(&self, task: TaskId) -> bool
        ensures value { result ≡ has self.now.used task.0 }
        ensures known { IsKnown self.now task.0 }
        ensures fate { result ≡ not (is_unused (leg_tasks self.now task.0)) }
    {
        self.used.contains(task.0)
    }

    /// How many live members a group has.
    pub(crate) fn members(&self, group: GroupId) -> u32
        ensures value { result ≡ count_by (is_in group.0) self.now.slots }
        ensures wide { IsWide self.now }
        ensures nobody { slot self.now 0 ≡ None }
    {
        let place = usize::from(group.0);
        if place < self.members.len() {
            self.members[place]
        } else {
            0
        }
    }

    /// Says that a number was used, if no live task has it.
    pub(crate) fn bury(&mut self, task: TaskId)
        requires { slot self.old task.0 ≡ None }
        ensures { leg_tasks self.new ≡ (λ t. if nat_eq t task.0 then Dead else leg_tasks self.old t) }
    {
        self.used.insert(task.0);
    }

    /// Makes a task live, under a number above 0 that no live task has.
    pub(crate) fn put(&mut self, task: TaskId, live: FoldedTask) -> Result<(), AllocError>
        requires positive { 0 < task.0 }
        requires free { slot self.old task.0 ≡ None }
        ensures put { OnOk result (leg_tasks self.new ≡ (λ t. if nat_eq t task.0 then Live live else leg_tasks self.old t)) }
        ensures unchanged { OnErr result (leg_tasks self.new ≡ leg_tasks self.old) }
    {
        let place = usize::from(task.0);
        let group = usize::from(live.group().0);
        add_slots(&mut self.slots, place)?;
        add_zeros(&mut self.members, group)?;
        self.members[group] += 1;
        self.slots[place] = Some(live);
        self.used.insert(task.0);
        Ok(())
    }

    /// Ends a live task of a group.
    pub(crate) fn remove(&mut self, task: TaskId, group: GroupId)
        requires { option_map (λ x. x.group) (slot self.old task.0) ≡ Some group.0 }
        ensures { leg_tasks self.new ≡ (λ t. if nat_eq t task.0 then Dead else leg_tasks self.old t) }
    {
        self.members[usize::from(group.0)] -= 1;
        self.slots[usize::from(task.0)] = None;
    }

    /// The task calls a function, if it is live; it has room for one more frame.
    pub(crate) fn call(&mut self, task: TaskId, func: SymId, serial: u32) -> Result<(), AllocError>
        requires { ForSome (slot self.old task.0) (λ x. length x.frames < 100) }
        ensures called { OnOk result (leg_tasks self.new ≡ change task.0 (calling serial func) (leg_tasks self.old)) }
        ensures unchanged { OnErr result (leg_tasks self.new ≡ leg_tasks self.old) }
    {
        let place = usize::from(task.0);
        if place >= self.slots.len() {
            return Ok(());
        }
        match &mut self.slots[place] {
            Some(live) => live.call(func, serial),
            None => Ok(()),
        }
    }

    /// The task returns from the function that it called last, if it is live.
    pub(crate) fn ret(&mut self, task: TaskId)
        ensures { leg_tasks self.new ≡ change task.0 returning (leg_tasks self.old) }
    {
        let place = usize::from(task.0);
        if place >= self.slots.len() {
            return;
        }
        if let Some(live) = &mut self.slots[place] {
            live.ret();
        }
    }

    /// Puts the task in a mode, if it is live.
    pub(crate) fn set_mode(&mut self, task: TaskId, mode: Mode)
        ensures { leg_tasks self.new ≡ change task.0 (put_in mode) (leg_tasks self.old) }
    {
        let place = usize::from(task.0);
        if place >= self.slots.len() {
            return;
        }
        if let Some(live) = &mut self.slots[place] {
            live.set_mode(mode);
        }
    }
}

/// Makes a list of slots go as far as a place, with none of them taken that wasn't.
fn add_slots(slots: &mut Vec<Option<FoldedTask>>, place: usize) -> Result<(), AllocError>
    requires within { place < 65536 }
    requires few { length slots.old.items ≤ 65536 }
    ensures room { OnOk result (place < length slots.new.items) }
    ensures few { length slots.new.items ≤ 65536 }
    ensures same { all_slots slots.new.items ≡ all_slots slots.old.items }
{
    while slots.len() <= place {
        slots.push(None)?;
    }
    Ok(())
}

/// Makes a list of numbers go as far as a place, by zeros.
fn add_zeros(numbers: &mut Vec<u32>, place: usize) -> Result<(), AllocError>
    requires within { place < 65536 }
    ensures room { OnOk result (place < length numbers.new.items) }
    ensures same { (n : ℕ) → slice_index numbers.new.items n ≡ slice_index numbers.old.items n }
{
    while numbers.len() <= place {
        numbers.push(0)?;
    }
    Ok(())
}
