//! The events of a leg, taken with nobody switching: a call has its task's level, a child its
//! parent's.
ghost use Rattle.std.specs.Prelude.{◌≡◌, ℕ, suc, ◌<◌, ◌≤◌, false, Some, None, if◌then◌else◌, nat_eq, IfOk, OnOk, OnErr};
ghost use Rattle.std.specs.List.{list_any};
ghost use Rattle.std.specs.Option.{option_map};
ghost use Rattle.lp_definitions.specs.Tasks.{first_of, tests, on_live, Unused, Dead};
ghost use Rattle.lp_definitions.specs.Leg.{check_by, if_used, is_alone, has_member};
ghost use Rattle.lp_machine.specs.Machine.{view_of, outlines_of, own_effect};
ghost use Rattle.lp_machine.specs.inside.Unswitched.{accept_unswitched, take_own_effect};
ghost use Rattle.lp_tasks.specs.Openings.{IsOpening};
ghost use Rattle.lp_machine.specs.Table.{slot, leg_tasks, bounds_of};

mod accept;
mod table;
mod task;

use accept::accepts;
use lp_definitions::Event;
use lp_model::{Blame, CheckKind, Consistency, ForkKind};
use lp_numbers::NUMBERS;
use lp_patch::{Aim, PatchStack};
use lp_stack::{Class, Frame, GroupId, Level, Mode, TaskId};
use lp_tasks::Opening;
use std::alloc::{AllocError, Global};
use table::FoldedTable;
use task::FoldedTask;

/// The tasks after some events of a leg.
pub(crate) struct Fold {
    number: u32,
    target: Level,
    patches: PatchStack,
    tasks: FoldedTable,
}

/// By hand, so that the proof of who owns one lets go of it in one step, not field by field.
impl Drop for Fold {
    fn drop(self) {
        let Fold {
            number: _,
            target: _,
            patches: _,
            tasks: _,
        } = self;
    }
}

impl Fold {
    /// The tasks as they stood at an opening.
    pub(crate) fn of(alloc: Global, opening: &Opening) -> Result<Fold, AllocError>
        ensures number { IfOk result (λ fold. fold.number ≡ opening.now.number) }
        ensures target { IfOk result (λ fold. fold.target.0 ≡ opening.now.target) }
        ensures patches { IfOk result (λ fold. fold.patches ≡ opening.now.patches) }
        ensures tasks { IfOk result (λ fold. leg_tasks fold.tasks ≡ leg_tasks opening.now.table) }
    {
        let events = opening.number() as u32;
        let mut tasks = FoldedTable::new(alloc)?;
        for number in 0..NUMBERS {
            put_from(alloc, opening, TaskId(number as u16), &mut tasks)?;
        }
        Ok(Fold {
            number: events,
            target: opening.target(),
            patches: opening.patches().copy(alloc)?,
            tasks,
        })
    }

    /// No group switches here: a certificate speaks of a group that waits, which sees no other's level.
    pub(crate) fn step<M: Consistency>(
        &mut self,
        alloc: Global,
        model: M,
        event: Event,
    ) -> Result<Option<Event>, AllocError>
        requires room { self.old.number < 1000000 }
        ensures number { OnOk result (self.new.number ≡ suc self.old.number) }
        ensures target { self.new.target ≡ self.old.target }
        ensures patches { self.new.patches ≡ self.old.patches }
        ensures accepted { IfOk result (λ accepted. accepted ≡ accept_unswitched (bounds_of self.old.patches) (leg_tasks self.old.tasks) (Some event)) }
        ensures tasks { OnOk result (leg_tasks self.new.tasks ≡ take_own_effect M.rules.child_group (suc self.old.number) (accept_unswitched (bounds_of self.old.patches) (leg_tasks self.old.tasks) (Some event)) (leg_tasks self.old.tasks)) }
        // A failed allocation leaves the fold where it was.
        ensures no_number { OnErr result (self.new.number ≡ self.old.number) }
        ensures no_tasks { OnErr result (leg_tasks self.new.tasks ≡ leg_tasks self.old.tasks) }
    {
        let number = self.number + 1;
        if !accepts(&self.tasks, self.patches.symbols(), event) {
            self.number = number;
            return Ok(None);
        }
        self.take(alloc, model, event, number)?;
        self.number = number;
        Ok(Some(event))
    }

    /// Takes an accepted event of a number.
    fn take<M: Consistency>(
        &mut self,
        alloc: Global,
        model: M,
        event: Event,
        number: u32,
    ) -> Result<(), AllocError>
        requires { first_of (tests (bounds_of self.old.patches) (outlines_of (leg_tasks self.old.tasks)) event) ≡ None }
        ensures number { self.new.number ≡ self.old.number }
        ensures target { self.new.target ≡ self.old.target }
        ensures patches { self.new.patches ≡ self.old.patches }
        ensures tasks { OnOk result (leg_tasks self.new.tasks ≡ own_effect M.rules.child_group number event (leg_tasks self.old.tasks)) }
        ensures no_tasks { OnErr result (leg_tasks self.new.tasks ≡ leg_tasks self.old.tasks) }
    {
        match event {
            Event::Call(task, func) => return self.tasks.call(task, func, number),
            Event::Ret(task) => self.tasks.ret(task),
            Event::Sleep(task) => self.tasks.set_mode(task, Mode::Asleep),
            Event::Wake(task) | Event::Enter(task) => self.tasks.set_mode(task, Mode::Kernel),
            Event::Exit(task) => self.tasks.set_mode(task, Mode::User),
            Event::Fork(parent, child, how) => {
                return self.bear(alloc, model, parent, child, how);
            }
            Event::Die(task) => self.end(task),
            Event::Idle(_)
            | Event::Resched(_)
            | Event::Walk
            | Event::Stop
            | Event::Enable
            | Event::Disable
            | Event::Reverse => {}
        }
        Ok(())
    }

    /// Takes an accepted fork.
    fn bear<M: Consistency>(
        &mut self,
        alloc: Global,
        model: M,
        parent: TaskId,
        child: TaskId,
        how: ForkKind,
    ) -> Result<(), AllocError>
        requires { first_of (tests (bounds_of self.old.patches) (outlines_of (leg_tasks self.old.tasks)) (Event.Fork parent child how)) ≡ None }
        ensures number { self.new.number ≡ self.old.number }
        ensures target { self.new.target ≡ self.old.target }
        ensures patches { self.new.patches ≡ self.old.patches }
        ensures tasks { OnOk result (leg_tasks self.new.tasks ≡ own_effect M.rules.child_group self.old.number (Event.Fork parent child how) (leg_tasks self.old.tasks)) }
        ensures no_tasks { OnErr result (leg_tasks self.new.tasks ≡ leg_tasks self.old.tasks) }
    {
        let Some(live) = self.tasks.get(parent) else {
            unreachable!();
        };
        let group = model.child_group(live.group(), child, how);
        let born = FoldedTask::new(alloc, Class::Normal, Mode::Kernel, group, live.level());
        self.tasks.put(child, born)
    }

    /// Takes an accepted end of a task.
    fn end(&mut self, task: TaskId)
        requires { first_of (tests (bounds_of self.old.patches) (outlines_of (leg_tasks self.old.tasks)) (Event.Die task)) ≡ None }
        ensures number { self.new.number ≡ self.old.number }
        ensures target { self.new.target ≡ self.old.target }
        ensures patches { self.new.patches ≡ self.old.patches }
        ensures tasks { leg_tasks self.new.tasks ≡ (λ t. if nat_eq t task.0 then Dead else leg_tasks self.old.tasks t) }
    {
        let Some(live) = self.tasks.get(task) else {
            unreachable!();
        };
        let group = live.group();
        self.tasks.remove(task, group);
    }

    /// The kind of check of a group that an event is which was just taken.
    pub(crate) fn check<M: Consistency>(
        &self,
        model: M,
        accepted: Option<Event>,
        group: GroupId,
    ) -> Option<CheckKind>
        ensures { result ≡ if_used M.rules.uses (check_by (bounds_of self.now.patches) (outlines_of (leg_tasks self.now.tasks)) accepted group.0) }
    {
        let kind = match accepted? {
            Event::Exit(task) if self.is_alone(task, group) => CheckKind::KernelExit,
            Event::Idle(task) if self.is_alone(task, group) => CheckKind::IdlePoint,
            Event::Resched(task) if self.is_alone(task, group) => CheckKind::Resched,
            Event::Walk if self.has_member(group) => CheckKind::Walk,
            Event::Stop if self.has_member(group) => CheckKind::Stop,
            _ => return None,
        };
        if model.uses(kind) { Some(kind) } else { None }
    }

    /// The group of a live task; None for any other.
    pub(crate) fn group_of(&self, task: TaskId) -> Option<GroupId>
        ensures { option_map (λ group. group.0) result ≡ on_live None (λ x. Some x.group) (leg_tasks self.now.tasks task.0) }
    {
        let live = self.tasks.get(task)?;
        Some(live.group())
    }

    /// Why a check of a group doesn't admit a live member; None for any other task.
    pub(crate) fn blame<M: Consistency>(
        &self,
        model: M,
        kind: CheckKind,
        group: GroupId,
        task: TaskId,
    ) -> Option<Blame>
        ensures { result ≡ on_live None (λ x. if nat_eq x.group group.0 then M.rules.blame kind (view_of task.0 x) (record { patches = self.now.patches; target = self.now.target.0 }) else None) (leg_tasks self.now.tasks task.0) }
    {
        let live = self.tasks.get(task)?;
        if live.group().0 != group.0 {
            return None;
        }
        let aim = Aim {
            patches: &self.patches,
            target: self.target,
        };
        model.blame(kind, &live.view(task), &aim)
    }

    /// Whether a frame of a serial is on the stack of a live task.
    pub(crate) fn has_frame(&self, task: TaskId, serial: u64) -> bool
        ensures { result ≡ on_live false (λ x. list_any (λ frame. nat_eq frame.serial serial) x.frames) (leg_tasks self.now.tasks task.0) }
    {
        let Some(live) = self.tasks.get(task) else {
            return false;
        };
        has_serial(live.view(task).frames, serial)
    }

    /// Whether a task is the only live member of a group.
    fn is_alone(&self, task: TaskId, group: GroupId) -> bool
        ensures { result ≡ is_alone (bounds_of self.now.patches) (outlines_of (leg_tasks self.now.tasks)) group.0 task.0 }
    {
        let Some(live) = self.tasks.get(task) else {
            return false;
        };
        if live.group().0 != group.0 {
            return false;
        }
        self.tasks.members(group) == 1
    }

    /// Whether a group has a live member.
    pub(crate) fn has_member(&self, group: GroupId) -> bool
        ensures { result ≡ has_member (bounds_of self.now.patches) (outlines_of (leg_tasks self.now.tasks)) group.0 }
    {
        self.tasks.members(group) > 0
    }
}

/// Whether one of the frames has a serial.
fn has_serial(frames: &[Frame], serial: u64) -> bool
    ensures { result ≡ list_any (λ frame. nat_eq frame.serial serial) frames.now }
{
    frames.iter().any(|frame| u64::from(frame.serial) == serial)
}

/// The live task that an opening has under a number.
fn task_at(alloc: Global, opening: &Opening, task: TaskId) -> Result<Option<FoldedTask>, AllocError>
    ensures { IfOk result (λ live. live ≡ slot opening.now.table task.0) }
{
    let Some(view) = opening.task(task) else {
        return Ok(None);
    };
    let Some(group) = opening.group_of(task) else {
        return Ok(None);
    };
    let Some(level) = opening.level_of(task) else {
        return Ok(None);
    };
    let live = FoldedTask::of(alloc, &view, group, level)?;
    Ok(Some(live))
}

/// Puts what an opening says of a number into a table, where the number is free.
fn put_from(
    alloc: Global,
    opening: &Opening,
    task: TaskId,
    tasks: &mut FoldedTable,
) -> Result<(), AllocError>
    requires opening { IsOpening opening.now }
    requires free { leg_tasks tasks.old task.0 ≡ Unused }
    ensures { OnOk result (leg_tasks tasks.new ≡ (λ t. if nat_eq t task.0 then leg_tasks opening.now.table t else leg_tasks tasks.old t)) }
{
    match task_at(alloc, opening, task)? {
        Some(live) => return tasks.put(task, live),
        None if opening.used(task) => tasks.bury(task),
        None => {}
    }
    Ok(())
}
