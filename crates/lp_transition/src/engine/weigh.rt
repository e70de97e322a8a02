//! The answers to events that are no scans.
ghost use Rattle.std.specs.Prelude.{◌≡◌, ◌≢◌, ◌≤◌, ◌<◌, ◌↔◌, ℕ, [], ◌∷◌, true, false, None, Some, Err, IfOk, IsTrue};
ghost use Rattle.lp_transition.specs.declared.engine.step.Halt.TheVariants.{NoMemory, JournalFull};
ghost use Rattle.lp_definitions.specs.Events.{is_scan};
ghost use Rattle.std.specs.Option.{ForSome};
ghost use Rattle.lp_numbers.specs.Numbers.{has};
ghost use Rattle.lp_definitions.specs.Tasks.{on_live};
ghost use Rattle.lp_machine.specs.Table.{slot, leg_tasks, state_in};
ghost use Rattle.lp_transition.specs.Weigh.{IsWeighed, may_allocate, is_answered_done, done_task};
ghost use Rattle.lp_machine.specs.Steps.{IsReply};
ghost use Rattle.lp_machine.specs.Machine.{refusal_of, answer};

use super::Core;
use super::dispatch::{done, refused};
use super::step::{Halt, Step};
use crate::{Event, GroupList, MOST_EVENTS, Reply, What};
use lp_model::Consistency;
use lp_numbers::NumberSet;
use lp_stack::{GroupId, Level, TaskId};
use lp_symbols::SymId;
use lp_tasks::TaskTable;
use std::alloc::{AllocError, Global};

impl<M: Consistency> Core<M> {
    /// The answer to an event that is no scan, and what the engine needs to take it. Changes
    /// nothing. NoMemory where an allocation failed, at the events that `step` names, JournalFull
    /// where no event is left.
    pub fn weigh(&self, alloc: Global, event: Event) -> Result<Step, Halt>
        requires { is_scan event ≡ false }
        ensures full { (result ≡ Err JournalFull) ↔ (1000000 ≤ self.now.number) }
        ensures memory { result ≡ Err NoMemory → IsTrue (may_allocate event (answer M.rules (state_in self.now) event).what) }
        ensures reply { IfOk result (λ step. IsReply M.rules (state_in self.now) event step.reply) }
        ensures weighed { IfOk result (λ step. IsWeighed M.rules self.now step) }
        ensures event { IfOk result (λ step. step.event ≡ event) }
        ensures verdicts { IfOk result (λ step. step.verdicts ≡ []) }
    {
        if self.events >= MOST_EVENTS {
            return Err(Halt::JournalFull);
        }
        if let Some(why) = self.refusal(event) {
            return Ok(Step::plain(alloc, event, refused(why)));
        }
        let reply = self.answer_accepted(alloc, event)?;
        Ok(Step::plain(alloc, event, reply))
    }

    /// The answer to an accepted call.
    #[inline(always)]
    pub(super) fn answer_call(&self, task: TaskId, func: SymId) -> Reply
        requires room { self.now.number < 1000000 }
        requires accepted { refusal_of M.rules (state_in self.now) (Event.Call task func) ≡ None }
        ensures { result ≡ answer M.rules (state_in self.now) (Event.Call task func) }
    {
        Reply {
            what: What::Ran(level_of(&self.tasks, task)),
            completed: false,
        }
    }

    /// A return, a sleep, a wake-up or an entry into the kernel is no check and ends no task, and a child begins on its
    /// parent's level: so there is nothing to look at.
    #[inline(always)]
    pub(super) fn answer_done(&self, event: Event, task: TaskId) -> Reply
        requires room { self.now.number < 1000000 }
        requires accepted { refusal_of M.rules (state_in self.now) event ≡ None }
        requires is_answered_done { is_answered_done event ≡ true }
        requires task { done_task event ≡ task.0 }
        ensures { result ≡ answer M.rules (state_in self.now) event }
    {
        // For the proof alone, which knows what every value keeps once a field is read.
        let _ = &self.tasks;
        done()
    }

    /// A task that ends may have been the last that waited: then its end completes the transition.
    pub(super) fn answer_die(&self, task: TaskId) -> Reply
        requires room { self.now.number < 1000000 }
        requires accepted { refusal_of M.rules (state_in self.now) (Event.Die task) ≡ None }
        ensures { result ≡ answer M.rules (state_in self.now) (Event.Die task) }
    {
        Reply {
            what: What::Done,
            completed: is_only(&self.waiting, task.0),
        }
    }
}

/// A list of one group.
pub(super) fn one_group(alloc: Global, group: GroupId) -> Result<GroupList, AllocError>
    ensures { IfOk result (λ list. list ≡ group.0 ∷ []) }
{
    let mut groups = Vec::with_capacity(alloc, 1)?;
    groups.push(group)?;
    GroupList::from_vec(alloc, groups)
}

/// The group of a live task.
pub(super) fn group_of(tasks: &TaskTable, task: TaskId) -> GroupId
    ensures { ForSome (slot tasks.now task.0) (λ x. result.0 ≡ x.group) }
{
    match tasks.group_of(task) {
        Some(group) => group,
        None => GroupId(0),
    }
}

/// The level of a live task; 0 for any other.
#[inline(always)]
pub(super) fn level_of(tasks: &TaskTable, task: TaskId) -> Level
    ensures { result.0 ≡ on_live 0 (λ x. x.level) (leg_tasks tasks.now task.0) }
{
    match tasks.level_of(task) {
        Some(level) => level,
        None => Level(0),
    }
}

/// Whether a number is the only member of a set.
pub(super) fn is_only(set: &NumberSet, number: u16) -> bool
    ensures { IsTrue result ↔ ((has set.now number ≡ true) × ((n : ℕ) → n ≢ number → has set.now n ≡ false)) }
{
    if !set.contains(number) {
        return false;
    }
    if set.next(0) != Some(number) {
        return false;
    }
    number == u16::MAX || set.next(number + 1).is_none()
}
