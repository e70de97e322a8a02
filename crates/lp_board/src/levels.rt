//! The level of each task number.
ghost use Rattle.std.specs.Prelude.{◌≡◌, ◌≤◌, ◌&&◌, ◌||◌, ℕ, None, IfOk, length, nat_eq, slice_index_or, slice_set};
ghost use Rattle.lp_numbers.specs.Numbers.{has};
ghost use Rattle.lp_machine.specs.Table.{leg_tasks};
ghost use Rattle.lp_board.specs.inside.Starts.{levels_of};
ghost use Rattle.lp_board.specs.inside.Levels.{AreLive};
ghost use Rattle.lp_board.specs.Pages.{level_of, shown_by, written};
ghost use Rattle.lp_board.specs.Words.{all_shown};

use crate::sheet::{Heading, shown_by};
use crate::shown::Shown;
use lp_model::Consistency;
use lp_numbers::{NUMBERS, NumberSet};
use lp_stack::{Level, TaskId};
use lp_transition::Core;
use std::alloc::{AllocError, Global};
use std::marker::Model;

/// The level of each task number, None where no task lives. Beside them stands the set of the numbers that live, so that
/// a walk over the live tasks costs what those cost, and not all numbers.
///
/// Contracts see the list of levels.
pub struct Levels {
    levels: Vec<Option<Level>>,
    live: NumberSet,
}

/// By hand, so that the proof of who owns one lets go of it in one step, not field by field.
impl Drop for Levels {
    fn drop(self) {
        let Levels { levels: _, live: _ } = self;
    }
}

impl Model for Levels {
    ghost use Rattle.std.specs.Prelude.{List, Option};
    ghost use Rattle.lp_stack.specs.declared.number.Level.{Level};
    ghost use Rattle.lp_board.specs.inside.Levels.{AreLive};

    ghost Value = { List (Option Level) };

    ghost view = { λ l. l.levels.items };

    ghost invariant = { λ l. AreLive l.live l.levels.items };
}

impl Levels {
    /// The levels of an engine's tasks; AllocError where an allocation failed.
    pub(crate) fn of<M: Consistency>(alloc: Global, core: &Core<M>) -> Result<Levels, AllocError>
        ensures { IfOk result (λ levels. levels ≡ levels_of core.now) }
    {
        let levels = list_of(alloc, core)?;
        let live = live_in(alloc, levels.as_slice())?;
        Ok(Levels { levels, live })
    }

    /// The level of a task; None where it isn't live.
    pub(crate) fn get(&self, task: TaskId) -> Option<Level>
        ensures { result ≡ slice_index_or self.now task.0 None }
    {
        level_at(self.levels.as_slice(), task)
    }

    /// Writes the level of a task. Never allocates.
    fn put(&mut self, task: TaskId, level: Option<Level>)
        ensures { self.new ≡ slice_set self.old task.0 level }
    {
        let at = usize::from(task.0);
        if at >= self.levels.len() {
            return;
        }
        self.levels[at] = level;
        if level.is_some() {
            self.live.insert(task.0);
        } else {
            self.live.remove(task.0);
        }
    }

    /// Writes each new level, in order. Never allocates.
    pub(crate) fn write(&mut self, news: &[(TaskId, Option<Level>)])
        ensures { self.new ≡ written self.old news.now }
    {
        for (task, level) in news {
            self.put(*task, *level);
        }
    }

    /// What is shown of each live task under a heading, by increasing number; AllocError where an allocation failed.
    pub(crate) fn shown(
        &self,
        alloc: Global,
        heading: Heading,
    ) -> Result<Vec<(TaskId, Shown)>, AllocError>
        ensures { IfOk result (λ tasks. tasks.items ≡ all_shown (λ t. shown_by heading (slice_index_or self.now t None))) }
    {
        shown_of(alloc, self.levels.as_slice(), &self.live, heading)
    }
}

/// What is shown under a heading of the tasks that live, by increasing number.
#[tactic(auto, using(lp_tasks::proofs::AscendingLemmas::in_order))]
fn shown_of(
    alloc: Global,
    levels: &[Option<Level>],
    live: &NumberSet,
    heading: Heading,
) -> Result<Vec<(TaskId, Shown)>, AllocError>
    requires { AreLive live.now levels.now }
    ensures { IfOk result (λ tasks. tasks.items ≡ all_shown (λ t. shown_by heading (slice_index_or levels.now t None))) }
{
    let mut tasks = Vec::new(alloc);
    for number in live {
        let task = TaskId(number);
        tasks.push((task, shown_by(heading, level_at(levels, task))))?;
    }
    Ok(tasks)
}

/// The level of a task in a list of each number's; None past its end.
fn level_at(levels: &[Option<Level>], task: TaskId) -> Option<Level>
    ensures { result ≡ slice_index_or levels.now task.0 None }
{
    let at = usize::from(task.0);
    if at < levels.len() { levels[at] } else { None }
}

/// The level of each task number.
fn list_of<M: Consistency>(alloc: Global, core: &Core<M>) -> Result<Vec<Option<Level>>, AllocError>
    ensures levels { IfOk result (λ levels. levels.items ≡ levels_of core.now) }
    ensures wide { IfOk result (λ levels. length levels.items ≡ 65536) }
{
    let mut levels = Vec::with_capacity(alloc, NUMBERS)?;
    for number in 0..NUMBERS {
        levels.push(level_now(core, TaskId(number as u16)))?;
    }
    Ok(levels)
}

/// The level of a live task; None for any other.
pub(crate) fn level_now<M: Consistency>(core: &Core<M>, task: TaskId) -> Option<Level>
    ensures { result ≡ level_of (leg_tasks core.now.table task.0) }
{
    core.side_of(task)
}

/// The set of the numbers that have a level; AllocError where an allocation failed.
fn live_in(alloc: Global, levels: &[Option<Level>]) -> Result<NumberSet, AllocError>
    requires { length levels.now ≡ 65536 }
    ensures { IfOk result (λ live. AreLive live levels.now) }
{
    let mut live = NumberSet::new(alloc)?;
    for at in 0..levels.len() {
        add_if(&mut live, at as u16, levels[at].is_some());
    }
    Ok(live)
}

/// Makes a number a member where it is asked for.
fn add_if(set: &mut NumberSet, number: u16, is_asked: bool)
    ensures { (n : ℕ) → has set.new n ≡ (has set.old n || (nat_eq n number && is_asked)) }
{
    let _ = set.contains(0);
    if is_asked {
        set.insert(number);
    }
}
