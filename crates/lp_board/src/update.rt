//! What an event that was weighed changes on the board.
ghost use Rattle.std.specs.Prelude.{◌≡◌, ◌||◌, ℕ, ◌∷◌, [], IfOk, nat_eq};
ghost use Rattle.std.specs.List.{list_any, filter_map};
ghost use Rattle.lp_numbers.specs.Numbers.{has};
ghost use Rattle.lp_machine.specs.Machine.{next};
ghost use Rattle.lp_machine.specs.Table.{leg_tasks, state_in};
ghost use Rattle.lp_transition.specs.Weigh.{IsWeighed};
ghost use Rattle.lp_definitions.specs.Events.{group_numbers};
ghost use Rattle.lp_board.specs.Pages.{IsHeading, Leads, level_of};
ghost use Rattle.lp_board.specs.inside.Changes.{heading_by, levels_by, target_among, target_if};

use crate::levels::level_now;
use crate::sheet::{Heading, Update};
use lp_model::{Consistency, Verdict};
use lp_numbers::NumberSet;
use lp_stack::{GroupId, Level, TaskId};
use lp_transition::{Core, Event, Reply, Step, What};
use std::alloc::{AllocError, Global};

impl Update {
    /// What an event changes that was weighed on an engine; the heading is that of before. An `Err` only where a
    /// allocation failed.
    pub fn of<M: Consistency>(
        alloc: Global,
        core: &Core<M>,
        step: &Step,
        heading: Heading,
    ) -> Result<Update, AllocError>
        requires weighed { IsWeighed M.rules core.now step.now }
        requires heading { IsHeading heading (state_in core.now) }
        ensures { IfOk result (λ update. Leads (state_in core.now) update (next M.rules (state_in core.now) step.now.event)) }
    {
        let _ = core.events();
        let reply = step.reply();
        let levels = levels_by(alloc, core, step.event(), &reply.what, step.verdicts())?;
        let heading = heading_by(core.target(), step.event(), reply, heading);
        Ok(Update { levels, heading })
    }
}

/// The new levels, by what an event did.
fn levels_by<M: Consistency>(
    alloc: Global,
    core: &Core<M>,
    event: Event,
    what: &What,
    verdicts: &[Verdict],
) -> Result<Vec<(TaskId, Option<Level>)>, AllocError>
    ensures { IfOk result (λ levels. levels.items ≡ levels_by core.now event what.now verdicts.now) }
{
    match what {
        What::Switched(groups) => match event {
            Event::Exit(task) | Event::Idle(task) | Event::Resched(task) => {
                one(alloc, task, Some(core.target()))
            }
            _ => levels_of_groups(alloc, core, groups.as_slice(), verdicts),
        },
        What::Done => match event {
            Event::Fork(parent, child, _) => one(alloc, child, level_now(core, parent)),
            Event::Die(task) => one(alloc, task, None),
            _ => Ok(Vec::new(alloc)),
        },
        What::Ran(_) | What::Refused(_) => Ok(Vec::new(alloc)),
    }
}

/// One new level.
fn one(
    alloc: Global,
    task: TaskId,
    level: Option<Level>,
) -> Result<Vec<(TaskId, Option<Level>)>, AllocError>
    ensures { IfOk result (λ levels. levels.items ≡ (task, level) ∷ []) }
{
    let mut levels = Vec::with_capacity(alloc, 1)?;
    levels.push((task, level))?;
    Ok(levels)
}

/// The target, for each task that was looked at and whose group switched.
fn levels_of_groups<M: Consistency>(
    alloc: Global,
    core: &Core<M>,
    groups: &[GroupId],
    verdicts: &[Verdict],
) -> Result<Vec<(TaskId, Option<Level>)>, AllocError>
    ensures { IfOk result (λ levels. levels.items ≡ target_among core.now (group_numbers groups.now) verdicts.now) }
{
    let over = set_of(alloc, groups)?;
    levels_in(alloc, core, &over, verdicts)
}

/// The same, of the groups of a set.
fn levels_in<M: Consistency>(
    alloc: Global,
    core: &Core<M>,
    over: &NumberSet,
    verdicts: &[Verdict],
) -> Result<Vec<(TaskId, Option<Level>)>, AllocError>
    ensures { IfOk result (λ levels. levels.items ≡ filter_map (target_if core.now (has over.now)) verdicts.now) }
{
    let mut levels = Vec::new(alloc);
    for verdict in verdicts {
        if let Some(level) = target_if(core, over, verdict) {
            levels.push(level)?;
        }
    }
    Ok(levels)
}

/// The target, for a task that was looked at, if its group is in a set.
fn target_if<M: Consistency>(
    core: &Core<M>,
    over: &NumberSet,
    verdict: &Verdict,
) -> Option<(TaskId, Option<Level>)>
    ensures { result ≡ target_if core.now (has over.now) verdict.now }
{
    let task = verdict.task;
    let group = core.group_of(task)?;
    if over.contains(group.0) {
        Some((task, Some(core.target())))
    } else {
        None
    }
}

/// The set of these groups.
fn set_of(alloc: Global, groups: &[GroupId]) -> Result<NumberSet, AllocError>
    ensures { IfOk result (λ set. (n : ℕ) → has set n ≡ list_any (nat_eq n) (group_numbers groups.now)) }
{
    let mut set = NumberSet::new(alloc)?;
    for group in groups {
        add(&mut set, group.0);
    }
    Ok(set)
}

/// Makes a number a member.
fn add(set: &mut NumberSet, number: u16)
    ensures { (n : ℕ) → has set.new n ≡ (has set.old n || nat_eq n number) }
{
    let _ = set.contains(0);
    set.insert(number);
}

/// The new heading, by the target of before, the event and the answer to it.
fn heading_by(target: Level, event: Event, reply: &Reply, heading: Heading) -> Heading
    ensures { result ≡ heading_by target event reply.now heading }
{
    if matches!(reply.what, What::Refused(_)) {
        return heading;
    }
    let in_transition = !reply.completed;
    match event {
        Event::Enable => Heading {
            in_transition,
            lower: target,
        },
        Event::Disable => Heading {
            in_transition,
            lower: Level(target.0.saturating_sub(1)),
        },
        Event::Reverse => Heading {
            in_transition,
            lower: heading.lower,
        },
        _ => Heading {
            in_transition: heading.in_transition && in_transition,
            lower: heading.lower,
        },
    }
}
