//! An allocation that fails: nothing has happened, and the same call succeeds after it.
//!
//! `scripts/refuse-memory` runs these tests with each allocation refused in turn.
use super::first_refusals::{Row, SLEEPS, weighed};
use super::*;
use lp_model::{CheckKind, ForkKind, Verdict};
use lp_models::AllAtOnce;
use lp_process::ProcessGroup;
use lp_stack::View;
use lp_transition::GroupList;

const WITH_IDLE: [(TaskId, Class); 2] = [(ONE, Class::Normal), (TWO, Class::Idle)];

const THREE_TASKS: [(TaskId, Class); 3] = [
    (ONE, Class::Normal),
    (TWO, Class::Normal),
    (THREE, Class::Normal),
];

/// The engine of these tasks. Where an allocation fails, nothing was made, and the same call makes it.
fn booted<M: Consistency>(alloc: Global, model: M, boots: &[(TaskId, Class)]) -> Option<Core<M>> {
    match boot_over_a(alloc, model, boots) {
        Err(BootFault::NoMemory) => start(alloc, model, boots),
        answer => answer.ok(),
    }
}

/// What an engine's readers say: how many events are numbered, the target, and the levels and
/// groups of three tasks.
#[derive(Clone, Copy, PartialEq, Eq)]
struct Shown {
    events: u64,
    target: Level,
    levels: [Option<Level>; 3],
    groups: [Option<GroupId>; 3],
}

fn shown_by<M: Consistency>(core: &Core<M>) -> Shown {
    Shown {
        events: core.events(),
        target: core.target(),
        levels: [core.side_of(ONE), core.side_of(TWO), core.side_of(THREE)],
        groups: [core.group_of(ONE), core.group_of(TWO), core.group_of(THREE)],
    }
}

/// The groups that wait. Where an allocation fails, the same call tells them.
fn waiting<M: Consistency>(alloc: Global, core: &Core<M>) -> Result<GroupList, AllocError> {
    match core.waiting(alloc) {
        Err(_) => core.waiting(alloc),
        answer => answer,
    }
}

/// Whether these groups wait.
fn are_waiting<M: Consistency>(alloc: Global, core: &Core<M>, groups: &[GroupId]) -> bool {
    match waiting(alloc, core) {
        Ok(now) => now.as_slice() == groups,
        Err(_) => false,
    }
}

/// The answer to an event, where memory was refused before. The engine has to be as it was.
fn answer_again<M: Consistency>(
    alloc: Global,
    core: &mut Core<M>,
    event: Event,
    shown: &Shown,
    groups: &[GroupId],
) -> Option<Said> {
    if shown_by(core) == *shown && are_waiting(alloc, core, groups) {
        reply_to(alloc, core, event)
    } else {
        None
    }
}

/// The answer to an event, before which these groups wait. Where an allocation fails, the engine is as
/// it was, and the same event has its answer.
fn answer_where_wait<M: Consistency>(
    alloc: Global,
    core: &mut Core<M>,
    event: Event,
    groups: &[GroupId],
) -> Option<Said> {
    let shown = shown_by(core);
    match reply_to(alloc, core, event) {
        None => answer_again(alloc, core, event, &shown, groups),
        answer => answer,
    }
}

/// The same, of the groups that do.
fn answer<M: Consistency>(alloc: Global, core: &mut Core<M>, event: Event) -> Option<Said> {
    match waiting(alloc, core) {
        Ok(groups) => answer_where_wait(alloc, core, event, groups.as_slice()),
        Err(_) => None,
    }
}

/// An event and the answer to it.
type Answered = (Event, Said);

/// Whether an engine gives these answers, each event given once more where memory was refused.
fn answers<M: Consistency>(alloc: Global, core: &mut Core<M>, rows: &[Answered]) -> bool {
    for (event, said) in rows {
        if answer(alloc, core, *event) != Some(*said) {
            return false;
        }
    }
    true
}

/// Whether an engine that starts with these tasks does.
fn goes_on<M: Consistency>(
    alloc: Global,
    model: M,
    boots: &[(TaskId, Class)],
    rows: &[Answered],
) -> bool {
    match booted(alloc, model, boots) {
        Some(mut core) => answers(alloc, &mut core, rows),
        None => false,
    }
}

/// Births and walks.
const BIRTHS: [Answered; 9] = [
    (Event::Enter(ONE), Said::Done),
    (Event::Fork(ONE, TWO, ForkKind::Share), Said::Done),
    (Event::Exit(ONE), Said::Done),
    (Event::Enable, Said::Done),
    (Event::Call(TWO, A), Said::Ran(0)),
    (Event::Walk, Said::Done),
    (Event::Ret(TWO), Said::Done),
    (Event::Exit(TWO), Said::Done),
    (Event::Walk, Said::SwitchedLast(1)),
];

#[test]
fn births_and_walks_go_on_after_a_failed_allocation(rt: HostRuntime) {
    assert!(rt; goes_on(rt.alloc(), ProcessGroup, &ALONE, &BIRTHS));
}

const STOPS: [Answered; 6] = [
    (Event::Enter(TWO), Said::Done),
    (Event::Call(TWO, A), Said::Ran(0)),
    (Event::Enable, Said::Done),
    (Event::Stop, Said::Done),
    (Event::Ret(TWO), Said::Done),
    (Event::Stop, Said::SwitchedLast(0)),
];

#[test]
fn stops_go_on_after_a_failed_allocation(rt: HostRuntime) {
    assert!(rt; goes_on(rt.alloc(), AllAtOnce, &BOTH, &STOPS));
}

const POINTS: [Answered; 4] = [
    (Event::Enable, Said::Done),
    (Event::Enter(ONE), Said::Done),
    (Event::Exit(ONE), Said::Switched(1)),
    (Event::Idle(TWO), Said::SwitchedLast(2)),
];

#[test]
fn exits_and_idle_points_go_on_after_a_failed_allocation(rt: HostRuntime) {
    assert!(rt; goes_on(rt.alloc(), Hybrid, &WITH_IDLE, &POINTS));
}

/// The events by which task 2 of three switches.
const ONE_SWITCHES: [Answered; 3] = [
    (Event::Enable, Said::Done),
    (Event::Enter(TWO), Said::Done),
    (Event::Exit(TWO), Said::Switched(2)),
];

/// The levels of the three tasks after them.
const LEVELS: [Option<Level>; 3] = [Some(Level(0)), Some(Level(1)), Some(Level(0))];

/// The tasks that wait. Where an allocation fails, the same call shows them.
fn views(alloc: Global, core: &Core<Hybrid>) -> Result<Vec<View<'_>>, AllocError> {
    match core.views(alloc) {
        Err(_) => core.views(alloc),
        answer => answer,
    }
}

/// Whether a check sees the two tasks that wait.
fn is_seen(alloc: Global, core: &Core<Hybrid>) -> bool {
    match views(alloc, core) {
        Ok(views) => matches!(views.as_slice(), [first, _] if first.task == ONE),
        Err(_) => false,
    }
}

/// Whether a copy of the engine has its events, and its tasks their levels.
fn has_levels(stands: &Opening) -> bool {
    let levels = [
        stands.level_of(ONE),
        stands.level_of(TWO),
        stands.level_of(THREE),
    ];
    stands.number() == 3 && levels == LEVELS
}

/// The copy of the engine. Where an allocation fails, the same call makes it.
fn standing(alloc: Global, core: &Core<Hybrid>) -> Result<Opening, AllocError> {
    match core.standing(alloc) {
        Err(_) => core.standing(alloc),
        answer => answer,
    }
}

/// Whether the copy of the engine does.
fn is_copied(alloc: Global, core: &Core<Hybrid>) -> bool {
    match standing(alloc, core) {
        Ok(stands) => has_levels(&stands),
        Err(_) => false,
    }
}

/// Whether it is right in all that is asked.
fn is_right(alloc: Global, core: &Core<Hybrid>) -> bool {
    are_waiting(alloc, core, &[GroupId(1), GroupId(3)])
        && is_seen(alloc, core)
        && is_copied(alloc, core)
        && shown_by(core).levels == LEVELS
}

/// Whether an engine of three tasks is, after the events by which task 2 switches.
fn is_asked_again(alloc: Global) -> bool {
    match booted(alloc, Hybrid, &THREE_TASKS) {
        Some(mut core) => answers(alloc, &mut core, &ONE_SWITCHES) && is_right(alloc, &core),
        None => false,
    }
}

#[test]
fn an_engine_is_asked_again_after_a_failed_allocation(rt: HostRuntime) {
    assert!(rt; is_asked_again(rt.alloc()));
}

/// Gives these events to an engine, each of them once more where memory was refused; whether it takes them.
fn give_again(alloc: Global, core: &mut Core<ProcessGroup>, events: &[Event]) -> bool {
    for event in events {
        if answer(alloc, core, *event).is_none() {
            return false;
        }
    }
    true
}

/// A walk, weighed after a look at no more members than it takes. Where an allocation fails, the same call weighs it.
fn walk(alloc: Global, core: &Core<ProcessGroup>) -> Result<Step, Halt> {
    match weighed(alloc, core, CheckKind::Walk) {
        Err(Halt::NoMemory) => weighed(alloc, core, CheckKind::Walk),
        answer => answer,
    }
}

/// Whether such a walk has these verdicts.
fn is_weighed(alloc: Global, core: &Core<ProcessGroup>, found: &[Verdict]) -> bool {
    match walk(alloc, core) {
        Ok(scan) => scan.verdicts() == found,
        Err(_) => false,
    }
}

/// Whether each walk after the events of a row, before it is taken, is weighed so.
fn are_weighed(alloc: Global, core: &mut Core<ProcessGroup>, rows: &[Row]) -> bool {
    for (events, found, _) in rows {
        if !give_again(alloc, core, *events)
            || !is_weighed(alloc, core, *found)
            || answer(alloc, core, Event::Walk).is_none()
        {
            return false;
        }
    }
    true
}

/// Whether they are where the second member of a group sleeps.
fn are_weighed_from_start(alloc: Global) -> bool {
    match booted(alloc, ProcessGroup, &ALONE) {
        Some(mut core) => are_weighed(alloc, &mut core, &SLEEPS),
        None => false,
    }
}

#[test]
fn first_refusals_are_weighed_after_a_failed_allocation(rt: HostRuntime) {
    assert!(rt; are_weighed_from_start(rt.alloc()));
}
