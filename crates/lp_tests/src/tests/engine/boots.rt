//! Engines that start, and what stands then.
use super::*;
use lp_models::Immediate;
use lp_stack::Mode;
use lp_transition::Ascending;

const ZERO: (TaskId, Class) = (TaskId(0), Class::Normal);

const SEVEN: (TaskId, Class) = (TaskId(7), Class::Normal);

/// Tasks with which no engine starts, and the fault of the first of them.
const FAULTS: [(&[(TaskId, Class)], BootFault); 3] = [
    (&[SEVEN, ZERO, SEVEN], BootFault::TaskRange),
    (&[SEVEN, SEVEN, ZERO], BootFault::TaskDoubled),
    (&[ZERO], BootFault::TaskRange),
];

/// Whether no engine starts with these tasks, by this fault.
fn is_named(alloc: Global, tasks: &[(TaskId, Class)], fault: BootFault) -> bool {
    match boot_over_a(alloc, Immediate, tasks) {
        Ok(_) => false,
        Err(named) => named == fault,
    }
}

#[test]
fn the_first_task_at_fault_is_named(rt: HostRuntime) {
    for (tasks, fault) in &FAULTS {
        assert!(rt; is_named(rt.alloc(), *tasks, *fault));
    }
}

/// The tasks of an engine: an idle one, and another.
const TASKS: [(TaskId, Class); 2] = [(TaskId(65_535), Class::Idle), (TaskId(3), Class::Normal)];

/// Whether these are the numbers of its two tasks, in increasing order.
fn are_the_two(mut numbers: Ascending<'_>) -> bool {
    numbers.next() == Some(3) && numbers.next() == Some(65_535) && numbers.next() == None
}

/// Whether its two tasks are live, each alone in its group.
fn are_live(core: &Core<Immediate>) -> bool {
    are_the_two(core.live()) && core.is_alone(TaskId(3)) && !core.is_alone(TaskId(4))
}

/// Whether they are as it starts.
fn start_live(alloc: Global) -> bool {
    match start(alloc, Immediate, &TASKS) {
        Some(core) => are_live(&core),
        None => false,
    }
}

#[test]
fn tasks_are_live_as_they_start(rt: HostRuntime) {
    assert!(rt; start_live(rt.alloc()));
}

/// Whether no event is numbered, and the first level is what it stands at and goes to, of one patch.
fn is_at_the_first_level(opening: &Opening) -> bool {
    opening.number() == 0
        && opening.from() == Level(0)
        && opening.target() == Level(0)
        && opening.patches().patches() == Level(1)
}

/// Whether it has the numbers of its two tasks.
fn has_its_numbers(opening: &Opening) -> bool {
    are_the_two(opening.live()) && opening.used(TaskId(3)) && !opening.used(TaskId(4))
}

/// Whether a task runs so, on level 0 and in a group of its own; where it runs nowhere, whether it has none of the three.
fn stands(opening: &Opening, task: TaskId, mode: Option<Mode>) -> bool {
    let (level, group) = (opening.level_of(task), opening.group_of(task));
    match (opening.task(task), mode) {
        (Some(view), Some(mode)) => {
            view.mode == mode && level == Some(Level(0)) && group == Some(GroupId(task.0))
        }
        (None, None) => level == None && group == None,
        _ => false,
    }
}

/// Whether its two tasks stand as they start, and no other does.
fn has_its_tasks(opening: &Opening) -> bool {
    stands(opening, TaskId(65_535), Some(Mode::Kernel))
        && stands(opening, TaskId(3), Some(Mode::User))
        && stands(opening, TaskId(4), None)
}

/// Whether all of this is so of the copy of an engine.
fn is_as_it_starts(alloc: Global, core: &Core<Immediate>) -> bool {
    match core.standing(alloc) {
        Ok(opening) => {
            is_at_the_first_level(&opening) && has_its_numbers(&opening) && has_its_tasks(&opening)
        }
        Err(_) => false,
    }
}

/// Whether it is of that engine.
fn stands_as_it_starts(alloc: Global) -> bool {
    match start(alloc, Immediate, &TASKS) {
        Some(core) => is_as_it_starts(alloc, &core),
        None => false,
    }
}

#[test]
fn an_opening_has_no_events_and_its_tasks_as_they_start(rt: HostRuntime) {
    assert!(rt; stands_as_it_starts(rt.alloc()));
}
