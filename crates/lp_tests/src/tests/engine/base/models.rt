//! The rows of the models' table, and the names.
use super::*;
use lp_model::{Blame, CheckKind, Consistency, ForkKind, Verdict, lowest_stale};
use lp_models::{AllAtOnce, Hybrid, Immediate, LeaveKernel, ModelName};
use lp_patch::Aim;
use lp_process::ProcessGroup;
use lp_stack::{GroupId, View};
use std::alloc::AllocError;

/// Task 1 with calls at level 0, of which the first has serial 2, the next 3 and so on, in a box.
fn task_in(alloc: Global, mode: Mode, funcs: &[SymId]) -> Result<Box<TaskStack>, AllocError> {
    let mut stack = Box::new(alloc, TaskStack::new(TaskId(1), Class::Normal, mode))?;
    push_all(&mut stack, funcs);
    Ok(stack)
}

fn push_all(stack: &mut TaskStack, funcs: &[SymId]) {
    for (func, serial) in funcs.iter().zip(2..) {
        let _ = stack.push(frame(*func, 0, serial));
    }
}

/// Whether a model blames task 1 for this at a kind of check, in each of its calls.
fn is_blamed<M: Consistency>(
    model: M,
    aim: &Aim<'_>,
    view: &View<'_>,
    kind: CheckKind,
    want: Option<Blame>,
) -> bool {
    let verdict = Verdict::of(&model, kind, view, aim);
    verdict.task == TaskId(1)
        && verdict.blame == want
        && model.blame(kind, view, aim) == want
        && model.uses(kind) == (want != UNUSED)
        && model.admits(kind, view, aim) == want.is_none()
}

/// What a model blames a task for at a kernel exit, an idle point, its own check in the kernel, a walk
/// and a stop.
type Blames = [Option<Blame>; 5];

/// Whether a model blames a task for these.
fn are_blamed<M: Consistency>(model: M, aim: &Aim<'_>, task: &TaskStack, want: &Blames) -> bool {
    let view = task.view();
    let [exit, idle, resched, walk, stop] = *want;
    is_blamed(model, aim, &view, CheckKind::KernelExit, exit)
        && is_blamed(model, aim, &view, CheckKind::IdlePoint, idle)
        && is_blamed(model, aim, &view, CheckKind::Resched, resched)
        && is_blamed(model, aim, &view, CheckKind::Walk, walk)
        && is_blamed(model, aim, &view, CheckKind::Stop, stop)
}

const UNUSED: Option<Blame> = Some(Blame::Unused);

const BUSY: Option<Blame> = Some(Blame::Busy);

/// The frame of serial 2.
const FIRST: Option<Blame> = Some(Blame::Frame(2));

/// What hybrid, leave-kernel, all-at-once and immediate blame a task for.
type Blamed = [Blames; 4];

const ASLEEP_IN_C: Blamed = [
    [None, None, None, None, UNUSED],
    [FIRST, FIRST, UNUSED, UNUSED, UNUSED],
    [UNUSED, UNUSED, UNUSED, UNUSED, None],
    [None; 5],
];

const ASLEEP_IN_A: Blamed = [
    [FIRST, FIRST, FIRST, FIRST, UNUSED],
    [FIRST, FIRST, UNUSED, UNUSED, UNUSED],
    [UNUSED, UNUSED, UNUSED, UNUSED, FIRST],
    [None; 5],
];

const ON_A_CPU: Blamed = [
    [None, None, None, BUSY, UNUSED],
    [None, None, UNUSED, UNUSED, UNUSED],
    [UNUSED, UNUSED, UNUSED, UNUSED, None],
    [None; 5],
];

/// A task with these calls in a mode, and what each of the four blames it for.
type Row<'a> = (Mode, &'a [SymId], &'a Blamed);

const BLAMED: [Row<'static>; 4] = [
    (Mode::Asleep, &[C], &ASLEEP_IN_C),
    (Mode::Asleep, &[A, C], &ASLEEP_IN_A),
    (Mode::User, &[], &ON_A_CPU),
    (Mode::Kernel, &[], &ON_A_CPU),
];

/// Whether each of the four blames a task for these.
fn each_blames(aim: &Aim<'_>, task: &TaskStack, want: &Blamed) -> bool {
    let [hybrid, leave_kernel, all_at_once, immediate] = want;
    are_blamed(Hybrid, aim, task, hybrid)
        && are_blamed(LeaveKernel, aim, task, leave_kernel)
        && are_blamed(AllAtOnce, aim, task, all_at_once)
        && are_blamed(Immediate, aim, task, immediate)
}

/// Whether a row of `BLAMED` is right.
fn is_right(alloc: Global, aim: &Aim<'_>, row: &Row<'_>) -> bool {
    match task_in(alloc, row.0, row.1) {
        Ok(task) => each_blames(aim, &task, row.2),
        Err(_) => false,
    }
}

/// Whether each of these rows is.
fn are_right(alloc: Global, aim: &Aim<'_>, rows: &[Row<'_>]) -> bool {
    for row in rows {
        if !is_right(alloc, aim, row) {
            return false;
        }
    }
    true
}

#[test]
fn models_blame_frames_and_cpus(rt: HostRuntime) {
    assert!(rt; on_the_way_to_a(rt.alloc(), Table::Blamed));
}

/// A task with these calls in a mode, and what process-group blames it for at each kind of check.
type GroupRow<'a> = (Mode, &'a [SymId], Blames);

const BLAMED_IN_A_GROUP: [GroupRow<'static>; 4] = [
    (Mode::User, &[], [None, None, None, None, UNUSED]),
    (Mode::Kernel, &[], [None, None, None, BUSY, UNUSED]),
    (Mode::Asleep, &[], [None, None, None, None, UNUSED]),
    (Mode::Kernel, &[A], [FIRST, FIRST, FIRST, FIRST, UNUSED]),
];

/// Whether a row of `BLAMED_IN_A_GROUP` is right.
fn is_right_in_a_group(alloc: Global, aim: &Aim<'_>, row: &GroupRow<'_>) -> bool {
    match task_in(alloc, row.0, row.1) {
        Ok(task) => are_blamed(ProcessGroup, aim, &task, &row.2),
        Err(_) => false,
    }
}

/// Whether each of these rows is.
fn are_right_in_a_group(alloc: Global, aim: &Aim<'_>, rows: &[GroupRow<'_>]) -> bool {
    for row in rows {
        if !is_right_in_a_group(alloc, aim, row) {
            return false;
        }
    }
    true
}

#[test]
fn process_group_blames_frames_and_the_kernel(rt: HostRuntime) {
    assert!(rt; on_the_way_to_a(rt.alloc(), Table::BlamedInAGroup));
}

/// Calls of a task, and the serial of the lowest that is stale.
type LowestRow = ([SymId; 3], Option<u64>);

const LOWEST: [LowestRow; 4] = [
    ([C, C, C], None),
    ([C, A, C], Some(3)),
    ([C, A, A], Some(3)),
    ([C, C, A], Some(4)),
];

/// Whether a row of `LOWEST` is right.
fn is_lowest(alloc: Global, aim: &Aim<'_>, row: &LowestRow) -> bool {
    match task_in(alloc, Mode::User, &row.0) {
        Ok(task) => lowest_stale(&task.view(), aim) == row.1,
        Err(_) => false,
    }
}

/// Whether each of these rows is.
fn are_lowest(alloc: Global, aim: &Aim<'_>, rows: &[LowestRow]) -> bool {
    for row in rows {
        if !is_lowest(alloc, aim, row) {
            return false;
        }
    }
    true
}

/// The tables of tasks in calls.
#[derive(Clone, Copy)]
enum Table {
    Blamed,
    BlamedInAGroup,
    Lowest,
}

/// Whether each row of a table is right, on the way to the first of these patches.
fn is_table_right(alloc: Global, patches: &PatchStack, table: Table) -> bool {
    let aim = Aim {
        patches,
        target: Level(1),
    };
    match table {
        Table::Blamed => are_right(alloc, &aim, &BLAMED),
        Table::BlamedInAGroup => are_right_in_a_group(alloc, &aim, &BLAMED_IN_A_GROUP),
        Table::Lowest => are_lowest(alloc, &aim, &LOWEST),
    }
}

/// The same, of a patch of `a`.
fn on_the_way_to_a(alloc: Global, table: Table) -> bool {
    match patches(alloc, &[&[A]]) {
        Ok(patches) => is_table_right(alloc, &patches, table),
        Err(_) => false,
    }
}

#[test]
fn the_lowest_stale_frame(rt: HostRuntime) {
    assert!(rt; on_the_way_to_a(rt.alloc(), Table::Lowest));
}

/// Whether task 7 has this group, and a child 9 of group 3 these, by a fork of its own and a shared one.
fn are_groups<M: Consistency>(model: M, first: u16, own: u16, share: u16) -> bool {
    model.first_group(TaskId(7)) == GroupId(first)
        && model.child_group(GroupId(3), TaskId(9), ForkKind::Own) == GroupId(own)
        && model.child_group(GroupId(3), TaskId(9), ForkKind::Share) == GroupId(share)
}

/// Whether the models have their groups.
fn have_groups() -> bool {
    are_groups(Hybrid, 7, 9, 9)
        && are_groups(LeaveKernel, 7, 9, 9)
        && are_groups(AllAtOnce, 0, 3, 3)
        && are_groups(Immediate, 7, 9, 9)
        && are_groups(ProcessGroup, 7, 9, 3)
}

/// Whether `immediate` alone lets calls be torn.
fn keep_calls_whole() -> bool {
    Hybrid.whole_call()
        && LeaveKernel.whole_call()
        && AllAtOnce.whole_call()
        && !Immediate.whole_call()
        && ProcessGroup.whole_call()
}

#[test]
fn groups_of_tasks(rt: HostRuntime) {
    assert!(rt; have_groups() && keep_calls_whole());
}

const NAMES: [(&str, ModelName); 5] = [
    ("hybrid", ModelName::Hybrid),
    ("leave-kernel", ModelName::LeaveKernel),
    ("all-at-once", ModelName::AllAtOnce),
    ("immediate", ModelName::Immediate),
    ("process-group", ModelName::ProcessGroup),
];

/// Whether each of these names is read, and the model has it.
fn models_have_names() -> bool {
    for (name, model) in &NAMES {
        if ModelName::read(*name) != Some(*model) || model.name() != *name {
            return false;
        }
    }
    true
}

const OTHERS: [&str; 3] = ["", "Hybrid", "hybrid "];

/// Whether none of these is read as a name.
fn others_are_no_names() -> bool {
    for other in &OTHERS {
        if ModelName::read(*other) != None {
            return false;
        }
    }
    true
}

#[test]
fn names_are_read(rt: HostRuntime) {
    assert!(rt; models_have_names() && others_are_no_names());
}
