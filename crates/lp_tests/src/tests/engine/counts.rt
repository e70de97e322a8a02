//! Stays by themselves: the calls and returns of small runs.
use super::*;
use lp_stays::StayCount;

const LAST: TaskId = TaskId(65_535);

/// A count for patches over `a`, `b` and `c`.
fn count(alloc: Global, lists: &[&[SymId]]) -> Option<StayCount> {
    match patches(alloc, lists) {
        Ok(patches) => StayCount::new(alloc, &patches).ok(),
        Err(_) => None,
    }
}

#[derive(Clone, Copy)]
enum Step {
    /// A call, run at a level.
    Call(TaskId, SymId, u8),
    /// A return from a function.
    Ret(TaskId, SymId),
}

/// Counts a step; a count that is full takes no call.
fn take(count: &mut StayCount, step: Step) {
    match step {
        Step::Call(task, func, level) => {
            if count.calls() < 1_000_000 {
                count.call(task, func, Level(level));
            }
        }
        Step::Ret(task, func) => count.ret(task, func),
    }
}

/// Counts these steps.
fn take_all(count: &mut StayCount, steps: &[Step]) {
    for step in steps {
        take(count, *step);
    }
}

/// Whether there are so many stays, and so many mixed stays, after these steps.
fn is_after(count: &mut StayCount, steps: &[Step], stays: u64, mixed: u64) -> bool {
    take_all(count, steps);
    count.stays() == stays && count.mixed() == mixed
}

/// A name, the functions of each patch, steps, and how many stays and how many mixed stays there are after them.
type Row = (
    &'static str,
    &'static [&'static [SymId]],
    &'static [Step],
    (u64, u64),
);

/// Calls within a stay.
const NESTED: [Step; 6] = [
    Step::Call(ONE, A, 0),
    Step::Call(ONE, B, 0),
    Step::Call(ONE, A, 0),
    Step::Ret(ONE, A),
    Step::Ret(ONE, B),
    Step::Ret(ONE, A),
];

/// A stay ends with its last call, and the next begins.
const TWICE: [Step; 6] = [
    Step::Call(ONE, C, 0),
    Step::Call(ONE, A, 0),
    Step::Ret(ONE, A),
    Step::Call(ONE, A, 1),
    Step::Ret(ONE, A),
    Step::Ret(ONE, C),
];

const FIRST: Step = Step::Call(ONE, A, 0);

const SECOND: Step = Step::Call(ONE, B, 1);

/// A stay that is mixed again and again.
const MIXED: [Step; 5] = [
    FIRST,
    SECOND,
    Step::Ret(ONE, B),
    Step::Call(ONE, A, 0),
    Step::Call(ONE, A, 1),
];

/// Both sides, in stays of two tasks.
const APART: [Step; 4] = [
    Step::Call(ONE, A, 0),
    Step::Call(LAST, A, 1),
    Step::Ret(ONE, A),
    Step::Call(ONE, A, 1),
];

/// A call that mixes the second of two patches.
const MIXED_IN_THE_SECOND: [Step; 3] = [
    Step::Call(ONE, A, 1),
    Step::Call(ONE, B, 2),
    Step::Call(ONE, C, 2),
];

const ROWS: [Row; 8] = [
    ("nested calls are one stay", &[&[A]], &NESTED, (1, 0)),
    ("a stay ends with its last call", &[&[A]], &TWICE, (2, 0)),
    ("a stay that isn't mixed", &[&[A, B]], &[FIRST], (1, 0)),
    ("it is mixed", &[&[A, B]], &[FIRST, SECOND], (1, 1)),
    ("a stay is mixed once", &[&[A, B]], &MIXED, (1, 1)),
    ("both sides in two stays mix none", &[&[A]], &APART, (3, 0)),
    (
        "a call of both patches",
        &[&[A, B], &[A, C]],
        &[FIRST],
        (2, 0),
    ),
    (
        "each patch counts by itself",
        &[&[A, B], &[A, C]],
        &MIXED_IN_THE_SECOND,
        (2, 1),
    ),
];

/// Whether a row has its counts.
fn is_counted(alloc: Global, row: &Row) -> bool {
    let (_, lists, steps, (stays, mixed)) = row;
    match count(alloc, lists) {
        Some(mut count) => is_after(&mut count, steps, *stays, *mixed),
        None => false,
    }
}

#[test]
fn stays_are_counted_by_patch_and_task(rt: HostRuntime) {
    for row in &ROWS {
        assert!(rt; is_counted(rt.alloc(), row), "{}", row.0);
    }
}

/// Whether so many calls, and no stays or mixed stays, are counted.
fn has_no_stay(count: &StayCount, calls: u64) -> bool {
    count.calls() == calls && count.stays() == 0 && count.mixed() == 0
}

/// Whether a count begins at nothing, and a call of a function without a new version is counted as one, but as no stay.
fn counts_a_call(count: &mut StayCount) -> bool {
    let before = has_no_stay(count, 0);
    take_all(count, &[Step::Call(ONE, C, 0), Step::Ret(ONE, C)]);
    before && has_no_stay(count, 1)
}

/// Whether a new count does.
fn counts_a_call_at_first(alloc: Global) -> bool {
    match count(alloc, &[&[A]]) {
        Some(mut count) => counts_a_call(&mut count),
        None => false,
    }
}

#[test]
fn each_call_counts(rt: HostRuntime) {
    assert!(rt; counts_a_call_at_first(rt.alloc()));
}
