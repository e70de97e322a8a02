//! What a board shows of a desk's events.
use super::threads::exits;
use super::*;
use lp_board::{BoardFault, Shown};
use lp_models::AllAtOnce;
use std::thread::join;

/// Task 1 switches, on a thread of its own; who learns what was told of it sees it. A walk then refuses task 2 in user
/// space. After the close nothing is shown any more.
#[test]
fn told_is_shown(rt: HostRuntime) {
    assert!(rt; is_right(&rt, rt.alloc(), Hybrid, OF_BOTH, Play::Shown));
}

/// Whether the right thing is shown up to the close, and nothing after it.
pub(super) fn is_shown<
    M: Consistency + Send + Sync,
    N: DeskName + Send + Sync,
    R: Threads + Wait + Sync,
>(run: &mut Run<'_, M, N, R>) -> bool {
    match run.hands.readers.pop() {
        Some(mut reader) => is_shown_to(run, &mut reader),
        None => false,
    }
}

fn is_shown_to<M: Consistency + Send + Sync, N: DeskName + Send + Sync, R: Threads + Wait + Sync>(
    run: &mut Run<'_, M, N, R>,
    reader: &mut BoardReader<N>,
) -> bool {
    is_exit_shown(run, reader)
        && is_walk_shown(run, reader)
        && run.closes_with(4)
        && is_nothing_shown(run.alloc, reader)
}

/// Whether the switch of task 1 at its exit is shown.
fn is_exit_shown<M: Consistency + Send + Sync, N: DeskName + Send + Sync, R: Threads + Wait + Sync>(
    run: &mut Run<'_, M, N, R>,
    reader: &mut BoardReader<N>,
) -> bool {
    exits(run)
        && learns(&mut run.hands, reader)
        && reader.state_of(ONE) == Some(Shown::Patched)
        && reader.state_of(TWO) == Some(Shown::Unpatched)
}

/// Whether a walk that refuses task 2 is shown.
fn is_walk_shown<M: Consistency + Sync, N: DeskName, R: Threads + Wait + Sync>(
    run: &mut Run<'_, M, N, R>,
    reader: &mut BoardReader<N>,
) -> bool {
    run.send(None, Event::Walk) == Said::Done
        && learns(&mut run.hands, reader)
        && shows_one_patched(run.alloc, reader)
}

/// A reader learns what was told last, if anything was.
fn learns<N: DeskName>(hands: &mut Hands<N>, reader: &mut BoardReader<N>) -> bool {
    match hands.told.take() {
        Some(told) => {
            reader.learn(told);
            true
        }
        None => false,
    }
}

const ONE_PATCHED: [(TaskId, Shown); 2] = [(ONE, Shown::Patched), (TWO, Shown::Unpatched)];

/// Whether task 1 is patched after four events, and task 2 isn't.
fn shows_one_patched<N: DeskName>(alloc: Global, reader: &mut BoardReader<N>) -> bool {
    match reader.snapshot(alloc) {
        Ok(all) => all.as_slice() == ONE_PATCHED.as_slice() && reader.seen() == 4,
        Err(_) => false,
    }
}

/// Whether the board is shut after four events.
fn is_nothing_shown<N: DeskName>(alloc: Global, reader: &mut BoardReader<N>) -> bool {
    reader.state_of(ONE) == None
        && matches!(reader.snapshot(alloc), Err(BoardFault::Shut))
        && reader.seen() == 4
}

/// While both tasks switch together a reader looks all along, and sees them together.
#[test]
fn never_one_of_each(rt: HostRuntime) {
    assert!(rt; is_right(&rt, rt.alloc(), AllAtOnce, OF_BOTH, Play::Watched));
}

/// Whether the one reader saw the tasks together all along a stop, and both are settled once it learnt what was told of
/// it.
pub(super) fn is_watched<
    M: Consistency + Send + Sync,
    N: DeskName + Send + Sync,
    R: Threads + Wait + Sync,
>(run: &mut Run<'_, M, N, R>) -> bool {
    match run.hands.readers.pop() {
        Some(mut reader) => watches(run, &mut reader) && ends_settled(run, &mut reader),
        None => false,
    }
}

/// Whether a reader saw the tasks together all along a stop.
fn watches<M: Consistency + Send + Sync, N: DeskName + Send + Sync, R: Threads + Wait + Sync>(
    run: &mut Run<'_, M, N, R>,
    reader: &mut BoardReader<N>,
) -> bool {
    let (rt, alloc) = (run.rt, run.alloc);
    let (stopped, step) = join(rt, || run.takes(&STOP), || looks(alloc, reader));
    stopped && step.is_some()
}

/// Whether both tasks are settled to who learns what was told last.
fn ends_settled<M: Consistency, N: DeskName, R: Wait>(
    run: &mut Run<'_, M, N, R>,
    reader: &mut BoardReader<N>,
) -> bool {
    learns(&mut run.hands, reader) && both(run.alloc, reader) == Some(Shown::Settled)
}

/// What is shown of both tasks, where it is the same.
fn both<N: DeskName>(alloc: Global, reader: &mut BoardReader<N>) -> Option<Shown> {
    match reader.snapshot(alloc) {
        Ok(all) => both_in(all.as_slice()),
        Err(_) => None,
    }
}

fn both_in(all: &[(TaskId, Shown)]) -> Option<Shown> {
    match all {
        [(first, one), (second, two)] if *first == ONE && *second == TWO && one == two => {
            Some(*one)
        }
        _ => None,
    }
}

/// How far a reader that looks all along saw the tasks get, of settled, unpatched and settled again; None where it saw
/// anything else.
fn looks<N: DeskName>(alloc: Global, reader: &mut BoardReader<N>) -> Option<u8> {
    let mut step = 0;
    for _look in 0..1_000 {
        step = match (step, both(alloc, reader)) {
            (0, Some(Shown::Settled)) => 0,
            (0 | 1, Some(Shown::Unpatched)) => 1,
            (1 | 2, Some(Shown::Settled)) => 2,
            _ => return None,
        };
    }
    Some(step)
}

/// Each of as many readers as a board may have sees the event.
#[test]
fn many_readers_see_the_same(rt: HostRuntime) {
    assert!(rt; is_right(&rt, rt.alloc(), Hybrid, MANY_READERS, Play::Seen));
}

const MANY_READERS: Setting<'static> = Setting {
    readers: 64,
    ..OF_FIRST
};

/// Whether all readers see an entry.
pub(super) fn is_seen<M: Consistency + Sync, N: DeskName, R: Threads + Wait + Sync>(
    run: &mut Run<'_, M, N, R>,
) -> bool {
    run.send(Some(0), Event::Enter(ONE)) == Said::Done
        && all_see_one_settled(run.hands.readers.as_mut_slice())
}

/// Whether there are 64, and each of them sees it.
fn all_see_one_settled<N: DeskName>(readers: &mut [BoardReader<N>]) -> bool {
    if readers.len() != 64 {
        return false;
    }
    for reader in readers {
        if !sees_one_settled(reader) {
            return false;
        }
    }
    true
}

/// Whether task 1 is settled after one event, and task 2 isn't there.
fn sees_one_settled<N: DeskName>(reader: &mut BoardReader<N>) -> bool {
    reader.state_of(ONE) == Some(Shown::Settled)
        && reader.state_of(TWO) == Some(Shown::Absent)
        && reader.seen() == 1
}

/// The task of the highest number is shown as the first is, and so is one halfway that isn't there.
#[test]
fn the_highest_task_is_shown(rt: HostRuntime) {
    let setting = Setting {
        boots: &HIGHEST,
        ..OF_FIRST
    };
    assert!(rt; is_right(&rt, rt.alloc(), Hybrid, setting, Play::Highest));
}

const HIGHEST: [(TaskId, Class); 1] = [(LAST, Class::Normal)];

const LAST: TaskId = TaskId(65_535);

/// Whether the task of the highest number is shown, from the start on.
pub(super) fn is_highest_shown<M: Consistency + Sync, N: DeskName, R: Threads + Wait + Sync>(
    run: &mut Run<'_, M, N, R>,
) -> bool {
    shows_the_last(run.hands.readers.as_mut_slice(), 0)
        && run.send(Some(0), Event::Enter(LAST)) == Said::Done
        && shows_the_last(run.hands.readers.as_mut_slice(), 1)
}

/// Whether there is one reader, which sees the last task alone, after so many events.
fn shows_the_last<N: DeskName>(readers: &mut [BoardReader<N>], count: u64) -> bool {
    match readers {
        [reader] => {
            reader.state_of(LAST) == Some(Shown::Settled)
                && reader.state_of(TaskId(40_000)) == Some(Shown::Absent)
                && reader.seen() == count
        }
        _ => false,
    }
}

#[test]
fn a_board_has_1_to_64_readers(rt: HostRuntime) {
    assert!(rt; blank_fault(rt.alloc(), &[], 0) == Some(LaunchFault::BadCrew));
    assert!(rt; blank_fault(rt.alloc(), &[], 65) == Some(LaunchFault::BadCrew));
}

/// Why no desk starts with these tasks and so many readers; None where one does.
pub(super) fn blank_fault(
    alloc: Global,
    boots: &[(TaskId, Class)],
    readers: usize,
) -> Option<LaunchFault> {
    match patched(alloc) {
        Ok(patches) => Blank::new(alloc, Hybrid, patches, boots, readers).err(),
        Err(_) => None,
    }
}
