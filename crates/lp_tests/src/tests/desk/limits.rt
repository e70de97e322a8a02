//! What a seat and the control may send, how much fits, and what a launch refuses.
use super::boards::blank_fault;
use super::*;
use lp_board::Shown;
use lp_log::Entry;
use std::mem::size_of;

/// Events of another task and of the control are turned back at a seat, and leave the journal as it was.
#[test]
fn a_seat_sends_its_tasks_events_alone(rt: HostRuntime) {
    assert!(rt; is_right(&rt, rt.alloc(), Hybrid, OF_BOTH, Play::Rows(&NOT_THEIRS, 0)));
}

/// None of these is the task's, or the control's at the end.
const NOT_THEIRS: [Row; 5] = [
    (Some(0), Event::Enter(TWO), Said::Turned(TurnedBy::NotYours)),
    (Some(0), Event::Walk, Said::Turned(TurnedBy::NotYours)),
    (Some(0), Event::Stop, Said::Turned(TurnedBy::NotYours)),
    (Some(0), Event::Enable, Said::Turned(TurnedBy::NotYours)),
    (None, Event::Enter(ONE), Said::Turned(TurnedBy::NotYours)),
];

/// After 1,000,000 events every event is turned back, also one that would be another task's first. A reader that never looked
/// is shown all of them.
#[test]
fn a_full_journal_turns_back(rt: HostRuntime) {
    assert!(rt; is_right(&rt, rt.alloc(), Hybrid, OF_FIRST, Play::Filled));
}

/// Whether a desk is full after 1,000,000 events.
pub(super) fn is_filled<M: Consistency + Sync, N: DeskName, R: Threads + Wait + Sync>(
    run: &mut Run<'_, M, N, R>,
) -> bool {
    wakes_a_million(run) && run.takes(&FULL) && sees_a_million(run.hands.readers.as_mut_slice())
}

/// Whether there is one reader, which sees task 1 after 1,000,000 events.
fn sees_a_million<N: DeskName>(readers: &mut [BoardReader<N>]) -> bool {
    match readers {
        [reader] => {
            reader.seen() == 0
                && reader.state_of(ONE) == Some(Shown::Settled)
                && reader.seen() == 1_000_000
        }
        _ => false,
    }
}

const FULL: [Row; 2] = [
    (
        Some(0),
        Event::Enter(ONE),
        Said::Turned(TurnedBy::JournalFull),
    ),
    (None, Event::Walk, Said::Turned(TurnedBy::JournalFull)),
];

/// Whether 1,000,000 events are answered, each of which the engine refuses.
fn wakes_a_million<M: Consistency + Sync, N: DeskName, R: Threads + Wait + Sync>(
    run: &mut Run<'_, M, N, R>,
) -> bool {
    for _turn in 0..1_000_000u32 {
        match run.send(Some(0), Event::Wake(ONE)) {
            Said::Refused(_) => (),
            _ => return false,
        }
    }
    true
}

#[test]
fn an_entry_takes_48_bytes_at_most(rt: HostRuntime) {
    assert!(rt; size_of::<Entry>() <= 48, "{} bytes", size_of::<Entry>());
}

const TWICE: [(TaskId, Class); 2] = [(ONE, Class::Normal), (ONE, Class::Idle)];

/// The readers come before the tasks.
#[test]
fn a_launch_names_its_fault(rt: HostRuntime) {
    assert!(rt; blank_fault(rt.alloc(), &TWICE, 0) == Some(LaunchFault::BadCrew));
    let twice = blank_fault(rt.alloc(), &TWICE, 1);
    assert!(rt; twice == Some(LaunchFault::Boot(BootFault::TaskDoubled)));
    let none = blank_fault(rt.alloc(), &[(TaskId(0), Class::Normal)], 1);
    assert!(rt; none == Some(LaunchFault::Boot(BootFault::TaskRange)));
    assert!(rt; crew_fault(&rt, rt.alloc(), 0) == Some(LaunchFault::BadCrew));
    assert!(rt; crew_fault(&rt, rt.alloc(), 65) == Some(LaunchFault::BadCrew));
}

/// Why no desk starts with so many workers; None where one does.
fn crew_fault<R: Threads + Wait + Sync>(
    rt: &R,
    alloc: Global,
    workers: usize,
) -> Option<LaunchFault> {
    let setting = Setting {
        workers,
        ..OF_FIRST
    };
    let play = Play::Rows(&[], 0);
    with_desk(rt, alloc, Hybrid, setting, play, &mut Parts::none(alloc)).err()
}
