//! A desk on which an allocation fails: nothing is lost, and the same call succeeds after it.
//!
//! `scripts/refuse-memory` runs these tests with each allocation refused in turn.
use super::*;
use lp_board::BoardFault;
use lp_model::ForkKind;
use lp_models::AllAtOnce;

const THREE: TaskId = TaskId(3);

/// The third seat is the child's.
const WALKED: [Row; 12] = [
    (Some(0), Event::Enter(ONE), Said::Done),
    (Some(0), Event::Fork(ONE, THREE, ForkKind::Own), Said::Done),
    (None, Event::Enable, Said::Done),
    (Some(0), Event::Exit(ONE), Said::Switched(1)),
    (Some(2), Event::Call(THREE, A), Said::Ran(0)),
    (Some(2), Event::Sleep(THREE), Said::Done),
    (None, Event::Walk, Said::Done),
    (None, Event::Stop, Said::Done),
    (Some(2), Event::Wake(THREE), Said::Done),
    (Some(2), Event::Ret(THREE), Said::Done),
    (Some(2), Event::Sleep(THREE), Said::Done),
    (None, Event::Walk, Said::Switched(3)),
];

const STOPPED: [Row; 7] = [
    (None, Event::Enable, Said::Done),
    (Some(1), Event::Enter(TWO), Said::Done),
    (Some(1), Event::Call(TWO, A), Said::Ran(0)),
    (None, Event::Stop, Said::Done),
    (Some(1), Event::Fork(TWO, THREE, ForkKind::Own), Said::Done),
    (Some(1), Event::Ret(TWO), Said::Done),
    (None, Event::Stop, Said::SwitchedLast(0)),
];

#[test]
fn walks_lose_nothing_after_a_failed_allocation(rt: HostRuntime) {
    let first = walked(&rt, rt.alloc());
    assert!(rt; first != Ending::Wrong);
    assert!(rt; first == Ending::Right || walked(&rt, rt.alloc()) == Ending::Right);
}

#[test]
fn stops_lose_nothing_after_a_failed_allocation(rt: HostRuntime) {
    let first = stopped(&rt, rt.alloc());
    assert!(rt; first != Ending::Wrong);
    assert!(rt; first == Ending::Right || stopped(&rt, rt.alloc()) == Ending::Right);
}

/// How the play of rows ended.
#[derive(Clone, Copy, PartialEq, Eq)]
enum Ending {
    /// No desk was launched for want of memory.
    NoDesk,
    /// A desk has answered as it should.
    Right,
    Wrong,
}

impl Ending {
    fn of(played: Result<bool, LaunchFault>) -> Ending {
        match played {
            Ok(true) => Ending::Right,
            // Not NoBoard: no reader is refused for want of memory, as none is made before the board has room for all.
            Err(NO_MEMORY) => Ending::NoDesk,
            Ok(false) | Err(_) => Ending::Wrong,
        }
    }
}

fn walked<R: Threads + Wait + Sync>(rt: &R, alloc: Global) -> Ending {
    played(rt, alloc, Hybrid, &WALKED)
}

fn stopped<R: Threads + Wait + Sync>(rt: &R, alloc: Global) -> Ending {
    played(rt, alloc, AllAtOnce, &STOPPED)
}

/// How the play of these rows ends.
fn played<M: Consistency + Send + Sync, R: Threads + Wait + Sync>(
    rt: &R,
    alloc: Global,
    model: M,
    rows: &[Row],
) -> Ending {
    let mut parts = Parts::none(alloc);
    Ending::of(with_desk(rt, alloc, model, OF_BOTH, Play::Again(rows), &mut parts))
}

/// Whether each of these rows is answered as it should be, and the desk is closed.
pub(super) fn is_played<M: Consistency + Sync, N: DeskName, R: Threads + Wait + Sync>(
    run: &mut Run<'_, M, N, R>,
    rows: &[Row],
) -> bool {
    are_played(run, rows)
        && are_seen(run.alloc, run.hands.readers.as_mut_slice(), rows.len())
        && is_closed(run, rows.len())
}

/// Whether each row is answered as it should be.
fn are_played<M: Consistency + Sync, N: DeskName, R: Threads + Wait + Sync>(
    run: &mut Run<'_, M, N, R>,
    rows: &[Row],
) -> bool {
    for (place, event, said) in rows {
        if answer(run, *place, *event) != *said {
            return false;
        }
    }
    true
}

/// Whether there is one reader, and it has seen so many events, and task 1; and a snapshot fails for want of memory alone.
fn are_seen<N: DeskName>(alloc: Global, readers: &mut [BoardReader<N>], count: usize) -> bool {
    match readers {
        [reader] => {
            reader.state_of(ONE).is_some()
                && reader.seen() == count as u64
                && matches!(reader.snapshot(alloc), Ok(_) | Err(BoardFault::NoMemory))
        }
        _ => false,
    }
}

/// The answer to an event of a row, where it was sent once.
fn answer<M: Consistency + Sync, N: DeskName, R: Threads + Wait + Sync>(
    run: &mut Run<'_, M, N, R>,
    place: Option<usize>,
    event: Event,
) -> Said {
    if !has_room(&mut run.hands.seats) {
        return Said::Other;
    }
    let sent = sent_from(&run.hands, place);
    let said = answer_at_last(run, place, event);
    match sent_from(&run.hands, place).checked_sub(sent) {
        Some(1) => said,
        _ => Said::Other,
    }
}

/// The answer to an event: once more where an allocation failed, after which who sends it has sent no more than before.
fn answer_at_last<M: Consistency + Sync, N: DeskName, R: Threads + Wait + Sync>(
    run: &mut Run<'_, M, N, R>,
    place: Option<usize>,
    event: Event,
) -> Said {
    let sent = sent_from(&run.hands, place);
    match run.send(place, event) {
        Said::Turned(TurnedBy::NoMemory) if sent_from(&run.hands, place) == sent => {
            run.send(place, event)
        }
        said => said,
    }
}

/// Whether there is room for a child's seat, made again where an allocation fails.
fn has_room(seats: &mut Vec<Seat>) -> bool {
    seats.reserve(1).is_ok() || seats.reserve(1).is_ok()
}

/// How many events were sent from the seat at a place, or from the control where there is none.
fn sent_from<N: DeskName>(hands: &Hands<N>, place: Option<usize>) -> usize {
    match place {
        Some(place) => match hands.seats.get(place) {
            Some(seat) => seat.entries().len(),
            None => 0,
        },
        None => match &hands.control {
            Some(control) => control.entries().len(),
            None => 0,
        },
    }
}

/// Whether a desk is closed with all its seats, and its journal has so many entries: the audit is made once more where an
/// allocation failed, with what was handed back.
fn is_closed<M: Consistency, N: DeskName, R: Wait>(
    run: &mut Run<'_, M, N, R>,
    count: usize,
) -> bool {
    let is_closed = match run.close() {
        Some(Ok(())) => true,
        Some(Err(CloseCause::NoMemory)) => run.audits_to(run.hands.seats.as_slice(), Ok(())),
        _ => false,
    };
    is_closed && are_numbered(run.journal.as_ref(), count)
}

/// Whether there is a journal, and its entries have the numbers from 1 to this, without a gap.
fn are_numbered(journal: Option<&Journal>, count: usize) -> bool {
    match journal {
        Some(journal) => is_numbered(journal, count),
        None => false,
    }
}

/// Whether the entries have the numbers from 1 to this, without a gap.
fn is_numbered(journal: &Journal, count: usize) -> bool {
    for (entry, number) in journal.entries().iter().zip(1u32..) {
        if entry.number() != number {
            return false;
        }
    }
    journal.entries().len() == count
}
