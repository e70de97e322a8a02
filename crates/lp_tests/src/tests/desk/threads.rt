//! A seat in a thread of its own.
use super::closes::is_put;
use super::*;
use std::thread::join;

/// Task 1 switches.
const EXIT: [Row; 2] = [
    (Some(0), Event::Enter(ONE), Said::Done),
    (Some(0), Event::Exit(ONE), Said::Switched(1)),
];

/// Whether task 1 switches where `enable` is sent from here, and `enter 1` and `exit 1` from another thread.
pub(super) fn exits<
    M: Consistency + Send + Sync,
    N: DeskName + Send + Sync,
    R: Threads + Wait + Sync,
>(run: &mut Run<'_, M, N, R>) -> bool {
    if run.send(None, Event::Enable) != Said::Done {
        return false;
    }
    let (switches, _) = join(run.rt, || run.takes(&EXIT), || ());
    switches
}

/// Seat 2 is kept back, and the audit is made again with it.
#[test]
fn a_seat_that_is_kept_back_is_missed(rt: HostRuntime) {
    assert!(rt; is_right(&rt, rt.alloc(), Hybrid, OF_BOTH, Play::KeptBack));
}

/// Whether the second seat is missed where the first has sent its events, and with it the audit finds nothing.
pub(super) fn is_kept_back<
    M: Consistency + Send + Sync,
    N: DeskName + Send + Sync,
    R: Threads + Wait + Sync,
>(run: &mut Run<'_, M, N, R>, parts: &mut Parts) -> bool {
    exits(run) && is_put(&mut parts.seats, 0, run.hands.seat(1)) && is_missed(run, parts)
}

/// Whether the one of two seats that was kept back is missed, and with it the audit finds nothing.
fn is_missed<M: Consistency, N: DeskName, R: Wait>(
    run: &mut Run<'_, M, N, R>,
    parts: &mut Parts,
) -> bool {
    run.closes_to(CloseCause::Missing { have: 1, want: 2 })
        && is_put(&mut run.hands.seats, 1, parts.seats.pop())
        && run.audits_to(run.hands.seats.as_slice(), Ok(()))
}
