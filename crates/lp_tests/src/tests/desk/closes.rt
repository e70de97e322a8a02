//! Desks that are closed with each other's seats: A of tasks 1 and 2, whose seat 1 has sent `enter 1`, and B of task 1.
use super::*;

#[test]
fn a_seat_of_another_desk_differs_or_is_a_stranger(rt: HostRuntime) {
    assert!(rt; goes_right(&rt, rt.alloc(), Play::Entered, Play::ToldApart));
}

/// A's second seat sends an event to B, which is refused and journalled; and B is closed with A's control, which hasn't
/// sent what B's has. The control comes last, as task 0.
#[test]
fn another_desks_parts_close_no_desk(rt: HostRuntime) {
    assert!(rt; goes_right(&rt, rt.alloc(), Play::Parted, Play::Stranger));
    assert!(rt; goes_right(&rt, rt.alloc(), Play::Parted, Play::Differs));
}

/// Whether all goes as it should in a play with A, and then in one with B.
fn goes_right<R: Threads + Wait + Sync>(rt: &R, alloc: Global, a: Play<'_>, b: Play<'_>) -> bool {
    let mut parts = Parts::none(alloc);
    matches!(
        with_desk(rt, alloc, Hybrid, OF_BOTH, a, &mut parts),
        Ok(true)
    ) && matches!(
        with_desk(rt, alloc, Hybrid, OF_FIRST, b, &mut parts),
        Ok(true)
    )
}

/// Whether A takes `enter 1`. It leaves its seats.
pub(super) fn enters<M: Consistency + Sync, N: DeskName, R: Threads + Wait + Sync>(
    a: &mut Run<'_, M, N, R>,
    parts: &mut Parts,
) -> bool {
    let said = a.send(Some(0), Event::Enter(ONE));
    parts.seats = a.hands.all_seats(a.alloc);
    said == Said::Done
}

/// Whether B's seat is told from those that A left, where B is closed with none.
pub(super) fn is_told_apart<M: Consistency, N: DeskName, R: Wait>(
    b: &mut Run<'_, M, N, R>,
    parts: &mut Parts,
) -> bool {
    is_put(&mut parts.seats, 1, b.hands.seat(0))
        && b.closes_to(MISSING)
        && audits_tell(b, parts.seats.as_slice())
}

const MISSING: CloseCause = CloseCause::Missing { have: 0, want: 1 };

const DIFFERS: CloseCause = CloseCause::Differs {
    task: ONE,
    place: 0,
};

/// Whether the audit of B's journal tells A's first seat, B's own and A's second apart, which are these.
fn audits_tell<M: Consistency, N: DeskName, R: Wait>(b: &Run<'_, M, N, R>, seats: &[Seat]) -> bool {
    seats.len() == 3
        && b.audits_to(&seats[..1], Err(DIFFERS))
        && b.audits_to(&seats[..2], Err(CloseCause::Stranger { task: ONE }))
        && b.audits_to(&seats[1..2], Ok(()))
        && b.audits_to(&seats[1..], Err(CloseCause::Stranger { task: TWO }))
}

/// Whether A has a second seat. It leaves it, and its control.
pub(super) fn leaves_parts<M: Consistency, N: DeskName, R: Wait>(
    a: &mut Run<'_, M, N, R>,
    parts: &mut Parts,
) -> bool {
    parts.control = a.hands.control.take();
    is_put(&mut parts.seats, 0, a.hands.seat(1))
}

/// Whether there is this seat, which is put at a place.
pub(super) fn is_put(seats: &mut Vec<Seat>, place: usize, seat: Option<Seat>) -> bool {
    match seat {
        Some(seat) => place <= seats.len() && seats.insert(place, seat).is_ok(),
        None => false,
    }
}

/// Whether B isn't closed after an event from the seat that A left.
pub(super) fn meets_a_stranger<M: Consistency + Sync, N: DeskName, R: Threads + Wait + Sync>(
    b: &mut Run<'_, M, N, R>,
    parts: &mut Parts,
) -> bool {
    is_put(&mut b.hands.seats, 1, parts.seats.pop())
        && b.send(Some(1), Event::Enter(TWO)) == Said::Refused(1)
        && is_put(&mut parts.seats, 0, b.hands.seat(1))
        && b.closes_to(CloseCause::Stranger { task: TWO })
}

const NOT_SENT: CloseCause = CloseCause::Differs {
    task: TaskId(0),
    place: 0,
};

/// Whether B, whose control has sent an event, isn't closed with the one that A left.
pub(super) fn meets_another<M: Consistency + Sync, N: DeskName, R: Threads + Wait + Sync>(
    b: &mut Run<'_, M, N, R>,
    parts: &mut Parts,
) -> bool {
    let said = b.send(None, Event::Enable);
    b.hands.control = parts.control.take();
    said == Said::Done && b.closes_to(NOT_SENT)
}
