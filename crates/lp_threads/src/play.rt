//! A thread's part of a play.
ghost use Rattle.std.specs.Prelude.{◌≡◌, ◌≢◌, ◌≤◌, [], All, IfOk, MatchOption, None, Some, length};
ghost use Rattle.lp_log.specs.Seats.{owner};
ghost use Rattle.lp_log.specs.declared.seat.TurnedBy.TheVariants.{JournalFull as Full, NotYours};
ghost use Rattle.lp_threads.specs.inside.Players.{HasPlayed, IsCommanded, IsFull, IsPlayed, IsSentBy};

use crate::scripts::Scripts;
use crate::trace_name::TraceName;
use lp_board::{DeskName, Told};
use lp_log::TurnedBy;
use lp_model::Consistency;
use lp_owned::{
    OwnedCommanded, OwnedControl, OwnedDesk, OwnedSeat, OwnedSubmitted, Place, TurnedBack,
};
use lp_scan::ScanGate;
use lp_transition::Event;
use std::alloc::{AllocError, Global};
use std::collections::VecDeque;
use std::sync::Wait;
use std::thread::Threads;

/// What a player hands in: the seats that it was given, with those of the children that were born to them.
#[derive(Drop)]
pub(crate) struct Hand<N: DeskName + Place> {
    pub(crate) seats: Vec<OwnedSeat<N>>,
    /// All that was published when an event was turned back since none was left. In a play of a trace there always is one,
    /// but of that a thread knows nothing: it doesn't know what the others sent.
    pub(crate) full: Option<Told<N>>,
}

/// Plays the scripts of these seats, one after another, and then those of the children, in the order of their birth.
pub(crate) fn play_seats<
    T: Wait,
    M: Consistency,
    N: DeskName + Place,
    S: TraceName,
    G: ScanGate + Drop,
    R: Wait + Drop,
>(
    rt: &T,
    alloc: Global,
    desk: &OwnedDesk<M, N, G, R>,
    scripts: &Scripts<S>,
    hand: Vec<OwnedSeat<N>>,
) -> Result<Hand<N>, AllocError>
    requires { All (λ seat. seat.entries ≡ []) hand.items }
    ensures { IfOk result (λ played. IsPlayed S.events hand.items played.seats.items played.full) }
{
    let mut seats = Vec::with_capacity(alloc, hand.len())?;
    let mut waiting = VecDeque::from(hand);
    let mut full = None;
    for _ in rt.forever() {
        let Some(seat) = waiting.pop_front() else {
            return Ok(Hand { seats, full });
        };
        let (back, stopped) = play_seat(rt, alloc, desk, scripts, seat, &mut waiting)?;
        seats.push(back)?;
        full = full.or(stopped);
    }
    unreachable!()
}

/// Plays a seat's script, and adds the seats of its children to those that wait. It ends where no event is left.
fn play_seat<
    T: Wait,
    M: Consistency,
    N: DeskName + Place,
    S: TraceName,
    G: ScanGate + Drop,
    R: Wait + Drop,
>(
    rt: &T,
    alloc: Global,
    desk: &OwnedDesk<M, N, G, R>,
    scripts: &Scripts<S>,
    seat: OwnedSeat<N>,
    waiting: &mut VecDeque<OwnedSeat<N>>,
) -> Result<(OwnedSeat<N>, Option<Told<N>>), AllocError>
    requires new { seat.entries ≡ [] }
    ensures played { IfOk result (λ played. HasPlayed S.events seat played.0 played.1 waiting.old.items waiting.new.items) }
    ensures full { IfOk result (λ played. IsFull played.1) }
{
    let script = scripts.of(seat.task());
    let mut seat = seat;
    for event in script {
        let (back, stopped) = send(rt, alloc, desk, seat, *event, waiting)?;
        if let Some(told) = stopped {
            return Ok((back, Some(told)));
        }
        seat = back;
    }
    Ok((seat, None))
}

/// Sends an event of the seat's task, and adds the child's seat, if it brought one, to those that wait. Where no event is
/// left, the seat comes back with all that was published.
fn send<T: Wait, M: Consistency, N: DeskName + Place, G: ScanGate + Drop, R: Wait + Drop>(
    rt: &T,
    alloc: Global,
    desk: &OwnedDesk<M, N, G, R>,
    seat: OwnedSeat<N>,
    event: Event,
    waiting: &mut VecDeque<OwnedSeat<N>>,
) -> Result<(OwnedSeat<N>, Option<Told<N>>), AllocError>
    requires own { owner event ≡ Some seat.task }
    ensures sent { IfOk result (λ sent. MatchOption sent.1
        (IsSentBy event seat sent.0 waiting.old.items waiting.new.items)
        (λ told. (sent.0 ≡ seat) × (waiting.new.items ≡ waiting.old.items) × (1000000 ≤ length told))) }
{
    match desk.submit(rt, alloc, seat, event) {
        Ok(OwnedSubmitted { seat, child, .. }) => {
            if let Some(child) = child {
                waiting.push_back(child)?;
            }
            Ok((seat, None))
        }
        Err(turned) => {
            let (seat, told) = stopped(turned)?;
            Ok((seat, Some(told)))
        }
    }
}

/// What was turned back since no event was left, with all that was published.
fn stopped<P: Drop, N: DeskName>(turned: TurnedBack<P, N>) -> Result<(P, Told<N>), AllocError>
    requires own { turned.cause ≢ NotYours }
    requires room { turned.cause ≡ Full → 1000000 ≤ length turned.told }
    ensures part { IfOk result (λ stopped. stopped.0 ≡ turned.part) }
    ensures full { IfOk result (λ stopped. 1000000 ≤ length stopped.1) }
{
    let TurnedBack { part, cause, told } = turned;
    match cause {
        TurnedBy::JournalFull => Ok((part, told)),
        TurnedBy::NoMemory => Err(AllocError),
        TurnedBy::NotYours => unreachable!(),
    }
}

/// Plays the control's script. It ends where no event is left, with all that was published.
pub(crate) fn play_control<
    T: Threads + Wait + Sync,
    M: Consistency + Sync,
    N: DeskName + Place,
    S: TraceName,
    G: ScanGate + Sync + Drop,
    R: Wait + Drop,
>(
    rt: &T,
    alloc: Global,
    desk: &OwnedDesk<M, N, G, R>,
    scripts: &Scripts<S>,
    control: OwnedControl<N>,
) -> Result<(OwnedControl<N>, Option<Told<N>>), AllocError>
    requires { control ≡ [] }
    ensures { IfOk result (λ played. IsCommanded S.events played.0 played.1) }
{
    let script = scripts.control();
    let mut control = control;
    for event in script {
        match desk.command(rt, alloc, control, *event) {
            Ok(OwnedCommanded { control: back, .. }) => control = back,
            Err(turned) => {
                let (back, told) = stopped(turned)?;
                return Ok((back, Some(told)));
            }
        }
    }
    Ok((control, None))
}
