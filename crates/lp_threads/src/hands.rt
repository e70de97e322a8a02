//! The threads of a play, and what they promise to hand in.
ghost use Rattle.std.specs.Prelude.{◌≡◌, ◌<◌, [], All, IfErr, IfOk, ℕ};
ghost use Rattle.lp_log.specs.Audits.{seats_of};
ghost use Rattle.lp_threads.specs.Faults.{IsOfPlay};
ghost use Rattle.lp_threads.specs.inside.Players.{AreCovered, HaveSeats, IsBegunAt, IsCommanded, IsFull, IsPlayed};

use crate::ThreadsFault;
use crate::play::{Hand, play_control, play_seats};
use crate::scripts::Scripts;
use crate::trace_name::TraceName;
use lp_board::{DeskName, Told};
use lp_model::Consistency;
use lp_owned::{OwnedControl, OwnedDesk, OwnedSeat, Place};
use lp_scan::ScanGate;
use std::alloc::{AllocError, Global};
use std::marker::PhantomData;
use std::snapshot::Snapshot;
use std::sync::Wait;
use std::thread::{Promise, PromisedHandle, Scope, Threads};

/// The most threads that play tasks.
const MOST_PLAYERS: usize = 64;

/// What a player returns.
type Played<N> = Result<Hand<N>, AllocError>;

/// What the control's thread returns.
type Commanded<N> = Result<(OwnedControl<N>, Option<Told<N>>), AllocError>;

/// A player's promise: it was given these seats, and all events of their tasks and of their children's are sent, as far as
/// events were left.
#[derive(Drop)]
pub(crate) struct HandOf<S: TraceName, N: Place> {
    hand: Snapshot<Vec<OwnedSeat<N>>>,
    of: PhantomData<S>,
}

impl<S: TraceName, N: DeskName + Place> Promise<Result<Hand<N>, AllocError>> for HandOf<S, N> {
    ghost use Rattle.std.specs.Prelude.{IfOk};
    ghost use Rattle.lp_threads.specs.inside.Players.{IsPlayed};

    ghost kept_by = { λ p r. IfOk r (λ played. IsPlayed S.events p.hand.value.items played.seats.items played.full) };
}

/// The control's promise: all scans and control events of the trace are sent, as far as events were left.
#[derive(Drop)]
pub(crate) struct AllOf<S: TraceName>(PhantomData<S>);

impl<S: TraceName, N: DeskName + Place> Promise<Commanded<N>> for AllOf<S> {
    ghost use Rattle.std.specs.Prelude.{IfOk};
    ghost use Rattle.lp_threads.specs.inside.Players.{IsCommanded};

    ghost kept_by = { λ _ r. IfOk r (λ played. IsCommanded S.events played.0 played.1) };
}

/// The threads that were started.
#[derive(Drop)]
pub(crate) struct Started<S: TraceName, N: DeskName + Place> {
    pub(crate) control: PromisedHandle<Commanded<N>, AllOf<S>>,
    pub(crate) hands: Vec<PromisedHandle<Played<N>, HandOf<S, N>>>,
}

/// Starts a thread for the control, and at most 64 for the seats.
pub(crate) fn start<
    's,
    E,
    T: Threads + Wait + Sync,
    M: Consistency + Send + Sync,
    N: DeskName + Place + Send + Sync,
    S: TraceName + Send + Sync,
    G: ScanGate + Sync + Drop,
    R: Wait + Drop + Send + Sync,
>(
    scope: &Scope<'s, E>,
    rt: &'s T,
    alloc: Global,
    desk: &'s OwnedDesk<M, N, G, R>,
    scripts: &'s Scripts<S>,
    seats: Vec<OwnedSeat<N>>,
    control: OwnedControl<N>,
) -> Result<Started<S, N>, ThreadsFault>
    requires seats { All (λ seat. seat.entries ≡ []) seats.items }
    requires control { control ≡ [] }
    ensures covered { IfOk result (λ started. AreCovered (λ h. h.promise.hand.value.items) seats.items [] started.hands.items) }
    ensures fault { IfErr result (λ fault. IsOfPlay fault) }
{
    let commanding = move || -> Commanded<N>
        requires { control ≡ [] }
        ensures { IfOk result (λ played. IsCommanded S.events played.0 played.1) }
    { play_control(rt, alloc, desk, scripts, control) };
    let Ok(control) = scope.spawn_with(AllOf(PhantomData), commanding) else {
        return Err(ThreadsFault::NoThread);
    };
    let size = seats.len() / MOST_PLAYERS + 1;
    let mut left = seats;
    let mut hands = Vec::with_capacity(alloc, MOST_PLAYERS)?;
    for _ in rt.forever() {
        if left.is_empty() {
            return Ok(Started { control, hands });
        }
        let hand = left.split_off(left.len().saturating_sub(size))?;
        let player = start_player(scope, rt, alloc, desk, scripts, hand)?;
        if hands.push(player).is_err() {
            return Err(ThreadsFault::from(AllocError));
        }
    }
    unreachable!()
}

/// Starts a thread for these seats.
fn start_player<
    's,
    E,
    T: Threads + Wait + Sync,
    M: Consistency + Send + Sync,
    N: DeskName + Place + Send + Sync,
    S: TraceName + Send + Sync,
    G: ScanGate + Sync + Drop,
    R: Wait + Drop + Send + Sync,
>(
    scope: &Scope<'s, E>,
    rt: &'s T,
    alloc: Global,
    desk: &'s OwnedDesk<M, N, G, R>,
    scripts: &'s Scripts<S>,
    hand: Vec<OwnedSeat<N>>,
) -> Result<PromisedHandle<Played<N>, HandOf<S, N>>, ThreadsFault>
    requires { All (λ seat. seat.entries ≡ []) hand.items }
    ensures promised { IfOk result (λ handle. handle.promise.hand.value.items ≡ hand.items) }
    ensures fault { IfErr result (λ fault. IsOfPlay fault) }
{
    let promise = HandOf {
        hand: Snapshot::of(&hand),
        of: PhantomData,
    };
    let playing = move || -> Played<N>
        requires { All (λ seat. seat.entries ≡ []) hand.items }
        ensures { IfOk result (λ played. IsPlayed S.events hand.items played.seats.items played.full) }
    { play_seats(rt, alloc, desk, scripts, hand) };
    match scope.spawn_with(promise, playing) {
        Ok(handle) => Ok(handle),
        Err(_) => Err(ThreadsFault::NoThread),
    }
}

/// All seats, once every player has ended.
pub(crate) fn gather<T: Threads, N: DeskName + Place, S: TraceName>(
    rt: &T,
    alloc: Global,
    hands: Vec<PromisedHandle<Played<N>, HandOf<S, N>>>,
) -> Result<Hand<N>, AllocError>
    ensures given { IfOk result (λ all. All (λ h. (t : ℕ) → 0 < seats_of h.promise.hand.value.items t → 0 < seats_of all.seats.items t) hands.items) }
    ensures sent { IfOk result (λ all. All (IsBegunAt all.full S.events) all.seats.items) }
    ensures full { IfOk result (λ all. IsFull all.full) }
    ensures children { IfOk result (λ all. All (λ seat. HaveSeats seat.entries all.seats.items) all.seats.items) }
{
    let mut all = Vec::new(alloc);
    let mut full = None;
    for hand in hands {
        let Hand {
            mut seats,
            full: stopped,
        } = hand.join(rt)?;
        all.append(&mut seats)?;
        full = full.or(stopped);
    }
    Ok(Hand { seats: all, full })
}
