//! A trace, played through a desk by one thread, each event in its turn.
ghost use Rattle.std.specs.Prelude.{◌≡◌, ◌↔◌, IfOk, IfSome, IsTrue};
ghost use Rattle.lp_board.specs.Blanks.{name_of};
ghost use Rattle.lp_desk.specs.Books.{IsOf};
ghost use Rattle.lp_log.specs.Journals.{IsReplayed, events_in};
ghost use Rattle.lp_replay.specs.Outcome.{run_of};

use crate::trouble::Trouble;
use lp_board::{Blank, DeskName};
use lp_desk::{Commanded, Desk, Launched, OpenGate, Submitted};
use lp_log::{Control, Entry, Journal, Seat, TurnedBy, owner};
use lp_model::Consistency;
use lp_numbers::NUMBERS;
use lp_trace::{Trace, stack};
use lp_transition::Event;
use std::alloc::{AllocError, Global};
use std::marker::Brand;
use std::sync::Wait;
use std::thread::Threads;

/// The workers of a walk or a stop.
const SCAN_WORKERS: usize = 2;

/// The readers of the board, of which it has one at least.
const READERS: usize = 1;

/// Plays a trace through a desk, each event in its turn by its task's seat or by the control, closes the desk with all of
/// these, and gives its journal, whose events are the trace's. None where an event is of a task that has no seat, since it was
/// never born.
///
/// Nobody else sends, but of a call of a `Desk` no contract says so: the journal that the close gives is looked through.
pub fn play_in_order<T: Threads + Wait + Sync, M: Consistency + Sync>(
    rt: &T,
    alloc: Global,
    model: M,
    trace: &Trace,
) -> Result<Option<Journal>, Trouble>
    // The journal starts as the trace does, and has the replies of the definitions.
    ensures start { IfOk result (λ journal. IfSome journal (λ journal. (journal.patches ≡ (run_of trace.now).patches) × (journal.boots ≡ trace.now.boots))) }
    ensures replayed { IfOk result (λ journal. IfSome journal (λ journal. IsReplayed M.rules journal)) }
    ensures events { IfOk result (λ journal. IfSome journal (λ journal. events_in journal.entries ≡ trace.now.events)) }
{
    let patches = stack(alloc, trace)?;
    match Blank::new(alloc, model, patches, trace.boots(), READERS) {
        Ok(blank) => play_blank::<T, M, Brand>(rt, alloc, trace.events(), blank),
        Err(fault) => Err(Trouble::Launch(fault)),
    }
}

/// Plays these events through the desk that starts as a blank.
fn play_blank<T: Threads + Wait + Sync, M: Consistency + Sync, N: DeskName>(
    rt: &T,
    alloc: Global,
    events: &[Event],
    blank: Blank<M>,
) -> Result<Option<Journal>, Trouble>
    requires { name_of M.rules blank ≡ N.desk }
    ensures start { IfOk result (λ journal. IfSome journal (λ journal. (journal.patches ≡ blank.patches) × (journal.boots ≡ blank.boots))) }
    ensures replayed { IfOk result (λ journal. IfSome journal (λ journal. IsReplayed M.rules journal)) }
    ensures events { IfOk result (λ journal. IfSome journal (λ journal. events_in journal.entries ≡ events.now)) }
{
    match Desk::<M, N, OpenGate, &T>::launch(rt, alloc, blank, SCAN_WORKERS, OpenGate) {
        Ok(launched) => play_launched(rt, alloc, events, launched),
        Err(fault) => Err(Trouble::Launch(fault)),
    }
}

/// The same, through a desk at its start.
fn play_launched<T: Threads + Wait + Sync, M: Consistency + Sync, N: DeskName>(
    rt: &T,
    alloc: Global,
    events: &[Event],
    launched: Launched<M, N, OpenGate, &T>,
) -> Result<Option<Journal>, Trouble>
    ensures named { IfOk result (λ journal. IfSome journal (IsOf N.desk M.rules)) }
    ensures replayed { IfOk result (λ journal. IfSome journal (λ journal. IsReplayed M.rules journal)) }
    ensures events { IfOk result (λ journal. IfSome journal (λ journal. events_in journal.entries ≡ events.now)) }
{
    let Launched {
        desk,
        seats,
        control,
        readers: _,
    } = launched;
    match Seats::new(alloc, seats) {
        Ok(mut seats) => play_by(rt, alloc, events, desk, &mut seats, control),
        Err(_) => Err(Trouble::NoMemory),
    }
}

/// Plays them by these seats and the control, with all of which the desk is closed.
fn play_by<T: Threads + Wait + Sync, M: Consistency + Sync, N: DeskName>(
    rt: &T,
    alloc: Global,
    events: &[Event],
    desk: Desk<M, N, OpenGate, &T>,
    seats: &mut Seats,
    control: Control,
) -> Result<Option<Journal>, Trouble>
    ensures named { IfOk result (λ journal. IfSome journal (IsOf N.desk M.rules)) }
    ensures replayed { IfOk result (λ journal. IfSome journal (λ journal. IsReplayed M.rules journal)) }
    ensures events { IfOk result (λ journal. IfSome journal (λ journal. events_in journal.entries ≡ events.now)) }
{
    match sent(rt, alloc, &desk, events, seats, control) {
        Ok(Some(control)) => close(rt, alloc, events, desk, seats, control),
        Ok(None) => Ok(None),
        Err(cause) => Err(Trouble::Turned(cause)),
    }
}

/// Sends these events, and gives the control back; None where one is of a task that has no seat.
fn sent<T: Threads + Wait + Sync, M: Consistency + Sync, N: DeskName>(
    rt: &T,
    alloc: Global,
    desk: &Desk<M, N, OpenGate, &T>,
    events: &[Event],
    seats: &mut Seats,
    mut control: Control,
) -> Result<Option<Control>, TurnedBy> {
    for event in events {
        match owner(*event) {
            Some(task) if is_submitted(rt, alloc, desk, seats, task, *event)? => (),
            Some(_) => return Ok(None),
            None => control = commanded(rt, alloc, desk, control, *event)?,
        }
    }
    Ok(Some(control))
}

/// Sends an event from the control, which comes back.
fn commanded<T: Threads + Wait + Sync, M: Consistency + Sync, N: DeskName>(
    rt: &T,
    alloc: Global,
    desk: &Desk<M, N, OpenGate, &T>,
    control: Control,
    event: Event,
) -> Result<Control, TurnedBy> {
    match desk.command(rt, alloc, control, event) {
        Ok(Commanded { control, .. }) => Ok(control),
        Err(turned) => Err(turned.cause),
    }
}

/// Sends an event from its task's seat; false where the task has none.
fn is_submitted<T: Wait, M: Consistency, N: DeskName>(
    rt: &T,
    alloc: Global,
    desk: &Desk<M, N, OpenGate, &T>,
    seats: &mut Seats,
    task: u16,
    event: Event,
) -> Result<bool, TurnedBy> {
    let Some(seat) = seats.take(task) else {
        return Ok(false);
    };
    match desk.submit(rt, alloc, seat, event) {
        Ok(Submitted { seat, child, .. }) => {
            seats.put(seat);
            if let Some(child) = child {
                seats.put(child);
            }
            Ok(true)
        }
        Err(turned) => Err(turned.cause),
    }
}

/// Closes the desk with all seats and the control, and gives its journal, which has to have these events.
fn close<T: Wait, M: Consistency, N: DeskName>(
    rt: &T,
    alloc: Global,
    events: &[Event],
    desk: Desk<M, N, OpenGate, &T>,
    seats: &mut Seats,
    control: Control,
) -> Result<Option<Journal>, Trouble>
    ensures named { IfOk result (λ journal. IfSome journal (IsOf N.desk M.rules)) }
    ensures replayed { IfOk result (λ journal. IfSome journal (λ journal. IsReplayed M.rules journal)) }
    ensures events { IfOk result (λ journal. IfSome journal (λ journal. events_in journal.entries ≡ events.now)) }
{
    let seats = seats.take_all(alloc)?;
    match desk.close(rt, alloc, seats, control) {
        Ok(closed) => {
            if !has_events(&closed.journal, events) {
                return Err(Trouble::OtherEvents);
            }
            Ok(Some(closed.journal))
        }
        Err(unclosed) => Err(Trouble::Unclosed(unclosed.cause)),
    }
}

/// Whether the journal's events are these, in their order.
fn has_events(journal: &Journal, events: &[Event]) -> bool
    ensures { IsTrue result → events_in journal.now.entries ≡ events.now }
{
    let entries = journal.entries();
    if entries.len() != events.len() {
        return false;
    }
    for (place, entry) in entries.iter().enumerate() {
        if !is_of(entry, events[place]) {
            return false;
        }
    }
    true
}

/// Whether the entry is of this event.
fn is_of(entry: &Entry, event: Event) -> bool
    ensures { IsTrue result ↔ (entry.now.event ≡ event) }
{
    entry.event() == event
}

/// For each task number its seat, if it has one.
#[derive(Drop)]
struct Seats(Vec<Option<Seat>>);

impl Seats {
    fn new(alloc: Global, seats: Vec<Seat>) -> Result<Seats, AllocError> {
        let mut all = Seats(no_seats(alloc)?);
        for seat in seats {
            all.put(seat);
        }
        Ok(all)
    }

    /// Takes the seat of a task.
    fn take(&mut self, task: u16) -> Option<Seat> {
        self.0.get_mut(usize::from(task))?.take()
    }

    /// Puts a seat at its task's place.
    fn put(&mut self, seat: Seat) {
        let place = usize::from(seat.task().0);
        if let Some(kept) = self.0.get_mut(place) {
            *kept = Some(seat);
        }
    }

    /// Takes all seats, in the order of their tasks.
    fn take_all(&mut self, alloc: Global) -> Result<Vec<Seat>, AllocError> {
        let mut seats = Vec::new(alloc);
        for kept in self.0.as_mut_slice() {
            if let Some(seat) = kept.take() {
                seats.push(seat)?;
            }
        }
        Ok(seats)
    }
}

/// No seat for any task number.
fn no_seats(alloc: Global) -> Result<Vec<Option<Seat>>, AllocError> {
    let mut seats = Vec::with_capacity(alloc, NUMBERS)?;
    for _task in 0..NUMBERS {
        seats.push(None)?;
    }
    Ok(seats)
}
