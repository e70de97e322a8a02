//! A trace, played by threads.
ghost use Rattle.std.specs.Prelude.{◌≡◌, [], All, Err, IfErr, IfOk, IfSome, IsTrue, OnOk, map};
ghost use Rattle.std.specs.Io.KnownBytes.{Appends};
ghost use mathlib.Core.List.{IsPrefix};
ghost use Rattle.lp_board.specs.Blanks.{name_of};
ghost use Rattle.lp_replay.specs.Outcome.{run_of};
ghost use Rattle.lp_text.specs.Reading.{reading};
ghost use Rattle.lp_text.specs.StreamContract.{ReadsToEnd, WriteFailed, WritesToEnd, ended};
ghost use Rattle.lp_text.specs.Writing.{AppendsPrefix};
ghost use Rattle.lp_replay.specs.Runs.{AtTrace, ReadsTrace};
ghost use Rattle.lp_threads.specs.Faults.{AtDesk, AtRun, IsOfPlay, threads_end};
ghost use Rattle.lp_log.specs.Seats.{new_seat};
ghost use Rattle.lp_owned.specs.Owned.{AreAllIn};
ghost use Rattle.lp_threads.specs.Plays.{IsPlay, play_text};
ghost use Rattle.lp_threads.specs.inside.Players.{AreBegun, AreCovered};
ghost use Rattle.lp_threads.specs.declared.report.Play.{Play};

use crate::ThreadsFault;
use crate::hands::{Started, gather, start};
use crate::play::Hand;
use crate::report::{Play, write_play};
use crate::scripts::Scripts;
use crate::trace_name::TraceName;
use lp_board::{AllTold, DeskName, Told};
use lp_model::Consistency;
use lp_owned::{OwnedBlank, OwnedControl, OwnedDesk, OwnedLaunched, OwnedSeat, Place};
use lp_replay::{Counted, Trace, read_trace, stack};
use lp_scan::{OpenGate, ScanGate};
use std::alloc::{AllocError, Global};
use std::io::{Read, Write};
use std::marker::Brand;
use std::sync::Wait;
use std::thread::{self, Threads};

/// The workers of a walk or a stop.
const SCAN_WORKERS: usize = 2;

/// The readers of the board: a board has one at least.
const READERS: usize = 1;

/// Reads a trace to the reader's end, lets threads play it through a desk, each task's events in their order, closes the
/// desk with all that came back, and writes how many seats and events there were and how many events no seat played.
///
/// The boot tasks are dealt out to at most 64 threads, which also play the children that are born to theirs; the control
/// has one of its own. It makes at most 134,217,729 reads. A read or write that fails or is interrupted ends it, and so
/// does a write that takes no byte. Waits for the threads.
pub fn threads<T: Threads + Wait + Sync, M: Consistency + Send + Sync, R: Read, W: Write>(
    rt: &T,
    alloc: Global,
    name: &str,
    model: M,
    reader: &mut Counted<R>,
    writer: &mut Counted<W>,
) -> Result<(), ThreadsFault>
    // What was read spells a trace, and its play was reported and nothing else.
    ensures report { OnOk result (ReadsTrace (R.remaining reader.old.stream) (R.remaining reader.new.stream)
        (λ trace. (play : Play) × IsPlay M.rules trace play × Appends (W.contents writer.old.stream) (W.contents writer.new.stream) (play_text name.now play))) }
    // Where the writer failed, a prefix of such a report was written.
    ensures prefix { ended threads_end result ≡ WriteFailed → ReadsTrace (R.remaining reader.old.stream) (R.remaining reader.new.stream)
        (λ trace. (play : Play) × IsPlay M.rules trace play × AppendsPrefix (W.contents writer.old.stream) (W.contents writer.new.stream) (play_text name.now play)) }
    // The fault of a text is the one that the definitions give.
    ensures trace { IfErr result (λ fault. AtRun fault (λ why. AtTrace why (λ why. IfSome (R.remaining reader.old.stream) (λ text. reading text ≡ Err why)))) }
    // A fault of the desk is one that can come while a text that spells a trace is played.
    ensures desk { IfErr result (λ fault. AtDesk fault (IsOfPlay fault × ReadsTrace (R.remaining reader.old.stream) (R.remaining reader.new.stream) (λ trace. Unit {0}))) }
    // The reader is read to its end, and only then is anything written; a fault of either comes of a call that failed.
    ensures reads { ReadsToEnd (ended threads_end result) reader.old reader.new }
    ensures writes { WritesToEnd (ended threads_end result) writer.old writer.new }
{
    let trace = read_trace(alloc, reader)?;
    let play = play(rt, alloc, model, &trace)?;
    write_play(alloc, writer, name, play)
}

/// Lets threads play a trace, and closes the desk with all that comes back.
fn play<T: Threads + Wait + Sync, M: Consistency + Send + Sync>(
    rt: &T,
    alloc: Global,
    model: M,
    trace: &Trace,
) -> Result<Play, ThreadsFault>
    ensures play { IfOk result (λ play. IsPlay M.rules trace.now play) }
    ensures fault { IfErr result (λ fault. IsOfPlay fault) }
{
    let patches = stack(alloc, trace)?;
    match OwnedBlank::new(alloc, model, patches, trace.boots(), READERS) {
        Ok(blank) => { play_blank::<T, M, Brand, Brand>(rt, alloc, trace, boxed(alloc, blank)?) }
        Err(fault) => Err(ThreadsFault::of_launch(fault)),
    }
}

/// The same, through the desk that starts as a blank. Both are in boxes: the proof goes over each part of what a function
/// owns at each early return.
fn play_blank<
    T: Threads + Wait + Sync,
    M: Consistency + Send + Sync,
    N: DeskName + Place + Send + Sync,
    S: TraceName + Send + Sync,
>(rt: &T, alloc: Global, trace: &Trace, blank: Box<OwnedBlank<M>>) -> Result<Play, ThreadsFault>
    requires desk { name_of M.rules blank.value.start ≡ N.desk }
    requires table { blank.value.table ≡ N.table }
    requires events { trace.now.events ≡ S.events }
    requires patches { blank.value.start.patches ≡ (run_of trace.now).patches }
    requires boots { blank.value.start.boots ≡ trace.now.boots }
    ensures play { IfOk result (λ play. IsPlay M.rules trace.now play) }
    ensures fault { IfErr result (λ fault. IsOfPlay fault) }
{
    let scripts = Scripts::<S>::deal(alloc, trace.events())?;
    let blank = Box::into_inner(blank);
    match OwnedDesk::<M, N, OpenGate, &T>::launch(rt, alloc, blank, SCAN_WORKERS, OpenGate) {
        Ok(launched) => play_launched(rt, alloc, trace, &scripts, launched),
        Err(fault) => Err(ThreadsFault::of_launch(fault)),
    }
}

/// The same, through a desk at its start.
fn play_launched<
    T: Threads + Wait + Sync,
    M: Consistency + Send + Sync,
    N: DeskName + Place + Send + Sync,
    S: TraceName + Send + Sync,
>(
    rt: &T,
    alloc: Global,
    trace: &Trace,
    scripts: &Scripts<S>,
    launched: OwnedLaunched<M, N, OpenGate, &T>,
) -> Result<Play, ThreadsFault>
    requires new { All (λ seat. seat.entries ≡ []) launched.seats.items }
    requires seats { launched.seats.items ≡ map (λ boot. new_seat boot.0.0) N.desk.boots }
    requires control { launched.control ≡ [] }
    requires events { trace.now.events ≡ S.events }
    requires patches { N.desk.patches ≡ (run_of trace.now).patches }
    requires boots { N.desk.boots ≡ trace.now.boots }
    ensures play { IfOk result (λ play. IsPlay M.rules trace.now play) }
    ensures fault { IfErr result (λ fault. IsOfPlay fault) }
{
    let OwnedLaunched {
        desk,
        seats,
        control,
        readers,
    } = launched;
    drop(readers);
    let (hand, control) = played(rt, alloc, &desk, scripts, seats, control)?;
    let Hand { seats, full } = hand;
    let given = seats.len();
    let Ok(closed) = desk.close(rt, seats, control) else {
        unreachable!()
    };
    if !is_told(&closed.told, &full) {
        return Err(ThreadsFault::from(AllocError));
    }
    let events = closed.journal.entries().len();
    let skipped = trace.events().len().saturating_sub(events);
    Ok(Play {
        seats: given,
        events,
        skipped,
    })
}

/// Whether what was told where no event was left begins the journal, which then has as many events as a trace can have: so
/// all were sent. It always does: nobody is told of an event that isn't published, but of the board no contract says so.
fn is_told<N: DeskName>(all: &AllTold<N>, full: &Option<Told<N>>) -> bool
    ensures { IsTrue result → IfSome full.now (λ told. IsPrefix told all.now) }
{
    match full {
        Some(told) => all.told().begins_with(told),
        None => true,
    }
}

/// A value in a box; AllocError where an allocation failed.
pub(crate) fn boxed<X: Drop>(alloc: Global, value: X) -> Result<Box<X>, AllocError>
    ensures { IfOk result (λ inside. inside.value ≡ value) }
{
    Ok(Box::new(alloc, value)?)
}

/// Lets threads send all scripts from these seats and the control, and gives what comes back: these seats, and those of all
/// children; and what was told where no event was left.
fn played<
    T: Threads + Wait + Sync,
    M: Consistency + Send + Sync,
    N: DeskName + Place + Send + Sync,
    S: TraceName + Send + Sync,
    G: ScanGate + Sync + Drop,
>(
    rt: &T,
    alloc: Global,
    desk: &OwnedDesk<M, N, G, &T>,
    scripts: &Scripts<S>,
    seats: Vec<OwnedSeat<N>>,
    control: OwnedControl<N>,
) -> Result<(Hand<N>, OwnedControl<N>), ThreadsFault>
    requires new { All (λ seat. seat.entries ≡ []) seats.items }
    requires seats { seats.items ≡ map (λ boot. new_seat boot.0.0) N.desk.boots }
    requires control { control ≡ [] }
    ensures sent { IfOk result (λ parts. AreBegun parts.0.full S.events parts.0.seats.items parts.1) }
    ensures all_in { IfOk result (λ parts. AreAllIn N.desk.boots parts.0.seats.items) }
    ensures fault { IfErr result (λ fault. IsOfPlay fault) }
{
    let started = thread::scope(
        thread::scope_env(),
        rt,
        |scope| -> Result<Started<S, N>, ThreadsFault>
            requires seats { All (λ seat. seat.entries ≡ []) seats.items }
            requires control { control ≡ [] }
            ensures covered { IfOk result (λ started. AreCovered (λ h. h.promise.hand.value.items) seats.items [] started.hands.items) }
            ensures fault { IfErr result (λ fault. IsOfPlay fault) }
        { start(scope, rt, alloc, desk, scripts, seats, control) },
    );
    let Started { control, hands } = started?;
    let (control, stopped) = control.join(rt)?;
    let Hand { seats, full } = gather(rt, alloc, hands)?;
    let full = full.or(stopped);
    Ok((Hand { seats, full }, control))
}
