//! A row, played in each way that gives what it wants.

use crate::certificates::accept_all;
use crate::difference::{Stage, compare};
use crate::engine::{event_lines, lines_of, lists_of};
use crate::program::{play_fault, play_program};
use crate::rows::{Job, Row};
use crate::rows_through_desk::play_through_desk;
use crate::streams::{Sink, Source};
use crate::trouble::Trouble;
use lp_model::Consistency;
use lp_models::{ModelName, with_model};
use lp_program::{check, run};
use lp_trace::{CheckInput, Counted, ReadFault, RunFault, Trace, TraceFault, TraceForm};
use std::alloc::{AllocError, Global};
use std::str;
use std::sync::Wait;
use std::thread::Threads;

/// How many bytes are read and written at a time.
pub const SIZES: [usize; 3] = [1, 5, 1_000_000];

/// What came of a row that was played.
#[derive(Clone, Copy)]
pub struct Played {
    /// How many certificates of its report were accepted.
    pub certificates: usize,
    /// Whether its events went through a desk too.
    pub through_desk: bool,
}

/// What comes of a row that has no report.
const fn no_trace() -> Played {
    Played {
        certificates: 0,
        through_desk: false,
    }
}

/// The line of a fault, as a data file has it.
fn fault_line(alloc: Global, fault: TraceFault) -> Result<String, AllocError> {
    format!(in alloc; "fault {} L{}\n", fault.line, fault.cause.number())
}

/// Adds the line of a fault to what was written.
fn add_fault(alloc: Global, given: &mut Vec<u8>, fault: RunFault) -> Result<(), Trouble> {
    match fault {
        RunFault::Trace(fault) => {
            let line = fault_line(alloc, fault)?;
            given.extend_from_slice(line.as_bytes())?;
            Ok(())
        }
        RunFault::NoMemory => Err(Trouble::NoMemory),
        RunFault::Read(_) | RunFault::Write(_) => Err(Trouble::Stream),
    }
}

/// What the run of a text writes, by so many bytes at a time, and the line of its fault after it.
pub fn reported(
    alloc: Global,
    model: ModelName,
    text: &[u8],
    most: usize,
) -> Result<Vec<u8>, Trouble> {
    let mut sink = Counted::new(Sink::new(alloc, most));
    let mut source = Counted::new(Source::new(text, most));
    let ended = run(alloc, model, &mut source, &mut sink);
    let mut given = sink.into_stream().into_taken();
    if let Err(fault) = ended {
        add_fault(alloc, &mut given, fault)?;
    }
    Ok(given)
}

/// What the check of a text writes, by so many bytes at a time, and after it the line of its fault,
/// or a line where it says other than it writes.
pub fn checked(
    alloc: Global,
    model: ModelName,
    text: &[u8],
    most: usize,
) -> Result<Vec<u8>, Trouble> {
    let mut sink = Counted::new(Sink::new(alloc, most));
    let mut source = Counted::new(Source::new(text, most));
    let ended = check(alloc, model, &mut source, &mut sink);
    let mut given = sink.into_stream().into_taken();
    match ended {
        Ok(accepted) if accepted == given.starts_with(b"accepted") => {}
        Ok(_) => given.extend_from_slice(b"but not as it says\n")?,
        Err(fault) => add_fault(alloc, &mut given, fault)?,
    }
    Ok(given)
}

/// A trace made anew of the parts of this one.
fn made_again(alloc: Global, trace: &Trace) -> Result<Box<Trace>, Trouble> {
    let lists = lists_of(alloc, trace)?;
    let (symbols, boots, events) = (trace.symbols(), trace.boots(), trace.events());
    let made = match trace.form() {
        TraceForm::Single => Trace::of(alloc, symbols, trace.patch(1), boots, events)?,
        TraceForm::Stacked => Trace::of_stack(alloc, symbols, lists.as_slice(), boots, events)?,
        TraceForm::WithResched => {
            Trace::of_with_resched(alloc, symbols, lists.as_slice(), boots, events)?
        }
    };
    Ok(Box::new(alloc, made)?)
}

/// The text of a trace that is made anew of the parts of this one.
fn written_again(alloc: Global, trace: &Trace) -> Result<Vec<u8>, Trouble> {
    let made = made_again(alloc, trace)?;
    let mut text = Counted::new(Vec::new(alloc));
    match made.write(&mut text) {
        Ok(()) => Ok(text.into_stream()),
        Err(_) => Err(Trouble::Stream),
    }
}

/// Plays a trace's events under a model, one by one and through a desk, where the replies have to be the report's.
/// Says whether they went through a desk.
fn play_events<T: Print + Threads + Wait + Sync, M: Consistency + Sync>(
    stage: &Stage<'_, T>,
    alloc: Global,
    model: M,
    trace: &Trace,
    report: &str,
) -> Result<bool, Trouble> {
    let wanted = lines_of(alloc, report, true)?;
    let given = event_lines(alloc, model, trace)?;
    compare(
        stage,
        "the engine's reply",
        wanted.as_bytes(),
        given.as_bytes(),
    )?;
    play_through_desk(stage, alloc, model, trace, report)
}

/// The same under the model of a name.
fn play_events_under<T: Print + Threads + Wait + Sync>(
    stage: &Stage<'_, T>,
    alloc: Global,
    model: ModelName,
    trace: &Trace,
    report: &str,
) -> Result<bool, Trouble> {
    with_model!(model, model => play_events(stage, alloc, model, trace, report))
}

/// Plays a trace of a row: its text made again, its events, and its certificates.
fn play_trace<T: Print + Threads + Wait + Sync>(
    stage: &Stage<'_, T>,
    alloc: Global,
    model: ModelName,
    row: &Row,
    trace: &Trace,
) -> Result<Played, Trouble> {
    let report = str::from_utf8(row.wanted()).unwrap_or("");
    let again = written_again(alloc, trace)?;
    compare(
        stage,
        "its trace written again",
        row.input(),
        again.as_slice(),
    )?;
    Ok(Played {
        through_desk: play_events_under(stage, alloc, model, trace, report)?,
        certificates: accept_all(stage, alloc, model, row.input(), report)?,
    })
}

/// The trace of a text, or the line of its first fault.
fn read(alloc: Global, text: &[u8]) -> Result<Result<Box<Trace>, String>, Trouble> {
    match Trace::read(alloc, text) {
        Ok(trace) => Ok(Ok(Box::new(alloc, trace)?)),
        Err(ReadFault::Trace(fault)) => Ok(Err(fault_line(alloc, fault)?)),
        Err(ReadFault::NoMemory) => Err(Trouble::NoMemory),
    }
}

/// Runs a row's input, by each number of bytes at a time.
fn play_sizes<T: Print>(
    stage: &Stage<'_, T>,
    alloc: Global,
    model: ModelName,
    row: &Row,
) -> Result<(), Trouble> {
    for most in SIZES {
        let given = reported(alloc, model, row.input(), most)?;
        compare(stage, "its report", row.wanted(), given.as_slice())?;
    }
    Ok(())
}

/// Plays a row whose input is a trace.
fn play_run<T: Print + Threads + Wait + Sync>(
    stage: &Stage<'_, T>,
    alloc: Global,
    model: ModelName,
    row: &Row,
) -> Result<Played, Trouble> {
    play_sizes(stage, alloc, model, row)?;
    match read(alloc, row.input())? {
        Ok(trace) => play_trace(stage, alloc, model, row, &trace),
        Err(fault) => {
            compare(stage, "the reader's fault", row.wanted(), fault.as_bytes())?;
            Ok(no_trace())
        }
    }
}

/// Reads a row's input, whose fault has to be the wanted one.
fn read_input<T: Print>(stage: &Stage<'_, T>, alloc: Global, row: &Row) -> Result<(), Trouble> {
    match CheckInput::read(alloc, row.input()) {
        Ok(_) => Ok(()),
        Err(ReadFault::Trace(fault)) => {
            let line = fault_line(alloc, fault)?;
            compare(stage, "the reader's fault", row.wanted(), line.as_bytes())
        }
        Err(ReadFault::NoMemory) => Err(Trouble::NoMemory),
    }
}

/// Plays a row whose input is a trace with a certificate after it.
fn play_check<T: Print>(
    stage: &Stage<'_, T>,
    alloc: Global,
    model: ModelName,
    row: &Row,
) -> Result<(), Trouble> {
    for most in SIZES {
        let given = checked(alloc, model, row.input(), most)?;
        compare(stage, "its answer", row.wanted(), given.as_slice())?;
    }
    read_input(stage, alloc, row)
}

/// Plays a row.
pub fn play<T: Print + Threads + Wait + Sync>(
    rt: &T,
    alloc: Global,
    row: &Row,
) -> Result<Played, Trouble> {
    let stage = Stage {
        rt,
        name: row.name(),
    };
    match row.job() {
        Some(Job::Run(model)) => return play_run(&stage, alloc, model, row),
        Some(Job::Check(model)) => play_check(&stage, alloc, model, row)?,
        Some(Job::Program) => play_program(&stage, alloc, row)?,
        Some(Job::Fault(fault)) => play_fault(&stage, alloc, row, fault)?,
        None => return Err(Trouble::NoRow),
    }
    Ok(no_trace())
}
