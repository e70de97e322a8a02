//! Plays the worked rows of its data files, each under its model, and counts them, their certificates, and those whose
//! events went through a desk too; then the recordings of a kernel that lie beside them; and sends a million events
//! through a log. Where a word asks for a way of events, it sends these alone, to be timed.
#![tactic(auto)]

mod certificates;
mod cost;
mod difference;
mod engine;
mod in_order;
mod kernel;
mod play;
mod program;
mod recordings;
mod rows;
mod rows_through_desk;
mod streams;
mod trouble;

use play::play;
use recordings::{RECORDINGS, play_recording};
use rows::{Row, rows_of};
use std::alloc::Global;
use std::process::ExitCode;
use std::rt::Files;
use std::sync::Wait;
use std::thread::Threads;
use std::{env, fs, io};
use trouble::Trouble;

const FILES: &[&str] = &[
    "models.rows",
    "legs.rows",
    "tasks.rows",
    "resched.rows",
    "stacked.rows",
    "faults.rows",
    "lines.rows",
    "shapes.rows",
    "causes.rows",
    "inputs.rows",
    "reasons.rows",
    "frames.rows",
    "births.rows",
    "floors.rows",
    "numbers.rows",
    "refusals.rows",
    "words.rows",
    "program.rows",
    "comparisons.rows",
];

/// What was played.
#[derive(Drop)]
struct Tally {
    rows: usize,
    certificates: usize,
    through_desk: usize,
    recordings: usize,
    differing: usize,
}

/// Plays a row, and counts what came of it.
fn play_row<R: Print + Threads + Wait + Sync>(
    rt: &R,
    alloc: Global,
    row: &Row,
    tally: &mut Tally,
) -> Result<(), Trouble> {
    match play(rt, alloc, row) {
        Ok(played) => {
            tally.certificates = tally.certificates.saturating_add(played.certificates);
            let through_desk = usize::from(played.through_desk);
            tally.through_desk = tally.through_desk.saturating_add(through_desk);
        }
        Err(trouble) => note(rt, row.name(), trouble, tally)?,
    }
    tally.rows = tally.rows.saturating_add(1);
    Ok(())
}

/// Counts a difference, of which it was said where it is. Any other trouble is handed on, once the row is named.
fn note(rt: &impl Print, name: &str, trouble: Trouble, tally: &mut Tally) -> Result<(), Trouble> {
    match trouble {
        Trouble::Differs => {
            tally.differing = tally.differing.saturating_add(1);
            Ok(())
        }
        trouble => {
            println!(rt; "{name}: not played to its end")?;
            Err(trouble)
        }
    }
}

/// The rows of a file.
fn read_rows<R: Files + AllocGlobal>(rt: &R, file: &str) -> Result<Vec<Row>, Trouble> {
    let text = fs::read_to_string(rt, file)?;
    rows_of(rt.alloc(), text.as_str())
}

/// Plays the rows of a file.
fn play_file<R: Files + AllocGlobal + Print + Threads + Wait + Sync>(
    rt: &R,
    file: &str,
    tally: &mut Tally,
) -> Result<(), Trouble> {
    let rows = read_rows(rt, file)?;
    for row in rows.as_slice() {
        play_row(rt, rt.alloc(), row, tally)?;
    }
    Ok(())
}

/// Plays the recordings of a kernel, and counts those that are as the kernel made them.
fn play_recordings<R: Files + AllocGlobal + Print>(
    rt: &R,
    tally: &mut Tally,
) -> Result<(), Trouble> {
    for recording in &RECORDINGS {
        match play_recording(rt, recording) {
            Ok(()) => tally.recordings = tally.recordings.saturating_add(1),
            Err(trouble) => note(rt, recording.trace, trouble, tally)?,
        }
    }
    Ok(())
}

/// Says how much was played and sent.
fn tell_tally(rt: &impl Print, tally: &Tally) -> io::Result<()> {
    println!(rt;
        "{} rows, {} certificates, {} through a desk, {} recordings, {} events through a log",
        tally.rows,
        tally.certificates,
        tally.through_desk,
        tally.recordings,
        cost::COUNT
    )
}

/// Plays all rows and recordings.
fn play_all<R: Files + AllocGlobal + Print + Threads + Wait + Sync>(
    rt: &R,
    tally: &mut Tally,
) -> Result<(), Trouble> {
    for file in FILES {
        play_file(rt, file, tally)?;
    }
    play_recordings(rt, tally)
}

/// Plays all rows and recordings, and sends events through a log.
fn play_and_send<R: Files + AllocGlobal + Print + Threads + Wait + Sync>(
    rt: &R,
) -> Result<ExitCode, Trouble> {
    let mut tally = Tally {
        rows: 0,
        certificates: 0,
        through_desk: 0,
        recordings: 0,
        differing: 0,
    };
    play_all(rt, &mut tally)?;
    if tally.differing > 0 {
        return Ok(ExitCode::FAILURE);
    }
    if cost::log(rt.alloc()).is_none() {
        println!(rt; "a log took too few events")?;
        return Ok(ExitCode::FAILURE);
    }
    tell_tally(rt, &tally)?;
    Ok(ExitCode::SUCCESS)
}

/// The status where what was asked for was done, or wasn't.
fn status_of(is_done: bool) -> ExitCode {
    if is_done {
        ExitCode::SUCCESS
    } else {
        ExitCode::FAILURE
    }
}

fn main(rt: HostRuntime) -> Result<ExitCode, Trouble> {
    let words: Vec<String> = env::args(&rt)?.collect(rt.alloc())?;
    match words.get(1) {
        None => play_and_send(&rt),
        Some(way) => Ok(status_of(cost::measure(&rt, rt.alloc(), way.as_str())?)),
    }
}
