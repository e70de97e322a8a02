//! A row of the whole program: what its words make it write and say, between a reader and a writer in memory.

use crate::difference::{Stage, compare};
use crate::play::SIZES;
use crate::rows::Row;
use crate::trouble::Trouble;
use lp_program::{Fault, perform};
use lp_trace::Counted;
use std::alloc::{AllocError, Global};
use std::str;
use std::sync::Wait;
use std::thread::Threads;

/// The words of a line, between which single spaces stand; an empty line has none.
fn words_of<'a>(alloc: Global, line: &'a str) -> Result<Vec<&'a str>, AllocError> {
    if line.is_empty() {
        return Ok(Vec::new(alloc));
    }
    line.split(' ').collect(alloc)
}

/// Adds the status of a fault to what was written, and what the program says of it on standard error.
fn add_end(alloc: Global, given: &mut Vec<u8>, fault: Fault) -> Result<(), Trouble> {
    let status = format!(in alloc; "ends {}\n", fault.status())?;
    given.extend_from_slice(status.as_bytes())?;
    fault.tell(given)?;
    Ok(())
}

/// What the program writes at a line of words, by so many bytes at a time, and after it how it ends, unless its
/// status is 0.
fn performed<T: Threads + Wait + Sync>(
    rt: &T,
    alloc: Global,
    row: &Row,
    line: &str,
    most: usize,
) -> Result<Vec<u8>, Trouble> {
    let words = words_of(alloc, line)?;
    let mut source = Counted::new(row.source(most));
    let mut sink = Counted::new(row.sink(alloc, most));
    let ended = perform(rt, alloc, words.as_slice(), &mut source, &mut sink);
    let mut given = sink.into_stream().into_taken();
    if let Err(fault) = ended {
        add_end(alloc, &mut given, fault)?;
    }
    Ok(given)
}

/// Lets the program do what a line of words asks for, which has to end as the row wants.
fn play_line<T: Print + Threads + Wait + Sync>(
    stage: &Stage<'_, T>,
    alloc: Global,
    row: &Row,
    line: &str,
) -> Result<(), Trouble> {
    let part = if line.is_empty() { "no word" } else { line };
    for most in SIZES {
        let given = performed(stage.rt, alloc, row, line, most)?;
        compare(stage, part, row.wanted(), given.as_slice())?;
    }
    Ok(())
}

/// Plays a row of the program: each of its lines of words.
pub fn play_program<T: Print + Threads + Wait + Sync>(
    stage: &Stage<'_, T>,
    alloc: Global,
    row: &Row,
) -> Result<(), Trouble> {
    let Ok(lines) = str::from_utf8(row.lines()) else {
        return Err(Trouble::NoRow);
    };
    for line in lines.lines() {
        play_line(stage, alloc, row, line)?;
    }
    Ok(())
}

/// Plays a row of a fault of the program, as no input may come to it.
pub fn play_fault<T: Print>(
    stage: &Stage<'_, T>,
    alloc: Global,
    row: &Row,
    fault: Fault,
) -> Result<(), Trouble> {
    let mut given = Vec::new(alloc);
    add_end(alloc, &mut given, fault)?;
    compare(stage, "its end", row.wanted(), given.as_slice())
}
