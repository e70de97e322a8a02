//! A trace's events through a desk, in their order, each by the seat of its task or by the control.

use crate::difference::{Stage, compare};
use crate::engine::{add_reply, lines_of};
use crate::in_order::play_in_order;
use crate::trouble::Trouble;
use lp_log::{Entry, Journal};
use lp_model::Consistency;
use lp_trace::{Trace, TraceForm};
use std::alloc::{AllocError, Global};
use std::sync::Wait;
use std::thread::Threads;

/// Adds the line of an entry's reply.
fn add_entry(
    alloc: Global,
    text: &mut String,
    form: TraceForm,
    entry: &Entry,
) -> Result<(), AllocError> {
    let reply = entry.reply(alloc)?;
    add_reply(text, form, entry.number() as usize, &reply)
}

/// The lines of a journal's replies, as a report has them.
fn journal_lines(alloc: Global, journal: &Journal, form: TraceForm) -> Result<String, AllocError> {
    let mut text = String::new(alloc);
    for entry in journal.entries() {
        add_entry(alloc, &mut text, form, entry)?;
    }
    Ok(text)
}

/// Plays a trace through a desk that is closed after it, whose journal, which has the trace's events, has to have the replies
/// of the report. False, and nothing is looked at, where an event is of a task that was never born, so that nobody can send it.
pub fn play_through_desk<T: Print + Threads + Wait + Sync, M: Consistency + Sync>(
    stage: &Stage<'_, T>,
    alloc: Global,
    model: M,
    trace: &Trace,
    report: &str,
) -> Result<bool, Trouble> {
    let Some(journal) = play_in_order(stage.rt, alloc, model, trace)? else {
        return Ok(false);
    };
    let wanted = lines_of(alloc, report, false)?;
    let given = journal_lines(alloc, &journal, trace.form())?;
    compare(
        stage,
        "the desk's reply",
        wanted.as_bytes(),
        given.as_bytes(),
    )?;
    Ok(true)
}
