//! A trace's engine, given one event after the other, with its stays counted beside it.

use crate::trouble::Trouble;
use lp_model::Consistency;
use lp_stack::Level;
use lp_stays::StayCount;
use lp_symbols::SymId;
use lp_trace::{Trace, TraceForm, stack};
use lp_transition::{Core, Event, Reply, What};
use std::alloc::{AllocError, Global};

/// The functions of each patch of a trace.
pub fn lists_of<'a>(alloc: Global, trace: &'a Trace) -> Result<Vec<&'a [SymId]>, AllocError> {
    let mut lists = Vec::new(alloc);
    for number in 1..=trace.patches() {
        lists.push(trace.patch(number))?;
    }
    Ok(lists)
}

/// The function of the last frame of the task that returns at an event; None at any other event.
fn last_function<M: Consistency>(core: &Core<M>, event: Event) -> Option<SymId> {
    let Event::Ret(task) = event else {
        return None;
    };
    let view = core.task(task)?;
    let frame = view.frames.last()?;
    Some(frame.func)
}

/// Counts what an event did to the stays; `top` is the function that a return is from.
fn count(stays: &mut StayCount, event: Event, what: &What, top: Option<SymId>) {
    match (event, what, top) {
        (Event::Call(task, func), What::Ran(level), _) => {
            if stays.calls() < 1_000_000 {
                stays.call(task, func, *level);
            }
        }
        (Event::Ret(_), What::Refused(_), _) => {}
        (Event::Ret(task), _, Some(func)) => stays.ret(task, func),
        _ => {}
    }
}

/// The reply to an event, with which the stays are counted.
fn step<M: Consistency>(
    alloc: Global,
    core: &mut Core<M>,
    stays: &mut StayCount,
    event: Event,
) -> Result<Reply, Trouble> {
    let top = last_function(core, event);
    let reply = core.step(alloc, event)?;
    count(stays, event, &reply.what, top);
    Ok(reply)
}

/// Adds what a call ran.
fn add_level(text: &mut String, form: TraceForm, level: Level) -> Result<(), AllocError> {
    match (form, level.0) {
        (TraceForm::Single, 0) => text.push_str("ran old"),
        (TraceForm::Single, _) => text.push_str("ran new"),
        (TraceForm::Stacked | TraceForm::WithResched, number) => write!(text, "ran {number}"),
    }
}

/// Adds the words of a reply.
fn add_what(text: &mut String, form: TraceForm, what: &What) -> Result<(), AllocError> {
    match what {
        What::Ran(level) => add_level(text, form, *level),
        What::Done => text.push_str("done"),
        What::Refused(why) => write!(text, "refused E{}", why.number()),
        What::Switched(groups) => {
            text.push_str("over")?;
            for group in groups.as_slice() {
                write!(text, " {}", group.0)?;
            }
            Ok(())
        }
    }
}

/// Adds the line of a reply.
pub fn add_reply(
    text: &mut String,
    form: TraceForm,
    number: usize,
    reply: &Reply,
) -> Result<(), AllocError> {
    write!(text, "{number} ")?;
    add_what(text, form, &reply.what)?;
    text.push_str(if reply.completed { " complete\n" } else { "\n" })
}

/// The lines of the replies to a trace's events, and of its stays.
fn lines<M: Consistency>(
    alloc: Global,
    core: &mut Core<M>,
    stays: &mut StayCount,
    trace: &Trace,
) -> Result<String, Trouble> {
    let mut text = String::new(alloc);
    for (index, event) in trace.events().iter().enumerate() {
        let reply = step(alloc, core, stays, *event)?;
        add_reply(&mut text, trace.form(), index.saturating_add(1), &reply)?;
    }
    writeln!(text, "stays {} mixed {}", stays.stays(), stays.mixed())?;
    Ok(text)
}

/// The lines of a trace's events and of its stays, as its report has them.
pub fn event_lines<M: Consistency>(
    alloc: Global,
    model: M,
    trace: &Trace,
) -> Result<String, Trouble> {
    let patches = stack(alloc, trace)?;
    let mut stays = StayCount::new(alloc, &patches)?;
    let mut core = Core::boot(alloc, model, patches, trace.boots())?;
    lines(alloc, &mut core, &mut stays, trace)
}

/// The lines of a report's events, and with them those of its stays where they are wanted.
pub fn lines_of(alloc: Global, report: &str, with_stays: bool) -> Result<String, AllocError> {
    let mut text = String::new(alloc);
    for line in report.lines() {
        let is_event = line.starts_with(|byte: char| byte.is_ascii_digit());
        if is_event || (with_stays && line.starts_with("stays ")) {
            writeln!(text, "{line}")?;
        }
    }
    Ok(text)
}
