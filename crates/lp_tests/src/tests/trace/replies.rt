//! How the replies of a list print.
use super::*;
use lp_models::Immediate;
use lp_trace::ReplyList;
use std::alloc::AllocError;
use std::str;

/// A trace whose events have replies of each kind, and what a report says of them.
const TRACE: &str =
    "lptrace 2\nsym a\npatch 1 a\nboot 1 normal\nboot 2 normal\ndisable\nenter 1\ncall 1 a\nenable\nwalk\ncall 1 a\ndisable\nreverse\n";

const LINES: &str =
    "1 refused E12\n2 done\n3 ran 0\n4 done\n5 over 1 2 complete\n6 ran 1\n7 done\n8 done complete\n";

/// Writes the replies of a list, each after its event's number.
fn print(text: &mut String, replies: &ReplyList) -> Result<(), AllocError> {
    let mut number = 0_u32;
    for reply in replies {
        number = number.saturating_add(1);
        writeln!(text, "{number} {reply}")?;
    }
    Ok(())
}

/// Whether they print as these lines.
fn print_as(alloc: Global, replies: &ReplyList, lines: &str) -> bool {
    let mut text = String::new(alloc);
    print(&mut text, replies).is_ok() && text.as_str() == lines
}

/// Whether those of a trace do.
fn outcome_prints_as(alloc: Global, trace: &Trace, lines: &str) -> bool {
    match outcome_of(alloc, Immediate, trace) {
        Some(outcome) => print_as(alloc, &outcome.replies, lines),
        None => false,
    }
}

/// Whether the trace's do.
fn replies_print(alloc: Global) -> bool {
    match read(alloc, TRACE) {
        Some(trace) => outcome_prints_as(alloc, &trace, LINES),
        None => false,
    }
}

/// Writes the lines of a report's events.
fn add_event_lines(text: &mut String, report: &str) -> Result<(), AllocError> {
    for line in report.lines() {
        if line.starts_with(|byte: char| byte.is_ascii_digit()) {
            writeln!(text, "{line}")?;
        }
    }
    Ok(())
}

/// Whether these are the lines of events in a report.
fn are_event_lines(alloc: Global, report: &[u8], lines: &str) -> bool {
    let mut text = String::new(alloc);
    let report = str::from_utf8(report).unwrap_or("");
    add_event_lines(&mut text, report).is_ok() && text.as_str() == lines
}

/// Whether they are in the trace's report.
fn are_reported(alloc: Global) -> bool {
    let mut source = Counted::new(Source::new(TRACE.as_bytes(), 1_000_000));
    let mut sink = Counted::new(Sink::new(alloc, 1_000_000));
    let ended = run(alloc, "immediate", Immediate, &mut source, &mut sink);
    ended.is_ok() && are_event_lines(alloc, sink.stream().taken(), LINES)
}

#[test]
fn replies_print_as_reports_write_them(rt: HostRuntime) {
    assert!(rt; replies_print(rt.alloc()) && are_reported(rt.alloc()));
}
