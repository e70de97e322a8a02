//! Traces and reports at their limits.
use super::*;
use lp_models::Immediate;
use lp_trace::ReadFault;
use std::alloc::AllocError;

/// Whether a line of a text is one more than its part may have.
fn is_too_many(alloc: Global, text: &str, line: u64) -> bool {
    match Trace::read(alloc, text.as_bytes()) {
        Err(ReadFault::Trace(fault)) => (fault.line, fault.cause.number()) == (line, 10),
        _ => false,
    }
}

/// The lines of so many symbols, and of a patch of so many of them.
fn add_names(text: &mut String, symbols: u16, functions: u16) -> Result<(), AllocError> {
    for name in 0..symbols {
        writeln!(text, "sym s{name}")?;
    }
    for name in 0..functions {
        writeln!(text, "patch s{name}")?;
    }
    Ok(())
}

/// A text of them.
fn many_names(alloc: Global, symbols: u16, functions: u16) -> Result<String, AllocError> {
    let mut text = String::from_str(alloc, "lptrace 1\n")?;
    add_names(&mut text, symbols, functions)?;
    Ok(text)
}

/// A text of one event more than a trace may have.
fn many_events(alloc: Global) -> Result<String, AllocError> {
    let mut text = String::from_str(
        alloc,
        "lptrace 1\nsym a\nsym b\nsym c\npatch a\nboot 1 normal\n",
    )?;
    for _ in 0..1_000_001 {
        text.push_str("walk\n")?;
    }
    Ok(text)
}

/// Whether a text was made, and its line is one more than its part may have.
fn has_too_many(alloc: Global, text: Result<String, AllocError>, line: u64) -> bool {
    match text {
        Ok(text) => is_too_many(alloc, text.as_str(), line),
        Err(_) => false,
    }
}

#[test]
fn a_line_too_many_has_its_fault(rt: HostRuntime) {
    let alloc = rt.alloc();
    assert!(rt; has_too_many(alloc, many_events(alloc), 1_000_007));
    assert!(rt; has_too_many(alloc, many_names(alloc, 4_097, 0), 4_098));
    assert!(rt; has_too_many(alloc, many_names(alloc, 257, 257), 515));
}

/// The lines of so many tasks.
fn add_tasks(text: &mut String, count: u16) -> Result<(), AllocError> {
    for task in 1..=count {
        writeln!(text, "boot {task} normal")?;
    }
    Ok(())
}

/// The trace of a patch and so many tasks, with these events.
fn many_tasks(alloc: Global, count: u16, events: &str) -> Result<String, AllocError> {
    let mut text = String::from_str(alloc, "lptrace 1\nsym a\npatch a\n")?;
    add_tasks(&mut text, count)?;
    text.push_str(events)?;
    Ok(text)
}

/// Whether the report of a text under a name is the wanted one, by writes of at most so many bytes.
fn is_reported<M: Consistency>(
    alloc: Global,
    name: &str,
    model: M,
    text: &str,
    wanted: &str,
    most: usize,
) -> bool {
    let mut source = Counted::new(Source::new(text.as_bytes(), 1));
    let mut sink = Counted::new(Sink::new(alloc, most));
    let ended = run(alloc, name, model, &mut source, &mut sink);
    ended.is_ok() && sink.stream().taken() == wanted.as_bytes()
}

/// Whether it is by short writes and by long ones.
fn is_reported_by_each<M: Consistency + Copy>(
    alloc: Global,
    name: &str,
    model: M,
    text: &str,
    wanted: &str,
) -> bool {
    is_reported(alloc, name, model, text, wanted, 1)
        && is_reported(alloc, name, model, text, wanted, 5)
        && is_reported(alloc, name, model, text, wanted, 1_000_000)
}

/// The lines of so many groups that wait.
fn add_waiting(wanted: &mut String, count: u16) -> Result<(), AllocError> {
    for group in 1..=count {
        writeln!(wanted, "waiting 1 {group} 1")?;
    }
    Ok(())
}

/// The report of 5,000 tasks that wait.
fn many_waiting(alloc: Global) -> Result<String, AllocError> {
    let mut wanted = String::from_str(
        alloc,
        "lpreport 1\nmodel hybrid\n1 done\nleg 1 new waiting 5000\n",
    )?;
    add_waiting(&mut wanted, 5_000)?;
    wanted.push_str("stays 0 mixed 0\n")?;
    Ok(wanted)
}

/// Whether it is that of their trace.
fn are_certified(alloc: Global) -> Result<bool, AllocError> {
    let text = many_tasks(alloc, 5_000, "enable\n")?;
    let wanted = many_waiting(alloc)?;
    Ok(is_reported_by_each(alloc, "hybrid", Hybrid, text.as_str(), wanted.as_str()))
}

#[test]
fn each_group_that_waits_has_a_certificate(rt: HostRuntime) {
    assert!(rt; are_certified(rt.alloc()) == Ok(true));
}

/// A model's name of 100,000 bytes.
fn long_name(alloc: Global) -> Result<String, AllocError> {
    let mut name = String::new(alloc);
    for _ in 0..20_000 {
        name.push_str("long-")?;
    }
    Ok(name)
}

/// The numbers of all groups.
fn add_groups(wanted: &mut String) -> Result<(), AllocError> {
    for group in 1..=65_535 {
        write!(wanted, " {group}")?;
    }
    Ok(())
}

/// The report under this name of a walk by which all tasks switch.
fn all_over(alloc: Global, name: &str) -> Result<String, AllocError> {
    let mut wanted = String::from_str(alloc, "lpreport 1\nmodel ")?;
    wanted.push_str(name)?;
    wanted.push_str("\n1 done\n2 over")?;
    add_groups(&mut wanted)?;
    wanted.push_str(" complete\nleg 1 new complete 2\nfloor 1 1 1\nstays 0 mixed 0\n")?;
    Ok(wanted)
}

/// Whether it is that of their trace.
fn is_whole(alloc: Global, name: &str) -> Result<bool, AllocError> {
    let text = many_tasks(alloc, 65_535, "enable\nwalk\n")?;
    let wanted = all_over(alloc, name)?;
    Ok(is_reported_by_each(alloc, name, Immediate, text.as_str(), wanted.as_str()))
}

/// Whether it is under a long name.
fn is_whole_under_a_long_name(alloc: Global) -> Result<bool, AllocError> {
    let name = long_name(alloc)?;
    is_whole(alloc, name.as_str())
}

#[test]
fn long_lines_are_whole(rt: HostRuntime) {
    assert!(rt; is_whole_under_a_long_name(rt.alloc()) == Ok(true));
}
