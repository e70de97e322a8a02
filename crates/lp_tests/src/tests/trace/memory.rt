//! An allocation that fails: nothing is written, and the same call succeeds after it.
//!
//! `scripts/refuse-memory` runs these tests with each allocation refused in turn.
use super::*;
use lp_replay::ReplayFault;
use lp_text::ReadFault;

/// The child's trace with its certificate.
const ACCEPTED: &str =
    "lptrace 1\nsym a\npatch a\nboot 1 normal\nenter 1\nenable\nwalk\nfork 1 2 own\nexit 1\ncall 2 a\nsleep 2\nwalk\nlpcert 1\nwaiting 2 2 8\nbusy 1 1 3\nborn 2 1 4\nhold 2 2 6 8 8\n";

/// The same with a line less.
const REFUSED: &str =
    "lptrace 1\nsym a\npatch a\nboot 1 normal\nenter 1\nenable\nwalk\nfork 1 2 own\nexit 1\ncall 2 a\nsleep 2\nwalk\nlpcert 1\nwaiting 2 2 8\nborn 2 1 4\nhold 2 2 6 8 8\n";

/// The answer to a check of a text, and how many bytes of the room it has left.
fn checked(alloc: Global, text: &str, room: &mut [u8]) -> (Result<bool, RunFault>, usize) {
    let mut source = Source::new(text.as_bytes(), 3);
    let mut rest = room;
    let answer = check(
        alloc,
        Hybrid,
        &mut Counted::new(&mut source),
        &mut Counted::new(&mut rest),
    );
    (answer, rest.len())
}

/// Whether the check of a text has this answer and writes this line, with so many bytes of the room
/// left. Where an allocation fails, nothing is written, and the same call has it.
fn is_checked_again(alloc: Global, text: &str, accepted: bool, line: &str, left: usize) -> bool {
    let mut room = [0; 20];
    let (answer, rest) = match checked(alloc, text, &mut room) {
        (Err(RunFault::NoMemory), 20) => checked(alloc, text, &mut room),
        given => given,
    };
    let as_wanted = matches!(answer, Ok(given) if given == accepted);
    as_wanted && rest == left && room.starts_with(line.as_bytes())
}

#[test]
fn a_certificate_is_checked_after_a_failed_allocation(rt: HostRuntime) {
    assert!(rt; is_checked_again(rt.alloc(), ACCEPTED, true, "accepted\n", 11));
    assert!(rt; is_checked_again(rt.alloc(), REFUSED, false, "refused C4 3\n", 7));
}

/// The child's trace.
const TRACE: &str =
    "lptrace 1\nsym a\npatch a\nboot 1 normal\nenter 1\nenable\nwalk\nfork 1 2 own\nexit 1\ncall 2 a\nsleep 2\nwalk\n";

/// The end of a run of the trace, and how many bytes of the room it has left.
fn ran(alloc: Global, room: &mut [u8]) -> (Result<(), RunFault>, usize) {
    let mut source = Source::new(TRACE.as_bytes(), 3);
    let mut rest = room;
    let answer = run(
        alloc,
        "hybrid",
        Hybrid,
        &mut Counted::new(&mut source),
        &mut Counted::new(&mut rest),
    );
    (answer, rest.len())
}

/// Whether the trace's report is written. Where an allocation fails, nothing is, and the same call
/// writes it.
fn is_run_again(alloc: Global) -> bool {
    let mut room = [0; 200];
    let (answer, rest) = match ran(alloc, &mut room) {
        (Err(RunFault::NoMemory), 200) => ran(alloc, &mut room),
        given => given,
    };
    let report = CHILD_REPORT.as_bytes();
    answer.is_ok() && rest == 200 - CHILD_REPORT.len() && room.starts_with(report)
}

#[test]
fn a_trace_is_run_after_a_failed_allocation(rt: HostRuntime) {
    assert!(rt; is_run_again(rt.alloc()));
}

/// The trace, read; in a box, as what comes of it.
fn read_trace(alloc: Global) -> Result<Box<Trace>, ReadFault> {
    let trace = Trace::read(alloc, TRACE.as_bytes())?;
    match Box::new(alloc, trace) {
        Ok(trace) => Ok(trace),
        Err(_) => Err(ReadFault::NoMemory),
    }
}

/// The same, read again where an allocation fails.
fn read_again(alloc: Global) -> Result<Box<Trace>, ReadFault> {
    match read_trace(alloc) {
        Err(ReadFault::NoMemory) => read_trace(alloc),
        given => given,
    }
}

fn replayed(alloc: Global, trace: &Trace) -> Result<Box<Outcome>, ReplayFault> {
    let outcome = replay(alloc, Hybrid, trace)?;
    match Box::new(alloc, outcome) {
        Ok(outcome) => Ok(outcome),
        Err(_) => Err(ReplayFault::NoMemory),
    }
}

/// What comes of it, replayed again where an allocation fails.
fn replayed_again(alloc: Global, trace: &Trace) -> Result<Box<Outcome>, ReplayFault> {
    match replayed(alloc, trace) {
        Err(ReplayFault::NoMemory) => replayed(alloc, trace),
        given => given,
    }
}

/// Whether that is what comes of the child's trace.
fn is_the_childs(outcome: &Outcome) -> bool {
    let legs = outcome.legs.len();
    (outcome.replies.len(), legs, outcome.stays, outcome.mixed) == (8, 1, 1, 0)
}

/// Whether a trace comes to it.
fn comes_to_the_childs(alloc: Global, trace: &Trace) -> bool {
    match replayed_again(alloc, trace) {
        Ok(outcome) => is_the_childs(&outcome),
        Err(_) => false,
    }
}

/// Whether the child's does, each call made again where an allocation fails.
fn is_replayed_again(alloc: Global) -> bool {
    match read_again(alloc) {
        Ok(trace) => comes_to_the_childs(alloc, &trace),
        Err(_) => false,
    }
}

#[test]
fn a_trace_is_replayed_after_a_failed_allocation(rt: HostRuntime) {
    assert!(rt; is_replayed_again(rt.alloc()));
}
