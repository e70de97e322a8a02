//! Texts that are cut, and streams that fail.
use super::streams::{End, Zeros};
use super::*;
use lp_trace::{TraceFault, WriteFault};
use std::io::{ErrorKind, Read};

/// How a run or a check under `hybrid` ended.
#[derive(Clone, Copy, PartialEq, Eq)]
enum Ended {
    Whole,
    Read(ErrorKind),
    Trace(u64, u8),
    NoMemory,
    Failed,
    Stopped,
}

impl Ended {
    /// By a fault.
    fn by(fault: &RunFault) -> Ended {
        match fault {
            RunFault::Read(error) => Ended::Read(error.kind()),
            RunFault::Trace(TraceFault { line, cause }) => Ended::Trace(*line, cause.number()),
            RunFault::NoMemory => Ended::NoMemory,
            RunFault::Write(WriteFault::Failed(_)) => Ended::Failed,
            RunFault::Write(WriteFault::Stopped) => Ended::Stopped,
        }
    }
}

/// How the run between these two ended.
fn ending_of<R: Read>(alloc: Global, source: &mut R, sink: &mut Sink) -> Ended {
    let (mut source, mut sink) = (Counted::new(source), Counted::new(sink));
    match run(alloc, "hybrid", Hybrid, &mut source, &mut sink) {
        Ok(()) => Ended::Whole,
        Err(fault) => Ended::by(&fault),
    }
}

/// How the check between these two ended.
fn check_ending_of<R: Read>(alloc: Global, source: &mut R, sink: &mut Sink) -> Ended {
    let (mut source, mut sink) = (Counted::new(source), Counted::new(sink));
    match check(alloc, Hybrid, &mut source, &mut sink) {
        Ok(_) => Ended::Whole,
        Err(fault) => Ended::by(&fault),
    }
}

/// How many lines of a text end.
fn lines_of(front: &[u8]) -> u64 {
    let mut lines = 0_u64;
    for byte in front {
        if *byte == b'\n' {
            lines = lines.saturating_add(1);
        }
    }
    lines
}

/// How many bytes of the child's trace stand before its boot task.
const PATCH_END: usize = 36;

/// How the run of a front of the child's trace ends, by where the cut is.
fn wanted(front: &[u8]) -> Ended {
    let line = lines_of(front).saturating_add(1);
    match front {
        [] => Ended::Trace(1, 1),
        [.., b'\n'] if front.len() >= PATCH_END => Ended::Whole,
        [.., b'\n'] => Ended::Trace(line, 8),
        _ => Ended::Trace(line, 2),
    }
}

/// Whether the run of a front of the child's trace ends in this way, with nothing written where that
/// is a fault.
fn cut_ends(alloc: Global, front: &[u8]) -> bool {
    let mut source = Source::new(front, 3);
    let mut sink = Sink::new(alloc, 1_000);
    let end = ending_of(alloc, &mut source, &mut sink);
    end == wanted(front) && (matches!(end, Ended::Whole) || sink.taken().is_empty())
}

#[test]
fn a_cut_text_has_its_fault(rt: HostRuntime) {
    let text = CHILD.as_bytes();
    for cut in 0..=text.len() {
        assert!(rt; cut_ends(rt.alloc(), &text[..cut]));
    }
}

/// The kind of error by which a stream ends that fails or is interrupted.
fn kind_of(end: End) -> ErrorKind {
    match end {
        End::Interrupted => ErrorKind::Interrupted,
        _ => ErrorKind::BrokenPipe,
    }
}

/// The child's trace, with a certificate after it.
const CHILD_WITH_CERT: &str =
    "lptrace 1\nsym a\nsym b\nsym c\npatch a\nboot 1 normal\nenter 1\nenable\nwalk\nfork 1 2 own\nexit 1\ncall 2 a\nsleep 2\nwalk\nlpcert 1\nwaiting 2 2 8\n";

/// Whether a run and a check of it fail as their reader does after so many reads, with nothing written.
fn fail_with(alloc: Global, most: usize, reads: usize, end: End) -> bool {
    let failed = Ended::Read(kind_of(end));
    let mut sink = Sink::new(alloc, 1_000);
    let mut source = Source::broken(CHILD_WITH_CERT.as_bytes(), most, reads, end);
    let run_end = ending_of(alloc, &mut source, &mut sink);
    let mut source = Source::broken(CHILD_WITH_CERT.as_bytes(), most, reads, end);
    let check_end = check_ending_of(alloc, &mut source, &mut sink);
    run_end == failed && check_end == failed && sink.taken().is_empty()
}

#[test]
fn a_read_that_fails_leaves_nothing_written(rt: HostRuntime) {
    let alloc = rt.alloc();
    for reads in 0..=CHILD_WITH_CERT.len() {
        assert!(rt; fail_with(alloc, 1, reads, End::Fails));
        assert!(rt; fail_with(alloc, 1, reads, End::FailsOnce));
        assert!(rt; fail_with(alloc, 1, reads, End::Interrupted));
    }
    assert!(rt; fail_with(alloc, 7, 9, End::Fails));
}

/// Whether a run of the child's trace fails as its reader does, once, after so many reads of a byte,
/// and leaves it then.
fn is_left(alloc: Global, reads: usize) -> bool {
    let mut source = Source::broken(CHILD.as_bytes(), 1, reads, End::FailsOnce);
    let mut sink = Sink::new(alloc, 1_000);
    let ended = ending_of(alloc, &mut source, &mut sink);
    ended == Ended::Read(ErrorKind::BrokenPipe) && source.is_left()
}

#[test]
fn a_reader_that_failed_is_not_read_again(rt: HostRuntime) {
    for reads in 0..=CHILD.len() {
        assert!(rt; is_left(rt.alloc(), reads));
    }
}

/// A trace of no task.
const OF_NOBODY: &str = "lptrace 1\nsym a\npatch a\nenable\n";

/// The same, with a certificate after it.
const WITH_CERT: &str = "lptrace 1\nsym a\npatch a\nenable\nlpcert 1\nwaiting 1 1 1\n";

const REPORT: &str =
    "lpreport 1\nmodel hybrid\n1 done complete\nleg 1 new complete 1\nstays 0 mixed 0\n";

/// Bytes of a read, and how many reads of them find the ends of the two: one gives no byte, and a further one fails.
const READS: [(usize, usize, usize); 4] = [(1, 32, 55), (2, 17, 28), (7, 6, 9), (100, 2, 2)];

/// Whether a run of it by reads of so many bytes, of which there are so many, has its report.
fn is_run_by(alloc: Global, most: usize, reads: usize) -> bool {
    let mut source = Source::broken(OF_NOBODY.as_bytes(), most, reads, End::Fails);
    let mut sink = Sink::new(alloc, 1_000);
    ending_of(alloc, &mut source, &mut sink) == Ended::Whole && sink.taken() == REPORT.as_bytes()
}

/// Whether a check of it by reads of so many bytes, of which there are so many, has its answer.
fn is_checked_by(alloc: Global, most: usize, reads: usize) -> bool {
    let mut source = Source::broken(WITH_CERT.as_bytes(), most, reads, End::Fails);
    let mut sink = Sink::new(alloc, 1_000);
    check_ending_of(alloc, &mut source, &mut sink) == Ended::Whole
        && sink.taken() == b"refused C1\n".as_slice()
}

#[test]
fn an_input_is_read_to_its_end_and_no_further(rt: HostRuntime) {
    for (most, run_reads, check_reads) in &READS {
        assert!(rt; is_run_by(rt.alloc(), *most, *run_reads));
        assert!(rt; is_checked_by(rt.alloc(), *most, *check_reads));
    }
}

/// Whether a run and a check read slices whole.
fn are_read_whole(alloc: Global) -> bool {
    let (mut trace, mut all) = (OF_NOBODY.as_bytes(), WITH_CERT.as_bytes());
    let mut sink = Sink::new(alloc, 1_000);
    ending_of(alloc, &mut trace, &mut sink) == Ended::Whole
        && check_ending_of(alloc, &mut all, &mut sink) == Ended::Whole
        && trace.is_empty()
        && all.is_empty()
}

#[test]
fn a_slice_is_read_whole(rt: HostRuntime) {
    assert!(rt; are_read_whole(rt.alloc()));
}

/// How the check of so many zeros ended, and how many are left then.
fn end_of_zeros(alloc: Global, count: u64) -> (Ended, u64) {
    let mut sink = Sink::new(alloc, 1_000);
    let mut source = Zeros { left: count };
    let ended = check_ending_of(alloc, &mut source, &mut sink);
    (ended, source.left)
}

#[test]
fn a_text_has_so_many_bytes(rt: HostRuntime) {
    let whole = end_of_zeros(rt.alloc(), 134_217_728);
    assert!(rt; whole == (Ended::Trace(1, 2), 0));
    let (more, _) = end_of_zeros(rt.alloc(), 134_217_729);
    assert!(rt; more == Ended::Trace(0, 11));
}

#[test]
fn a_reader_without_end_is_given_up(rt: HostRuntime) {
    let (endless, left) = end_of_zeros(rt.alloc(), u64::MAX);
    assert!(rt; endless == Ended::Trace(0, 11));
    assert!(rt; left > u64::MAX - 134_300_000);
}

/// How the run of a text that is no trace ends, by a reader that fails after so many reads of a
/// byte, and how much is written.
fn end_of_no_trace(alloc: Global, reads: usize) -> (Ended, usize) {
    let mut sink = Sink::new(alloc, 1_000);
    let mut source = Source::broken(b"no trace\nat all\n", 1, reads, End::Fails);
    let ended = ending_of(alloc, &mut source, &mut sink);
    (ended, sink.taken().len())
}

#[test]
fn a_fault_of_the_text_waits_for_the_end(rt: HostRuntime) {
    let broken = Ended::Read(ErrorKind::BrokenPipe);
    assert!(rt; end_of_no_trace(rt.alloc(), 12) == (broken, 0));
    assert!(rt; end_of_no_trace(rt.alloc(), 1_000) == (Ended::Trace(1, 1), 0));
}

/// The ends of writers, each with how a run or a check ends by it.
const ENDS: [(End, Ended); 4] = [
    (End::Fails, Ended::Failed),
    (End::FailsOnce, Ended::Failed),
    (End::Interrupted, Ended::Failed),
    (End::Nothing, Ended::Stopped),
];

/// Whether the child's report stops after so many bytes where its writer ends in this way.
fn has_a_front(alloc: Global, writes: usize, ends: (End, Ended)) -> bool {
    let mut source = Source::new(CHILD.as_bytes(), 1_000);
    let mut sink = Sink::full(alloc, 1, writes, ends.0);
    let ended = ending_of(alloc, &mut source, &mut sink);
    let taken = sink.taken();
    ended == ends.1 && Some(taken) == CHILD_REPORT.as_bytes().get(..writes)
}

#[test]
fn a_writer_that_ends_has_a_front(rt: HostRuntime) {
    for writes in 0..CHILD_REPORT.len() {
        assert!(rt; has_a_front(rt.alloc(), writes, ENDS[writes % 4]));
    }
}

/// Whether a run of the trace of no task has its report, by writes of at most so many bytes.
fn is_written_by(alloc: Global, most: usize) -> bool {
    let mut source = OF_NOBODY.as_bytes();
    let mut sink = Sink::new(alloc, most);
    ending_of(alloc, &mut source, &mut sink) == Ended::Whole && sink.taken() == REPORT.as_bytes()
}

#[test]
fn a_short_write_is_no_fault(rt: HostRuntime) {
    assert!(rt; is_written_by(rt.alloc(), 1));
    assert!(rt; is_written_by(rt.alloc(), 2));
    assert!(rt; is_written_by(rt.alloc(), 7));
}

/// Two frames of the patch, one after the other, and a certificate of one.
const TWICE: &str =
    "lptrace 1\nsym a\nsym b\nsym c\npatch a\nboot 1 normal\nenter 1\ncall 1 a\nsleep 1\nenable\nwalk\nwake 1\nret 1\ncall 1 a\nsleep 1\nwalk\nlpcert 1\nwaiting 4 1 10\nhold 1 1 2 5 10\n";

/// Whether the answer stops after so many bytes, where the writer ends in this way.
fn answer_has_a_front(alloc: Global, writes: usize, ends: (End, Ended)) -> bool {
    let mut source = Source::new(TWICE.as_bytes(), 1_000);
    let mut sink = Sink::full(alloc, 1, writes, ends.0);
    let ended = check_ending_of(alloc, &mut source, &mut sink);
    ended == ends.1 && Some(sink.taken()) == b"refused C2 7\n".get(..writes)
}

#[test]
fn an_answers_writer_that_ends_has_a_front(rt: HostRuntime) {
    for writes in 0..13 {
        for ends in &ENDS {
            assert!(rt; answer_has_a_front(rt.alloc(), writes, *ends));
        }
    }
}

/// Whether a fault has this text.
fn is_told_as(alloc: Global, fault: &RunFault, text: &str) -> bool {
    match format!(in alloc; "{fault}") {
        Ok(told) => told.as_str() == text,
        Err(_) => false,
    }
}

/// Whether the fault of a text that is no trace has its own.
fn has_a_text(alloc: Global) -> bool {
    let mut source = Counted::new(Source::new(b"lptrace 1\nfoo\n", 1_000));
    let mut sink = Counted::new(Sink::new(alloc, 1_000));
    match run(alloc, "hybrid", Hybrid, &mut source, &mut sink) {
        Ok(()) => false,
        Err(fault) => is_told_as(alloc, &fault, "line 2: L3"),
    }
}

#[test]
fn a_fault_has_a_text(rt: HostRuntime) {
    assert!(rt; has_a_text(rt.alloc()));
}

/// A call that fails, or takes or gives no byte, is not made again: no clause says that the stream is called once a call.
#[test]
fn a_counted_call_is_one_call(rt: HostRuntime) {
    for end in [End::FailsOnce, End::NothingOnce] {
        assert!(rt; is_written_once(rt.alloc(), end));
        assert!(rt; is_read_once(end));
    }
}

/// Whether one write to a sink that ends so is one write of the sink.
fn is_written_once(alloc: Global, end: End) -> bool {
    let mut sink = Counted::new(Sink::full(alloc, 2, 0, end));
    let took_some = matches!(sink.write(b"ab"), Ok(count) if count > 0);
    !took_some && sink.stream().is_left() && sink.stream().taken().is_empty()
}

/// Whether one read of a source that ends so is one read of the source.
fn is_read_once(end: End) -> bool {
    let mut source = Counted::new(Source::broken(b"ab", 2, 0, end));
    let gave_some = matches!(source.read(&mut [0; 2]), Ok(count) if count > 0);
    !gave_some && source.stream().is_left()
}
