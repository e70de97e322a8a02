//! What a trace lends of its parts, and writers of its text.
use super::*;
use lp_model::ForkKind;
use lp_trace::{TraceForm, WriteFault};

/// A trace of two patches.
const OF_TWO_PATCHES: &str =
    "lptrace 2\nsym a\nsym b\npatch 1 a\npatch 2 b\npatch 2 a\nboot 7 normal\nboot 65535 idle\nenter 7\ncall 7 b\nfork 7 10 share\nwalk\n";

const FORK: Event = Event::Fork(TaskId(7), TaskId(10), ForkKind::Share);

/// Whether a trace lends the parts of that text.
fn is_of_two_patches(trace: &Trace) -> bool {
    let (boots, events) = (trace.boots(), trace.events());
    trace.form() == TraceForm::Stacked
        && trace.patches() == 2
        && trace.symbols().len() == 2
        && boots.len() == 2
        && boots[1] == (TaskId(65_535), Class::Idle)
        && events.len() == 4
        && events[2] == FORK
}

/// Whether the trace that is read of it does.
fn is_read(alloc: Global) -> bool {
    match read(alloc, OF_TWO_PATCHES) {
        Some(trace) => is_of_two_patches(&trace),
        None => false,
    }
}

#[test]
fn a_text_is_read(rt: HostRuntime) {
    assert!(rt; is_read(rt.alloc()));
}

/// Whether a writer with room for 12 bytes takes the front of a trace's text.
fn has_a_front(trace: &Trace) -> bool {
    let mut room = [0; 12];
    let mut rest = room.as_mut_slice();
    let mut writer = Counted::new(&mut rest);
    let stopped = matches!(trace.write(&mut writer), Err(WriteFault::Stopped));
    stopped && room.as_slice() == b"lptrace 1\nsy".as_slice()
}

/// Whether it does of a trace of one function.
fn ends_by_a_full_writer(alloc: Global) -> bool {
    match read(alloc, "lptrace 1\nsym a\npatch a\nenable\n") {
        Some(trace) => { trace.patches() == 1 && trace.patch(1).len() == 1 && has_a_front(&trace) }
        None => false,
    }
}

#[test]
fn a_full_writer_ends_it(rt: HostRuntime) {
    assert!(rt; ends_by_a_full_writer(rt.alloc()));
}
