//! Recordings of a Linux kernel: whether a run under `hybrid` switches each task at the event at which the kernel did, and
//! whether the kernel's procedure completes each transition at the kernel's walk, and runs the kernel's versions.

use crate::difference::{Stage, compare};
use crate::kernel::play_on_procedure;
use crate::play::reported;
use crate::trouble::Trouble;
use lp_models::ModelName;
use lp_trace::Trace;
use std::alloc::{AllocError, Global};
use std::rt::Files;
use std::{fs, str};

/// A recording and what the kernel did in it, by the names of their files.
pub struct Recording {
    pub trace: &'static str,
    /// Who switched, a line each: the number of the event and the task.
    pub over: &'static str,
    /// When a transition began, was turned or was completed.
    pub transitions: &'static str,
    /// Which version each call of a patched function ran.
    pub versions: &'static str,
}

pub const RECORDINGS: [Recording; 5] = [
    Recording {
        trace: "basic.lptrace",
        over: "basic.over",
        transitions: "basic.transitions",
        versions: "basic.versions",
    },
    Recording {
        trace: "busy.lptrace",
        over: "busy.over",
        transitions: "busy.transitions",
        versions: "busy.versions",
    },
    Recording {
        trace: "reverse.lptrace",
        over: "reverse.over",
        transitions: "reverse.transitions",
        versions: "reverse.versions",
    },
    Recording {
        trace: "resched.lptrace",
        over: "resched.over",
        transitions: "resched.transitions",
        versions: "resched.versions",
    },
    Recording {
        trace: "resched-busy.lptrace",
        over: "resched-busy.over",
        transitions: "resched-busy.transitions",
        versions: "resched-busy.versions",
    },
];

/// Who switched by a report, a line each: the number of the event, and the group's, which is the task's.
fn moves(alloc: Global, report: &str) -> Result<String, AllocError> {
    let mut text = String::new(alloc);
    for line in report.lines() {
        if let Some((number, groups)) = line.split_once(" over ") {
            add_moves(&mut text, number, groups)?;
        }
    }
    Ok(text)
}

/// Adds who switched at an event: the words after `over`, of which the last may say that the leg is complete.
fn add_moves(text: &mut String, number: &str, groups: &str) -> Result<(), AllocError> {
    for group in groups.split(' ') {
        if group != "complete" {
            writeln!(text, "{number} {group}")?;
        }
    }
    Ok(())
}

/// Plays a recording, in which the same has to happen at the same events as in the kernel.
pub fn play_recording<R: Files + AllocGlobal + Print>(
    rt: &R,
    recording: &Recording,
) -> Result<(), Trouble> {
    let text = fs::read(rt, recording.trace)?;
    let stage = Stage {
        rt,
        name: recording.trace,
    };
    compare_moves(&stage, rt, text.as_slice(), recording.over)?;
    compare_procedure(&stage, rt, text.as_slice(), recording)
}

/// Runs a trace, in which the tasks of a file have to switch at its events.
fn compare_moves<R: Files + AllocGlobal + Print>(
    stage: &Stage<'_, R>,
    rt: &R,
    text: &[u8],
    over: &str,
) -> Result<(), Trouble> {
    let wanted = fs::read(rt, over)?;
    let given = reported(rt.alloc(), ModelName::Hybrid, text, text.len())?;
    let report = str::from_utf8(given.as_slice()).unwrap_or("");
    let moves = moves(rt.alloc(), report)?;
    compare(stage, "who switched", wanted.as_slice(), moves.as_bytes())
}

/// Plays a trace on the kernel's procedure, whose transitions and versions have to be those of the recording's files.
fn compare_procedure<R: Files + AllocGlobal + Print>(
    stage: &Stage<'_, R>,
    rt: &R,
    text: &[u8],
    recording: &Recording,
) -> Result<(), Trouble> {
    let transitions = fs::read(rt, recording.transitions)?;
    let versions = fs::read(rt, recording.versions)?;
    let trace = Trace::read(rt.alloc(), text)?;
    let played = play_on_procedure(rt.alloc(), &trace)?;
    let given = played.transitions.as_bytes();
    compare(stage, "a transition", transitions.as_slice(), given)?;
    let given = played.versions.as_bytes();
    compare(stage, "a version", versions.as_slice(), given)
}
