//! Recordings of a Linux kernel, played on its own procedure: which transitions it opens, at which walk it completes each,
//! and which version each call of a patched function runs.

use crate::trouble::Trouble;
use lp_linux::{TargetState, step};
use lp_models::Hybrid;
use lp_patch::PatchStack;
use lp_stack::Level;
use lp_symbols::SymId;
use lp_trace::{Trace, stack};
use lp_transition::{Core, Event, Reply, What};
use std::alloc::{AllocError, Global};

/// What the procedure made of a recording, a line each, as the lists beside the recordings have it.
#[derive(Drop)]
pub struct Played {
    /// The number of an event and its word where it begins or turns a transition, and `complete` where a walk completes one.
    pub transitions: String,
    /// The number of a call of a patched function, the task, and the version that ran.
    pub versions: String,
}

/// Whether a patch has the function: its version on the highest level is one of theirs.
fn is_patched(patches: &PatchStack, func: SymId) -> bool {
    patches.version(func, patches.patches()) != Level(0)
}

/// Adds the version that a call ran, where it was accepted and its function is patched.
fn add_version(
    text: &mut String,
    patches: &PatchStack,
    number: usize,
    event: Event,
    reply: &Reply,
) -> Result<(), AllocError> {
    let (Event::Call(task, func), What::Ran(level)) = (event, &reply.what) else {
        return Ok(());
    };
    if !is_patched(patches, func) {
        return Ok(());
    }
    let version = patches.version(func, *level);
    writeln!(text, "{number} {} {}", task.0, version.0)
}

/// The word of an event after which the kernel heads elsewhere: a walk completes the transition, and any other event began or turned it.
fn word_of(event: Event, after: TargetState) -> &'static str {
    match (after, event) {
        (TargetState::Undefined, _) => "complete",
        (_, Event::Enable) => "enable",
        (_, Event::Disable) => "disable",
        (_, Event::Reverse) => "reverse",
        _ => "no control event",
    }
}

/// Takes one event, and adds what the kernel made of it.
fn take(
    alloc: Global,
    played: &mut Played,
    core: &mut Core<Hybrid>,
    target: &mut TargetState,
    number: usize,
    event: Event,
) -> Result<(), Trouble> {
    let before = *target;
    let reply = step(core, target, alloc, event)?;
    if before != *target {
        let word = word_of(event, *target);
        writeln!(played.transitions, "{number} {word}")?;
    }
    let patches = core.aim().patches;
    add_version(&mut played.versions, patches, number, event, &reply)?;
    Ok(())
}

/// Takes the events of a trace, one after the other.
fn take_all(alloc: Global, core: &mut Core<Hybrid>, events: &[Event]) -> Result<Played, Trouble> {
    let mut played = Played {
        transitions: String::new(alloc),
        versions: String::new(alloc),
    };
    let mut target = TargetState::Undefined;
    for (index, event) in events.iter().enumerate() {
        take(
            alloc,
            &mut played,
            core,
            &mut target,
            index.saturating_add(1),
            *event,
        )?;
    }
    Ok(played)
}

/// What the kernel's procedure makes of a recording.
pub fn play_on_procedure(alloc: Global, trace: &Trace) -> Result<Played, Trouble> {
    let patches = stack(alloc, trace)?;
    let mut core = Core::boot(alloc, Hybrid, patches, trace.boots())?;
    take_all(alloc, &mut core, trace.events())
}
