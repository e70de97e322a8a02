//! What no row can say: streams that fail, limits, parts without a spelling, numbers past every text,
//! what an engine's makers give, and calls after a failed allocation.
mod again;
mod checks;
mod faults;
mod limits;
mod makers;
mod memory;
mod parts;
mod replies;
mod streams;
mod traces;

use lp_cert::{CertHead, Claim, Line};
use lp_model::Consistency;
use lp_models::Hybrid;
use lp_stack::{Class, GroupId, Level, TaskId};
use lp_symbols::{SymId, Symbols};
use lp_trace::{Counted, Outcome, RunFault, Trace, check, replay, run, stack};
use lp_transition::{Core, Event};
use std::alloc::Global;
use streams::{Sink, Source};

/// A child that goes on waiting.
const CHILD: &str =
    "lptrace 1\nsym a\nsym b\nsym c\npatch a\nboot 1 normal\nenter 1\nenable\nwalk\nfork 1 2 own\nexit 1\ncall 2 a\nsleep 2\nwalk\n";

/// Its report.
const CHILD_REPORT: &str =
    "lpreport 1\nmodel hybrid\n1 done\n2 done\n3 done\n4 done\n5 over 1\n6 ran old\n7 done\n8 done\nleg 2 new waiting 1\nwaiting 2 2 8\nbusy 1 1 3\nborn 2 1 4\nhold 2 2 6 8 8\nstays 1 mixed 0\n";

/// The trace of a text, in a box: docs/GATE.md says why.
fn read(alloc: Global, text: &str) -> Option<Box<Trace>> {
    match Trace::read(alloc, text.as_bytes()) {
        Ok(trace) => Box::new(alloc, trace).ok(),
        Err(_) => None,
    }
}

/// The engine of a trace before its first event.
fn boot<M: Consistency>(alloc: Global, model: M, trace: &Trace) -> Option<Box<Core<M>>> {
    let Ok(patches) = stack(alloc, trace) else {
        return None;
    };
    match Core::boot(alloc, model, patches, trace.boots()) {
        Ok(core) => Box::new(alloc, core).ok(),
        Err(_) => None,
    }
}

/// What comes of a trace, in a box.
fn outcome_of<M: Consistency>(alloc: Global, model: M, trace: &Trace) -> Option<Box<Outcome>> {
    match replay(alloc, model, trace) {
        Ok(outcome) => Box::new(alloc, outcome).ok(),
        Err(_) => None,
    }
}

/// The frame of this serial is on a task's stack.
const fn hold(group: u16, task: u16, serial: u64, from: u64, to: u64) -> Line {
    Line::Hold {
        group: GroupId(group),
        task: TaskId(task),
        serial,
        from,
        to,
    }
}

/// A task is on a CPU.
const fn busy(group: u16, task: u16, at: u64) -> Line {
    Line::Busy {
        group: GroupId(group),
        task: TaskId(task),
        at,
    }
}

/// A task forked into a group of its own.
const fn born(group: u16, parent: u16, at: u64) -> Line {
    Line::Born {
        group: GroupId(group),
        parent: TaskId(parent),
        at,
    }
}

/// What there is to see of a certificate but its lines.
const fn head(claim: Claim, leg: u64, group: u16, upto: u64) -> CertHead {
    CertHead {
        claim,
        leg,
        group: GroupId(group),
        upto,
    }
}
