//! What no row of lp_rows can say: calls of an engine by themselves, its limits, events that no text
//! has, the laws at each model, and calls after a failed allocation.
ghost use Rattle.std.specs.Prelude.{◌≡◌, true, IfOk};
ghost use Rattle.lp_patch.specs.Patches.{ShareSymbols};
ghost use Rattle.lp_transition.specs.Scan.{is_scan_kind};
ghost use Rattle.lp_transition.specs.Weigh.{IsWeighed};

mod base;
mod boots;
mod calls;
mod counts;
mod events;
mod first_refusals;
mod large_groups;
mod laws;
mod limits;
mod memory;
mod open;
mod refusals;
mod unused_scans;

use crate::tests::said::{Said, in_short};
use lp_model::{CheckKind, Consistency};
use lp_models::Hybrid;
use lp_patch::{PatchFault, PatchSet, PatchStack};
use lp_scan::scan_plain;
use lp_stack::{Class, GroupId, Level, TaskId};
use lp_symbols::{SymId, Symbols};
use lp_transition::{BootFault, Core, Event, Halt, Opening, Reply, Step, What};
use std::alloc::{AllocError, Global};

const A: SymId = SymId(0);

const B: SymId = SymId(1);

const C: SymId = SymId(2);

const ONE: TaskId = TaskId(1);

const TWO: TaskId = TaskId(2);

const THREE: TaskId = TaskId(3);

const ALONE: [(TaskId, Class); 1] = [(ONE, Class::Normal)];

const BOTH: [(TaskId, Class); 2] = [(ONE, Class::Normal), (TWO, Class::Normal)];

const NAMES: [&str; 3] = ["a", "b", "c"];

/// Adds the names `a`, `b` and `c`; whether each is added.
fn add_names(symbols: &mut Symbols) -> bool {
    for name in &NAMES {
        if symbols.add(*name).is_err() {
            return false;
        }
    }
    true
}

/// No names, in a box: docs/GATE.md says why.
fn no_names(alloc: Global) -> Option<Box<Symbols>> {
    match Symbols::new(alloc) {
        Ok(symbols) => Box::new(alloc, symbols).ok(),
        Err(_) => None,
    }
}

/// The names `a`, `b` and `c`.
fn names(alloc: Global) -> Option<Box<Symbols>> {
    let mut symbols = no_names(alloc)?;
    if add_names(&mut symbols) {
        Some(symbols)
    } else {
        None
    }
}

/// A patch of each of these lists of symbols.
fn sets(alloc: Global, symbols: &Symbols, lists: &[&[SymId]]) -> Result<Vec<PatchSet>, PatchFault>
    ensures { IfOk result (λ sets. ShareSymbols sets.items) }
{
    let mut sets = Vec::new(alloc);
    for ids in lists {
        sets.push(PatchSet::build(alloc, symbols, ids)?)?;
    }
    Ok(sets)
}

/// A stack of patches over `a`, `b` and `c`, one of each of these lists. The fault is NoMemory also where
/// the names get no memory.
fn patches(alloc: Global, lists: &[&[SymId]]) -> Result<PatchStack, PatchFault> {
    let Some(symbols) = names(alloc) else {
        return Err(PatchFault::NoMemory);
    };
    let sets = sets(alloc, &symbols, lists)?;
    PatchStack::new(alloc, sets)
}

/// What an engine says to an event.
fn reply_to<M: Consistency>(alloc: Global, core: &mut Core<M>, event: Event) -> Option<Said> {
    match core.step(alloc, event) {
        Ok(reply) => Some(in_short(&reply)),
        Err(_) => None,
    }
}

/// Gives these events to an engine; whether it takes them.
fn give<M: Consistency>(alloc: Global, core: &mut Core<M>, events: &[Event]) -> bool {
    for event in events {
        if reply_to(alloc, core, *event).is_none() {
            return false;
        }
    }
    true
}

/// A scan, weighed after a look at every waiting task.
fn weigh_whole<M: Consistency>(alloc: Global, core: &Core<M>, kind: CheckKind) -> Result<Step, Halt>
    requires { is_scan_kind kind ≡ true }
{
    let views = core.views(alloc)?;
    let found = scan_plain(alloc, core.model(), kind, &core.aim(), views.as_slice())?;
    core.weigh_scan(alloc, kind, found.as_slice())
}

/// What is said to an event that was weighed, which is taken.
fn taken<M: Consistency>(core: &mut Core<M>, step: Step) -> Said
    requires { IsWeighed M.rules core.old step }
{
    in_short(&core.take(step))
}

/// An engine that starts with these tasks, over one patch of function `a`. The fault is NoMemory also where
/// the patch gets no memory.
fn boot_over_a<M: Consistency>(
    alloc: Global,
    model: M,
    boots: &[(TaskId, Class)],
) -> Result<Core<M>, BootFault> {
    match patches(alloc, &[&[A]]) {
        Ok(patches) => Core::boot(alloc, model, patches, boots),
        Err(_) => Err(BootFault::NoMemory),
    }
}

/// An engine that starts so.
fn start<M: Consistency>(alloc: Global, model: M, boots: &[(TaskId, Class)]) -> Option<Core<M>> {
    boot_over_a(alloc, model, boots).ok()
}

/// The tasks 1 up to this number.
fn normal_tasks(alloc: Global, count: u16) -> Result<Vec<(TaskId, Class)>, AllocError> {
    let mut tasks = Vec::new(alloc);
    for number in 1..=count {
        tasks.push((TaskId(number), Class::Normal))?;
    }
    Ok(tasks)
}

/// An engine that starts with them.
fn start_with<M: Consistency>(alloc: Global, model: M, count: u16) -> Option<Core<M>> {
    match normal_tasks(alloc, count) {
        Ok(tasks) => start(alloc, model, tasks.as_slice()),
        Err(_) => None,
    }
}
