//! The engine at the start of a trace.
ghost use Rattle.std.specs.Prelude.{◌≡◌, ℕ, length, map, None, IfOk};
ghost use Rattle.std.specs.List.{AllByRecursion};
ghost use Rattle.lp_patch.specs.Patches.{patch_refusal};
ghost use Rattle.lp_machine.specs.Steps.{StandsIn};
ghost use Rattle.lp_machine.specs.Table.{state_in};
ghost use Rattle.lp_transition.specs.Blames.{blame_of};
ghost use Rattle.lp_text.specs.Traces.{functions};
ghost use Rattle.lp_replay.specs.Outcome.{patch_of, run_of};

use super::fault::ReplayFault;
use lp_model::Consistency;
use lp_patch::{PatchFault, PatchSet, PatchStack};
use lp_symbols::{SymId, Symbols};
use lp_text::Trace;
use lp_transition::{BootFault, Core};
use std::alloc::Global;

/// The engine at the start of a trace. In a box: the proof of a function that owns an engine goes over
/// each part of it at each early return.
pub(super) fn engine<M: Consistency>(
    alloc: Global,
    model: M,
    trace: &Trace,
) -> Result<Box<Core<M>>, ReplayFault>
    ensures stands { IfOk result (λ core. StandsIn M.rules (run_of trace.now) (state_in core.value)) }
    ensures unscanned { IfOk result (λ core. core.value.last_scan.kind ≡ None) }
    ensures blameless { IfOk result (λ core. (group : ℕ) → blame_of core.value group ≡ None) }
{
    let patches = stack(alloc, trace)?;
    engine_over(alloc, model, patches, trace)
}

/// The same, over the trace's patches.
pub(super) fn engine_over<M: Consistency>(
    alloc: Global,
    model: M,
    patches: PatchStack,
    trace: &Trace,
) -> Result<Box<Core<M>>, ReplayFault>
    requires { patches ≡ (run_of trace.now).patches }
    ensures stands { IfOk result (λ core. StandsIn M.rules (run_of trace.now) (state_in core.value)) }
    ensures unscanned { IfOk result (λ core. core.value.last_scan.kind ≡ None) }
    ensures blameless { IfOk result (λ core. (group : ℕ) → blame_of core.value group ≡ None) }
{
    let core = boot(alloc, model, patches, trace)?;
    Ok(Box::new(alloc, core)?)
}

/// The engine with the trace's patches and its boot tasks, before the first event.
fn boot<M: Consistency>(
    alloc: Global,
    model: M,
    patches: PatchStack,
    trace: &Trace,
) -> Result<Core<M>, ReplayFault>
    requires { patches ≡ (run_of trace.now).patches }
    ensures stands { IfOk result (λ core. StandsIn M.rules (run_of trace.now) (state_in core)) }
    ensures unscanned { IfOk result (λ core. core.last_scan.kind ≡ None) }
    ensures blameless { IfOk result (λ core. (group : ℕ) → blame_of core group ≡ None) }
{
    match Core::boot(alloc, model, patches, trace.boots()) {
        Ok(core) => Ok(core),
        Err(BootFault::NoMemory) => Err(ReplayFault::NoMemory),
        Err(BootFault::TaskRange) => unreachable!(),
        Err(BootFault::TaskDoubled) => unreachable!(),
    }
}

/// The patches of the trace, on one another; NoMemory where an allocation failed.
pub fn stack(alloc: Global, trace: &Trace) -> Result<PatchStack, ReplayFault>
    ensures { IfOk result (λ patches. patches ≡ (run_of trace.now).patches) }
{
    let sets = sets(alloc, trace.symbols(), trace.functions())?;
    match PatchStack::new(alloc, sets) {
        Ok(patches) => Ok(patches),
        Err(PatchFault::NoMemory) => Err(ReplayFault::NoMemory),
        Err(_) => unreachable!(),
    }
}

/// The patches of these functions, one by one.
fn sets(
    alloc: Global,
    symbols: &Symbols,
    patches: &[Vec<SymId>],
) -> Result<Vec<PatchSet>, ReplayFault>
    requires { AllByRecursion (λ patch. patch_refusal (length symbols.now) patch ≡ None) (functions patches.now) }
    ensures { IfOk result (λ sets. sets.items ≡ map (patch_of (length symbols.now)) (functions patches.now)) }
{
    let mut sets = Vec::with_capacity(alloc, patches.len())?;
    for functions in patches {
        sets.push(set(alloc, symbols, functions.as_slice())?)?;
    }
    Ok(sets)
}

/// The patch of these functions.
fn set(alloc: Global, symbols: &Symbols, functions: &[SymId]) -> Result<PatchSet, ReplayFault>
    requires { patch_refusal (length symbols.now) functions.now ≡ None }
    ensures { IfOk result (λ set. set ≡ patch_of (length symbols.now) functions.now) }
{
    match PatchSet::build(alloc, symbols, functions) {
        Ok(set) => Ok(set),
        Err(PatchFault::NoMemory) => Err(ReplayFault::NoMemory),
        Err(_) => unreachable!(),
    }
}
