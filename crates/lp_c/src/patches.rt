//! Patches and boot tasks, as C gives them in flat arrays.
ghost use Rattle.std.specs.Prelude.{◌≡◌, ◌<◌, ◌≤◌, length, map, IfErr, IfOk, OnOk};
ghost use Rattle.lp_patch.specs.Patches.{ShareSymbols};
ghost use Rattle.lp_c.specs.Codes.{boot_of};
ghost use Rattle.lp_c.specs.Arrays.{AreSets, HasMore, IsSet, symbols_of};

use crate::codes::{
    BootTask, NO_MEMORY, PATCH_DOUBLED, PATCH_EMPTY, PATCH_LENGTHS, PATCH_TOO_MANY, PATCH_UNKNOWN,
    TOO_MANY_PATCHES, boot_of,
};
use crate::count::SymbolCount;
use livepatch::{Class, PatchFault, PatchSet, PatchStack, SymId, TaskId};
use std::alloc::{AllocError, Global};

/// The patches of these functions, of which each has as many as its length says; a status where they are none.
pub(crate) fn patch_stack(
    alloc: Global,
    symbols: u16,
    functions: &[u16],
    lengths: &[u32],
) -> Result<PatchStack, u32>
    ensures sets { IfOk result (AreSets symbols functions.now lengths.now) }
    ensures status { IfErr result (λ status. 0 < status) }
{
    let Some(count) = SymbolCount::new(symbols) else {
        return Err(PATCH_LENGTHS);
    };
    let sets = patch_sets(alloc, &count, functions, lengths)?;
    match PatchStack::new(alloc, sets) {
        Ok(patches) => Ok(patches),
        Err(fault) => Err(status_of(fault)),
    }
}

/// The patches, one by one.
fn patch_sets(
    alloc: Global,
    symbols: &SymbolCount,
    functions: &[u16],
    lengths: &[u32],
) -> Result<Vec<PatchSet>, u32>
    ensures sets { IfOk result (λ sets. AreSets symbols.now.count functions.now lengths.now sets.items) }
    ensures share { IfOk result (λ sets. ShareSymbols sets.items) }
    ensures status { IfErr result (λ status. 0 < status) }
{
    let mut sets = Vec::new(alloc);
    let mut rest = functions;
    for length in lengths {
        let length = *length as usize;
        if length > rest.len() {
            return Err(PATCH_LENGTHS);
        }
        let (own, others) = rest.split_at(length);
        push_set(alloc, symbols, own, &mut sets)?;
        rest = others;
    }
    if !rest.is_empty() {
        return Err(PATCH_LENGTHS);
    }
    Ok(sets)
}

/// One patch, after the others.
fn push_set(
    alloc: Global,
    symbols: &SymbolCount,
    functions: &[u16],
    sets: &mut Vec<PatchSet>,
) -> Result<(), u32>
    ensures more { OnOk result (HasMore symbols.now.count functions.now sets.old.items sets.new.items) }
    ensures status { IfErr result (λ status. 0 < status) }
{
    match patch_set(alloc, symbols, functions) {
        Ok(set) => match sets.push(set) {
            Ok(()) => Ok(()),
            Err(_) => Err(NO_MEMORY),
        },
        Err(status) => Err(status),
    }
}

/// One patch.
fn patch_set(alloc: Global, symbols: &SymbolCount, functions: &[u16]) -> Result<PatchSet, u32>
    ensures set { IfOk result (IsSet symbols.now.count functions.now) }
    ensures status { IfErr result (λ status. 0 < status) }
{
    match ids_of(alloc, functions) {
        Ok(ids) => match PatchSet::build(alloc, symbols, ids.as_slice()) {
            Ok(set) => Ok(set),
            Err(fault) => Err(status_of(fault)),
        },
        Err(_) => Err(NO_MEMORY),
    }
}

/// The functions of these numbers.
fn ids_of(alloc: Global, functions: &[u16]) -> Result<Vec<SymId>, AllocError>
    ensures { IfOk result (λ ids. ids.items ≡ symbols_of functions.now) }
{
    let mut ids = Vec::with_capacity(alloc, functions.len())?;
    for function in functions {
        ids.push(SymId(*function))?;
    }
    Ok(ids)
}

/// The boot tasks with their classes; AllocError where an allocation failed.
pub(crate) fn boots_of(
    alloc: Global,
    tasks: &[BootTask],
) -> Result<Vec<(TaskId, Class)>, AllocError>
    ensures { IfOk result (λ boots. boots.items ≡ map boot_of tasks.now) }
{
    let mut boots = Vec::with_capacity(alloc, tasks.len())?;
    for task in tasks {
        boots.push(boot_of(*task))?;
    }
    Ok(boots)
}

/// The status of a fault of patches.
fn status_of(fault: PatchFault) -> u32
    ensures { 0 < result }
{
    match fault {
        PatchFault::Empty => PATCH_EMPTY,
        PatchFault::Unknown(_) => PATCH_UNKNOWN,
        PatchFault::Doubled(_) => PATCH_DOUBLED,
        PatchFault::TooMany => PATCH_TOO_MANY,
        PatchFault::NoMemory => NO_MEMORY,
        PatchFault::TooManyPatches => TOO_MANY_PATCHES,
    }
}
