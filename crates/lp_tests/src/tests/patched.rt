//! A patch of one function, `a`, each fault of which is NoMemory also where the name gets no memory.

use lp_patch::{PatchFault, PatchSet, PatchStack};
use lp_symbols::Symbols;
use std::alloc::Global;

/// A patch of the function `a` alone.
fn patch_over(alloc: Global, symbols: &mut Symbols) -> Result<PatchSet, PatchFault> {
    match symbols.add("a") {
        Ok(a) => PatchSet::build(alloc, symbols, &[a]),
        Err(_) => Err(PatchFault::NoMemory),
    }
}

/// A patch of the function `a`.
fn patch_of_a(alloc: Global) -> Result<PatchSet, PatchFault> {
    match Symbols::new(alloc) {
        Ok(mut symbols) => patch_over(alloc, &mut symbols),
        Err(_) => Err(PatchFault::NoMemory),
    }
}

/// A stack of one patch, of the function `a`.
pub(super) fn patched(alloc: Global) -> Result<PatchStack, PatchFault> {
    let patch = patch_of_a(alloc)?;
    let mut sets = Vec::new(alloc);
    sets.push(patch)?;
    PatchStack::new(alloc, sets)
}
