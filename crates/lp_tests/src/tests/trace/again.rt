//! An engine for calls after a failed allocation, each call made again where an allocation fails.
use super::*;
use crate::tests::patched::patched;
use lp_transition::BootFault;

/// The engine of one task, over a patch of function `a`.
fn booted_over_a(alloc: Global) -> Result<Box<Core<Hybrid>>, BootFault> {
    let Ok(patches) = patched(alloc) else {
        return Err(BootFault::NoMemory);
    };
    let core = Core::boot(alloc, Hybrid, patches, &[(TaskId(1), Class::Normal)])?;
    Ok(Box::new(alloc, core)?)
}

/// The same. Where an allocation fails, nothing was made, and the same call makes it.
pub(super) fn booted_again(alloc: Global) -> Option<Box<Core<Hybrid>>> {
    match booted_over_a(alloc) {
        Ok(core) => Some(core),
        Err(BootFault::NoMemory) => booted_over_a(alloc).ok(),
        Err(_) => None,
    }
}
