//! Which patches have a function, as the bits of one number: bit b says whether the patch above b
//! others has it. So a call costs what patches it is in, and not what patches there are.
ghost use Rattle.std.specs.Prelude.{◌≡◌, ℕ, ◌+◌, ◌<◌, ◌≤◌, false, ◌==◌, if◌then◌else◌, IfOk, IfSome};
ghost use Rattle.lp_patch.specs.Patches.{patch_has};
ghost use Rattle.lp_numbers.specs.Numbers.{IsNextFrom};
ghost use Rattle.lp_stays.specs.inside.Holders.{mask_has, IsHolders, AreHolders};

use lp_patch::PatchStack;
use lp_stack::Level;
use lp_symbols::SymId;
use std::alloc::{AllocError, Global};

/// How many numbers a function can have.
const FUNCTIONS: usize = 65_536;

/// The patches that have each function.
pub(crate) fn all_holders(alloc: Global, patches: &PatchStack) -> Result<Vec<u16>, AllocError>
    ensures { IfOk result (λ masks. AreHolders patches.now masks.items) }
{
    let count = patches.symbols().min(FUNCTIONS);
    let mut masks = Vec::with_capacity(alloc, count)?;
    for func in 0..count {
        masks.push(holders(patches, SymId(func as u16)))?;
    }
    Ok(masks)
}

/// The patches that have a function.
pub(crate) fn holders(patches: &PatchStack, func: SymId) -> u16
    ensures { IsHolders patches.now func.0 result }
{
    let mut mask = 0;
    for below in 0..patches.patches().0 {
        mask = with_next(mask, below, has(patches, below, func));
    }
    mask
}

/// Whether the patch above so many has a function.
fn has(patches: &PatchStack, below: u8, func: SymId) -> bool
    requires { below < 16 }
    ensures { result ≡ patch_has patches.now (below + 1) func.0 }
{
    let patch = Level(below + 1);
    patches.version(func, patch) == patch
}

/// The mask with a bit above all that are set.
fn with_next(mask: u16, bit: u8, is_set: bool) -> u16
    requires within { bit < 16 }
    requires unset { mask_has mask bit ≡ false }
    ensures { (k : ℕ) → mask_has result k ≡ (if k == bit then is_set else mask_has mask k) }
{
    if is_set { mask | 1 << bit } else { mask }
}

/// The lowest patch of a mask with at least so many below it.
#[inline(always)]
pub(crate) fn next_holder(mask: u16, from: u8) -> Option<u8>
    requires { from ≤ 16 }
    ensures below { IfSome result (λ below. below < 16) }
    ensures next { IsNextFrom (mask_has mask) from result }
{
    let rest = u32::from(mask) >> from;
    if rest == 0 {
        return None;
    }
    Some(from + rest.trailing_zeros() as u8)
}
