//! The functions of one patch.
ghost use Rattle.std.specs.Prelude.{◌≡◌, ℕ, ◌==◌, ◌↔◌, [], length, None, IsTrue, IfSome, IfOk, OnErr};
ghost use Rattle.std.specs.List.{list_any};
ghost use Rattle.lp_patch.specs.Patches.{has, patch_refusal, first_fault};

use crate::PatchFault;
use lp_symbols::{Numbering, SymId};
use std::alloc::{AllocError, Global};
use std::marker::Model;

/// The most functions that a patch has.
pub const MOST_FUNCTIONS: usize = 256;

/// The functions of which a patch has a new version.
///
/// Contracts see a list that says of each symbol whether the patch has it.
#[derive(Drop)]
pub struct PatchSet {
    members: Vec<bool>,
}

impl Model for PatchSet {
    ghost use Rattle.lp_patch.specs.Patches.{Patch};

    ghost Value = { Patch };

    ghost view = { λ s. s.members.items };
}

impl PatchSet {
    /// The patch of 1 to 256 symbols, none of them twice.
    ///
    /// Refused as P1 for none and P4 for more than 256, then P2 or P3 at the first symbol that is
    /// unknown or there twice, else P5 where an allocation failed.
    pub fn build<S: Numbering>(
        alloc: Global,
        symbols: &S,
        ids: &[SymId],
    ) -> Result<PatchSet, PatchFault>
        ensures refused { IfSome (patch_refusal (S.count symbols.now) ids.now) (λ e. result ≡ Err e) }
        ensures memory { patch_refusal (S.count symbols.now) ids.now ≡ None → OnErr result (result ≡ Err PatchFault.NoMemory) }
        ensures members { IfOk result (λ s. (func : ℕ) → has s func ≡ list_any (λ id. id.0 == func) ids.now) }
        ensures symbols { IfOk result (λ s. length s ≡ S.count symbols.now) }
    {
        if ids.is_empty() {
            return Err(PatchFault::Empty);
        }
        if ids.len() > MOST_FUNCTIONS {
            return Err(PatchFault::TooMany);
        }
        let count = symbols.count();
        if let Some(fault) = first_fault(count, ids) {
            return Err(fault);
        }
        let mut members = vec![in alloc; false; count]?;
        for id in ids {
            members[id.index()] = true;
        }
        Ok(PatchSet { members })
    }

    /// Whether the patch has a function, in constant time.
    pub fn has(&self, id: SymId) -> bool
        ensures { result ≡ has self.now id.0 }
    {
        self.members.get(id.index()).copied().unwrap_or(false)
    }

    /// A copy of the patch; an `Err` only where an allocation failed.
    pub fn copy(&self, alloc: Global) -> Result<PatchSet, AllocError>
        ensures { IfOk result (λ copied. copied ≡ self.now) }
    {
        Ok(PatchSet {
            members: Vec::from_slice(alloc, self.members.as_slice())?,
        })
    }

    /// Whether the two are patches of the same functions, over the same symbols.
    pub fn same(&self, other: &PatchSet) -> bool
        ensures { IsTrue result ↔ (self.now ≡ other.now) }
    {
        self.members.as_slice() == other.members.as_slice()
    }

    /// For each symbol, whether the patch has it.
    pub(crate) fn members(&self) -> &[bool]
        ensures { result.now ≡ self.now }
    {
        self.members.as_slice()
    }

    /// How many symbols there are.
    pub fn symbols(&self) -> usize
        ensures { result ≡ length self.now }
    {
        self.members.len()
    }
}

/// The fault of the first symbol that is unknown or there twice.
fn first_fault(symbols: usize, ids: &[SymId]) -> Option<PatchFault>
    ensures { result ≡ first_fault symbols [] ids.now }
{
    for (i, id) in ids.iter().enumerate() {
        if id.index() >= symbols {
            return Some(PatchFault::Unknown(*id));
        }
        if ids[..i].contains(id) {
            return Some(PatchFault::Doubled(*id));
        }
    }
    None
}
