//! Patches stacked on one another.
ghost use Rattle.std.specs.Prelude.{◌≡◌, ℕ, ◌≤◌, ◌↔◌, length, None, IsTrue, IfSome, IfOk, MatchResult};
ghost use Rattle.lp_patch.specs.Patches.{ShareSymbols, version, patch_has, stack_refusal, symbols_of};
ghost use Rattle.lp_patch.specs.inside.Stacks.{AreRows, IsRow};

use crate::{PatchFault, PatchSet};
use lp_stack::Level;
use lp_symbols::SymId;
use std::alloc::{AllocError, Global};
use std::marker::Model;

/// The most patches that a stack has.
pub const MOST_PATCHES: usize = 16;

/// The version of one function at each level.
type Versions = [u8; 17];

/// 1 to 16 patches over the same symbols, of which patch 1 is the lowest.
///
/// At level l the patches 1 to l apply, so a function runs its version of the greatest of these
/// that has it (stacked patches of the Linux livepatch documentation, without atomic replace).
pub struct PatchStack {
    sets: Vec<PatchSet>,
    /// For each symbol its versions.
    versions: Vec<Versions>,
}

/// By hand, so that the proof of who owns one lets go of it in one step, not field by field.
impl Drop for PatchStack {
    fn drop(self) {
        let PatchStack {
            sets: _,
            versions: _,
        } = self;
    }
}

impl Model for PatchStack {
    ghost use Rattle.lp_patch.specs.Patches.{Patches};
    ghost use Rattle.lp_patch.specs.inside.Stacks.{IsStack};

    ghost Value = { Patches };

    ghost view = { λ s. s.sets.items };

    ghost invariant = { λ s. IsStack s.sets.items s.versions.items };
}

impl PatchStack {
    /// The stack of these patches, the lowest in front.
    ///
    /// Refused as P1 for none, P6 for more than 16, else P5 where an allocation failed.
    pub fn new(alloc: Global, sets: Vec<PatchSet>) -> Result<PatchStack, PatchFault>
        requires { ShareSymbols sets.items }
        ensures refused { IfSome (stack_refusal sets.items) (λ e. result ≡ Err e) }
        ensures made { stack_refusal sets.items ≡ None → MatchResult result (λ s. s ≡ sets.items) (λ e. e ≡ PatchFault.NoMemory) }
    {
        if sets.is_empty() {
            return Err(PatchFault::Empty);
        }
        if sets.len() > MOST_PATCHES {
            return Err(PatchFault::TooManyPatches);
        }
        let versions = all_versions(alloc, sets.as_slice())?;
        Ok(PatchStack { sets, versions })
    }

    /// A copy of the stack; an `Err` only where an allocation failed.
    pub fn copy(&self, alloc: Global) -> Result<PatchStack, AllocError>
        ensures { IfOk result (λ copied. copied ≡ self.now) }
    {
        Ok(PatchStack {
            sets: copied_sets(alloc, self.sets.as_slice())?,
            versions: Vec::from_slice(alloc, self.versions.as_slice())?,
        })
    }

    /// Whether the two are the same patches, in the same order, over the same symbols.
    pub fn same(&self, other: &PatchStack) -> bool
        ensures { IsTrue result ↔ (self.now ≡ other.now) }
    {
        are_same(self.sets.as_slice(), other.sets.as_slice())
    }

    /// How many symbols there are.
    pub fn symbols(&self) -> usize
        ensures { result ≡ symbols_of self.now }
    {
        self.sets[0].symbols()
    }

    /// How many patches there are, which is the greatest level.
    pub fn patches(&self) -> Level
        ensures value { result.0 ≡ length self.now }
        ensures some { 1 ≤ length self.now }
        ensures few { length self.now ≤ 16 }
    {
        Level(self.sets.len() as u8)
    }

    /// The version of a function at a level, in constant time.
    pub fn version(&self, func: SymId, level: Level) -> Level
        ensures { result.0 ≡ version self.now func.0 level.0 }
    {
        match self.versions.get(func.index()) {
            Some(versions) => Level(versions[usize::from(level.0.min(16))]),
            None => Level(0),
        }
    }
}

/// A copy of each patch.
fn copied_sets(alloc: Global, sets: &[PatchSet]) -> Result<Vec<PatchSet>, AllocError>
    ensures { IfOk result (λ copied. copied.items ≡ sets.now) }
{
    let mut copied = Vec::with_capacity(alloc, sets.len())?;
    for set in sets {
        copied.push(set.copy(alloc)?)?;
    }
    Ok(copied)
}

/// Whether the two are the same patches, in the same order.
fn are_same(sets: &[PatchSet], others: &[PatchSet]) -> bool
    ensures { IsTrue result ↔ (sets.now ≡ others.now) }
{
    if sets.len() != others.len() {
        return false;
    }
    for (i, set) in sets.iter().enumerate() {
        if !set.same(&others[i]) {
            return false;
        }
    }
    true
}

/// The versions of each function.
fn all_versions(alloc: Global, sets: &[PatchSet]) -> Result<Vec<Versions>, AllocError>
    requires some { 1 ≤ length sets.now }
    ensures { IfOk result (λ v. AreRows sets.now v.items) }
{
    let symbols = sets[0].symbols();
    let mut rows = Vec::with_capacity(alloc, symbols)?;
    for func in 0..symbols {
        rows.push(versions_of(sets, func))?;
    }
    Ok(rows)
}

/// The version of one function at each level.
fn versions_of(sets: &[PatchSet], func: usize) -> Versions
    ensures { IsRow sets.now func result }
{
    let mut row = [0; 17];
    for level in 1..17 {
        let below = row[level - 1];
        row[level] = if patch_has(sets, level, func) {
            level as u8
        } else {
            below
        };
    }
    row
}

/// Whether the patch of a number, from 1, has a function.
fn patch_has(sets: &[PatchSet], patch: usize, func: usize) -> bool
    requires { 1 ≤ patch }
    ensures { result ≡ patch_has sets.now patch func }
{
    match sets.get(patch - 1) {
        Some(set) => set.members().get(func).copied().unwrap_or(false),
        None => false,
    }
}
