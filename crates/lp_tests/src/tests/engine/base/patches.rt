//! Patches that are built, stacked and asked.
use super::*;
use lp_patch::Aim;
use std::alloc::AllocError;

const UNKNOWN: SymId = SymId(3);

/// What is no patch, and the fault of it.
const FAULTS: [(&[SymId], PatchFault); 6] = [
    (&[], PatchFault::Empty),
    (&[UNKNOWN], PatchFault::Unknown(UNKNOWN)),
    (&[A, B, A, UNKNOWN], PatchFault::Doubled(A)),
    (&[A, UNKNOWN, A], PatchFault::Unknown(UNKNOWN)),
    (&[UNKNOWN; 257], PatchFault::TooMany),
    (&[A; 256], PatchFault::Doubled(A)),
];

/// The fault of a patch of these over `a`, `b` and `c`.
fn fault_of(alloc: Global, symbols: &Symbols, ids: &[SymId]) -> Option<PatchFault> {
    PatchSet::build(alloc, symbols, ids).err()
}

/// Whether each fault is found.
fn faults_are_found(alloc: Global, symbols: &Symbols) -> bool {
    for (ids, want) in &FAULTS {
        if fault_of(alloc, symbols, *ids) != Some(*want) {
            return false;
        }
    }
    true
}

/// Whether each is, over `a`, `b` and `c`.
fn faults_are_found_over_three(alloc: Global) -> bool {
    match names(alloc) {
        Some(symbols) => faults_are_found(alloc, &symbols),
        None => false,
    }
}

#[test]
fn faults_of_a_patch_come_in_their_order(rt: HostRuntime) {
    assert!(rt; faults_are_found_over_three(rt.alloc()));
}

/// A patch of these over `a`, `b` and `c`, in a box.
fn patch_of(alloc: Global, symbols: &Symbols, ids: &[SymId]) -> Option<Box<PatchSet>> {
    match PatchSet::build(alloc, symbols, ids) {
        Ok(set) => Box::new(alloc, set).ok(),
        Err(_) => None,
    }
}

/// A copy of a patch, in a box.
fn copy_of(alloc: Global, set: &PatchSet) -> Option<Box<PatchSet>> {
    match set.copy(alloc) {
        Ok(copy) => Box::new(alloc, copy).ok(),
        Err(_) => None,
    }
}

/// The same. Where an allocation fails there is none, and the same call makes it.
fn copy_again(alloc: Global, set: &PatchSet) -> Option<Box<PatchSet>> {
    match copy_of(alloc, set) {
        None => copy_of(alloc, set),
        answer => answer,
    }
}

/// Whether a patch has `c` and `a` of the three symbols, and no more.
fn has_c_and_a(set: &PatchSet) -> bool {
    set.has(A) && !set.has(B) && set.has(C) && !set.has(UNKNOWN) && set.symbols() == 3
}

/// Whether the copy of a patch is the same.
fn is_copied(alloc: Global, set: &PatchSet) -> bool {
    match copy_again(alloc, set) {
        Some(copy) => copy.same(set),
        None => false,
    }
}

/// Whether a patch is another than one of `a` and `b`.
fn is_other(alloc: Global, symbols: &Symbols, set: &PatchSet) -> bool {
    match patch_of(alloc, symbols, &[A, B]) {
        Some(other) => !set.same(&other),
        None => false,
    }
}

/// Whether a patch of `c` and `a` has these, in its copy too, and is no patch of `a` and `b`.
fn has_what_it_was_built_of(alloc: Global, symbols: &Symbols) -> bool {
    match patch_of(alloc, symbols, &[C, A]) {
        Some(set) => {
            has_c_and_a(&set) && is_copied(alloc, &set) && is_other(alloc, symbols, &set)
        }
        None => false,
    }
}

#[test]
fn a_patch_has_what_it_was_built_of(rt: HostRuntime) {
    assert!(rt; over_three(rt.alloc(), false));
}

/// A level, and the versions of `a` and `b` that run at it, where `a`, `b` and `a` are patched in turn.
const VERSIONS: [(u8, u8, u8); 6] = [
    (0, 0, 0),
    (1, 1, 0),
    (2, 1, 2),
    (3, 3, 2),
    (4, 3, 2),
    (255, 3, 2),
];

/// Whether these versions of `a` and `b` run at a level, and no other of another function.
fn runs(stack: &PatchStack, level: Level, a: u8, b: u8) -> bool {
    stack.version(A, level) == Level(a)
        && stack.version(B, level) == Level(b)
        && stack.version(C, level) == Level(0)
        && stack.version(UNKNOWN, level) == Level(0)
}

/// Whether these versions run at each level.
fn run_at_each(stack: &PatchStack) -> bool {
    for (level, a, b) in &VERSIONS {
        if !runs(stack, Level(*level), *a, *b) {
            return false;
        }
    }
    true
}

/// A copy of a stack. Where an allocation fails there is none, and the same call makes it.
fn copy_of_stack(alloc: Global, stack: &PatchStack) -> Result<PatchStack, AllocError> {
    match stack.copy(alloc) {
        Err(_) => stack.copy(alloc),
        answer => answer,
    }
}

/// Whether the copy of a stack is the same.
fn is_stack_copied(alloc: Global, stack: &PatchStack) -> bool {
    match copy_of_stack(alloc, stack) {
        Ok(copy) => copy.same(stack),
        Err(_) => false,
    }
}

/// Whether a stack of three patches over three symbols runs them, and is copied.
fn runs_three(alloc: Global, stack: &PatchStack) -> bool {
    stack.patches() == Level(3)
        && stack.symbols() == 3
        && run_at_each(stack)
        && is_stack_copied(alloc, stack)
}

/// Whether one of `a`, `b` and `a` does.
fn three_run(alloc: Global) -> bool {
    match patches(alloc, &[&[A], &[B], &[A]]) {
        Ok(stack) => runs_three(alloc, &stack),
        Err(_) => false,
    }
}

#[test]
fn a_level_runs_the_last_patch_up_to_it(rt: HostRuntime) {
    assert!(rt; three_run(rt.alloc()));
}

/// A call at a level, and whether it is stale on the way to level 2 of the same patches.
const STALE: [(SymId, u8, bool); 7] = [
    (A, 0, true),
    (A, 1, false),
    (A, 2, false),
    (A, 3, true),
    (B, 1, true),
    (B, 3, false),
    (C, 0, false),
];

/// Whether this is said of each of these calls.
fn is_said_of_each(patches: &PatchStack) -> bool {
    let aim = Aim {
        patches,
        target: Level(2),
    };
    for (func, level, stale) in &STALE {
        if aim.stale(&frame(*func, *level, 1)) != *stale {
            return false;
        }
    }
    true
}

/// Whether it is where `a`, `b` and `a` are patched in turn.
fn is_said(alloc: Global) -> bool {
    match patches(alloc, &[&[A], &[B], &[A]]) {
        Ok(patches) => is_said_of_each(&patches),
        Err(_) => false,
    }
}

#[test]
fn a_call_of_another_version_is_stale(rt: HostRuntime) {
    assert!(rt; is_said(rt.alloc()));
}

/// The functions of a patch of `a`.
const ONLY_A: &[SymId] = &[A];

/// Lists of functions, and how many patches a stack has with one of each list.
const COUNTS: [(&[&[SymId]], Result<Level, PatchFault>); 3] = [
    (&[], Err(PatchFault::Empty)),
    (&[ONLY_A; 16], Ok(Level(16))),
    (&[ONLY_A; 17], Err(PatchFault::TooManyPatches)),
];

/// How many patches a stack has with one of each of these.
fn patches_of(alloc: Global, lists: &[&[SymId]]) -> Result<Level, PatchFault> {
    match patches(alloc, lists) {
        Ok(stack) => Ok(stack.patches()),
        Err(fault) => Err(fault),
    }
}

#[test]
fn a_stack_has_1_to_16_patches(rt: HostRuntime) {
    for (lists, want) in &COUNTS {
        assert!(rt; patches_of(rt.alloc(), *lists) == *want);
    }
}

/// A patch of `c` and `a`, in a box. Where an allocation fails there is none, and the same call makes it.
fn patch_again(alloc: Global, symbols: &Symbols) -> Option<Box<PatchSet>> {
    match patch_of(alloc, symbols, &[C, A]) {
        None => patch_of(alloc, symbols, &[C, A]),
        answer => answer,
    }
}

/// Whether it has its functions, and its copy is the same.
fn builds_and_copies(alloc: Global, symbols: &Symbols) -> bool {
    match patch_again(alloc, symbols) {
        Some(set) => is_copied(alloc, &set) && has_c_and_a(&set),
        None => false,
    }
}

/// For `scripts/refuse-memory`: after a failed allocation no patch is there, and the same call
/// makes it.
#[test]
fn builds_again_after_a_failed_allocation(rt: HostRuntime) {
    assert!(rt; over_three(rt.alloc(), true));
}

/// `a`, `b` and `c`. Where an allocation fails, the same call makes them.
fn names_again(alloc: Global) -> Option<Box<Symbols>> {
    match names(alloc) {
        None => names(alloc),
        answer => answer,
    }
}

/// Whether a patch over these is right; where `again` is true, each call is made again where an allocation
/// failed.
fn is_built(alloc: Global, symbols: &Symbols, again: bool) -> bool {
    if again {
        builds_and_copies(alloc, symbols)
    } else {
        has_what_it_was_built_of(alloc, symbols)
    }
}

/// The same, over `a`, `b` and `c`.
fn over_three(alloc: Global, again: bool) -> bool {
    match names_again(alloc) {
        Some(symbols) => is_built(alloc, &symbols, again),
        None => false,
    }
}

/// The stack of `a`, then `b`. Where an allocation fails there is none, and the same calls make it.
fn stack_again(alloc: Global) -> Result<PatchStack, PatchFault> {
    match patches(alloc, &[&[A], &[B]]) {
        Err(PatchFault::NoMemory) => patches(alloc, &[&[A], &[B]]),
        answer => answer,
    }
}

/// Whether it runs these, and its copy, likewise, is the same.
fn stacks_and_copies(alloc: Global) -> bool {
    match stack_again(alloc) {
        Ok(stack) => is_stack_copied(alloc, &stack) && runs(&stack, Level(2), 1, 2),
        Err(_) => false,
    }
}

#[test]
fn stacks_again_after_a_failed_allocation(rt: HostRuntime) {
    assert!(rt; stacks_and_copies(rt.alloc()));
}
