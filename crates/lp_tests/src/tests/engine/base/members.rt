//! The members of groups through inserts and removals.
ghost use Rattle.std.specs.Prelude.{◌≡◌, ℕ, ◌<◌, ◌≤◌, true, false, IfOk};
ghost use Rattle.lp_numbers.specs.Groups.{is_member};

use super::*;
use lp_numbers::{Members, NumberSet};
use std::alloc::AllocError;

const GROUP: u16 = 7;

const OTHER: u16 = 65_535;

/// Puts 1 to 4 into `GROUP`, and the last number into `OTHER`.
fn fill(members: &mut Members)
    requires empty { (group n : ℕ) → is_member members.old group n ≡ false }
    ensures filled { (n : ℕ) → 0 < n → n ≤ 4 → is_member members.new 7 n ≡ true }
{
    members.insert(GROUP, 1);
    members.insert(GROUP, 2);
    members.insert(GROUP, 3);
    members.insert(GROUP, 4);
    members.insert(OTHER, 65_535);
}

/// These members.
fn five(alloc: Global) -> Result<Members, AllocError>
    ensures { IfOk result (λ members. (n : ℕ) → 0 < n → n ≤ 4 → is_member members 7 n ≡ true) }
{
    let mut members = Members::new(alloc)?;
    fill(&mut members);
    Ok(members)
}

/// Whether these, in increasing order, are all numbers of a set, which is emptied.
fn are_all(set: &mut NumberSet, numbers: &[u16]) -> bool {
    for number in numbers {
        if set.next(0) != Some(*number) {
            return false;
        }
        set.remove(*number);
    }
    set.is_empty()
}

/// Whether these, in increasing order, are the members of a group.
fn has_these(set: &mut NumberSet, members: &Members, group: u16, numbers: &[u16]) -> bool {
    set.clear();
    members.add_to(group, set);
    are_all(set, numbers)
}

/// Whether what is told of three groups is that of four members, of one and of none.
fn are_told(members: &Members) -> bool {
    members.has_more_than(GROUP, 3)
        && !members.has_more_than(GROUP, 4)
        && !members.is_only(GROUP, 4)
        && !members.is_empty_group(GROUP)
        && members.is_only(OTHER, 65_535)
        && !members.is_empty_group(OTHER)
        && members.is_empty_group(0)
}

/// Whether these are the members of the three groups.
fn are_in(set: &mut NumberSet, members: &Members) -> bool {
    has_these(set, members, GROUP, &[1, 2, 3, 4])
        && has_these(set, members, OTHER, &[65_535])
        && has_these(set, members, 0, &[])
}

/// Whether what is told of them, and who they are, is that of these members.
fn are_there(alloc: Global, members: &Members) -> bool {
    match NumberSet::new(alloc) {
        Ok(mut set) => are_told(members) && are_in(&mut set, members),
        Err(_) => false,
    }
}

/// Whether it is of those who were put in.
fn were_put_in(alloc: Global) -> bool {
    match five(alloc) {
        Ok(members) => are_there(alloc, &members),
        Err(_) => false,
    }
}

#[test]
fn a_group_has_who_was_put_in(rt: HostRuntime) {
    assert!(rt; were_put_in(rt.alloc()));
}

/// Takes out the third that was put in, then the last, then the first; whether each time the others
/// stay, and the other group keeps its member.
fn are_taken_out(set: &mut NumberSet, members: &mut Members) -> bool
    requires { (n : ℕ) → 0 < n → n ≤ 4 → is_member members.old 7 n ≡ true }
{
    members.remove(GROUP, 3);
    let middle = has_these(set, members, GROUP, &[1, 2, 4]);
    members.remove(GROUP, 4);
    let last = has_these(set, members, GROUP, &[1, 2]);
    members.remove(GROUP, 1);
    middle
        && last
        && has_these(set, members, GROUP, &[2])
        && members.is_only(GROUP, 2)
        && has_these(set, members, OTHER, &[65_535])
}

/// Whether all of this is so of the five.
fn were_taken_out(alloc: Global) -> bool {
    match (NumberSet::new(alloc), five(alloc)) {
        (Ok(mut set), Ok(mut members)) => are_taken_out(&mut set, &mut members),
        _ => false,
    }
}

#[test]
fn a_group_has_not_who_was_taken_out(rt: HostRuntime) {
    assert!(rt; were_taken_out(rt.alloc()));
}

/// Whether a copy changes alone.
fn is_apart(set: &mut NumberSet, members: &Members, copied: &mut Members) -> bool
    requires { is_member copied.old 7 2 ≡ true }
{
    let same = are_in(set, copied);
    copied.remove(GROUP, 2);
    same && are_in(set, members) && has_these(set, copied, GROUP, &[1, 3, 4])
}

/// Whether the copy of these members does.
fn is_copied(alloc: Global, set: &mut NumberSet, members: &Members) -> bool
    requires { is_member members.now 7 2 ≡ true }
{
    match members.copy(alloc) {
        Ok(mut copied) => is_apart(set, members, &mut copied),
        Err(_) => false,
    }
}

/// Whether the copy of the five does.
fn is_copied_of_five(alloc: Global) -> bool {
    match (NumberSet::new(alloc), five(alloc)) {
        (Ok(mut set), Ok(members)) => is_copied(alloc, &mut set, &members),
        _ => false,
    }
}

#[test]
fn members_are_copied(rt: HostRuntime) {
    assert!(rt; is_copied_of_five(rt.alloc()));
}

/// A copy of these members. Where an allocation fails there is none, and the same call makes it.
fn copy_again(alloc: Global, members: &Members) -> Result<Members, AllocError> {
    match members.copy(alloc) {
        Err(_) => members.copy(alloc),
        answer => answer,
    }
}

/// Whether these members and their copy are those who were put in.
fn are_in_both(alloc: Global, set: &mut NumberSet, members: &Members) -> bool {
    match copy_again(alloc, members) {
        Ok(copied) => are_in(set, members) && are_in(set, &copied),
        Err(_) => false,
    }
}

/// No numbers. Where an allocation fails, the same call makes them.
fn no_numbers_again(alloc: Global) -> Result<NumberSet, AllocError> {
    match NumberSet::new(alloc) {
        Err(_) => NumberSet::new(alloc),
        answer => answer,
    }
}

/// The five. Where an allocation fails there are none, and the same call makes them.
fn five_again(alloc: Global) -> Result<Members, AllocError> {
    match five(alloc) {
        Err(_) => five(alloc),
        answer => answer,
    }
}

/// Whether the five and their copy are, told by a set that is made likewise.
fn are_all_made_again(alloc: Global) -> bool {
    match (no_numbers_again(alloc), five_again(alloc)) {
        (Ok(mut set), Ok(members)) => are_in_both(alloc, &mut set, &members),
        _ => false,
    }
}

/// For `scripts/refuse-memory`: after a failed allocation there are none, and the same call makes
/// them.
#[test]
fn members_are_made_again_after_a_failed_allocation(rt: HostRuntime) {
    assert!(rt; are_all_made_again(rt.alloc()));
}
