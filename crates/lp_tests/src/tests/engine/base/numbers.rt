//! Sets of numbers through inserts, removals and walks.
use super::*;
use lp_numbers::NumberSet;

/// Members at the ends of words of 64 numbers, and at the ends of runs of 64 words.
const MEMBERS: [u16; 9] = [0, 1, 63, 64, 4_095, 4_096, 4_160, 65_472, 65_535];

/// Puts these numbers into a set.
fn insert(set: &mut NumberSet, numbers: &[u16]) {
    for number in numbers {
        set.insert(*number);
    }
}

/// From where a walk begins, and the member that it meets.
type Walk = (u16, Option<u16>);

/// Whether each of these walks ends there.
fn end_there(set: &NumberSet, walks: &[Walk]) -> bool {
    for (from, want) in walks {
        if set.next(*from) != *want {
            return false;
        }
    }
    true
}

/// Walks over all of `MEMBERS`.
const WALKS: [Walk; 11] = [
    (0, Some(0)),
    (1, Some(1)),
    (2, Some(63)),
    (63, Some(63)),
    (64, Some(64)),
    (65, Some(4_095)),
    (4_096, Some(4_096)),
    (4_097, Some(4_160)),
    (4_161, Some(65_472)),
    (65_473, Some(65_535)),
    (65_535, Some(65_535)),
];

/// Walks over 0 and 64.
const SHORT_WALKS: [Walk; 3] = [(64, Some(64)), (65, None), (65_535, None)];

/// Whether each of these walks over an empty set, with these numbers put in, ends there.
fn insert_and_end_there(set: &mut NumberSet, numbers: &[u16], walks: &[Walk]) -> bool {
    insert(set, numbers);
    end_there(set, walks)
}

/// Whether each does over a new set.
fn end_there_over(alloc: Global, numbers: &[u16], walks: &[Walk]) -> bool {
    match NumberSet::new(alloc) {
        Ok(mut set) => insert_and_end_there(&mut set, numbers, walks),
        Err(_) => false,
    }
}

#[test]
fn a_walk_meets_each_member_and_ends_past_the_last(rt: HostRuntime) {
    assert!(rt; end_there_over(rt.alloc(), &MEMBERS, &WALKS));
    assert!(rt; end_there_over(rt.alloc(), &[0, 64], &SHORT_WALKS));
}

/// Walks after 0, 64, 4,096 and 65,472 were removed.
const WALKS_PAST: [Walk; 4] = [
    (0, Some(1)),
    (64, Some(4_095)),
    (4_096, Some(4_160)),
    (4_161, Some(65_535)),
];

fn remove(set: &mut NumberSet, numbers: &[u16]) {
    for number in numbers {
        set.remove(*number);
    }
}

/// Whether these numbers of `MEMBERS`, put into an empty set, are passed over once they are removed.
fn are_passed_over(set: &mut NumberSet) -> bool {
    insert(set, &MEMBERS);
    remove(set, &[0, 64, 4_096, 65_472, 5]);
    end_there(set, &WALKS_PAST) && !set.contains(64) && set.contains(63)
}

/// Whether they are in a new set.
fn are_passed_over_in_members(alloc: Global) -> bool {
    match NumberSet::new(alloc) {
        Ok(mut set) => are_passed_over(&mut set),
        Err(_) => false,
    }
}

#[test]
fn what_is_removed_is_passed_over(rt: HostRuntime) {
    assert!(rt; are_passed_over_in_members(rt.alloc()));
}

/// Whether an empty set is empty, but where it has a member.
fn is_empty_without_members(set: &mut NumberSet) -> bool {
    let new = set.is_empty();
    set.insert(65_535);
    let inserted = set.is_empty();
    set.remove(65_535);
    let removed = set.is_empty();
    set.insert(7);
    set.clear();
    new && !inserted && removed && set.is_empty() && set.next(0) == None
}

/// Whether a new set is.
fn is_empty_at_first(alloc: Global) -> bool {
    match NumberSet::new(alloc) {
        Ok(mut set) => is_empty_without_members(&mut set),
        Err(_) => false,
    }
}

#[test]
fn a_set_is_empty_until_it_has_a_member(rt: HostRuntime) {
    assert!(rt; is_empty_at_first(rt.alloc()));
}

/// Whether a copy changes alone, and is then made anew.
fn is_apart(set: &NumberSet, copied: &mut NumberSet) -> bool {
    copied.remove(64);
    let apart = copied.next(4) == Some(128) && set.next(4) == Some(64);
    copied.copy_from(set);
    apart && copied.next(4) == Some(64)
}

/// Whether a copy of an empty set, with three numbers put in, is one of its own.
fn is_copied(alloc: Global, set: &mut NumberSet) -> bool {
    insert(set, &[3, 64, 128]);
    match set.copy(alloc) {
        Ok(mut copied) => is_apart(set, &mut copied),
        Err(_) => false,
    }
}

/// Whether the copy of a new set is.
fn is_copied_of_three(alloc: Global) -> bool {
    match NumberSet::new(alloc) {
        Ok(mut set) => is_copied(alloc, &mut set),
        Err(_) => false,
    }
}

#[test]
fn sets_are_copied(rt: HostRuntime) {
    assert!(rt; is_copied_of_three(rt.alloc()));
}
