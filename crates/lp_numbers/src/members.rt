//! The members of groups.
#![tactic(auto, using(crate::proofs::Links::links))]

ghost use Rattle.std.specs.Prelude.{◌≡◌, ℕ, ◌<◌, ◌&&◌, ◌||◌, false, true, length, [], nat_eq, not, slice_index, slice_index_or, slice_set, IsTrue, ◌↔◌, IfOk, IfSome, IfNone};
ghost use Rattle.lp_numbers.specs.Groups.{is_member};
ghost use Rattle.lp_numbers.specs.Numbers.{has};
ghost use Rattle.lp_numbers.specs.inside.Links.{among, list_from, AreNamed, IsLinked};

use crate::link_table::LinkTable;
use crate::set::NumberSet;
use std::alloc::{AllocError, Global};
use std::marker::Model;

/// Which 16-bit numbers are in which group, each in at most one: 0 is in none. Only `new` and `copy`
/// allocate.
///
/// A group's members are linked, so a look at them costs the members and nothing else, and a number
/// is put in and taken out in constant time.
///
/// Contracts see a list that says of each group which members it has.
pub struct Members {
    /// The first member of each group; 0 where it has none.
    first: LinkTable,
    /// The member after each member; 0 after the last. What stands at other numbers means nothing.
    next: LinkTable,
    /// The member before each member; 0 before the first. What stands at other numbers means nothing.
    before: LinkTable,
    /// The groups that have a member: a loop over them looks at no other.
    groups: NumberSet,
}

/// By hand, so that the proof of who owns one lets go of it in one step, not field by field.
impl Drop for Members {
    fn drop(self) {
        let Members {
            first: _,
            next: _,
            before: _,
            groups: _,
        } = self;
    }
}

impl Model for Members {
    ghost use Rattle.lp_numbers.specs.Groups.{Groups};
    ghost use Rattle.lp_numbers.specs.inside.Links.{groups_of, AreMembers};

    ghost Value = { Groups };

    ghost view = { λ m. groups_of m.first m.next };

    ghost invariant = { λ m. AreMembers m.first m.next m.before m.groups };
}

impl Members {
    /// No number is in any group; an `Err` only where an allocation failed.
    pub fn new(alloc: Global) -> Result<Members, AllocError>
        ensures { IfOk result (λ members. (group n : ℕ) → is_member members group n ≡ false) }
    {
        Ok(Members {
            first: LinkTable::new(alloc)?,
            next: LinkTable::new(alloc)?,
            before: LinkTable::new(alloc)?,
            groups: NumberSet::new(alloc)?,
        })
    }

    /// A copy; an `Err` only where an allocation failed.
    pub fn copy(&self, alloc: Global) -> Result<Members, AllocError>
        ensures { IfOk result (λ copied. copied ≡ self.now) }
    {
        Ok(Members {
            first: self.first.copy(alloc)?,
            next: self.next.copy(alloc)?,
            before: self.before.copy(alloc)?,
            groups: self.groups.copy(alloc)?,
        })
    }

    /// Whether a group has no member, in constant time.
    pub fn is_empty_group(&self, group: u16) -> bool
        ensures { IsTrue result ↔ ((n : ℕ) → is_member self.now group n ≡ false) }
    {
        self.first.get(group) == 0
    }

    /// The groups that have a member.
    pub fn groups(&self) -> &NumberSet
        ensures some { (group : ℕ) → has result.now group ≡ true → (n : ℕ) × (is_member self.now group n ≡ true) }
        ensures none { (group : ℕ) → has result.now group ≡ false → (n : ℕ) → is_member self.now group n ≡ false }
        ensures few { (group : ℕ) → has result.now group ≡ true → group < 65536 }
    {
        // For the proof alone, which knows what every value keeps once a field is read.
        let _ = &self.first;
        &self.groups
    }

    /// A member of a group, in constant time; `None` where it has none.
    pub fn first(&self, group: u16) -> Option<u16>
        ensures some { IfSome result (λ n. is_member self.now group n ≡ true) }
        ensures none { IfNone result ((n : ℕ) → is_member self.now group n ≡ false) }
    {
        let first = self.first.get(group);
        if first == 0 {
            return None;
        }
        Some(first)
    }

    /// Whether a number is in a group and no other number is, in constant time.
    pub fn is_only(&self, group: u16, number: u16) -> bool
        ensures { IsTrue result ↔ ((n : ℕ) → is_member self.now group n ≡ nat_eq n number) }
    {
        if self.first.get(group) != number {
            return false;
        }
        if number == 0 {
            return false;
        }
        self.next.get(number) == 0
    }

    /// Whether a group has more members than a number says, at the cost of at most so many of them.
    pub fn has_more_than(&self, group: u16, most: usize) -> bool
        ensures { IsTrue result ↔ (most < length (slice_index_or self.now group [])) }
    {
        is_longer(&self.first, &self.next, &self.before, group, most)
    }

    /// Puts a number into a group, in constant time but for links that are written for the first time.
    pub fn insert(&mut self, group: u16, number: u16)
        requires positive { 0 < number }
        requires free { (other : ℕ) → is_member self.old other number ≡ false }
        ensures { (other n : ℕ) → is_member self.new other n ≡ (is_member self.old other n || (nat_eq other group && nat_eq n number)) }
    {
        let head = self.first.get(group);
        put_first(&mut self.first, &mut self.groups, group, number);
        self.next.put(number, head);
        self.before.put(number, 0);
        // Where there was no member, this is the place of no number.
        self.before.put(head, number);
    }

    /// Takes a number out of its group, in constant time.
    pub fn remove(&mut self, group: u16, number: u16)
        requires { is_member self.old group number ≡ true }
        ensures { (other n : ℕ) → is_member self.new other n ≡ (is_member self.old other n && not (nat_eq n number)) }
    {
        let before = self.before.get(number);
        let next = self.next.get(number);
        if before == 0 {
            put_first(&mut self.first, &mut self.groups, group, next);
        }
        // Where none is before or after it, these are the places of no number.
        self.next.put(before, next);
        self.before.put(next, before);
    }

    /// Adds the members of a group to a set, at the cost of these members.
    pub fn add_to(&self, group: u16, set: &mut NumberSet)
        ensures { (n : ℕ) → has set.new n ≡ (has set.old n || is_member self.now group n) }
    {
        add_list(&self.first, &self.next, &self.before, group, set);
    }
}

/// Makes a number the first member of a group; with 0 the group has none.
fn put_first(first: &mut LinkTable, groups: &mut NumberSet, group: u16, number: u16)
    requires count { length first.old ≡ 65536 }
    requires named { AreNamed first.old groups.old }
    ensures first { first.new ≡ slice_set first.old group number }
    ensures named { AreNamed first.new groups.new }
{
    first.put(group, number);
    groups.put(group, number != 0);
}

/// Adds the members of a group to a set.
fn add_list(
    first: &LinkTable,
    next: &LinkTable,
    before: &LinkTable,
    group: u16,
    set: &mut NumberSet,
)
    requires { IsLinked first.now next.now before.now }
    ensures { (n : ℕ) → has set.new n ≡ (has set.old n || among n (list_from next.now (slice_index first.now group))) }
{
    let _ = before;
    let mut at = first.get(group);
    while at != 0 {
        set.insert(at);
        at = next.get(at);
    }
}

/// Whether a group has more members than a number says.
fn is_longer(
    first: &LinkTable,
    next: &LinkTable,
    before: &LinkTable,
    group: u16,
    most: usize,
) -> bool
    requires { IsLinked first.now next.now before.now }
    ensures { IsTrue result ↔ (most < length (list_from next.now (slice_index first.now group))) }
{
    let _ = before;
    let mut at = first.get(group);
    let mut left = most;
    while at != 0 {
        if left == 0 {
            return true;
        }
        left -= 1;
        at = next.get(at);
    }
    false
}
