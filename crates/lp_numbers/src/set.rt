//! The set.
#![tactic(auto, using(crate::proofs::Sets::sets))]

ghost use Rattle.std.specs.Prelude.{◌≡◌, ℕ, ◌<◌, true, false, not, if◌then◌else◌, length, slice_set, IsTrue, ◌↔◌, IfOk};
ghost use Rattle.lp_numbers.specs.Numbers.{has, IsEmpty, IsNextFrom};

use crate::levels::{self, SUMMARIES, WORDS};
use crate::row;
use std::alloc::{AllocError, Global};
use std::marker::Model;

/// How many numbers there are: 0 to 65,535.
pub const NUMBERS: usize = 65_536;

/// A set of 16-bit numbers, such as task numbers. Only `new` and `copy` allocate.
///
/// A loop over the members, `for number in &set`, takes them in increasing order and costs what the
/// members cost.
///
/// Contracts see a list that says of each number whether it is a member.
pub struct NumberSet {
    /// Bit n % 64 of word n / 64 says whether n is a member.
    words: Vec<u64>,
    /// Bit i % 64 of word i / 64 says whether word i isn't 0.
    summary: Vec<u64>,
    /// Bit i says whether word i of the summary isn't 0.
    top: u64,
}

/// By hand, so that the proof of who owns one lets go of it in one step, not field by field.
impl Drop for NumberSet {
    fn drop(self) {
        let NumberSet {
            words: _,
            summary: _,
            top: _,
        } = self;
    }
}

impl Model for NumberSet {
    ghost use Rattle.lp_numbers.specs.Numbers.{Numbers};
    ghost use Rattle.lp_numbers.specs.inside.Words.{numbers_of, IsThreeLevel};

    ghost Value = { Numbers };

    ghost view = { λ s. numbers_of s.words.items };

    ghost invariant = { λ s. IsThreeLevel s.words.items s.summary.items s.top };
}

impl NumberSet {
    /// The empty set; an `Err` only where an allocation failed.
    pub fn new(alloc: Global) -> Result<NumberSet, AllocError>
        ensures empty { IfOk result (λ set. IsEmpty set) }
        ensures numbers { IfOk result (λ set. length set ≡ 65536) }
    {
        Ok(NumberSet {
            words: row::blank(alloc, WORDS)?,
            summary: row::blank(alloc, SUMMARIES)?,
            top: 0,
        })
    }

    /// A copy of the set; an `Err` only where an allocation failed.
    pub fn copy(&self, alloc: Global) -> Result<NumberSet, AllocError>
        ensures same { IfOk result (λ copied. copied ≡ self.now) }
        ensures numbers { length self.now ≡ 65536 }
    {
        Ok(NumberSet {
            words: Vec::from_slice(alloc, self.words.as_slice())?,
            summary: Vec::from_slice(alloc, self.summary.as_slice())?,
            top: self.top,
        })
    }

    /// Whether a number is a member, in constant time.
    pub fn contains(&self, number: u16) -> bool
        ensures member { result ≡ has self.now number }
        ensures numbers { length self.now ≡ 65536 }
    {
        row::has(self.words.as_slice(), usize::from(number))
    }

    /// Whether the set has no member, in constant time.
    pub fn is_empty(&self) -> bool
        ensures { IsTrue result ↔ IsEmpty self.now }
    {
        levels::is_blank(self.words.as_slice(), self.summary.as_slice(), self.top)
    }

    /// The least member that is at or above a number, in constant time; `None` where there is none.
    ///
    /// Reads at most two words of members, and three that say which words have any.
    pub fn next(&self, from: u16) -> Option<u16>
        ensures { IsNextFrom (has self.now) from result }
    {
        let at = usize::from(from);
        let number = levels::next(self.words.as_slice(), self.summary.as_slice(), self.top, at)?;
        Some(number as u16)
    }

    /// Makes a number a member, in constant time.
    pub fn insert(&mut self, number: u16)
        ensures after { self.new ≡ slice_set self.old number true }
        ensures numbers { length self.new ≡ 65536 }
    {
        self.put(number, true);
    }

    /// Makes a number no member, in constant time.
    pub fn remove(&mut self, number: u16)
        ensures after { self.new ≡ slice_set self.old number false }
        ensures numbers { length self.new ≡ 65536 }
    {
        self.put(number, false);
    }

    /// Takes every member out, at the cost of the members.
    pub fn clear(&mut self)
        ensures empty { IsEmpty self.new }
        ensures numbers { length self.new ≡ 65536 }
    {
        levels::clear(
            self.words.as_mut_slice(),
            self.summary.as_mut_slice(),
            self.top,
        );
        self.top = 0;
    }

    /// Makes the set equal to another, at the cost of the parts in which either has a member.
    pub fn copy_from(&mut self, other: &NumberSet)
        ensures same { self.new ≡ other.now }
        ensures numbers { length self.new ≡ 65536 }
    {
        levels::copy_blocks(
            self.words.as_mut_slice(),
            other.words.as_slice(),
            self.top | other.top,
        );
        self.summary.copy_from_slice(other.summary.as_slice());
        self.top = other.top;
    }

    /// Whether the set has the members of another, at the cost of the parts in which either has a member.
    pub fn is_same(&self, other: &NumberSet) -> bool
        ensures { IsTrue result ↔ ((n : ℕ) → has self.now n ≡ has other.now n) }
    {
        levels::are_same_blocks(
            self.words.as_slice(),
            other.words.as_slice(),
            other.top | self.top,
        )
    }

    /// Makes each member of another set a member where it was none, and no member where it was one, at the cost of the parts in
    /// which the other has a member.
    pub fn turn(&mut self, other: &NumberSet)
        ensures turned { (n : ℕ) → has self.new n ≡ (if has other.now n then not (has self.old n) else has self.old n) }
        ensures numbers { length self.new ≡ 65536 }
    {
        let top = levels::turn(
            self.words.as_mut_slice(),
            self.summary.as_mut_slice(),
            self.top,
            other.words.as_slice(),
            other.summary.as_slice(),
            other.top,
        );
        self.top = top;
    }

    /// Makes a number a member, or no member.
    pub(crate) fn put(&mut self, number: u16, is_member: bool)
        ensures after { self.new ≡ slice_set self.old number is_member }
        ensures numbers { length self.new ≡ 65536 }
    {
        let top = levels::put(
            self.words.as_mut_slice(),
            self.summary.as_mut_slice(),
            self.top,
            usize::from(number),
            is_member,
        );
        self.top = top;
    }
}
