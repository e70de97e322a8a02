//! The members of a set, one after the other.
#![tactic(auto, using(crate::proofs::Ascents::ascents))]

ghost use Rattle.std.specs.Prelude.{◌≡◌};
ghost use Rattle.lp_numbers.specs.Ascending.{members_from};

use crate::set::{NUMBERS, NumberSet};
use std::marker::Model;

/// The members of a set that are left to go over, in increasing order, each in constant time.
///
/// Contracts see the list of these members.
#[derive(Drop)]
pub struct Ascending<'a> {
    set: &'a NumberSet,
    /// Members below this number were given.
    from: usize,
}

impl<'a> Model for Ascending<'a> {
    ghost use Rattle.std.specs.Prelude.{List, ℕ};
    ghost use Rattle.lp_numbers.specs.Ascending.{members_from};

    ghost Value = { List ℕ };

    ghost view = { λ a. members_from a.from a.set.now };
}

impl<'a> Iterator for Ascending<'a> {
    ghost use Rattle.std.specs.Prelude.{length};
    ghost use Rattle.std.specs.Iterator.{YieldsFirst, item_count};

    type Item = u16;

    ghost next_gives = { YieldsFirst (λ left. left) };

    ghost remaining = { item_count (λ left. left) };

    #[inline]
    fn next(&mut self) -> Option<u16> {
        if self.from >= NUMBERS {
            return None;
        }
        let number = self.set.next(self.from as u16)?;
        self.from = usize::from(number) + 1;
        Some(number)
    }
}

impl NumberSet {
    /// The members in increasing order. Never allocates.
    #[inline]
    pub fn iter(&self) -> Ascending<'_>
        ensures { result ≡ members_from 0 self.now }
    {
        Ascending { set: self, from: 0 }
    }
}

impl<'a> IntoIterator for &'a NumberSet {
    type Item = u16;

    type IntoIter = Ascending<'a>;

    ghost into_iter_gives = { λ set left. left ≡ members_from 0 set.now };

    #[inline]
    fn into_iter(self) -> Ascending<'a> {
        self.iter()
    }
}
