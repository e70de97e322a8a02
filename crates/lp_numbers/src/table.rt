//! A value of each number.
ghost use Rattle.std.specs.Prelude.{◌≡◌, ℕ, ◌<◌, ◌≤◌, [], if◌then◌else◌, length, nat_eq, slice_get, slice_index_or, vec_capacity, IfOk};

use crate::set::NUMBERS;
use std::alloc::{AllocError, Global};
use std::marker::Model;

/// A value of each 16-bit number that was given one. Only `new` allocates.
///
/// There is room for all numbers, but places are made only as far as the greatest that was given a value: memory that
/// nothing was written to costs nothing.
///
/// Contracts see the list of the places.
#[derive(Drop)]
pub struct NumberTable<T> {
    places: Vec<T>,
}

impl<T> Model for NumberTable<T> {
    ghost use Rattle.std.specs.Prelude.{List, length, vec_capacity};
    ghost use Rattle.lp_numbers.specs.inside.Tables.{HasPlaces};

    ghost Value = { List T };

    ghost view = { λ t. t.places.items };

    ghost invariant = { λ t. HasPlaces (length t.places.items) (vec_capacity t.places) };
}

impl<T: Copy> NumberTable<T> {
    /// No place; AllocError where an allocation failed.
    pub fn new(alloc: Global) -> Result<NumberTable<T>, AllocError>
        ensures { IfOk result (λ table. table ≡ []) }
    {
        Ok(NumberTable {
            places: Vec::with_capacity(alloc, NUMBERS)?,
        })
    }

    /// The value of a number; None where it has no place.
    #[inline(always)]
    pub fn get(&self, number: u16) -> Option<T>
        ensures value { result ≡ slice_get self.now number }
        ensures few { length self.now ≤ 65536 }
    {
        match self.places.get(usize::from(number)) {
            Some(value) => Some(*value),
            None => None,
        }
    }

    /// Gives a number a value. The numbers below it that have no place yet get a blank one.
    pub fn put(&mut self, number: u16, value: T, blank: T)
        ensures values { (n : ℕ) → slice_index_or self.new n blank ≡ (if nat_eq n number then value else slice_index_or self.old n blank) }
        ensures few { length self.new ≤ 65536 }
    {
        let at = usize::from(number);
        reach(&mut self.places, at, blank);
        self.places[at] = value;
    }
}

/// Makes the places up to this one, blank where they are new.
fn reach<T: Copy>(places: &mut Vec<T>, at: usize, blank: T)
    requires within { at < 65536 }
    requires room { 65536 ≤ vec_capacity places.old }
    requires few { length places.old.items ≤ 65536 }
    ensures same { (n : ℕ) → slice_index_or places.new.items n blank ≡ slice_index_or places.old.items n blank }
    ensures room { 65536 ≤ vec_capacity places.new }
    ensures few { length places.new.items ≤ 65536 }
    ensures reached { at < length places.new.items }
{
    while places.len() <= at {
        places.push_reserved(blank);
    }
}
