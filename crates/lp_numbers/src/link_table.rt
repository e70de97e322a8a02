//! A link of each number.
#![tactic(auto, using(crate::proofs::LinkTables::link_tables))]

ghost use Rattle.std.specs.Prelude.{◌≡◌, ℕ, ◌<◌, ◌≤◌, length, slice_index, slice_set, vec_capacity, IfOk};
ghost use Rattle.lp_numbers.specs.inside.Links.{all_links};

use crate::set::NUMBERS;
use std::alloc::{AllocError, Global};
use std::marker::Model;

/// For each 16-bit number another one, or 0. Only `new` and `copy` allocate.
///
/// There is room for all, but links are written only as far as the greatest number that was given one:
/// memory that nothing was written to costs nothing.
///
/// Contracts see a list of all 65,536 links.
#[derive(Drop)]
pub(crate) struct LinkTable {
    links: Vec<u16>,
}

impl Model for LinkTable {
    ghost use Rattle.std.specs.Prelude.{ℕ, List, vec_capacity};
    ghost use Rattle.lp_numbers.specs.inside.Links.{all_links, HasLinks};

    ghost Value = { List ℕ };

    ghost view = { λ t. all_links t.links.items };

    ghost invariant = { λ t. HasLinks t.links.items (vec_capacity t.links) };
}

impl LinkTable {
    /// Each link is 0; an `Err` only where an allocation failed.
    pub(crate) fn new(alloc: Global) -> Result<LinkTable, AllocError>
        ensures zero { IfOk result (λ table. (n : ℕ) → slice_index table n ≡ 0) }
        ensures count { IfOk result (λ table. length table ≡ 65536) }
    {
        Ok(LinkTable {
            links: Vec::with_capacity(alloc, NUMBERS)?,
        })
    }

    /// A copy; an `Err` only where an allocation failed.
    pub(crate) fn copy(&self, alloc: Global) -> Result<LinkTable, AllocError>
        ensures { IfOk result (λ copied. copied ≡ self.now) }
    {
        let mut links = Vec::with_capacity(alloc, NUMBERS)?;
        for link in &self.links {
            links.push_reserved(*link);
        }
        Ok(LinkTable { links })
    }

    /// The link of a number.
    pub(crate) fn get(&self, number: u16) -> u16
        ensures link { result ≡ slice_index self.now number }
        ensures count { length self.now ≡ 65536 }
    {
        written(self.links.as_slice(), number)
    }

    /// Gives a number a link.
    pub(crate) fn put(&mut self, number: u16, link: u16)
        ensures links { self.new ≡ slice_set self.old number link }
        ensures count { length self.new ≡ 65536 }
    {
        let at = usize::from(number);
        reach(&mut self.links, at);
        self.links[at] = link;
    }
}

/// The link of a number, 0 where none is written.
fn written(links: &[u16], number: u16) -> u16
    ensures { result ≡ slice_index links.now number }
{
    match links.get(usize::from(number)) {
        Some(link) => *link,
        None => 0,
    }
}

/// Writes the links up to this one, 0 where they are new.
fn reach(links: &mut Vec<u16>, at: usize)
    requires within { at < 65536 }
    requires room { 65536 ≤ vec_capacity links.old }
    requires few { length links.old.items ≤ 65536 }
    ensures same { all_links links.new.items ≡ all_links links.old.items }
    ensures room { vec_capacity links.new ≡ vec_capacity links.old }
    ensures few { length links.new.items ≤ 65536 }
    ensures reached { at < length links.new.items }
{
    while links.len() <= at {
        links.push_reserved(0);
    }
}
