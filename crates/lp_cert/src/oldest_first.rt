//! The reasons of a group with the oldest first, without memory.
ghost use Rattle.std.specs.Prelude.{◌≡◌, ◌<◌, [], ◌++◌, length, option_to_list, slice_index_or, IfNone};
ghost use Rattle.lp_cert.specs.inside.Chains.{IsTail};
ghost use Rattle.lp_cert.specs.inside.Parts.{AreWithout, IsPart};

use crate::chains::{ChainId, Chains, RUN};
use crate::reason::Reason;
use std::marker::Model;

/// Places that are found already: of a list without so many of its newest reasons, without one
/// more, and so on.
#[derive(Clone, Copy)]
pub(crate) struct Found {
    /// How many reasons the list at the first place is without.
    pub(crate) first: usize,
    /// The places.
    pub(crate) places: [u32; RUN],
}

/// The reasons of a group that are left, of which the oldest comes next. No call allocates, and each
/// sixteenth follows some `log n` links of a list of `n` reasons.
///
/// A list leads from the newest reason to the oldest, and a certificate is written the other way. A
/// search for each line cost more than the line, and an array of all places costs a certificate with
/// no older reason too: so a search finds the next sixteen places by a link each.
///
/// Contracts see these reasons, the newest in front.
#[derive(Drop)]
pub(crate) struct OldestFirst<'a> {
    chains: &'a Chains,
    ongoing: Option<Reason>,
    list: ChainId,
    /// How many reasons of the list are left, its newest.
    left: usize,
    /// Where the oldest of those that are left begin.
    found: Found,
}

impl<'a> Model for OldestFirst<'a> {
    ghost use Rattle.std.specs.Prelude.{◌++◌, List, [], option_to_list, slice_index_or, take};
    ghost use Rattle.lp_cert.specs.declared.reason.Reason.{Reason};
    ghost use Rattle.lp_cert.specs.inside.Parts.{AreWithout, IsPart};

    ghost Value = { List Reason };

    ghost view = { λ o. option_to_list o.ongoing ++ take o.left (slice_index_or o.chains.now.lists o.list.0 []) };

    ghost invariant = { λ o. IsPart o.chains.now.lists o.list.0 o.left × AreWithout o.chains.now.lists o.list.0 o.found.first o.left o.found.places };
}

impl<'a> OldestFirst<'a> {
    /// The reasons of a list that another, which it ends with, hasn't, and the one in front of them that continues.
    #[inline(always)]
    pub(crate) fn after(
        chains: &'a Chains,
        list: ChainId,
        shared: ChainId,
        ongoing: Option<Reason>,
    ) -> OldestFirst<'a>
        requires known { list.0 < length chains.now.lists }
        requires shared { shared.0 < length chains.now.lists }
        requires tail { IsTail (slice_index_or chains.now.lists shared.0 []) (slice_index_or chains.now.lists list.0 []) }
        ensures { result ++ slice_index_or chains.now.lists shared.0 [] ≡ option_to_list ongoing ++ slice_index_or chains.now.lists list.0 [] }
    {
        let left = chains.count(list) - chains.count(shared);
        OldestFirst {
            chains,
            ongoing,
            list,
            left,
            found: Found {
                first: left,
                places: [0; RUN],
            },
        }
    }

    /// The oldest reason that is left, which is no longer left then.
    #[inline(always)]
    pub(crate) fn next(&mut self) -> Option<Reason>
        ensures reasons { self.old ≡ self.new ++ option_to_list result }
        ensures none { IfNone result (self.old ≡ []) }
    {
        if self.left == 0 {
            return self.ongoing.take();
        }
        find(self.chains, self.list, self.left, &mut self.found);
        self.left -= 1;
        let oldest = ChainId(self.found.places[self.left - self.found.first]);
        Some(self.chains.newest(oldest))
    }
}

/// Finds the oldest of so many reasons of a list, unless it is found already.
#[inline(always)]
fn find(chains: &Chains, list: ChainId, left: usize, found: &mut Found)
    requires some { 0 < left }
    requires part { IsPart chains.now.lists list.0 left }
    requires found { AreWithout chains.now.lists list.0 found.old.first left found.old.places }
    ensures some { found.new.first < left }
    ensures found { AreWithout chains.now.lists list.0 found.new.first left found.new.places }
{
    if found.first < left {
        return;
    }
    found.first = left.saturating_sub(RUN);
    found.places = chains.run(list, found.first, left);
}
