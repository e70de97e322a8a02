//! Lists of reasons that share their older parts.
ghost use Rattle.std.specs.Prelude.{◌≡◌, ◌+◌, ◌<◌, ◌≤◌, [], ◌∷◌, ◌++◌, Some, drop, length, slice_get, slice_index_or, IfNone, IfOk, IfSome, OnOk};
ghost use Rattle.lp_cert.specs.inside.Chains.{IsEmptyAt, IsEntryAt, IsLineCount, IsTail, line_count};
ghost use Rattle.lp_cert.specs.inside.Parts.{AreWithout};

use crate::reason::Reason;
use lp_definitions::Line;
use std::alloc::{AllocError, Global};
use std::marker::Model;

/// How many lists are found by one search.
pub(crate) const RUN: usize = 16;

/// The greatest number in an entry.
const MOST: usize = u32::MAX as usize;

/// One of the lists.
#[derive(Clone, Copy, Default)]
pub(crate) struct ChainId(pub(crate) u32);

/// A reason in front of a list.
#[derive(Clone, Copy)]
pub(crate) struct Entry {
    pub(crate) reason: Reason,
    pub(crate) older: ChainId,
    /// How many reasons there are with this one.
    pub(crate) count: u32,
    /// How many lines these have, or the greatest number where they have more.
    pub(crate) lines: u32,
    /// The older list or one further back. Without such jumps each step to the oldest reasons of a
    /// long list would follow all of its links.
    pub(crate) jump: ChainId,
}

/// Lists of reasons, the newest in front: the empty one, and others that are each an earlier one
/// with a reason more in front. A list takes the memory of that one reason.
///
/// Contracts see the lists, and how many more there is room for.
#[derive(Drop)]
pub(crate) struct Chains {
    entries: Vec<Entry>,
    /// Whether one of the reasons is a birth: else no two groups have a reason in common.
    has_births: bool,
}

impl Model for Chains {
    ghost use Rattle.std.specs.Prelude.{◌-◌, [], ◌∷◌, min, vec_len, vec_capacity};
    ghost use Rattle.lp_cert.specs.inside.Chains.{Lists, lists_of, AreLinked};

    ghost Value = { Lists };

    ghost view = { λ c. record { lists = lists_of c.entries.items; room = min (vec_capacity c.entries) 4294967295 - vec_len c.entries } };

    ghost invariant = { λ c. AreLinked ([] ∷ []) c.entries.items };
}

impl Chains {
    /// The empty list alone. Never allocates.
    pub(crate) fn new(alloc: Global) -> Chains
        ensures { result.lists ≡ [] ∷ [] }
    {
        Chains {
            entries: Vec::new(alloc),
            has_births: false,
        }
    }

    /// Takes every list out but the empty one. Never allocates.
    pub(crate) fn clear(&mut self)
        ensures { self.new.lists ≡ [] ∷ [] }
    {
        self.entries.clear();
        self.has_births = false;
    }

    /// Makes room for so many more lists; AllocError where an allocation failed or there would be too many to be told.
    pub(crate) fn reserve(&mut self, more: usize) -> Result<(), AllocError>
        ensures lists { self.new.lists ≡ self.old.lists }
        ensures room { OnOk result (more ≤ self.new.room) }
        ensures kept { self.old.room ≤ self.new.room }
    {
        if more > MOST.saturating_sub(self.entries.len()) {
            return Err(AllocError);
        }
        self.entries.reserve(more)
    }

    /// A copy of the lists; AllocError where an allocation failed.
    pub(crate) fn copy(&self, alloc: Global) -> Result<Chains, AllocError>
        ensures { IfOk result (λ copied. copied.lists ≡ self.now.lists) }
    {
        Ok(Chains {
            entries: Vec::from_slice(alloc, self.entries.as_slice())?,
            has_births: self.has_births,
        })
    }

    /// A list with one reason more in front, for which there is room. Never allocates.
    #[inline(always)]
    pub(crate) fn push(&mut self, reason: Reason, older: ChainId) -> ChainId
        requires known { older.0 < length self.old.lists }
        requires room { 0 < self.old.room }
        ensures lists { self.new.lists ≡ self.old.lists ++ (reason ∷ slice_index_or self.old.lists older.0 []) ∷ [] }
        ensures id { result.0 ≡ length self.old.lists }
        ensures room { self.new.room + 1 ≡ self.old.room }
    {
        let count = self.count(older) + 1;
        let lines = self.lines(older).saturating_add(reason.lines());
        let jump = self.jump_after(older);
        self.has_births |= matches!(reason, Reason::One(Line::Born { .. }));
        self.entries.push_reserved(Entry {
            reason,
            older,
            count: count as u32,
            lines: lines.min(MOST) as u32,
            jump,
        });
        ChainId(self.entries.len() as u32)
    }

    /// The empty list.
    #[inline(always)]
    pub(crate) fn none(&self) -> ChainId
        ensures known { result.0 < length self.now.lists }
        ensures list { slice_index_or self.now.lists result.0 [] ≡ [] }
    {
        // For the proof alone, which knows what every value keeps once a field is read.
        let _ = &self.entries;
        ChainId(0)
    }

    /// The entry of a list; the empty one has none.
    #[inline(always)]
    fn entry(&self, id: ChainId) -> Option<&Entry>
        requires { id.0 < length self.now.lists }
        ensures none { IfNone result (IsEmptyAt self.now.lists id.0) }
        ensures some { IfSome result (λ entry. IsEntryAt self.now.lists id.0 entry.now) }
    {
        let entries = &self.entries;
        if id.0 == 0 {
            return None;
        }
        Some(&entries[id.0 as usize - 1])
    }

    /// How many reasons a list has.
    pub(crate) fn count(&self, id: ChainId) -> usize
        requires { id.0 < length self.now.lists }
        ensures all { result ≡ length (slice_index_or self.now.lists id.0 []) }
        ensures few { result ≤ id.0 }
    {
        match self.entry(id) {
            None => 0,
            Some(entry) => entry.count as usize,
        }
    }

    /// How many lines the reasons of a list have, or the greatest number that an entry tells where they have more.
    #[inline(always)]
    pub(crate) fn lines(&self, id: ChainId) -> usize
        requires { id.0 < length self.now.lists }
        ensures all { IsLineCount (slice_index_or self.now.lists id.0 []) result }
        ensures none { id.0 ≡ 0 → result ≡ 0 }
    {
        match self.entry(id) {
            None => 0,
            Some(entry) => entry.lines as usize,
        }
    }

    /// How many of the lines of a list other groups may have too.
    #[inline(always)]
    pub(crate) fn lines_to_share(&self, id: ChainId) -> usize
        requires { id.0 < length self.now.lists }
        ensures { result ≤ line_count (slice_index_or self.now.lists id.0 []) }
    {
        if self.has_births { self.lines(id) } else { 0 }
    }

    /// The newest reason of a list that isn't empty.
    pub(crate) fn newest(&self, id: ChainId) -> Reason
        requires known { id.0 < length self.now.lists }
        requires some { 0 < length (slice_index_or self.now.lists id.0 []) }
        ensures { slice_get (slice_index_or self.now.lists id.0 []) 0 ≡ Some result }
    {
        let Some(entry) = self.entry(id) else {
            unreachable!()
        };
        entry.reason
    }

    /// A list without so many of its newest reasons, in some `log n` jumps where it has `n`.
    pub(crate) fn without(&self, id: ChainId, count: usize) -> ChainId
        requires known { id.0 < length self.now.lists }
        requires enough { count ≤ length (slice_index_or self.now.lists id.0 []) }
        ensures known { result.0 < length self.now.lists }
        ensures list { slice_index_or self.now.lists result.0 [] ≡ drop count (slice_index_or self.now.lists id.0 []) }
    {
        let kept = self.count(id) - count;
        let mut at = id;
        while self.count(at) > kept {
            at = self.further(at, kept);
        }
        at
    }

    /// The places of a list without so many of its newest reasons, without one more, and so on, before
    /// it is without another number of them: one search, and then a link each.
    pub(crate) fn run(&self, id: ChainId, first: usize, end: usize) -> [u32; RUN]
        requires known { id.0 < length self.now.lists }
        requires order { first ≤ end }
        requires few { end ≤ first + 16 }
        requires enough { end ≤ length (slice_index_or self.now.lists id.0 []) }
        ensures { AreWithout self.now.lists id.0 first end result }
    {
        let mut run = [0; RUN];
        let mut at = self.without(id, first);
        for place in 0..end - first {
            run[place] = at.0;
            at = self.older(at);
        }
        run
    }

    /// What two lists end with in common, but for its newest reasons where it has more lines than so many.
    pub(crate) fn shared(&self, first: ChainId, second: ChainId, most: usize) -> ChainId
        requires first { first.0 < length self.now.lists }
        requires second { second.0 < length self.now.lists }
        ensures known { result.0 < length self.now.lists }
        ensures first { IsTail (slice_index_or self.now.lists result.0 []) (slice_index_or self.now.lists first.0 []) }
        ensures second { IsTail (slice_index_or self.now.lists result.0 []) (slice_index_or self.now.lists second.0 []) }
        ensures few { line_count (slice_index_or self.now.lists result.0 []) ≤ most }
        ensures told { line_count (slice_index_or self.now.lists result.0 []) < 4294967295 }
    {
        let most = most.min(MOST - 1);
        let mut shared = self.common(first, second);
        while self.lines(shared) > most {
            shared = self.older(shared);
        }
        shared
    }

    /// What two lists end with in common. A list is made after those that it ends with: so the later one of two lists isn't
    /// part of the other.
    fn common(&self, first: ChainId, second: ChainId) -> ChainId
        requires first { first.0 < length self.now.lists }
        requires second { second.0 < length self.now.lists }
        ensures known { result.0 < length self.now.lists }
        ensures first { IsTail (slice_index_or self.now.lists result.0 []) (slice_index_or self.now.lists first.0 []) }
        ensures second { IsTail (slice_index_or self.now.lists result.0 []) (slice_index_or self.now.lists second.0 []) }
    {
        let (mut one, mut other) = (first, second);
        while one.0 != other.0 {
            if one.0 > other.0 {
                one = self.older(one);
            } else {
                other = self.older(other);
            }
        }
        one
    }

    /// A list without its newest reason; the empty one stays as it is.
    #[inline(always)]
    fn older(&self, id: ChainId) -> ChainId
        requires { id.0 < length self.now.lists }
        ensures before { 0 < id.0 → result.0 < id.0 }
        ensures known { result.0 < length self.now.lists }
        ensures list { slice_index_or self.now.lists result.0 [] ≡ drop 1 (slice_index_or self.now.lists id.0 []) }
    {
        match self.entry(id) {
            None => id,
            Some(entry) => entry.older,
        }
    }

    /// A list further back that still has so many reasons, as far as one link leads.
    #[inline(always)]
    fn further(&self, id: ChainId, kept: usize) -> ChainId
        requires known { id.0 < length self.now.lists }
        requires more { kept < length (slice_index_or self.now.lists id.0 []) }
        ensures before { result.0 < id.0 }
        ensures tail { IsTail (slice_index_or self.now.lists result.0 []) (slice_index_or self.now.lists id.0 []) }
        ensures enough { kept ≤ length (slice_index_or self.now.lists result.0 []) }
    {
        let Some(entry) = self.entry(id) else {
            unreachable!()
        };
        let Entry { older, jump, .. } = *entry;
        if self.count(jump) < kept { older } else { jump }
    }

    /// Where a list that has this one as its older part jumps to: as far again as the last two jumps
    /// from here where those are of one length, and here else.
    fn jump_after(&self, older: ChainId) -> ChainId
        requires { older.0 < length self.now.lists }
        ensures known { result.0 < length self.now.lists }
        ensures tail { IsTail (slice_index_or self.now.lists result.0 []) (slice_index_or self.now.lists older.0 []) }
    {
        let near = self.jump(older);
        let far = self.jump(near);
        if self.count(older) - self.count(near) == self.count(near) - self.count(far) {
            far
        } else {
            older
        }
    }

    /// Where a list jumps to; the empty one stays where it is.
    fn jump(&self, id: ChainId) -> ChainId
        requires { id.0 < length self.now.lists }
        ensures known { result.0 < length self.now.lists }
        ensures tail { IsTail (slice_index_or self.now.lists result.0 []) (slice_index_or self.now.lists id.0 []) }
    {
        match self.entry(id) {
            None => id,
            Some(entry) => entry.jump,
        }
    }
}
