//! Text that is held in a room of a fixed size.
ghost use Rattle.std.specs.Prelude.{◌≡◌, ◌≤◌, ◌+◌, ◌*◌, ◌∷◌, ◌++◌, [], codes, decimal, length, map, take, IsTrue, IsFalse, IfOk};
ghost use Rattle.std.specs.List.{flat_map};
ghost use Rattle.lp_definitions.specs.Events.{group_numbers};
ghost use Rattle.lp_text.specs.inside.Writing.{line_rest};

use crate::part::{Part, place_after};
use crate::place::{
    Counter, SHORT, place_bytes, place_groups, place_number, place_numbers, place_slice,
};
use lp_stack::GroupId;
use std::alloc::{AllocError, Global};
use std::marker::Model;

/// How many bytes there is room for.
const ROOM: usize = 65_536;

/// How many bytes are few: to copy more of them costs more than to write them as they are.
const PIECE: usize = 16_384;

/// Room for any line that isn't of groups: the longest is a short word with six numbers.
pub(crate) const LINE: usize = 160;

/// Bytes that are held. No call but `new` allocates.
///
/// The room is filled from the start, and what is held is its first bytes. So a line is written where it stays, and counted
/// when its length is known: a list would be made longer by as much as the line may need, and cut afterwards.
///
/// Contracts see the bytes.
#[derive(Drop)]
pub(crate) struct Held {
    room: Vec<u8>,
    len: usize,
}

impl Model for Held {
    ghost use Rattle.std.specs.Prelude.{take};
    ghost use Rattle.lp_trace.specs.inside.Held.{HeldText, IsHeld};

    ghost Value = { HeldText };

    ghost view = { λ h. record { items = take h.len h.room.items } };

    ghost invariant = { λ h. IsHeld h.room.items h.len };
}

impl Held {
    /// No byte; AllocError where an allocation failed.
    pub(crate) fn new(alloc: Global) -> Result<Held, AllocError>
        ensures { IfOk result (λ held. held.items ≡ []) }
    {
        let mut room = Vec::with_capacity(alloc, ROOM)?;
        room.resize(ROOM, b'\n')?;
        Ok(Held { room, len: 0 })
    }

    /// The bytes.
    pub(crate) fn as_slice(&self) -> &[u8]
        ensures { result.now ≡ self.now.items }
    {
        &self.room.as_slice()[..self.len]
    }

    /// How many there are.
    pub(crate) fn len(&self) -> usize
        ensures { result ≡ length self.now.items }
    {
        self.len
    }

    /// Holds the first bytes alone, so many.
    pub(crate) fn truncate(&mut self, len: usize)
        ensures { self.new.items ≡ take len self.old.items }
    {
        if len >= self.len {
            return;
        }
        self.len = len;
    }

    /// Holds no byte.
    pub(crate) fn clear(&mut self)
        ensures { self.new.items ≡ [] }
    {
        self.len = 0;
    }

    /// Takes bytes if they are few and there is room for them, and says whether it did.
    #[inline(always)]
    pub(crate) fn hold(&mut self, bytes: &[u8]) -> bool
        ensures taken { IsTrue result → self.new.items ≡ self.old.items ++ bytes.now }
        ensures kept { IsFalse result → self.new.items ≡ self.old.items }
    {
        if bytes.len() > PIECE.min(ROOM - self.len) {
            return false;
        }
        let end = place_slice(self.room.as_mut_slice(), self.len, bytes);
        self.len = end;
        true
    }

    /// Takes a number and a short text, of which so many bytes are wanted, if there is room for a line, and says whether it did.
    ///
    /// Nearly every line is taken so or as the functions below take theirs, and the answer is a bit: a fault has room for an
    /// error, which would be cleared for each line, and moved.
    #[inline(always)]
    pub(crate) fn hold_short(&mut self, number: &Counter, rest: &[u8; SHORT], len: usize) -> bool
        requires { len ≤ 16 }
        ensures taken { IsTrue result → self.new.items ≡ self.old.items ++ (decimal number.now ++ take len rest.now) }
        ensures kept { IsFalse result → self.new.items ≡ self.old.items }
    {
        if self.len > ROOM - LINE {
            return false;
        }
        let end = number.place(self.room.as_mut_slice(), self.len, rest, len);
        self.len = end;
        true
    }

    /// Takes the line of an event at which these groups switched, with so many bytes of a short text as its end, if there is
    /// room for the longest, and says whether it did.
    #[inline(always)]
    pub(crate) fn hold_switched(
        &mut self,
        number: &Counter,
        groups: &[GroupId],
        end: &[u8; SHORT],
        len: usize,
    ) -> bool
        requires { len ≤ 16 }
        ensures taken { IsTrue result → self.new.items ≡ self.old.items ++ (decimal number.now ++ (codes " over" ++ (flat_map (λ group. 32 ∷ decimal group) (group_numbers groups.now) ++ take len end.now))) }
        ensures kept { IsFalse result → self.new.items ≡ self.old.items }
    {
        if self.len > ROOM - LINE || groups.len() > (ROOM - LINE - self.len) / 8 {
            return false;
        }
        let line_end = place_switched(self.room.as_mut_slice(), self.len, number, groups, end, len);
        self.len = line_end;
        true
    }

    /// Takes a line of a word, which is a short text and so long, and at most six numbers, if there is room for a line, and
    /// says whether it did.
    #[inline(always)]
    pub(crate) fn hold_numbers(&mut self, word: &[u8; SHORT], len: usize, numbers: &[u64]) -> bool
        requires short { len ≤ 16 }
        requires few { length numbers.now ≤ 6 }
        ensures taken { IsTrue result → self.new.items ≡ self.old.items ++ (take len word.now ++ line_rest (map decimal numbers.now)) }
        ensures kept { IsFalse result → self.new.items ≡ self.old.items }
    {
        if self.len > ROOM - LINE {
            return false;
        }
        let end = place_numbers(self.room.as_mut_slice(), self.len, word, len, numbers);
        self.len = end;
        true
    }

    /// Takes the line of the end of a leg: the number of the event that opened it, so many bytes of a short text, and another
    /// number, if there is room for a line, and says whether it did.
    #[inline(always)]
    pub(crate) fn hold_end(
        &mut self,
        opened: &Counter,
        between: &[u8; SHORT],
        len: usize,
        last: u64,
    ) -> bool
        requires { len ≤ 16 }
        ensures taken { IsTrue result → self.new.items ≡ self.old.items ++ (codes "leg " ++ (decimal opened.now ++ (take len between.now ++ (decimal last ++ 10 ∷ [])))) }
        ensures kept { IsFalse result → self.new.items ≡ self.old.items }
    {
        if self.len > ROOM - LINE {
            return false;
        }
        let end = place_end(
            self.room.as_mut_slice(),
            self.len,
            opened,
            between,
            len,
            last,
        );
        self.len = end;
        true
    }

    /// Takes the first line of a certificate, of a word, which is a short text and so long, and these numbers, if there is room
    /// for a line, and says whether it did.
    #[inline(always)]
    pub(crate) fn hold_claim(
        &mut self,
        word: &[u8; SHORT],
        len: usize,
        leg: &Counter,
        group: GroupId,
        upto: &Counter,
    ) -> bool
        requires { len ≤ 16 }
        ensures taken { IsTrue result → self.new.items ≡ self.old.items ++ (take len word.now ++ line_rest (map decimal (leg.now ∷ group.0 ∷ upto.now ∷ []))) }
        ensures kept { IsFalse result → self.new.items ≡ self.old.items }
    {
        if self.len > ROOM - LINE {
            return false;
        }
        let end = place_claim(
            self.room.as_mut_slice(),
            self.len,
            word,
            len,
            leg,
            group,
            upto,
        );
        self.len = end;
        true
    }

    /// Takes a number and a line's end after a piece, if there is room for a line, and says whether it did.
    #[inline(always)]
    pub(crate) fn hold_after(&mut self, before: &Part, number: u64) -> bool
        ensures taken { IsTrue result → self.new.items ≡ self.old.items ++ (before.now ++ (decimal number ++ 10 ∷ [])) }
        ensures kept { IsFalse result → self.new.items ≡ self.old.items }
    {
        if self.len > ROOM - LINE {
            return false;
        }
        let end = place_after(self.room.as_mut_slice(), self.len, before, number);
        self.len = end;
        true
    }
}

/// Puts the line of an event at which these groups switched after the first `at` bytes, with so many bytes of a short text as
/// its end. Gives where the line ends.
#[inline(always)]
fn place_switched(
    text: &mut [u8],
    at: usize,
    number: &Counter,
    groups: &[GroupId],
    end: &[u8; SHORT],
    len: usize,
) -> usize
    requires room { at + 6 * length groups.now + 60 ≤ length text.old }
    requires short { len ≤ 16 }
    ensures placed { take result text.new ≡ take at text.old ++ (decimal number.now ++ (codes " over" ++ (flat_map (λ group. 32 ∷ decimal group) (group_numbers groups.now) ++ take len end.now))) }
    ensures within { result ≤ length text.new }
    ensures size { length text.new ≡ length text.old }
{
    let first = number.place(text, at, b" over...........", 5);
    let last = place_groups(text, first, groups);
    place_bytes(text, last, end);
    last + len
}

/// Puts the line of the end of a leg after the first `at` bytes, and gives where the line ends.
#[inline(always)]
fn place_end(
    text: &mut [u8],
    at: usize,
    opened: &Counter,
    between: &[u8; SHORT],
    len: usize,
    last: u64,
) -> usize
    requires room { at + 80 ≤ length text.old }
    requires short { len ≤ 16 }
    ensures placed { take result text.new ≡ take at text.old ++ (codes "leg " ++ (decimal opened.now ++ (take len between.now ++ (decimal last ++ 10 ∷ [])))) }
    ensures within { result ≤ length text.new }
    ensures size { length text.new ≡ length text.old }
{
    place_bytes(text, at, b"leg ");
    let start = opened.place(text, at + 4, between, len);
    let end = place_number(text, start, last);
    text[end] = b'\n';
    end + 1
}

/// Puts the first line of a certificate after the first `at` bytes, and gives where the line ends.
#[inline(always)]
fn place_claim(
    text: &mut [u8],
    at: usize,
    word: &[u8; SHORT],
    len: usize,
    leg: &Counter,
    group: GroupId,
    upto: &Counter,
) -> usize
    requires room { at + 120 ≤ length text.old }
    requires short { len ≤ 16 }
    ensures placed { take result text.new ≡ take at text.old ++ (take len word.now ++ line_rest (map decimal (leg.now ∷ group.0 ∷ upto.now ∷ []))) }
    ensures within { result ≤ length text.new }
    ensures size { length text.new ≡ length text.old }
{
    place_bytes(text, at, word);
    text[at + len] = b' ';
    let first = leg.place(text, at + len + 1, b" ...............", 1);
    let middle = place_number(text, first, u64::from(group.0));
    text[middle] = b' ';
    upto.place(text, middle + 1, b"\n...............", 1)
}
