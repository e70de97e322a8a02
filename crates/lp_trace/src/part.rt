//! Short pieces of text that are put into a longer one again and again.
ghost use Rattle.std.specs.Prelude.{◌≡◌, ◌≤◌, ◌+◌, ◌∷◌, ◌++◌, [], decimal, length, take};

use crate::place::{place_bytes, place_id, place_number};
use std::marker::Model;

/// The room of a piece: four words of eight bytes, so that a copy is a few stores.
const PART: usize = 32;

/// A piece of text, with what stands in its room after it.
///
/// Contracts see its bytes.
#[derive(Drop)]
pub(crate) struct Part {
    text: [u8; PART],
    len: usize,
}

impl Model for Part {
    ghost use Rattle.std.specs.Prelude.{◌≤◌, ℕ, List, take};

    ghost Value = { List ℕ };

    ghost view = { λ p. take p.len p.text };

    ghost invariant = { λ p. p.len ≤ 32 };
}

impl Part {
    /// No text.
    pub(crate) fn none() -> Part
        ensures { result ≡ [] }
    {
        Part {
            text: [b' '; PART],
            len: 0,
        }
    }

    /// Turns to a line's beginning: a word and the numbers of a group and of a task, each with a space after it.
    #[inline(always)]
    pub(crate) fn set_ids(&mut self, word: &[u8; 4], group: u16, task: u16)
        ensures { self.new ≡ word.now ++ (32 ∷ decimal group ++ (32 ∷ decimal task ++ 32 ∷ [])) }
    {
        place_bytes(&mut self.text, 0, word);
        let middle = place_id(&mut self.text, 4, group);
        let end = place_id(&mut self.text, middle, task);
        self.text[end] = b' ';
        self.len = end + 1;
    }

    /// Puts the piece after the first `at` bytes, and gives where it ends.
    #[inline(always)]
    fn place(&self, text: &mut [u8], at: usize) -> usize
        requires { at + 32 ≤ length text.old }
        ensures placed { take result text.new ≡ take at text.old ++ self.now }
        ensures near { result ≤ at + 32 }
        ensures size { length text.new ≡ length text.old }
    {
        place_bytes(text, at, &self.text);
        at + self.len
    }
}

/// Puts a number and a line's end after a piece after the first `at` bytes, and gives where the line ends.
#[inline(always)]
pub(crate) fn place_after(text: &mut [u8], at: usize, before: &Part, number: u64) -> usize
    requires { at + 53 ≤ length text.old }
    ensures placed { take result text.new ≡ take at text.old ++ (before.now ++ (decimal number ++ 10 ∷ [])) }
    ensures within { result ≤ length text.new }
    ensures size { length text.new ≡ length text.old }
{
    let start = before.place(text, at);
    let end = place_number(text, start, number);
    text[end] = b'\n';
    end + 1
}
