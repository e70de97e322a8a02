//! The bits of a word, and of a row of words.
ghost use Rattle.std.specs.Prelude.{◌≡◌, ◌≢◌, ℕ, ◌+◌, ◌*◌, ◌/◌, ◌<◌, ◌==◌, if◌then◌else◌, false, length, slice_index, true, IfOk, IfSome};
ghost use Rattle.lp_numbers.specs.Numbers.{IsLeastFrom, IsNextFrom};
ghost use Rattle.lp_numbers.specs.inside.Words.{row_has, word_has, IsBlank};

use std::alloc::{AllocError, Global};

/// As many words as are asked for, each of them 0.
pub(crate) fn blank(alloc: Global, count: usize) -> Result<Vec<u64>, AllocError>
    ensures blank { IfOk result (λ row. IsBlank row.items) }
    ensures count { IfOk result (λ row. length row.items ≡ count) }
{
    vec![in alloc; 0; count]
}

/// Whether a bit is 1.
pub(crate) fn has(row: &[u64], at: usize) -> bool
    requires { at < 64 * length row.now }
    ensures { result ≡ row_has row.now at }
{
    has_bit(row[at / 64], at % 64)
}

/// Makes one bit as it is asked for.
pub(crate) fn put(row: &mut [u64], at: usize, is_set: bool)
    requires { at < 64 * length row.old }
    ensures bits { (k : ℕ) → row_has row.new k ≡ (if k == at then is_set else row_has row.old k) }
    ensures others { (i : ℕ) → i ≢ at / 64 → slice_index row.new i ≡ slice_index row.old i }
{
    let place = at / 64;
    row[place] = with_bit(row[place], at % 64, is_set);
}

/// Whether a bit of a word is 1.
pub(crate) fn has_bit(word: u64, bit: usize) -> bool
    requires { bit < 64 }
    ensures { result ≡ word_has word bit }
{
    (word >> bit) & 1 == 1
}

/// The word with one bit as it is asked for.
pub(crate) fn with_bit(word: u64, bit: usize, is_set: bool) -> u64
    requires { bit < 64 }
    ensures { (k : ℕ) → word_has result k ≡ (if k == bit then is_set else word_has word k) }
{
    let mask = 1 << bit;
    if is_set { word | mask } else { word & !mask }
}

/// The word without one of its bits.
pub(crate) fn without_bit(word: u64, bit: usize) -> u64
    requires within { bit < 64 }
    requires has { word_has word bit ≡ true }
    ensures bits { (k : ℕ) → word_has result k ≡ (if k == bit then false else word_has word k) }
    ensures fewer { result < word }
{
    word & !(1 << bit)
}

/// The lowest bit of a word that isn't 0.
pub(crate) fn lowest_bit(word: u64) -> usize
    requires { 0 < word }
    ensures below { result < 64 }
    ensures lowest { IsLeastFrom (word_has word) 0 result }
{
    word.trailing_zeros() as usize
}

/// The lowest bit of a word that is at or above a place.
pub(crate) fn next_in_word(word: u64, from: usize) -> Option<usize>
    requires { from < 64 }
    ensures below { IfSome result (λ bit. bit < 64) }
    ensures next { IsNextFrom (word_has word) from result }
{
    let rest = word >> from;
    if rest == 0 {
        return None;
    }
    Some(from + lowest_bit(rest))
}

/// The lowest bit of a word that is above a place.
pub(crate) fn later_in_word(word: u64, bit: usize) -> Option<usize>
    requires { bit < 64 }
    ensures below { IfSome result (λ later. later < 64) }
    ensures next { IsNextFrom (word_has word) (bit + 1) result }
{
    // Two shifts, since there may be 64 places to go.
    let rest = word >> bit >> 1;
    if rest == 0 {
        return None;
    }
    Some(bit + 1 + lowest_bit(rest))
}
