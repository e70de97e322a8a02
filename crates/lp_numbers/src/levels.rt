//! Words, a summary over them of which bit i says whether word i isn't 0, and one word over the
//! summary of which bit i says whether word i of the summary isn't 0.
ghost use Rattle.std.specs.Prelude.{◌≡◌, ◌≢◌, ℕ, ◌+◌, ◌*◌, ◌/◌, ◌%◌, ◌<◌, ◌≤◌, ◌==◌, if◌then◌else◌, length, false, not, slice_index, IsTrue, ◌↔◌};
ghost use Rattle.std.specs.Int.Bits.{bit_xor};
ghost use Rattle.lp_numbers.specs.Numbers.{IsNextFrom};
ghost use Rattle.lp_numbers.specs.inside.Words.{word_has, row_has, IsBlank, IsThreeLevel};

use crate::row::{later_in_word, lowest_bit, next_in_word, with_bit, without_bit};
use crate::{NUMBERS, row};

/// How many words there are, with 64 bits each.
pub(crate) const WORDS: usize = NUMBERS / 64;

/// How many words the summary has, with 64 bits each.
pub(crate) const SUMMARIES: usize = WORDS / 64;

/// Makes each word 0, at the cost of those that aren't. The word over the summary is 0 then too.
pub(crate) fn clear(words: &mut [u64], summary: &mut [u64], top: u64)
    requires { IsThreeLevel words.old summary.old top }
    ensures levels { IsThreeLevel words.new summary.new 0 }
    ensures blank { IsBlank words.new }
{
    let mut rest = top;
    while rest != 0 {
        rest = clear_lowest(words, summary, rest);
    }
}

/// Makes the words 0 that the lowest word of the summary names which isn't 0, and that word.
/// Gives the word over the summary.
fn clear_lowest(words: &mut [u64], summary: &mut [u64], top: u64) -> u64
    requires levels { IsThreeLevel words.old summary.old top }
    requires some { 0 < top }
    ensures levels { IsThreeLevel words.new summary.new result }
    ensures fewer { result < top }
{
    let place = lowest_bit(top);
    clear_named(words, place, summary[place]);
    summary[place] = 0;
    without_bit(top, place)
}

/// Makes those words 0 that a word of the summary names.
fn clear_named(words: &mut [u64], place: usize, named: u64)
    requires within { place * 64 + 64 ≤ length words.old }
    requires right { (i : ℕ) → i / 64 ≡ place → word_has named (i % 64) ≡ not (slice_index words.old i == 0) }
    ensures blank { (i : ℕ) → i / 64 ≡ place → slice_index words.new i ≡ 0 }
    ensures others { (i : ℕ) → i / 64 ≢ place → slice_index words.new i ≡ slice_index words.old i }
{
    let mut rest = named;
    while rest != 0 {
        let bit = lowest_bit(rest);
        words[place * 64 + bit] = 0;
        rest = without_bit(rest, bit);
    }
}

/// Makes the words equal to others, which they are already where a word over the summary doesn't name
/// them.
pub(crate) fn copy_blocks(words: &mut [u64], others: &[u64], named: u64)
    requires count { length words.old ≡ 1024 }
    requires others { length others.now ≡ 1024 }
    requires few { (place : ℕ) → 16 ≤ place → word_has named place ≡ false }
    requires rest { (i : ℕ) → word_has named (i / 64) ≡ false → slice_index words.old i ≡ slice_index others.now i }
    ensures { words.new ≡ others.now }
{
    let mut rest = named;
    while rest != 0 {
        let place = lowest_bit(rest);
        copy_block(words, others, place);
        rest = without_bit(rest, place);
    }
}

/// Makes the words equal to others that one word of the summary is over.
fn copy_block(words: &mut [u64], others: &[u64], place: usize)
    requires count { length words.old ≡ 1024 }
    requires others { length others.now ≡ 1024 }
    requires within { place < 16 }
    ensures here { (i : ℕ) → i / 64 ≡ place → slice_index words.new i ≡ slice_index others.now i }
    ensures rest { (i : ℕ) → i / 64 ≢ place → slice_index words.new i ≡ slice_index words.old i }
{
    let first = place * 64;
    words[first..first + 64].copy_from_slice(&others[first..first + 64]);
}

/// Whether the words have the bits of others, which they have where a word over the summary doesn't name them.
pub(crate) fn are_same_blocks(words: &[u64], others: &[u64], named: u64) -> bool
    requires count { length words.now ≡ 1024 }
    requires others { length others.now ≡ 1024 }
    requires few { (place : ℕ) → 16 ≤ place → word_has named place ≡ false }
    requires rest { (i : ℕ) → word_has named (i / 64) ≡ false → slice_index words.now i ≡ slice_index others.now i }
    ensures { IsTrue result ↔ ((k : ℕ) → row_has words.now k ≡ row_has others.now k) }
{
    let mut rest = named;
    while rest != 0 {
        let place = lowest_bit(rest);
        if !is_same_block(words, others, place) {
            return false;
        }
        rest = without_bit(rest, place);
    }
    true
}

/// Whether the words are equal to others that one word of the summary is over.
fn is_same_block(words: &[u64], others: &[u64], place: usize) -> bool
    requires count { length words.now ≡ 1024 }
    requires others { length others.now ≡ 1024 }
    requires within { place < 16 }
    ensures { IsTrue result ↔ ((i : ℕ) → i / 64 ≡ place → slice_index words.now i ≡ slice_index others.now i) }
{
    let first = place * 64;
    words[first..first + 64] == others[first..first + 64]
}

/// Turns the bits round that others have. Gives the word over the summary.
pub(crate) fn turn(
    words: &mut [u64],
    summary: &mut [u64],
    top: u64,
    others: &[u64],
    summary_others: &[u64],
    top_others: u64,
) -> u64
    requires levels { IsThreeLevel words.old summary.old top }
    requires others { IsThreeLevel others.now summary_others.now top_others }
    ensures levels { IsThreeLevel words.new summary.new result }
    ensures turned { (i : ℕ) → slice_index words.new i ≡ bit_xor (slice_index words.old i) (slice_index others.now i) }
{
    let mut over = top;
    let mut rest = top_others;
    while rest != 0 {
        let place = lowest_bit(rest);
        over = turn_named(words, summary, over, others, place, summary_others[place]);
        rest = without_bit(rest, place);
    }
    over
}

/// Turns the bits round that others have in the words that a word of their summary names. Gives the word over the summary.
fn turn_named(
    words: &mut [u64],
    summary: &mut [u64],
    top: u64,
    others: &[u64],
    place: usize,
    named: u64,
) -> u64
    requires levels { IsThreeLevel words.old summary.old top }
    requires count { length others.now ≡ 1024 }
    requires within { place < 16 }
    requires right { (i : ℕ) → i / 64 ≡ place → word_has named (i % 64) ≡ not (slice_index others.now i == 0) }
    ensures levels { IsThreeLevel words.new summary.new result }
    ensures here { (i : ℕ) → i / 64 ≡ place → slice_index words.new i ≡ bit_xor (slice_index words.old i) (slice_index others.now i) }
    ensures rest { (i : ℕ) → i / 64 ≢ place → slice_index words.new i ≡ slice_index words.old i }
{
    let mut over = top;
    let mut rest = named;
    while rest != 0 {
        let bit = lowest_bit(rest);
        let at = place * 64 + bit;
        over = turn_word(words, summary, over, at, others[at]);
        rest = without_bit(rest, bit);
    }
    over
}

/// Turns bits of one word round. Gives the word over the summary.
fn turn_word(words: &mut [u64], summary: &mut [u64], top: u64, at: usize, bits: u64) -> u64
    requires levels { IsThreeLevel words.old summary.old top }
    requires within { at < 1024 }
    ensures levels { IsThreeLevel words.new summary.new result }
    ensures here { slice_index words.new at ≡ bit_xor (slice_index words.old at) bits }
    ensures rest { (i : ℕ) → i ≢ at → slice_index words.new i ≡ slice_index words.old i }
{
    words[at] ^= bits;
    row::put(summary, at, words[at] != 0);
    with_bit(top, at / 64, summary[at / 64] != 0)
}

/// Whether each word is 0.
pub(crate) fn is_blank(words: &[u64], summary: &[u64], top: u64) -> bool
    requires { IsThreeLevel words.now summary.now top }
    ensures { IsTrue result ↔ ((k : ℕ) → row_has words.now k ≡ false) }
{
    let _ = words;
    let _ = summary;
    top == 0
}

/// Makes one bit of the words as it is asked for. Gives the word over the summary.
pub(crate) fn put(words: &mut [u64], summary: &mut [u64], top: u64, at: usize, is_set: bool) -> u64
    requires levels { IsThreeLevel words.old summary.old top }
    requires within { at < 65536 }
    ensures levels { IsThreeLevel words.new summary.new result }
    ensures bits { (k : ℕ) → row_has words.new k ≡ (if k == at then is_set else row_has words.old k) }
{
    row::put(words, at, is_set);
    let place = at / 64;
    row::put(summary, place, words[place] != 0);
    with_bit(top, place / 64, summary[place / 64] != 0)
}

/// The lowest bit of the words that is at or above a place.
///
/// Reads at most two of the words, two of the summary and the one over it.
pub(crate) fn next(words: &[u64], summary: &[u64], top: u64, from: usize) -> Option<usize>
    requires levels { IsThreeLevel words.now summary.now top }
    requires within { from < 65536 }
    ensures { IsNextFrom (row_has words.now) from result }
{
    let first = from / 64;
    if let Some(bit) = next_in_word(words[first], from % 64) {
        return Some(first * 64 + bit);
    }
    let place = later_word(summary, top, first)?;
    Some(place * 64 + lowest_bit(words[place]))
}

/// The first word above a place that isn't 0, by the summary and the word over it.
fn later_word(summary: &[u64], top: u64, place: usize) -> Option<usize>
    requires count { length summary.now ≡ 16 }
    requires high { (i : ℕ) → word_has top i ≡ not (slice_index summary.now i == 0) }
    requires within { place < 1024 }
    ensures { IsNextFrom (row_has summary.now) (place + 1) result }
{
    let first = place / 64;
    if let Some(bit) = later_in_word(summary[first], place % 64) {
        return Some(first * 64 + bit);
    }
    let later = later_in_word(top, first)?;
    Some(later * 64 + lowest_bit(summary[later]))
}
