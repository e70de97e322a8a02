//! Symbols that were looked up last: most names of a trace come again and again.
ghost use Rattle.std.specs.Prelude.{◌≡◌, ◌<◌, ◌≤◌, [], Ok, IfSome, IsTrue, length, option_copied, slice_index_or, vec_len};
ghost use Rattle.lp_text.specs.inside.LineFaults.{GivesExactly};
ghost use Rattle.lp_text.specs.inside.Parsers.{last_symbol};
ghost use Rattle.lp_text.specs.inside.Cut.{words_left};
ghost use Rattle.lp_text.specs.Words.{words};
ghost use Rattle.lp_text.specs.Traces.{AreNames};

use crate::fault::Cause;
use crate::line::symbol_of;
use crate::split::last_word;
use lp_symbols::{SymId, Symbols};
use std::alloc::{AllocError, Global};

/// How many places there are: some for each function of many patches, in 32 KB.
const PLACES: usize = 16_384;

/// Spreads the bits of a word: 2 to the power of 64 over the golden ratio.
const SPREAD: u64 = 0x9e37_79b9_7f4a_7c15;

/// At each place the symbol that was found last of the names that belong there. A name is compared
/// with it before it is looked up.
///
/// It lies on the heap, as a parser goes by value through several calls, each with room for all of it on the stack.
#[derive(Drop)]
pub(crate) struct SymbolCache {
    ids: Vec<SymId>,
    ghost whole: { vec_len ids ≡ 16384 },
}

impl SymbolCache {
    /// The first symbol at each place; AllocError where an allocation failed.
    pub(crate) fn new(alloc: Global) -> Result<SymbolCache, AllocError> {
        let ids = vec![in alloc; SymId(0); PLACES]?;
        Ok(SymbolCache { ids })
    }

    /// The symbol of a name, which is to be the last word of a line. A name has no space in it, so
    /// it is all that is left.
    #[inline(always)]
    #[tactic(auto, unfolding(crate::specs::Reading::last_word))]
    pub(crate) fn last_symbol(
        &mut self,
        symbols: &Symbols,
        left: Option<&[u8]>,
    ) -> Result<SymId, Cause>
        requires names { AreNames symbols.now }
        ensures { GivesExactly (λ id. id) result (last_symbol symbols.now (words_left (option_copied left.entry))) }
    {
        let Some(rest) = left else {
            return Err(Cause::Shape);
        };
        if let Some(cached) = self.cached(symbols, rest) {
            return Ok(cached);
        }
        let name = last_word(left)?;
        let id = symbol_of(symbols, name)?;
        self.ids[place_of(name)] = id;
        Ok(id)
    }

    /// The symbol of a name, if it was found last of the names that belong to its place.
    #[inline(always)]
    pub(crate) fn cached(&self, symbols: &Symbols, name: &[u8]) -> Option<SymId>
        requires names { AreNames symbols.now }
        ensures reads { IfSome result (λ id. last_symbol symbols.now (words name.now) ≡ Ok id) }
        ensures known { IfSome result (λ id. id.0 < length symbols.now) }
        ensures name { IfSome result (λ id. name.now ≡ slice_index_or symbols.now id.0 []) }
    {
        let id = self.ids[place_of(name)];
        if is_name_of(symbols, id, name) {
            return Some(id);
        }
        None
    }
}

/// The place of a name. Names of one patch may differ in their first bytes alone, or in their last ones.
#[inline(always)]
fn place_of(name: &[u8]) -> usize
    ensures { result < 16384 }
{
    let (Some(front), Some(back)) = (name.first_chunk(), name.last_chunk()) else {
        return short_place(name);
    };
    let ends = u64::from_le_bytes(*front).rotate_left(23) ^ u64::from_le_bytes(*back);
    (ends.wrapping_mul(SPREAD) >> 50) as usize % PLACES
}

/// The place of a name of less than eight bytes, by its length and its first, middle and last one.
fn short_place(name: &[u8]) -> usize
    ensures { result < 16384 }
{
    let [first, .., last] = name else {
        return 0;
    };
    let middle = name[name.len() / 2];
    let sum = usize::from(*first) * 53 + usize::from(middle) * 113 + usize::from(*last);
    (sum + name.len() % 8 * 89) % PLACES
}

/// Whether a symbol has this name.
#[inline(always)]
fn is_name_of(symbols: &Symbols, id: SymId, name: &[u8]) -> bool
    requires names { AreNames symbols.now }
    ensures { IsTrue result → last_symbol symbols.now (words name.now) ≡ Ok id }
{
    if id.index() >= symbols.len() {
        return false;
    }
    match symbols.name(id) {
        Some(text) => is_same(text.as_bytes(), name),
        None => false,
    }
}

/// Whether two names are the same. Most have 8 to 24 bytes: these are compared by eight bytes at once, of which the
/// last may overlap those before, for a third of what a call costs that compares them from front to back.
#[inline(always)]
fn is_same(first: &[u8], second: &[u8]) -> bool
    ensures { IsTrue result → first.now ≡ second.now }
{
    if first.len() != second.len() {
        return false;
    }
    match first.len() {
        8..=16 => have_same_ends(first, second),
        17..=24 => have_same_words(first, second),
        _ => first == second,
    }
}

/// Whether two names have the same first eight bytes and are the same after them.
#[inline(always)]
fn have_same_words(first: &[u8], second: &[u8]) -> bool
    requires same { length first.now ≡ length second.now }
    requires short { length first.now ≤ 24 }
    ensures { IsTrue result → first.now ≡ second.now }
{
    let (Some((front, left)), Some((same_front, same_left))) = (
        first.split_first_chunk(),
        second.split_first_chunk(),
    ) else {
        return false;
    };
    is_same_word(front, same_front) && have_same_ends(left, same_left)
}

/// Whether two names have the same first bytes and the same last ones, so many of each that there are no others.
#[inline(always)]
fn have_same_ends(first: &[u8], second: &[u8]) -> bool
    requires same { length first.now ≡ length second.now }
    requires short { length first.now ≤ 16 }
    ensures { IsTrue result → first.now ≡ second.now }
{
    let (Some(front), Some(same_front)) = (first.first_chunk(), second.first_chunk()) else {
        return false;
    };
    let (Some(back), Some(same_back)) = (first.last_chunk(), second.last_chunk()) else {
        return false;
    };
    is_same_word(front, same_front) && is_same_word(back, same_back)
}

/// Whether eight bytes are the same.
#[inline(always)]
fn is_same_word(first: &[u8; 8], second: &[u8; 8]) -> bool
    ensures { IsTrue result → first.now ≡ second.now }
{
    u64::from_le_bytes(*first) == u64::from_le_bytes(*second)
}
