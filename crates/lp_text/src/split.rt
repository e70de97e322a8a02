//! Lines of a text and words of a line.
ghost use Rattle.std.specs.Prelude.{◌≡◌, ◌∷◌, ◌<◌, length, option_copied, IfSome};
ghost use Rattle.lp_text.specs.Words.{parts};
ghost use Rattle.memchr.specs.Find.{IsFirstByte, is_byte};
ghost use Rattle.lp_text.specs.inside.LineFaults.{GivesExactly};
ghost use Rattle.lp_text.specs.Reading.{next_word, last_word, next_number, last_number};
ghost use Rattle.lp_text.specs.inside.Cut.{IsCut, parts_left, words_left};

use crate::fault::Cause;
use crate::number::number_of;
use memchr::memchr;
use std::simd::prelude::*;

/// How many bytes a line has at most whose words are cut byte by byte.
const SHORT_LINE: usize = 32;

/// What stands before the first place of a byte, and what stands after it, if there is such a place.
#[inline(always)]
pub(crate) fn cut(byte: u8, text: &[u8]) -> (&[u8], Option<&[u8]>)
    ensures parts { parts byte text.now ≡ result.0.now ∷ parts_left byte (option_copied result.1) }
    ensures shorter { IfSome result.1 (λ rest. length rest.now < length text.now) }
    ensures cut { IfSome result.1 (λ rest. IsCut byte text.now result.0.now rest.now) }
{
    match first_place(byte, text) {
        Some(end) => (&text[..end], Some(&text[end + 1..])),
        None => (text, None),
    }
}

/// The first place of a byte. Most lines end soon, so the 32 bytes in front are looked at in one step, for a third of
/// what a call of `memchr` costs.
#[inline(always)]
fn first_place(byte: u8, text: &[u8]) -> Option<usize>
    ensures { IsFirstByte (is_byte byte) text.now result }
{
    if text.len() < 32 {
        return memchr(byte, text);
    }
    let marks = u8x32::from_slice(text)
        .simd_eq(u8x32::splat(byte))
        .to_bitmask();
    if marks == 0 {
        return memchr(byte, text);
    }
    Some(marks.trailing_zeros() as usize)
}

/// What stands before the first space, and what stands after it, if there is one.
#[inline(always)]
pub(crate) fn cut_word(line: &[u8]) -> (&[u8], Option<&[u8]>)
    ensures parts { parts 32 line.now ≡ result.0.now ∷ parts_left 32 (option_copied result.1) }
    ensures shorter { IfSome result.1 (λ rest. length rest.now < length line.now) }
{
    match first_space(line) {
        Some(end) => (&line[..end], Some(&line[end + 1..])),
        None => (line, None),
    }
}

/// The place of the first space. `memchr` costs more than a loop on a short line, and far less on a name of
/// hundreds of bytes.
#[inline(always)]
fn first_space(line: &[u8]) -> Option<usize>
    ensures { IsFirstByte (is_byte 32) line.now result }
{
    if line.len() > SHORT_LINE {
        return memchr(b' ', line);
    }
    line.iter().position(|byte| *byte == b' ')
}

/// The next word of a line, and what is left after it.
#[inline(always)]
#[tactic(auto, unfolding(crate::specs::Reading::next_word))]
pub(crate) fn next_word(left: Option<&[u8]>) -> Result<(&[u8], Option<&[u8]>), Cause>
    ensures { GivesExactly (λ x. (x.0.now, words_left (option_copied x.1))) result (next_word (words_left (option_copied left.entry))) }
{
    let Some(line) = left else {
        return Err(Cause::Shape);
    };
    let (word, left) = cut_word(line);
    if word.is_empty() {
        return Err(Cause::Shape);
    }
    Ok((word, left))
}

/// The next word of a line, which is to be the last.
#[inline(always)]
#[tactic(auto, using(crate::proofs::Cuts::last_word_more), unfolding(crate::specs::Reading::last_word))]
pub(crate) fn last_word(left: Option<&[u8]>) -> Result<&[u8], Cause>
    ensures { GivesExactly (λ word. word.now) result (last_word (words_left (option_copied left.entry))) }
{
    let Some(line) = left else {
        return Err(Cause::Shape);
    };
    let (word, left) = cut_word(line);
    match left {
        Some(_) => Err(Cause::Shape),
        None if word.is_empty() => Err(Cause::Shape),
        None => Ok(word),
    }
}

/// The next word of a line as a number, and what is left after it.
#[inline(always)]
#[tactic(auto, unfolding(crate::specs::Reading::next_number))]
pub(crate) fn next_number(left: Option<&[u8]>) -> Result<(u32, Option<&[u8]>), Cause>
    ensures { GivesExactly (λ x. (x.0, words_left (option_copied x.1))) result (next_number (words_left (option_copied left.entry))) }
{
    let (word, left) = next_word(left)?;
    let Some(number) = number_of(word) else {
        return Err(Cause::Shape);
    };
    Ok((number, left))
}

/// The next word of a line as a number, which is to be the last. A number has no space in it, so it
/// is all that is left.
#[inline(always)]
#[tactic(auto, using(crate::proofs::LastWords::number_alone), unfolding(crate::specs::Reading::last_number, crate::specs::Reading::last_word))]
pub(crate) fn last_number(left: Option<&[u8]>) -> Result<u32, Cause>
    ensures { GivesExactly (λ number. number) result (last_number (words_left (option_copied left.entry))) }
{
    let Some(word) = left else {
        return Err(Cause::Shape);
    };
    match number_of(word) {
        Some(number) => Ok(number),
        None => Err(Cause::Shape),
    }
}
