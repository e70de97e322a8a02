//! Numbers and short texts that are put into a text in place, and a number that is put there again and again.
ghost use Rattle.std.specs.Prelude.{◌≡◌, ℕ, ◌<◌, ◌≤◌, ◌+◌, ◌*◌, ◌/◌, ◌%◌, ◌∷◌, ◌++◌, [], decimal, length, map, take};
ghost use Rattle.std.specs.List.{flat_map};
ghost use Rattle.lp_definitions.specs.Events.{group_numbers};
ghost use Rattle.lp_text.specs.inside.Writing.{line_rest};
ghost use Rattle.lp_trace.specs.inside.Counting.{tens_digits};

use itoa::Buffer;
use lp_stack::GroupId;
use std::marker::Model;

/// The room of a short text: two words of eight bytes, so that a copy is two stores.
pub(crate) const SHORT: usize = 16;

/// The two digits of each number below a hundred.
static PAIRS: [u8; 200] =
    *b"00010203040506070809101112131415161718192021222324252627282930313233343536373839404142434445464748495051525354555657585960616263646566676869707172737475767778798081828384858687888990919293949596979899";

/// Puts bytes after the first `at` ones, and gives where they end.
#[inline(always)]
pub(crate) fn place_slice(text: &mut [u8], at: usize, bytes: &[u8]) -> usize
    requires { at + length bytes.now ≤ length text.old }
    ensures placed { take result text.new ≡ take at text.old ++ bytes.now }
    ensures end { result ≡ at + length bytes.now }
    ensures size { length text.new ≡ length text.old }
{
    let end = at + bytes.len();
    text[at..end].copy_from_slice(bytes);
    end
}

/// Puts the two digits of a number below a hundred after the first `at` bytes.
#[inline(always)]
fn place_pair(text: &mut [u8], at: usize, pair: u64)
    requires small { pair < 100 }
    requires room { at + 2 ≤ length text.old }
    ensures placed { take (at + 2) text.new ≡ take at text.old ++ (48 + pair / 10) ∷ (48 + pair % 10) ∷ [] }
    ensures size { length text.new ≡ length text.old }
{
    let from = pair as usize * 2;
    let (tens, ones) = (PAIRS[from], PAIRS[from + 1]);
    text[at] = tens;
    text[at + 1] = ones;
}

/// Puts a number of at most two digits after the first `at` bytes, and gives where it ends.
#[inline(always)]
fn place_two(text: &mut [u8], at: usize, number: u64) -> usize
    requires small { number < 100 }
    requires room { at + 2 ≤ length text.old }
    ensures placed { take result text.new ≡ take at text.old ++ decimal number }
    ensures near { result ≤ at + 2 }
    ensures size { length text.new ≡ length text.old }
{
    if number < 10 {
        text[at] = b'0' + number as u8;
        return at + 1;
    }
    place_pair(text, at, number);
    at + 2
}

/// Puts a number of at most four digits after the first `at` bytes, and gives where it ends.
#[inline(always)]
fn place_four(text: &mut [u8], at: usize, number: u64) -> usize
    requires small { number < 10000 }
    requires room { at + 4 ≤ length text.old }
    ensures placed { take result text.new ≡ take at text.old ++ decimal number }
    ensures near { result ≤ at + 4 }
    ensures size { length text.new ≡ length text.old }
{
    if number < 100 {
        return place_two(text, at, number);
    }
    let end = place_two(text, at, number / 100);
    place_pair(text, end, number % 100);
    end + 2
}

/// Puts a number of more than eight digits after the first `at` bytes, and gives where it ends. Out of line, as nearly none has
/// as many.
#[inline(never)]
fn place_long(text: &mut [u8], at: usize, number: u64) -> usize
    requires { at + 20 ≤ length text.old }
    ensures placed { take result text.new ≡ take at text.old ++ decimal number }
    ensures near { result ≤ at + 20 }
    ensures size { length text.new ≡ length text.old }
{
    let mut buffer = Buffer::new();
    place_slice(text, at, buffer.format(number).as_bytes())
}

/// Puts a number after the first `at` bytes, and gives where it ends.
///
/// The digits are put from the first to the last, two at a time: so they needn't be counted before.
#[inline(always)]
pub(crate) fn place_number(text: &mut [u8], at: usize, number: u64) -> usize
    requires { at + 20 ≤ length text.old }
    ensures placed { take result text.new ≡ take at text.old ++ decimal number }
    ensures near { result ≤ at + 20 }
    ensures size { length text.new ≡ length text.old }
{
    if number < 10_000 {
        return place_four(text, at, number);
    }
    if number >= 100_000_000 {
        return place_long(text, at, number);
    }
    let end = place_four(text, at, number / 10_000);
    let last = number % 10_000;
    place_pair(text, end, last / 100);
    place_pair(text, end + 2, last % 100);
    end + 4
}

/// Puts a number after a space after the first `at` bytes, and gives where it ends.
#[inline(always)]
pub(crate) fn place_spaced(text: &mut [u8], at: usize, number: u64) -> usize
    requires { at + 21 ≤ length text.old }
    ensures placed { take result text.new ≡ take at text.old ++ 32 ∷ decimal number }
    ensures near { result ≤ at + 21 }
    ensures size { length text.new ≡ length text.old }
{
    text[at] = b' ';
    place_number(text, at + 1, number)
}

/// The same with the number of a task or group, which has at most five digits.
#[inline(always)]
pub(crate) fn place_id(text: &mut [u8], at: usize, number: u16) -> usize
    requires { at + 21 ≤ length text.old }
    ensures placed { take result text.new ≡ take at text.old ++ 32 ∷ decimal number }
    ensures near { result ≤ at + 6 }
    ensures size { length text.new ≡ length text.old }
{
    place_spaced(text, at, u64::from(number))
}

/// Puts groups, each after a space, after the first `at` bytes, and gives where they end.
#[inline(always)]
pub(crate) fn place_groups(text: &mut [u8], at: usize, groups: &[GroupId]) -> usize
    requires { at + 6 * length groups.now + 21 ≤ length text.old }
    ensures placed { take result text.new ≡ take at text.old ++ flat_map (λ group. 32 ∷ decimal group) (group_numbers groups.now) }
    ensures near { result ≤ at + 6 * length groups.now }
    ensures size { length text.new ≡ length text.old }
{
    let mut end = at;
    for group in groups {
        end = place_id(text, end, group.0);
    }
    end
}

/// Puts the end of a line after the first `at` bytes: numbers, each after a space. Gives where it ends.
#[inline(always)]
pub(crate) fn place_rest(text: &mut [u8], at: usize, numbers: &[u64]) -> usize
    requires { at + 21 * length numbers.now + 1 ≤ length text.old }
    ensures placed { take result text.new ≡ take at text.old ++ line_rest (map decimal numbers.now) }
    ensures within { result ≤ length text.new }
    ensures size { length text.new ≡ length text.old }
{
    let mut end = at;
    for number in numbers {
        end = place_spaced(text, end, *number);
    }
    text[end] = b'\n';
    end + 1
}

/// Puts bytes after the first `at` ones, of which the first may be the only ones that are wanted: a copy of a known size is
/// a few stores.
#[inline(always)]
pub(crate) fn place_bytes<const N: usize>(text: &mut [u8], at: usize, bytes: &[u8; N])
    requires { at + N ≤ length text.old }
    ensures placed { (n : ℕ) → n ≤ N → take (at + n) text.new ≡ take at text.old ++ take n bytes.now }
    ensures size { length text.new ≡ length text.old }
{
    // By value: of bytes in another place it would be asked whether they overlap.
    let bytes = *bytes;
    text[at..at + N].copy_from_slice(&bytes);
}

/// Puts a line of a word, which is so many bytes of a short text, and of at most six numbers after the first `at` bytes. Gives
/// where the line ends.
#[inline(always)]
pub(crate) fn place_numbers(
    text: &mut [u8],
    at: usize,
    word: &[u8; SHORT],
    len: usize,
    numbers: &[u64],
) -> usize
    requires room { at + 143 ≤ length text.old }
    requires short { len ≤ 16 }
    requires few { length numbers.now ≤ 6 }
    ensures placed { take result text.new ≡ take at text.old ++ (take len word.now ++ line_rest (map decimal numbers.now)) }
    ensures within { result ≤ length text.new }
    ensures size { length text.new ≡ length text.old }
{
    place_bytes(text, at, word);
    place_rest(text, at + len, numbers)
}

/// Room for a number, in whole words.
const DIGITS: usize = 24;

/// A number and its digits: where it is followed by one that is little more, nearly always the last digit alone changes.
///
/// The last digit stands apart from the others: a text into which each were written would be copied in larger pieces
/// than it was written in, and each copy would wait until the digit is there.
#[derive(Drop)]
pub(crate) struct Counter {
    /// The number with a 0 for its last digit.
    tens: u64,
    ones: u8,
    /// Begins with all digits but the last; none of these where there is one alone.
    text: [u8; DIGITS],
    /// How many these are.
    len: usize,
}

impl Model for Counter {
    ghost use Rattle.std.specs.Prelude.{ℕ, ◌+◌};
    ghost use Rattle.lp_trace.specs.inside.Counting.{IsCounter};

    ghost Value = { ℕ };

    ghost view = { λ c. c.tens + c.ones };

    ghost invariant = { λ c. IsCounter c.tens c.ones c.text c.len };
}

impl Counter {
    /// The number 0.
    pub(crate) fn new() -> Counter
        ensures { result ≡ 0 }
    {
        Counter {
            tens: 0,
            ones: 0,
            text: [b'\n'; DIGITS],
            len: 0,
        }
    }

    /// One more.
    #[inline(always)]
    pub(crate) fn increment(&mut self)
        requires { self.old < 18446744073709551615 }
        ensures { self.new ≡ self.old + 1 }
    {
        if self.ones < 9 {
            self.ones += 1;
            return;
        }
        self.spell(self.tens + 10);
    }

    /// Turns to a number.
    #[inline(always)]
    pub(crate) fn turn_to(&mut self, number: u64)
        ensures { self.new ≡ number }
    {
        if number >= self.tens && number - self.tens < 10 {
            self.ones = (number - self.tens) as u8;
            return;
        }
        self.spell(number);
    }

    /// The same where more than the last digit changes. Out of line, as it seldom does.
    #[inline(never)]
    fn spell(&mut self, number: u64)
        ensures { self.new ≡ number }
    {
        self.ones = (number % 10) as u8;
        self.tens = number - number % 10;
        self.len = place_tens(&mut self.text, number / 10);
    }

    /// Puts the number and a short text, of which so many bytes are wanted, after the first `at` bytes, and gives where they
    /// end.
    #[inline(always)]
    pub(crate) fn place(&self, text: &mut [u8], at: usize, rest: &[u8; SHORT], len: usize) -> usize
        requires room { at + 36 ≤ length text.old }
        requires short { len ≤ 16 }
        ensures placed { take result text.new ≡ take at text.old ++ (decimal self.now ++ take len rest.now) }
        ensures near { result ≤ at + 36 }
        ensures size { length text.new ≡ length text.old }
    {
        place_bytes(text, at, &self.text);
        let last = at + self.len;
        text[last] = b'0' + self.ones;
        place_bytes(text, last + 1, rest);
        last + 1 + len
    }
}

/// Puts all digits of a number but the last, by the number of its tens, and gives how many they are.
fn place_tens(text: &mut [u8; DIGITS], tens: u64) -> usize
    requires { tens < 1844674407370955162 }
    ensures digits { take result text.new ≡ tens_digits tens }
    ensures few { result ≤ 19 }
{
    if tens == 0 {
        return 0;
    }
    place_number(text, 0, tens)
}
