//! Numbers in a text, without leading zeros: 1 to 5 digits, or 1 to 7 for the number of an event.
ghost use Rattle.std.specs.Prelude.{◌≡◌, ◌<◌, ◌≤◌, ◌^◌, length, IsTrue};
ghost use Rattle.std.specs.Char.{is_ascii_digit};
ghost use Rattle.std.specs.List.{list_all};
ghost use Rattle.std.specs.Str.Parse.{digits_value};
ghost use Rattle.lp_text.specs.Words.{is_numeral, number_of};
ghost use Rattle.lp_text.specs.CheckReading.{event_number_of};

/// The number that a word spells.
#[inline(always)]
#[tactic(auto, unfolding(crate::specs::Words::number_of))]
pub(crate) fn number_of(word: &[u8]) -> Option<u32>
    ensures { result ≡ number_of word.now }
{
    if !is_numeral(word, 5) {
        return None;
    }
    Some(value(word))
}

/// The number of an event that a word of a certificate spells.
#[tactic(auto, unfolding(crate::specs::CheckReading::event_number_of))]
pub(crate) fn event_number_of(word: &[u8]) -> Option<u32>
    ensures { result ≡ event_number_of word.now }
{
    if !is_numeral(word, 7) {
        return None;
    }
    Some(value(word))
}

/// Whether a word is 1 to so many digits, the first of them no 0 but in `0` itself.
#[inline(always)]
fn is_numeral(word: &[u8], most: usize) -> bool
    ensures { result ≡ is_numeral most word.now }
{
    !word.is_empty()
        && word.len() <= most
        && are_digits(word)
        && (word.len() == 1 || word[0] != b'0')
}

#[inline(always)]
fn are_digits(word: &[u8]) -> bool
    ensures { result ≡ list_all is_ascii_digit word.now }
{
    word.iter().all(|b| b.is_ascii_digit())
}

/// The number that up to seven digits spell.
#[inline(always)]
fn value(word: &[u8]) -> u32
    requires few { length word.now ≤ 7 }
    requires digits { IsTrue (list_all is_ascii_digit word.now) }
    ensures value { result ≡ digits_value 10 word.now }
    ensures small { result < 10000000 }
{
    let mut number = 0;
    for byte in word {
        number = number * 10 + u32::from(*byte - b'0');
    }
    number
}
