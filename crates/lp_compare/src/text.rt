//! A comparison as a text.
ghost use Rattle.std.specs.Prelude.{◌≡◌, ◌∷◌, ◌++◌, decimal, map, string_bytes, IfOk, OnOk};
ghost use Rattle.std.specs.List.{flat_map};
ghost use Rattle.lp_text.specs.Words.{line_of};
ghost use Rattle.lp_compare.specs.Text.{leg_word, row_words, text};

use crate::comparison::{Comparison, Row};
use itoa::Buffer;
use std::alloc::{AllocError, Global};

impl Comparison {
    /// The text: a line for the leg, and one for each model. AllocError where an allocation failed.
    pub fn text(&self, alloc: Global) -> Result<String, AllocError>
        ensures { IfOk result (λ written. string_bytes written ≡ text self.now) }
    {
        let mut leg = Buffer::new();
        let mut text = String::new(alloc);
        push_line(&mut text, "lpcompare", &["1"])?;
        push_line(&mut text, "leg", &[leg_word(&mut leg, self.leg)])?;
        push_rows(&mut text, self.leg, self.rows.as_slice())?;
        Ok(text)
    }
}

/// The event that opened the leg, in a buffer of its own where it is a number.
fn leg_word(buffer: &mut Buffer, leg: Option<u64>) -> &str
    ensures { result.now ≡ leg_word leg }
{
    match leg {
        Some(event) => number(buffer, event),
        None => "none",
    }
}

/// A number, in a buffer of its own.
fn number(buffer: &mut Buffer, number: u64) -> &str
    ensures { result.now ≡ decimal number }
{
    buffer.format(number)
}

/// Puts the lines of rows of a leg that this event opened.
fn push_rows(text: &mut String, leg: Option<u64>, rows: &[Row]) -> Result<(), AllocError>
    ensures { OnOk result (string_bytes text.new ≡ string_bytes text.old ++ flat_map line_of (map (row_words leg) rows.now)) }
{
    for row in rows {
        push_row(text, leg, row)?;
    }
    Ok(())
}

/// Puts the line of a row.
fn push_row(text: &mut String, leg: Option<u64>, row: &Row) -> Result<(), AllocError>
    ensures { OnOk result (string_bytes text.new ≡ string_bytes text.old ++ line_of (row_words leg row.now)) }
{
    let mut first = Buffer::new();
    let mut second = Buffer::new();
    let name = row.model.name();
    if leg.is_none() {
        return push_line(text, name, &["none"]);
    }
    let births = number(&mut second, row.births);
    match row.complete {
        Some(event) => {
            let event = number(&mut first, event);
            push_line(text, name, &["complete", event, "births", births])
        }
        None => {
            let waiting = number(&mut first, row.waiting);
            push_line(text, name, &["waiting", waiting, "births", births])
        }
    }
}

/// Puts a line of these words.
fn push_line(text: &mut String, first: &str, words: &[&str]) -> Result<(), AllocError>
    ensures { OnOk result (string_bytes text.new ≡ string_bytes text.old ++ line_of (first.now ∷ map (λ word. word.now) words.now)) }
{
    text.push_str(first)?;
    for word in words {
        text.push_str(" ")?;
        text.push_str(word)?;
    }
    text.push_str("\n")?;
    Ok(())
}
