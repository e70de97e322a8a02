//! What is played, and the first line in which it differs from what is wanted.
ghost use Rattle.std.specs.Prelude.{◌≡◌, OnOk};

use crate::trouble::Trouble;
use std::{io, str};

/// What is played: what it is called, and where it is said in which line it differs.
#[derive(Drop)]
pub struct Stage<'a, R> {
    pub rt: &'a R,
    pub name: &'a str,
}

/// How many bytes two texts begin with that are the same in both.
fn common(wanted: &[u8], given: &[u8]) -> usize {
    wanted
        .iter()
        .zip(given.iter())
        .take_while(|(one, other)| *one == *other)
        .count()
}

/// The line of a text in which the byte of this place stands.
fn line_at(text: &[u8], place: usize) -> &str {
    let prefix = text.get(..place).unwrap_or(text);
    let begin = prefix
        .iter()
        .rposition(|byte| *byte == b'\n')
        .map_or(0, |end| end.saturating_add(1));
    let rest = text.get(begin..).unwrap_or(&[]);
    let end = rest.iter().position(|byte| *byte == b'\n');
    let line = rest.get(..end.unwrap_or(rest.len())).unwrap_or(rest);
    str::from_utf8(line).unwrap_or("no text")
}

/// Says in which line a part of what is played differs from what is wanted.
fn tell<R: Print>(stage: &Stage<'_, R>, part: &str, wanted: &str, given: &str) -> io::Result<()> {
    println!(stage.rt;
        "{}: {part} differs\n  wanted: {wanted}\n  given: {given}",
        stage.name
    )
}

/// Says in which line a part of what is given differs from what is wanted; Differs where it does.
pub fn compare<R: Print>(
    stage: &Stage<'_, R>,
    part: &str,
    wanted: &[u8],
    given: &[u8],
) -> Result<(), Trouble>
    ensures { OnOk result (wanted.now ≡ given.now) }
{
    if wanted == given {
        return Ok(());
    }
    let place = common(wanted, given);
    tell(stage, part, line_at(wanted, place), line_at(given, place))?;
    Err(Trouble::Differs)
}
