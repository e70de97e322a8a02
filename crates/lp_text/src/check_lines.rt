//! Lines of a certificate, each by its words.
ghost use Rattle.std.specs.Prelude.{◌≡◌, option_copied};
ghost use Rattle.lp_text.specs.CheckReading.{as_cert, born_line, busy_line, claim_line, claim_of, hold_line, last_event, next_event, next_member, reason_line};
ghost use Rattle.lp_text.specs.inside.LineFaults.{GivesExactly};
ghost use Rattle.lp_text.specs.inside.Cut.{words_left};
ghost use Rattle.lp_text.specs.Words.{words};

use crate::fault::Cause;
use crate::keyword::is;
use crate::number::event_number_of;
use crate::split::{last_word, next_number, next_word};
use lp_definitions::{Cert, Claim, Line, LineList};
use lp_numbers::NUMBERS;
use lp_stack::{GroupId, TaskId};
use std::alloc::Global;

/// The claim that a word names.
fn claim_of(word: &[u8]) -> Option<Claim>
    ensures { result ≡ claim_of word.now }
{
    if is(word, "waiting") {
        Some(Claim::Waiting)
    } else if is(word, "floor") {
        Some(Claim::Floor)
    } else {
        None
    }
}

/// The next word of a line as the number of an event, and what is left after it.
#[tactic(auto, unfolding(crate::specs::CheckReading::next_event))]
fn next_event(left: Option<&[u8]>) -> Result<(u64, Option<&[u8]>), Cause>
    ensures { GivesExactly (λ x. (x.0, words_left (option_copied x.1))) result (next_event (words_left (option_copied left.entry))) }
{
    let (word, left) = next_word(left)?;
    let Some(number) = event_number_of(word) else {
        return Err(Cause::Cert);
    };
    Ok((u64::from(number), left))
}

/// The next word of a line as the number of an event, which is to be the last.
#[tactic(auto, unfolding(crate::specs::CheckReading::last_event))]
fn last_event(left: Option<&[u8]>) -> Result<u64, Cause>
    ensures { GivesExactly (λ number. number) result (last_event (words_left (option_copied left.entry))) }
{
    let word = last_word(left)?;
    let Some(number) = event_number_of(word) else {
        return Err(Cause::Cert);
    };
    Ok(u64::from(number))
}

/// The next word of a line as the number of a group or a task, and what is left after it.
#[tactic(auto, unfolding(crate::specs::CheckReading::next_member))]
fn next_member(left: Option<&[u8]>) -> Result<(u16, Option<&[u8]>), Cause>
    ensures { GivesExactly (λ x. (x.0, words_left (option_copied x.1))) result (next_member (words_left (option_copied left.entry))) }
{
    let (number, left) = next_number(left)?;
    if number >= NUMBERS as u32 {
        return Err(Cause::Cert);
    }
    Ok((number as u16, left))
}

/// `waiting L G K` or `floor L G K`, with no reason yet.
#[tactic(auto, unfolding(crate::specs::CheckReading::claim_line))]
fn claim_words(alloc: Global, left: Option<&[u8]>) -> Result<Cert, Cause>
    ensures { GivesExactly (λ cert. cert) result (claim_line (words_left (option_copied left.entry))) }
{
    let (word, left) = next_word(left)?;
    let Some(claim) = claim_of(word) else {
        return Err(Cause::Cert);
    };
    let (leg, left) = next_event(left)?;
    let (group, left) = next_member(left)?;
    let upto = last_event(left)?;
    Ok(Cert {
        claim,
        leg,
        group: GroupId(group),
        upto,
        lines: LineList::from_vec(Vec::new(alloc)),
    })
}

/// `hold G T S F E`.
#[tactic(auto, unfolding(crate::specs::CheckReading::hold_line))]
fn hold_line(left: Option<&[u8]>) -> Result<Line, Cause>
    ensures { GivesExactly (λ line. line) result (hold_line (words_left (option_copied left.entry))) }
{
    let (group, left) = next_member(left)?;
    let (task, left) = next_member(left)?;
    let (serial, left) = next_event(left)?;
    let (from, left) = next_event(left)?;
    let to = last_event(left)?;
    Ok(Line::Hold {
        group: GroupId(group),
        task: TaskId(task),
        serial,
        from,
        to,
    })
}

/// `busy G T A`.
#[tactic(auto, unfolding(crate::specs::CheckReading::busy_line))]
fn busy_line(left: Option<&[u8]>) -> Result<Line, Cause>
    ensures { GivesExactly (λ line. line) result (busy_line (words_left (option_copied left.entry))) }
{
    let (group, left) = next_member(left)?;
    let (task, left) = next_member(left)?;
    let at = last_event(left)?;
    Ok(Line::Busy {
        group: GroupId(group),
        task: TaskId(task),
        at,
    })
}

/// `born G P A`.
#[tactic(auto, unfolding(crate::specs::CheckReading::born_line))]
fn born_line(left: Option<&[u8]>) -> Result<Line, Cause>
    ensures { GivesExactly (λ line. line) result (born_line (words_left (option_copied left.entry))) }
{
    let (group, left) = next_member(left)?;
    let (parent, left) = next_member(left)?;
    let at = last_event(left)?;
    Ok(Line::Born {
        group: GroupId(group),
        parent: TaskId(parent),
        at,
    })
}

/// The reason that a line gives, by its words.
#[tactic(auto, unfolding(crate::specs::CheckReading::reason_line))]
fn reason_words(left: Option<&[u8]>) -> Result<Line, Cause>
    ensures { GivesExactly (λ line. line) result (reason_line (words_left (option_copied left.entry))) }
{
    let (word, left) = next_word(left)?;
    if is(word, "hold") {
        hold_line(left)
    } else if is(word, "busy") {
        busy_line(left)
    } else if is(word, "born") {
        born_line(left)
    } else {
        Err(Cause::Cert)
    }
}

/// The claim of a certificate's first line, with no reason yet.
pub(crate) fn claim_line(alloc: Global, line: &[u8]) -> Result<Cert, Cause>
    ensures { GivesExactly (λ cert. cert) result (as_cert (claim_line (words line.now))) }
{
    match claim_words(alloc, Some(line)) {
        Ok(cert) => Ok(cert),
        Err(_) => Err(Cause::Cert),
    }
}

/// A certificate's later line.
pub(crate) fn reason_line(line: &[u8]) -> Result<Line, Cause>
    ensures { GivesExactly (λ reason. reason) result (as_cert (reason_line (words line.now))) }
{
    match reason_words(Some(line)) {
        Ok(reason) => Ok(reason),
        Err(_) => Err(Cause::Cert),
    }
}
