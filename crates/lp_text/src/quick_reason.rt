//! Lines of a certificate that are read by their first four bytes at once.
ghost use Rattle.std.specs.Prelude.{◌≡◌, ◌++◌, ◌∷◌, codes, decimal, IfSome};
ghost use Rattle.lp_text.specs.CheckTexts.{IsEventNumber, IsMember};
ghost use Rattle.lp_text.specs.inside.QuickLines.{BeginsWithReason};

use crate::quick::{after, first_four, number_before};
use lp_definitions::Line;
use lp_numbers::NUMBERS;
use lp_stack::{GroupId, TaskId};

/// The bytes `hold` as a number, the first one lowest; likewise the others.
const HOLD: u32 = 0x646c_6f68;

const BUSY: u32 = 0x7973_7562;

const BORN: u32 = 0x6e72_6f62;

/// The reason that the line gives with which a text begins, and what stands after the line. None says nothing of the text,
/// whose line is then read word by word.
#[inline(always)]
pub(crate) fn quick_reason(text: &[u8]) -> Option<(Line, &[u8])>
    ensures { IfSome result (λ x. BeginsWithReason text.now x.0 x.1.now) }
{
    let (word, rest) = first_four(text)?;
    match word {
        BUSY => busy_rest(rest),
        HOLD => hold_rest(rest),
        BORN => born_rest(rest),
        _ => None,
    }
}

/// The rest of a line after `busy`.
#[inline(always)]
fn busy_rest(text: &[u8]) -> Option<(Line, &[u8])>
    ensures { IfSome result (λ x. BeginsWithReason (codes "busy" ++ text.now) x.0 x.1.now) }
{
    let (group, second) = member(text)?;
    let (task, third) = member(second)?;
    let (at, last) = event_number(third)?;
    let more = after(b'\n', last)?;
    let reason = Line::Busy {
        group: GroupId(group),
        task: TaskId(task),
        at,
    };
    Some((reason, more))
}

/// The rest of a line after `born`.
#[inline(always)]
fn born_rest(text: &[u8]) -> Option<(Line, &[u8])>
    ensures { IfSome result (λ x. BeginsWithReason (codes "born" ++ text.now) x.0 x.1.now) }
{
    let (group, second) = member(text)?;
    let (parent, third) = member(second)?;
    let (at, last) = event_number(third)?;
    let more = after(b'\n', last)?;
    let reason = Line::Born {
        group: GroupId(group),
        parent: TaskId(parent),
        at,
    };
    Some((reason, more))
}

/// The rest of a line after `hold`.
#[inline(always)]
fn hold_rest(text: &[u8]) -> Option<(Line, &[u8])>
    ensures { IfSome result (λ x. BeginsWithReason (codes "hold" ++ text.now) x.0 x.1.now) }
{
    let (group, second) = member(text)?;
    let (task, third) = member(second)?;
    let (serial, fourth) = event_number(third)?;
    let (from, fifth) = event_number(fourth)?;
    let (to, last) = event_number(fifth)?;
    let more = after(b'\n', last)?;
    let reason = Line::Hold {
        group: GroupId(group),
        task: TaskId(task),
        serial,
        from,
        to,
    };
    Some((reason, more))
}

/// The number of a group or a task after a space, with which a text begins, and what stands after it.
#[inline(always)]
fn member(text: &[u8]) -> Option<(u16, &[u8])>
    ensures member { IfSome result (λ x. IsMember x.0) }
    ensures whole { IfSome result (λ x. text.now ≡ 32 ∷ (decimal x.0 ++ x.1.now)) }
{
    let (number, rest) = number_before(5, after(b' ', text)?)?;
    if number >= NUMBERS as u32 {
        return None;
    }
    Some((number as u16, rest))
}

/// The number of an event after a space, with which a text begins, and what stands after it.
#[inline(always)]
fn event_number(text: &[u8]) -> Option<(u64, &[u8])>
    ensures event { IfSome result (λ x. IsEventNumber x.0) }
    ensures whole { IfSome result (λ x. text.now ≡ 32 ∷ (decimal x.0 ++ x.1.now)) }
{
    let (number, rest) = number_before(7, after(b' ', text)?)?;
    Some((u64::from(number), rest))
}
