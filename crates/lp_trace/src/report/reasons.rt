//! Writing the reasons of certificates, a line each.
ghost use Rattle.std.specs.Prelude.{◌≡◌, ◌≤◌, ◌∷◌, ◌++◌, [], decimal, map, option_to_list, take, IfNone, IsFalse, IsTrue};
ghost use Rattle.lp_cert.specs.Parts.{busy_scan_lines};
ghost use Rattle.lp_text.specs.CertTexts.{reason_words};
ghost use Rattle.lp_text.specs.Words.{line_of};
ghost use Rattle.lp_text.specs.inside.Writing.{Puts, seen_of};
ghost use Rattle.lp_trace.specs.inside.KeptLines.{text_of};

use super::busy::BusyText;
use crate::held::Held;
use crate::page::Page;
use crate::place::SHORT;
use lp_cert::{BusyScans, CertLines, Line};
use lp_text::{Counted, WriteFault};
use std::io::Write;

/// Puts the first of these reasons, where there is one, and those that are left after it.
#[inline(always)]
pub(super) fn put_each<W: Write>(
    page: &mut Page,
    writer: &mut Counted<W>,
    busy: &mut BusyText,
    first: Option<Line>,
    reasons: &mut CertLines<'_>,
) -> Result<(), WriteFault>
    requires { IfNone first (reasons.old ≡ []) }
    ensures { Puts (seen_of W.contents writer.old) (seen_of W.contents writer.new) page.old.held.items page.new.held.items result (text_of (option_to_list first ++ reasons.old)) }
{
    let mut next = first;
    while let Some(reason) = next {
        if !hold_reason(&mut page.held, busy, &reason) {
            put_reason(page, writer, &reason)?;
        }
        let run = reasons.take_run();
        if !run.scans.is_empty() {
            put_scans(page, writer, busy, run)?;
        }
        next = reasons.next();
    }
    Ok(())
}

/// Puts the lines of a busy run, each without a look at what comes next.
#[inline(never)]
fn put_scans<W: Write>(
    page: &mut Page,
    writer: &mut Counted<W>,
    busy: &mut BusyText,
    run: BusyScans<'_>,
) -> Result<(), WriteFault>
    ensures { Puts (seen_of W.contents writer.old) (seen_of W.contents writer.new) page.old.held.items page.new.held.items result (text_of (busy_scan_lines run.entry)) }
{
    for scan in run.scans {
        let at = u64::from(*scan);
        if !busy.hold(&mut page.held, run.group, run.task, at) {
            let (group, task) = (run.group, run.task);
            put_reason(page, writer, &Line::Busy { group, task, at })?;
        }
    }
    Ok(())
}

/// The first word of a reason's line, of four bytes, and the numbers that follow it: so many of these.
#[inline(always)]
fn reason_parts(reason: &Line) -> (&'static [u8; SHORT], [u64; 5], usize)
    ensures words { take 4 result.0.now ∷ map decimal (take result.2 result.1) ≡ reason_words reason.now }
    ensures few { result.2 ≤ 5 }
{
    match *reason {
        Line::Hold {
            group,
            task,
            serial,
            from,
            to,
        } => {
            let (group, task) = (u64::from(group.0), u64::from(task.0));
            (b"hold............", [group, task, serial, from, to], 5)
        }
        Line::Busy { group, task, at } => {
            let (group, task) = (u64::from(group.0), u64::from(task.0));
            (b"busy............", [group, task, at, 0, 0], 3)
        }
        Line::Born { group, parent, at } => {
            let (group, parent) = (u64::from(group.0), u64::from(parent.0));
            (b"born............", [group, parent, at, 0, 0], 3)
        }
    }
}

/// Holds the line of a reason where there is room, and says whether it did.
#[inline(always)]
pub(super) fn hold_line(held: &mut Held, reason: &Line) -> bool
    ensures taken { IsTrue result → held.new.items ≡ held.old.items ++ line_of (reason_words reason.now) }
    ensures kept { IsFalse result → held.new.items ≡ held.old.items }
{
    let (word, numbers, count) = reason_parts(reason);
    held.hold_numbers(word, 4, &numbers[..count])
}

/// The same, by the text of the busy member before where the line is one of those, of which there are the most.
#[inline(always)]
fn hold_reason(held: &mut Held, busy: &mut BusyText, reason: &Line) -> bool
    ensures taken { IsTrue result → held.new.items ≡ held.old.items ++ line_of (reason_words reason.now) }
    ensures kept { IsFalse result → held.new.items ≡ held.old.items }
{
    match *reason {
        Line::Busy { group, task, at } => busy.hold(held, group, task, at),
        Line::Hold { .. } | Line::Born { .. } => hold_line(held, reason),
    }
}

/// Puts the line of a reason, where there may be no room to hold it.
#[inline(never)]
fn put_reason<W: Write>(
    page: &mut Page,
    writer: &mut Counted<W>,
    reason: &Line,
) -> Result<(), WriteFault>
    ensures { Puts (seen_of W.contents writer.old) (seen_of W.contents writer.new) page.old.held.items page.new.held.items result (line_of (reason_words reason.now)) }
{
    let (word, numbers, count) = reason_parts(reason);
    page.put_numbers(writer, word, 4, &numbers[..count])
}
