//! Which lines of a section have no fault, found in one pass through its time.
ghost use Rattle.std.specs.Prelude.{◌≡◌, ℕ, All, ◌+◌, ◌<◌, ◌≤◌, true, length, IfOk, OnOk};
ghost use Rattle.lp_stack.specs.declared.number.GroupId.{GroupId};
ghost use Rattle.lp_definitions.specs.declared.line.Line.{Line};
ghost use Rattle.lp_laws.specs.Blamed.{is_blamed};
ghost use Rattle.lp_checker.specs.inside.Marks.{IsMarked, AreMarked};
ghost use Rattle.lp_checker.specs.inside.Sections.{timed};
ghost use Rattle.lp_checker.specs.inside.Cursors.{leg_in};

use crate::cursor::Cursor;
use crate::lines::{Hold, is_blamed, was_busy};
use crate::sections::Section;
use lp_definitions::Line;
use lp_model::Consistency;
use std::alloc::{AllocError, Global};

/// What was found of a line so far.
#[derive(Clone, Copy)]
pub(crate) enum Mark {
    /// Nothing, or a fault.
    Open,
    /// The blame that a `hold` line begins with.
    Blamed,
    /// That it has no fault.
    Sound,
}

/// A line to be looked at just after an event, counted from 1 in the leg: where it begins, or where
/// it ends.
#[derive(Clone, Copy, PartialEq, Eq, PartialOrd, Ord)]
struct Look {
    moment: u64,
    ends: bool,
    line: usize,
}

impl Look {
    /// A look at the line of a place just after an event, with this many events up to the opening.
    fn new(number: u64, at: u64, ends: bool, line: usize) -> Look
        ensures { result.line ≡ line }
    {
        Look {
            moment: at.saturating_sub(number),
            ends,
            line,
        }
    }
}

/// A mark for each line of a section.
pub(crate) fn marks_of<M: Consistency>(
    alloc: Global,
    cursor: &mut Cursor<'_, M>,
    section: Section,
    lines: &[Line],
) -> Result<Vec<Mark>, AllocError>
    requires { section.until ≤ cursor.old.range.end }
    ensures range { cursor.new.range ≡ cursor.old.range }
    ensures marks { IfOk result (λ marks. AreMarked M.rules (leg_in cursor.old.range) (timed section) lines.now marks.items) }
{
    let mut marks = vec![in alloc; Mark::Open; lines.len()]?;
    mark_lines(alloc, cursor, section, lines, &mut marks)?;
    Ok(marks)
}

/// Marks the lines of a section, which have their marks so far.
fn mark_lines<M: Consistency>(
    alloc: Global,
    cursor: &mut Cursor<'_, M>,
    section: Section,
    lines: &[Line],
    marks: &mut [Mark],
) -> Result<(), AllocError>
    requires within { section.until ≤ cursor.old.range.end }
    requires marks { AreMarked M.rules (leg_in cursor.old.range) (timed section) lines.now marks.old }
    ensures range { cursor.new.range ≡ cursor.old.range }
    ensures marks { OnOk result (AreMarked M.rules (leg_in cursor.old.range) (timed section) lines.now marks.new) }
{
    let looks = looks_at(alloc, cursor.number(), lines)?;
    mark_by(alloc, cursor, section, lines, looks.as_slice(), marks)
}

/// Marks lines by looks at them, one after the other.
fn mark_by<M: Consistency>(
    alloc: Global,
    cursor: &mut Cursor<'_, M>,
    section: Section,
    lines: &[Line],
    looks: &[Look],
    marks: &mut [Mark],
) -> Result<(), AllocError>
    requires within { section.until ≤ cursor.old.range.end }
    requires looks { All (λ look. look.line < length lines.now) looks.now }
    requires marks { AreMarked M.rules (leg_in cursor.old.range) (timed section) lines.now marks.old }
    ensures range { cursor.new.range ≡ cursor.old.range }
    ensures marks { OnOk result (AreMarked M.rules (leg_in cursor.old.range) (timed section) lines.now marks.new) }
{
    for look in looks {
        let i = look.line;
        marks[i] = mark_at(alloc, cursor, section, look.ends, lines[i], marks[i])?;
    }
    Ok(())
}

/// The looks at lines, in the order of the events, with this many events up to the opening.
fn looks_at(alloc: Global, number: u64, lines: &[Line]) -> Result<Vec<Look>, AllocError>
    ensures { IfOk result (λ looks. All (λ look. look.line < length lines.now) looks.items) }
{
    let mut looks = Vec::new(alloc);
    for (i, line) in lines.iter().enumerate() {
        add_looks(&mut looks, number, *line, i)?;
    }
    looks.sort_unstable();
    Ok(looks)
}

/// Adds the looks at a line, which has this place among the lines.
fn add_looks(looks: &mut Vec<Look>, number: u64, line: Line, place: usize) -> Result<(), AllocError>
    ensures { OnOk result ((size : ℕ) → place < size → All (λ look. look.line < size) looks.old.items → All (λ look. look.line < size) looks.new.items) }
{
    match line {
        Line::Hold { from, to, .. } => {
            looks.push(Look::new(number, from, false, place))?;
            looks.push(Look::new(number, to, true, place))?;
        }
        Line::Busy { at, .. } => looks.push(Look::new(number, at, false, place))?,
        Line::Born { .. } => {}
    }
    Ok(())
}

/// The mark of a line that had one, after a look at where it ends or at where it begins.
fn mark_at<M: Consistency>(
    alloc: Global,
    cursor: &mut Cursor<'_, M>,
    section: Section,
    ends: bool,
    line: Line,
    mark: Mark,
) -> Result<Mark, AllocError>
    requires within { section.until ≤ cursor.old.range.end }
    requires marked { IsMarked M.rules (leg_in cursor.old.range) (timed section) line mark }
    ensures range { cursor.new.range ≡ cursor.old.range }
    ensures marked { IfOk result (λ mark. IsMarked M.rules (leg_in cursor.old.range) (timed section) line mark) }
{
    if ends {
        at_end(alloc, cursor, section, line, mark)
    } else {
        at_begin(alloc, cursor, section, line)
    }
}

/// The mark of a line by the event at which it begins.
fn at_begin<M: Consistency>(
    alloc: Global,
    cursor: &mut Cursor<'_, M>,
    section: Section,
    line: Line,
) -> Result<Mark, AllocError>
    requires { section.until ≤ cursor.old.range.end }
    ensures range { cursor.new.range ≡ cursor.old.range }
    ensures marked { IfOk result (λ mark. IsMarked M.rules (leg_in cursor.old.range) (timed section) line mark) }
{
    match line {
        Line::Hold {
            task,
            serial,
            from,
            to,
            ..
        } => {
            let hold = Hold {
                task,
                serial,
                from,
                to,
            };
            let blamed = is_blamed(alloc, cursor, section, hold)?;
            Ok(if blamed { Mark::Blamed } else { Mark::Open })
        }
        Line::Busy { task, at, .. } => {
            let busy = was_busy(alloc, cursor, section, task, at)?;
            Ok(if busy { Mark::Sound } else { Mark::Open })
        }
        Line::Born { .. } => Ok(Mark::Sound),
    }
}

/// The mark of a line that had one by the event at which it ends.
fn at_end<M: Consistency>(
    alloc: Global,
    cursor: &mut Cursor<'_, M>,
    section: Section,
    line: Line,
    mark: Mark,
) -> Result<Mark, AllocError>
    requires within { section.until ≤ cursor.old.range.end }
    requires marked { IsMarked M.rules (leg_in cursor.old.range) (timed section) line mark }
    ensures range { cursor.new.range ≡ cursor.old.range }
    ensures marked { IfOk result (λ mark. IsMarked M.rules (leg_in cursor.old.range) (timed section) line mark) }
{
    let Line::Hold {
        task,
        serial,
        from,
        to,
        ..
    } = line
    else {
        return Ok(mark);
    };
    let Mark::Blamed = mark else {
        return Ok(mark);
    };
    let hold = Hold {
        task,
        serial,
        from,
        to,
    };
    held_to_end(alloc, cursor, section, hold)
}

/// The mark of a `hold` line, whose frame was blamed at its first event, by its last one. A frame
/// that is there at both was there all the time.
fn held_to_end<M: Consistency>(
    alloc: Global,
    cursor: &mut Cursor<'_, M>,
    section: Section,
    hold: Hold,
) -> Result<Mark, AllocError>
    requires within { section.until ≤ cursor.old.range.end }
    requires blamed { (group : GroupId) → is_blamed M.rules (leg_in cursor.old.range) (timed section) (Line.Hold group hold.task hold.serial hold.from hold.to) ≡ true }
    ensures range { cursor.new.range ≡ cursor.old.range }
    ensures marked { IfOk result (λ mark. (group : GroupId) → IsMarked M.rules (leg_in cursor.old.range) (timed section) (Line.Hold group hold.task hold.serial hold.from hold.to) mark) }
{
    let Some(end) = cursor.moment_within(hold.to, section.begin, section.until) else {
        return Ok(Mark::Open);
    };
    cursor.go_to(alloc, end)?;
    if cursor.has_frame(hold.task, hold.serial) {
        Ok(Mark::Sound)
    } else {
        Ok(Mark::Open)
    }
}
