//! The lines of a certificate that tell of blames.
ghost use Rattle.std.specs.Prelude.{◌≡◌, ℕ, true, suc, ◌+◌, ◌-◌, ◌≤◌, length, map, IfOk};
ghost use Rattle.std.specs.List.{flat_map};
ghost use Rattle.lp_definitions.specs.Tasks.{first_of};
ghost use Rattle.lp_definitions.specs.declared.line.Line.{Line};
ghost use Rattle.lp_definitions.specs.Judgement.{first_bad, is_busy, is_held_by, is_on_stack, line_test, line_tests};
ghost use Rattle.lp_laws.specs.Blamed.{is_blamed};
ghost use Rattle.lp_checker.specs.inside.Marks.{was_busy, AreMarked};
ghost use Rattle.lp_checker.specs.inside.Cursors.{leg_in};
ghost use Rattle.lp_checker.specs.inside.Sections.{section_of, timed, FollowOn};

use crate::cursor::Cursor;
use crate::marks::{Mark, marks_of};
use crate::sections::Section;
use lp_definitions::{CertFault, Line};
use lp_model::{Blame, Consistency};
use lp_stack::{GroupId, TaskId};
use std::alloc::{AllocError, Global};

/// The fault of the first line at fault among those of all sections.
pub(crate) fn line_fault<M: Consistency>(
    alloc: Global,
    cursor: &mut Cursor<'_, M>,
    lines: &[Line],
    sections: &[Section],
) -> Result<Option<CertFault>, AllocError>
    requires { FollowOn (length lines.now) cursor.old.range.end 0 sections.now }
    ensures range { cursor.new.range ≡ cursor.old.range }
    ensures fault { IfOk result (λ fault. fault ≡ first_of (flat_map (line_tests M.rules (leg_in cursor.old.range)) (map (section_of lines.now) sections.now))) }
{
    for section in sections {
        let own = &lines[section.start..section.end];
        let fault = section_fault(alloc, cursor, *section, own)?;
        if fault.is_some() {
            return Ok(fault);
        }
    }
    Ok(None)
}

/// The fault of the first line at fault among those of a section.
fn section_fault<M: Consistency>(
    alloc: Global,
    cursor: &mut Cursor<'_, M>,
    section: Section,
    lines: &[Line],
) -> Result<Option<CertFault>, AllocError>
    requires { section.until ≤ cursor.old.range.end }
    ensures range { cursor.new.range ≡ cursor.old.range }
    ensures fault { IfOk result (λ fault. fault ≡ first_of (map (line_test M.rules (leg_in cursor.old.range) (timed section)) lines.now)) }
{
    let marks = marks_of(alloc, cursor, section, lines)?;
    fault_in(alloc, cursor, section, lines, marks.as_slice())
}

/// The fault of the first line at fault among those of a section. Lines that are marked as sound
/// have none.
fn fault_in<M: Consistency>(
    alloc: Global,
    cursor: &mut Cursor<'_, M>,
    section: Section,
    lines: &[Line],
    marks: &[Mark],
) -> Result<Option<CertFault>, AllocError>
    requires within { section.until ≤ cursor.old.range.end }
    requires marks { AreMarked M.rules (leg_in cursor.old.range) (timed section) lines.now marks.now }
    ensures range { cursor.new.range ≡ cursor.old.range }
    ensures fault { IfOk result (λ fault. fault ≡ first_of (map (line_test M.rules (leg_in cursor.old.range) (timed section)) lines.now)) }
{
    for (i, line) in lines.iter().enumerate() {
        if is_sound(marks[i]) {
            continue;
        }
        let fault = fault_of(alloc, cursor, section, *line)?;
        if fault.is_some() {
            return Ok(fault);
        }
    }
    Ok(None)
}

/// Whether a mark says that its line has no fault.
fn is_sound(mark: Mark) -> bool
    ensures { result ≡ true → mark ≡ Mark.Sound }
{
    matches!(mark, Mark::Sound)
}

/// The fault of a line of a section.
fn fault_of<M: Consistency>(
    alloc: Global,
    cursor: &mut Cursor<'_, M>,
    section: Section,
    line: Line,
) -> Result<Option<CertFault>, AllocError>
    requires { section.until ≤ cursor.old.range.end }
    ensures range { cursor.new.range ≡ cursor.old.range }
    ensures fault { IfOk result (λ fault. fault ≡ line_test M.rules (leg_in cursor.old.range) (timed section) line) }
{
    match line {
        Line::Hold {
            task,
            serial,
            from,
            to,
            ..
        } => {
            let hold = Hold {
                task,
                serial,
                from,
                to,
            };
            hold_fault(alloc, cursor, section, hold)
        },
        Line::Busy { task, at, .. } => busy_fault(alloc, cursor, section, task, at),
        Line::Born { .. } => Ok(None),
    }
}

/// A `hold` line, without its group.
#[derive(Clone, Copy)]
pub(crate) struct Hold {
    pub(crate) task: TaskId,
    pub(crate) serial: u64,
    pub(crate) from: u64,
    pub(crate) to: u64,
}

/// The fault of a `hold` line of a section.
fn hold_fault<M: Consistency>(
    alloc: Global,
    cursor: &mut Cursor<'_, M>,
    section: Section,
    hold: Hold,
) -> Result<Option<CertFault>, AllocError>
    requires { section.until ≤ cursor.old.range.end }
    ensures range { cursor.new.range ≡ cursor.old.range }
    ensures fault { IfOk result (λ fault. (group : GroupId) → fault ≡ line_test M.rules (leg_in cursor.old.range) (timed section) (Line.Hold group hold.task hold.serial hold.from hold.to)) }
{
    if !is_blamed(alloc, cursor, section, hold)? {
        return Ok(Some(CertFault::NoBlame(hold.from)));
    }
    match first_off(alloc, cursor, section, hold)? {
        None => Ok(None),
        Some(moment) => {
            let left = cursor.number() + moment as u64;
            Ok(Some(CertFault::NotOnStack(left)))
        }
    }
}

/// The first event of a `hold` line, by its place in the leg, after which its frame isn't on the
/// task's stack.
fn first_off<M: Consistency>(
    alloc: Global,
    cursor: &mut Cursor<'_, M>,
    section: Section,
    hold: Hold,
) -> Result<Option<usize>, AllocError>
    requires within { section.until ≤ cursor.old.range.end }
    requires blamed { (group : GroupId) → is_blamed M.rules (leg_in cursor.old.range) (timed section) (Line.Hold group hold.task hold.serial hold.from hold.to) ≡ true }
    ensures range { cursor.new.range ≡ cursor.old.range }
    ensures off { let leg = leg_in cursor.old.range in let begin = hold.from - leg.number in IfOk result (λ off. off ≡ first_bad (suc (hold.to - leg.number) - begin) begin (is_on_stack M.rules leg hold.task.0 hold.serial)) }
{
    let begin = cursor.moment_of(hold.from) as usize;
    let end = cursor.moment_of(hold.to) as usize;
    for moment in begin..end + 1 {
        cursor.go_to(alloc, moment)?;
        if !cursor.has_frame(hold.task, hold.serial) {
            return Ok(Some(moment));
        }
    }
    Ok(None)
}

/// Whether a `hold` line lies in its section's time, and its frame is blamed at its first event. The
/// cursor goes there.
pub(crate) fn is_blamed<M: Consistency>(
    alloc: Global,
    cursor: &mut Cursor<'_, M>,
    section: Section,
    hold: Hold,
) -> Result<bool, AllocError>
    requires { section.until ≤ cursor.old.range.end }
    ensures range { cursor.new.range ≡ cursor.old.range }
    ensures blamed { IfOk result (λ b. (group : GroupId) → b ≡ is_blamed M.rules (leg_in cursor.old.range) (timed section) (Line.Hold group hold.task hold.serial hold.from hold.to)) }
{
    if hold.from > hold.to {
        return Ok(false);
    }
    let Some(begin) = cursor.moment_within(hold.from, section.begin, section.until) else {
        return Ok(false);
    };
    let Some(_) = cursor.moment_within(hold.to, section.begin, section.until) else {
        return Ok(false);
    };
    cursor.go_to(alloc, begin)?;
    let blame = cursor.blame(section.group, hold.task);
    Ok(is_held_by(blame, hold.serial))
}

/// The fault of a `busy` line of a section.
fn busy_fault<M: Consistency>(
    alloc: Global,
    cursor: &mut Cursor<'_, M>,
    section: Section,
    task: TaskId,
    at: u64,
) -> Result<Option<CertFault>, AllocError>
    requires { section.until ≤ cursor.old.range.end }
    ensures range { cursor.new.range ≡ cursor.old.range }
    ensures fault { IfOk result (λ fault. (group : GroupId) → fault ≡ line_test M.rules (leg_in cursor.old.range) (timed section) (Line.Busy group task at)) }
{
    if was_busy(alloc, cursor, section, task, at)? {
        Ok(None)
    } else {
        Ok(Some(CertFault::NoBlame(at)))
    }
}

/// Whether the event of a `busy` line lies in its section's time, and its task is busy at it. The
/// cursor goes there.
pub(crate) fn was_busy<M: Consistency>(
    alloc: Global,
    cursor: &mut Cursor<'_, M>,
    section: Section,
    task: TaskId,
    at: u64,
) -> Result<bool, AllocError>
    requires { section.until ≤ cursor.old.range.end }
    ensures range { cursor.new.range ≡ cursor.old.range }
    ensures busy { IfOk result (λ b. b ≡ was_busy M.rules (leg_in cursor.old.range) (timed section) task.0 at) }
{
    let Some(moment) = cursor.moment_within(at, section.begin, section.until) else {
        return Ok(false);
    };
    cursor.go_to(alloc, moment)?;
    Ok(is_busy(cursor.blame(section.group, task)))
}

/// Whether a blame is that of the frame with a serial.
fn is_held_by(blame: Option<Blame>, serial: u64) -> bool
    ensures { result ≡ is_held_by serial blame }
{
    match blame {
        Some(Blame::Frame(by)) => by == serial,
        _ => false,
    }
}

/// Whether a blame is that of a task on a CPU.
fn is_busy(blame: Option<Blame>) -> bool
    ensures { result ≡ is_busy blame }
{
    matches!(blame, Some(Blame::Busy))
}
