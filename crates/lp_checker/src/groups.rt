//! The groups that a certificate names.
ghost use Rattle.std.specs.Prelude.{◌≡◌, ℕ, ◌+◌, ◌-◌, ◌≤◌, ◌&&◌, pred, false, not, length, nat_eq, IfOk};
ghost use Rattle.std.specs.List.{list_any};
ghost use Rattle.std.specs.Option.{option_map};
ghost use Rattle.lp_definitions.specs.Chain.{nobody};
ghost use Rattle.lp_definitions.specs.Leg.{Leg, after, has_member};
ghost use Rattle.lp_definitions.specs.Schedule.{waits};
ghost use Rattle.lp_machine.specs.Table.{slot};
ghost use Rattle.lp_definitions.specs.Tasks.{outlines};
ghost use Rattle.lp_model.specs.Rules.{Rules};
ghost use Rattle.lp_checker.specs.inside.Births.{group_or_0};
ghost use Rattle.lp_checker.specs.inside.Cursors.{leg_in};
ghost use Rattle.lp_checker.specs.inside.Sections.{AreInOrder, is_waiting_member};
ghost use Rattle.lp_definitions.specs.Judgement.{births, first_group, first_lines, has_stray, last_group, no_such_group, sections};

use crate::cursor::Cursor;
use lp_definitions::Line;
use lp_model::Consistency;
use lp_numbers::NUMBERS;
use lp_stack::{GroupId, TaskId};
use std::alloc::{AllocError, Global};

/// The group of the last `born` line; the first group where there is none.
pub(crate) fn last_group(lines: &[Line], first: GroupId) -> GroupId
    ensures { result.0 ≡ last_group first.0 (births lines.now) }
{
    let mut group = first;
    for line in lines {
        if let Line::Born { group: born, .. } = *line {
            group = born;
        }
    }
    group
}

/// Whether a line names another group than its section's; the first section is that of the first
/// group.
pub(crate) fn has_stray(lines: &[Line], first: GroupId) -> bool
    ensures { (model : Rules) (leg : Leg) (last begin : ℕ) → result ≡ list_any (has_stray model leg) (sections model leg last first.0 begin (first_lines lines.now) (births lines.now)) }
{
    let mut section = first;
    for line in lines {
        match *line {
            Line::Born { group, .. } => section = group,
            Line::Hold { group, .. } | Line::Busy { group, .. } => {
                if group.0 != section.0 {
                    return true;
                }
            }
        }
    }
    false
}

/// Whether the births lead to another group than the claimed one, the first group doesn't wait at
/// the opening, a line names another group than its section's, or the claimed group has no live
/// member at the end.
pub(crate) fn is_no_such_group<M: Consistency>(
    alloc: Global,
    cursor: &mut Cursor<'_, M>,
    lines: &[Line],
    first: GroupId,
    claimed: GroupId,
) -> Result<bool, AllocError>
    ensures range { cursor.new.range ≡ cursor.old.range }
    ensures none { let leg = leg_in cursor.old.range in let last = cursor.old.range.end in let rest = births lines.now in IfOk result (λ none. none ≡ no_such_group M.rules leg last claimed.0 first.0 rest (sections M.rules leg last first.0 0 (first_lines lines.now) rest)) }
{
    if last_group(lines, first).0 != claimed.0 {
        return Ok(true);
    }
    if !waits_at_opening(cursor, first) {
        return Ok(true);
    }
    if has_stray(lines, first) {
        return Ok(true);
    }
    cursor.go_to(alloc, cursor.end())?;
    Ok(!cursor.has_member(claimed))
}

/// Whether a group has a live member off the target at the opening.
fn waits_at_opening<M: Consistency>(cursor: &Cursor<'_, M>, group: GroupId) -> bool
    ensures { result ≡ waits M.rules (leg_in cursor.now.range) nobody 0 group.0 }
{
    let _ = cursor.number();
    for number in 0..NUMBERS {
        if cursor.was_waiting(TaskId(number as u16), group) {
            return true;
        }
    }
    false
}

/// The group of the first birth's parent just before it; the claimed group where there is no birth. A birth past the cursor's end
/// is looked at there: it is none, and which group is told then counts for nothing.
pub(crate) fn first_group<M: Consistency>(
    alloc: Global,
    cursor: &mut Cursor<'_, M>,
    lines: &[Line],
    claimed: GroupId,
) -> Result<GroupId, AllocError>
    ensures range { cursor.new.range ≡ cursor.old.range }
    ensures group { AreInOrder (leg_in cursor.old.range) cursor.old.range.end 0 (births lines.now) → IfOk result (λ group. group.0 ≡ first_group M.rules (leg_in cursor.old.range) claimed.0 (births lines.now)) }
{
    for line in lines {
        if let Line::Born { parent, at, .. } = *line {
            let moment = cursor.moment_of(at).min(cursor.end() as u64) as usize;
            return group_before(alloc, cursor, moment, parent);
        }
    }
    Ok(claimed)
}

/// The group of a live task just before an event; group 0 for any other task.
fn group_before<M: Consistency>(
    alloc: Global,
    cursor: &mut Cursor<'_, M>,
    moment: usize,
    task: TaskId,
) -> Result<GroupId, AllocError>
    requires { moment ≤ cursor.old.range.end }
    ensures range { cursor.new.range ≡ cursor.old.range }
    ensures group { IfOk result (λ group. group.0 ≡ group_or_0 (after M.rules (leg_in cursor.old.range) (pred moment) task.0)) }
{
    cursor.go_to(alloc, moment.saturating_sub(1))?;
    match cursor.group_of(task) {
        Some(group) => Ok(group),
        None => Ok(GroupId(0)),
    }
}
