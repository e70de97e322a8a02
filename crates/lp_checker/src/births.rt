//! The births of a certificate.
ghost use Rattle.std.specs.Prelude.{◌≡◌, ℕ, ◌<◌, ◌≤◌, pred, nat_eq, IfOk};
ghost use Rattle.std.specs.Option.{option_map};
ghost use Rattle.lp_definitions.specs.Tasks.{first_of};
ghost use Rattle.lp_definitions.specs.Leg.{accepted, after};
ghost use Rattle.lp_checker.specs.inside.Births.{group_in, group_or_0, is_own_fork, group_now};
ghost use Rattle.lp_checker.specs.inside.Cursors.{leg_in};
ghost use Rattle.lp_definitions.specs.Judgement.{births, birth_tests, first_group};

use crate::cursor::Cursor;
use lp_definitions::{CertFault, Event, Line};
use lp_model::Consistency;
use lp_stack::{GroupId, TaskId};
use std::alloc::{AllocError, Global};

/// A `born` line, with the place of its event in the leg, from 1.
#[derive(Clone, Copy)]
struct BornLine {
    group: GroupId,
    parent: TaskId,
    moment: usize,
}

/// The fault of the first `born` line that is no birth, of those up to the cursor's end.
pub(crate) fn birth_fault<M: Consistency>(
    alloc: Global,
    cursor: &mut Cursor<'_, M>,
    lines: &[Line],
) -> Result<Option<CertFault>, AllocError>
    ensures range { cursor.new.range ≡ cursor.old.range }
    ensures fault { let leg = leg_in cursor.old.range in let rest = births lines.now in IfOk result (λ fault. (claimed : ℕ) → fault ≡ first_of (birth_tests M.rules leg cursor.old.range.end (first_group M.rules leg claimed rest) 0 rest)) }
{
    let last = cursor.end();
    let mut begin = 0;
    let mut from = None;
    for line in lines {
        let Line::Born { group, parent, at } = *line else {
            continue;
        };
        let Some(moment) = cursor.moment_within(at, begin, last) else {
            return Ok(Some(CertFault::BadBirth(at)));
        };
        let birth = BornLine {
            group,
            parent,
            moment,
        };
        if !is_birth(alloc, cursor, from, birth)? {
            return Ok(Some(CertFault::BadBirth(at)));
        }
        begin = moment;
        from = Some(group);
    }
    Ok(None)
}

/// Whether a birth is one, by a parent of the group of the birth before, if there was one.
fn is_birth<M: Consistency>(
    alloc: Global,
    cursor: &mut Cursor<'_, M>,
    from: Option<GroupId>,
    birth: BornLine,
) -> Result<bool, AllocError>
    requires event { 0 < birth.moment }
    requires within { birth.moment ≤ cursor.old.range.end }
    ensures range { cursor.new.range ≡ cursor.old.range }
    ensures birth { let leg = leg_in cursor.old.range in IfOk result (λ b. b ≡ is_own_fork M.rules (accepted M.rules leg (pred birth.moment)) (group_in (after M.rules leg (pred birth.moment) birth.parent.0)) (group_now from (group_or_0 (after M.rules leg (pred birth.moment) birth.parent.0))) birth.group.0 birth.parent.0) }
{
    cursor.go_to(alloc, birth.moment - 1)?;
    let own = cursor.group_of(birth.parent);
    cursor.go_to(alloc, birth.moment)?;
    Ok(is_own_fork(cursor.model(), cursor.event(), own, from, birth))
}

/// A fork into the parent's own group is no birth: the child's waiting is the group's.
fn is_own_fork<M: Consistency>(
    model: M,
    event: Option<Event>,
    own: Option<GroupId>,
    from: Option<GroupId>,
    birth: BornLine,
) -> bool
    ensures { result ≡ is_own_fork M.rules event (option_map (λ g. g.0) own) (group_now from (group_now own 0)) birth.group.0 birth.parent.0 }
{
    let Some(Event::Fork(parent, child, how)) = event else {
        return false;
    };
    let Some(home) = own else {
        return false;
    };
    if parent.0 != birth.parent.0 {
        return false;
    }
    if child.0 != birth.group.0 {
        return false;
    }
    if !is_same_group(home, from) {
        return false;
    }
    model.child_group(home, child, how).0 == birth.group.0
}

/// Of the first birth no group is given: its parent's group is the first group, whichever it is.
fn is_same_group(group: GroupId, given: Option<GroupId>) -> bool
    ensures { result ≡ nat_eq group.0 (group_now given group.0) }
{
    match given {
        Some(other) => group.0 == other.0,
        None => true,
    }
}
