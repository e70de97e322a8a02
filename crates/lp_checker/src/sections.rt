//! The sections of a certificate: a group each, its time in the leg, and its lines.
ghost use Rattle.std.specs.Prelude.{◌≡◌, map, length, IfOk};
ghost use Rattle.lp_checker.specs.inside.Cursors.{leg_in};
ghost use Rattle.lp_definitions.specs.Judgement.{births, first_lines, sections};
ghost use Rattle.lp_checker.specs.inside.Sections.{section_of, AreInOrder, FollowOn};

use crate::cursor::Cursor;
use lp_definitions::Line;
use lp_model::Consistency;
use lp_stack::GroupId;
use std::alloc::{AllocError, Global};

/// A group from a place in the leg up to another, and which of a certificate's lines are of it.
#[derive(Clone, Copy)]
pub(crate) struct Section {
    pub(crate) group: GroupId,
    /// The group's time begins after so many events of the leg.
    pub(crate) begin: usize,
    /// It ends with this event of the leg, from 1.
    pub(crate) until: usize,
    /// The first of its lines.
    pub(crate) start: usize,
    /// The place after its last line.
    pub(crate) end: usize,
}

/// The sections of a certificate, the first of which is that of the first group. Each birth ends
/// one and begins the next.
pub(crate) fn sections<M: Consistency>(
    alloc: Global,
    cursor: &Cursor<'_, M>,
    lines: &[Line],
    first: GroupId,
) -> Result<Vec<Section>, AllocError>
    requires { AreInOrder (leg_in cursor.now.range) cursor.now.range.end 0 (births lines.now) }
    ensures sections { IfOk result (λ parts. map (section_of lines.now) parts.items ≡ sections M.rules (leg_in cursor.now.range) cursor.now.range.end first.0 0 (first_lines lines.now) (births lines.now)) }
    ensures times { IfOk result (λ parts. FollowOn (length lines.now) cursor.now.range.end 0 parts.items) }
{
    let last = cursor.end();
    let mut parts = Vec::new(alloc);
    let mut part = Section {
        group: first,
        begin: 0,
        until: last,
        start: 0,
        end: lines.len(),
    };
    for (i, line) in lines.iter().enumerate() {
        if let Line::Born { group, at, .. } = *line {
            let moment = cursor.moment_of(at) as usize;
            parts.push(Section {
                until: moment,
                end: i,
                ..part
            })?;
            part = Section {
                group,
                begin: moment,
                start: i + 1,
                ..part
            };
        }
    }
    parts.push(part)?;
    Ok(parts)
}
