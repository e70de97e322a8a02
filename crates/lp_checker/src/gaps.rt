//! The checks of which no line of a certificate says why they refused.
ghost use Rattle.std.specs.Prelude.{◌≡◌, ℕ, suc, ◌+◌, ◌-◌, ◌<◌, ◌≤◌, ◌||◌, None, length, map, is_none, nat_eq, nat_le, slice_index, slice_set, take, max, IfOk};
ghost use Rattle.std.specs.List.{list_any};
ghost use Rattle.lp_model.specs.Rules.{Rules};
ghost use Rattle.lp_definitions.specs.Tasks.{first_of};
ghost use Rattle.lp_definitions.specs.Leg.{Leg, check};
ghost use Rattle.lp_checker.specs.inside.Cursors.{leg_in};
ghost use Rattle.lp_definitions.specs.Judgement.{covers, first_bad, gap_test};
ghost use Rattle.lp_checker.specs.inside.Sections.{section_of, with_lines, FollowOn};
ghost use Rattle.lp_checker.specs.inside.Spans.{span_of, AreEnds};

use crate::cursor::Cursor;
use crate::sections::Section;
use lp_definitions::{CertFault, Line};
use lp_model::Consistency;
use std::alloc::{AllocError, Global};

/// The fault of the first section with a check that no line covers.
pub(crate) fn gap_fault<M: Consistency>(
    alloc: Global,
    cursor: &mut Cursor<'_, M>,
    lines: &[Line],
    sections: &[Section],
) -> Result<Option<CertFault>, AllocError>
    requires { FollowOn (length lines.now) cursor.old.range.end 0 sections.now }
    ensures range { cursor.new.range ≡ cursor.old.range }
    ensures fault { IfOk result (λ fault. fault ≡ first_of (map (gap_test M.rules (leg_in cursor.old.range)) (map (section_of lines.now) sections.now))) }
{
    for section in sections {
        let own = &lines[section.start..section.end];
        let fault = gap_in(alloc, cursor, *section, own)?;
        if fault.is_some() {
            return Ok(fault);
        }
    }
    Ok(None)
}

/// The fault of a section, with its lines, that has a check which no line covers.
fn gap_in<M: Consistency>(
    alloc: Global,
    cursor: &mut Cursor<'_, M>,
    section: Section,
    lines: &[Line],
) -> Result<Option<CertFault>, AllocError>
    requires order { section.begin ≤ section.until }
    requires within { section.until ≤ cursor.old.range.end }
    ensures range { cursor.new.range ≡ cursor.old.range }
    ensures fault { IfOk result (λ fault. fault ≡ gap_test M.rules (leg_in cursor.old.range) (with_lines lines.now section)) }
{
    let number = cursor.number();
    let ends = ends_by(alloc, number, section, lines)?;
    match first_gap(alloc, cursor, section, ends.as_slice())? {
        None => Ok(None),
        Some(place) => Ok(Some(CertFault::Gap(number + place as u64 + 1))),
    }
}

/// The first event of a section's time, by its place from 0, that is a check of its group and
/// later than the spans that begin by then.
fn first_gap<M: Consistency>(
    alloc: Global,
    cursor: &mut Cursor<'_, M>,
    section: Section,
    ends: &[u64],
) -> Result<Option<usize>, AllocError>
    requires order { section.begin ≤ section.until }
    requires within { section.until ≤ cursor.old.range.end }
    requires all { section.until - section.begin < length ends.now }
    ensures range { cursor.new.range ≡ cursor.old.range }
    ensures gap { IfOk result (λ gap. gap ≡ first_bad (section.until - section.begin) section.begin (λ place. is_none (check M.rules (leg_in cursor.old.range) place section.group.0) || nat_le (suc place) (slice_index ends.now (suc place - section.begin)))) }
{
    for place in section.begin..section.until {
        cursor.go_to(alloc, place + 1)?;
        let check = cursor.check(section.group);
        if check.is_some() && ends[place + 1 - section.begin] <= place as u64 {
            return Ok(Some(place));
        }
    }
    Ok(None)
}

/// The events that a line tells of, from one to another.
#[derive(Clone, Copy)]
struct Span {
    from: u64,
    to: u64,
}

/// The span of a line; None for a birth.
fn span_of(line: Line) -> Option<Span>
    ensures { result ≡ span_of line }
{
    match line {
        Line::Hold { from, to, .. } => Some(Span { from, to }),
        Line::Busy { at, .. } => Some(Span { from: at, to: at }),
        Line::Born { .. } => None,
    }
}

/// For each moment of a section's time, counted from its beginning, the last end of the spans that
/// begin by then.
fn ends_by(
    alloc: Global,
    number: u64,
    section: Section,
    lines: &[Line],
) -> Result<Vec<u64>, AllocError>
    requires order { section.begin ≤ section.until }
    requires room { section.until ≤ 1000000 }
    ensures all { IfOk result (λ ends. length ends.items ≡ section.until - section.begin + 1) }
    ensures covers { IfOk result (λ ends. (model : Rules) (leg : Leg) (moment : ℕ) → leg.number ≡ number → section.begin < moment → moment ≤ section.until → nat_le moment (slice_index ends.items (moment - section.begin)) ≡ list_any (covers model leg moment) lines.now) }
{
    let mut ends = own_ends(alloc, number, section, lines)?;
    keep_greatest(&mut ends);
    Ok(ends)
}

/// Puts at each place the greatest of the numbers up to it.
fn keep_greatest(numbers: &mut [u64])
    ensures { (place bound : ℕ) → place < length numbers.old → 0 < bound → nat_le bound (slice_index numbers.new place) ≡ list_any (nat_le bound) (take (suc place) numbers.old) }
{
    let mut greatest = 0u64;
    for number in numbers.iter_mut() {
        greatest = greatest.max(*number);
        *number = greatest;
    }
}

/// For each moment of a section's time, counted from its beginning, the last end of the spans that
/// begin at it. Those that begin earlier stand at the beginning.
///
/// It counts moments from the opening's number itself: to be given a cursor for that alone, it would have to be compiled for
/// each model.
fn own_ends(
    alloc: Global,
    number: u64,
    section: Section,
    lines: &[Line],
) -> Result<Vec<u64>, AllocError>
    requires order { section.begin ≤ section.until }
    requires room { section.until ≤ 1000000 }
    ensures all { IfOk result (λ ends. length ends.items ≡ section.until - section.begin + 1) }
    ensures ends { IfOk result (λ ends. AreEnds number section.begin (section.until - section.begin) (λ place at. nat_eq at place) lines.now ends.items) }
{
    let last = section.until - section.begin;
    let mut ends = zeros(alloc, last + 1)?;
    for line in lines {
        let Some(span) = span_of(*line) else {
            continue;
        };
        let begin = span.from.saturating_sub(number);
        let place = begin.saturating_sub(section.begin as u64);
        if place <= last as u64 {
            raise(&mut ends, place as usize, span.to.saturating_sub(number));
        }
    }
    Ok(ends)
}

/// Puts a number at a place, where the one there is less.
fn raise(numbers: &mut [u64], place: usize, number: u64)
    requires { place < length numbers.old }
    ensures { numbers.new ≡ slice_set numbers.old place (max (slice_index numbers.old place) number) }
{
    numbers[place] = numbers[place].max(number);
}

/// As many zeros as are asked for.
fn zeros(alloc: Global, count: usize) -> Result<Vec<u64>, AllocError>
    ensures zero { IfOk result (λ numbers. (n : ℕ) → slice_index numbers.items n ≡ 0) }
    ensures count { IfOk result (λ numbers. length numbers.items ≡ count) }
{
    vec![in alloc; 0; count]
}
