//! The lines of a certificate, one at a time.
ghost use Rattle.std.specs.Prelude.{◌≡◌, ◌<◌, ◌≤◌, ◌++◌, [], drop, length, option_to_list, reverse, slice_get, take, IfNone, IfOk};
ghost use Rattle.std.specs.List.{AllByRecursion};
ghost use Rattle.lp_cert.specs.Heads.{lines_of};
ghost use Rattle.lp_cert.specs.inside.Heads.{FitsIn};
ghost use Rattle.lp_cert.specs.inside.Parts.{reasons_left};
ghost use Rattle.lp_cert.specs.Parts.{busy_scan_lines};

use crate::oldest_first::OldestFirst;
use crate::reason::Reason;
use lp_definitions::{Line, LineList};
use lp_stack::{GroupId, TaskId};
use std::alloc::{AllocError, Global};
use std::marker::Model;

/// The scans that are left at which a member is busy.
#[derive(Clone, Copy)]
pub struct BusyScans<'a> {
    pub group: GroupId,
    pub task: TaskId,
    /// The events of the scans.
    pub scans: &'a [u32],
}

impl BusyScans<'_> {
    /// The next line, if one is left.
    fn next(&mut self) -> Option<Line>
        ensures lines { busy_scan_lines self.old ≡ option_to_list result ++ busy_scan_lines self.new }
        ensures none { IfNone result (busy_scan_lines self.old ≡ []) }
    {
        let (at, later) = self.scans.split_first()?;
        self.scans = later;
        Some(Line::Busy {
            group: self.group,
            task: self.task,
            at: u64::from(*at),
        })
    }
}

/// The lines of a certificate that are left, the oldest first. No call allocates.
///
/// Contracts see the list of these lines.
#[derive(Drop)]
pub struct CertLines<'a> {
    scans: &'a [u32],
    run: BusyScans<'a>,
    /// None where there is none: a search needs much more room than this.
    reasons: Option<OldestFirst<'a>>,
}

impl<'a> Model for CertLines<'a> {
    ghost use Rattle.std.specs.Prelude.{◌++◌, List, length, reverse};
    ghost use Rattle.std.specs.List.{AllByRecursion};
    ghost use Rattle.lp_definitions.specs.declared.line.Line.{Line};
    ghost use Rattle.lp_cert.specs.Heads.{lines_of};
    ghost use Rattle.lp_cert.specs.inside.Heads.{FitsIn};
    ghost use Rattle.lp_cert.specs.inside.Parts.{reasons_left};
    ghost use Rattle.lp_cert.specs.Parts.{busy_scan_lines};

    ghost Value = { List Line };

    ghost view = { λ c. busy_scan_lines c.run ++ reverse (lines_of c.scans.now (reasons_left c.reasons)) };

    ghost invariant = { λ c. AllByRecursion (FitsIn (length c.scans.now)) (reasons_left c.reasons) };
}

impl<'a> CertLines<'a> {
    /// The lines of a group's reasons over the scans of the leg.
    #[inline(always)]
    pub(crate) fn new(group: GroupId, scans: &'a [u32], reasons: OldestFirst<'a>) -> CertLines<'a>
        requires { AllByRecursion (FitsIn (length scans.now)) reasons }
        ensures { result ≡ reverse (lines_of scans.now reasons.entry) }
    {
        let (none, _) = scans.split_at(0);
        CertLines {
            scans,
            run: BusyScans {
                group,
                task: TaskId(0),
                scans: none,
            },
            reasons: Some(reasons),
        }
    }

    /// No line.
    pub(crate) fn none() -> CertLines<'a>
        ensures { result ≡ [] }
    {
        CertLines {
            scans: &[],
            run: BusyScans {
                group: GroupId(0),
                task: TaskId(0),
                scans: &[],
            },
            reasons: None,
        }
    }

    /// The next line, which is no longer left then, if one is left.
    #[inline(always)]
    pub fn next(&mut self) -> Option<Line>
        ensures line { result ≡ slice_get self.old 0 }
        ensures left { self.new ≡ drop 1 self.old }
    {
        if let Some(line) = self.run.next() {
            return Some(line);
        }
        match next_reason(&mut self.reasons)? {
            Reason::One(line) => Some(line),
            Reason::Busy {
                group,
                task,
                first,
                end,
            } => {
                let scans = part_of(self.scans, first, end);
                self.run = BusyScans { group, task, scans };
                self.run.next()
            }
        }
    }

    /// The lines that are left of those that tell that a member is busy at one scan after another, if the last line was such a
    /// one: they are no longer left then.
    #[inline(always)]
    pub fn take_run(&mut self) -> BusyScans<'a>
        ensures { self.old ≡ busy_scan_lines result ++ self.new }
    {
        let run = self.run;
        self.run.scans = &[];
        run
    }

    /// All lines that are left, as a list; AllocError where an allocation failed.
    pub(crate) fn collect(mut self, alloc: Global) -> Result<LineList, AllocError>
        ensures { IfOk result (λ lines. lines ≡ self.entry) }
    {
        let mut lines = Vec::new(alloc);
        while let Some(line) = self.next() {
            lines.push(line)?;
        }
        Ok(LineList::from_vec(lines))
    }
}

/// The oldest reason that is left, which is no longer left then.
#[inline(always)]
fn next_reason(reasons: &mut Option<OldestFirst<'_>>) -> Option<Reason>
    ensures reasons { reasons_left reasons.old ≡ reasons_left reasons.new ++ option_to_list result }
    ensures none { IfNone result (reasons_left reasons.old ≡ []) }
{
    match reasons {
        Some(left) => left.next(),
        None => None,
    }
}

/// The scans from one place on and before another.
fn part_of(scans: &[u32], first: usize, end: usize) -> &[u32]
    requires order { first ≤ end }
    requires within { end ≤ length scans.now }
    ensures { result.now ≡ drop first (take end scans.now) }
{
    let (before_end, _) = scans.split_at(end);
    let (_, part) = before_end.split_at(first);
    part
}
