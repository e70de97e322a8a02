//! How the first leg of a trace ended under a model.
ghost use Rattle.std.specs.Prelude.{◌≡◌, ◌<◌, ◌^◌, All, count_by, map, IfOk};
ghost use Rattle.std.specs.Option.{option_map};
ghost use Rattle.lp_cert.specs.Ends.{end_in};
ghost use Rattle.lp_text.specs.Traces.{IsTrace};
ghost use Rattle.lp_compare.specs.Comparison.{births_in, first_end, greatest, is_born};
ghost use Rattle.lp_compare.specs.inside.FirstEnds.{FewBirths, kept_end};

use lp_cert::{CertLines, CertListRef, LegEndRef, Line};
use lp_model::Consistency;
use lp_replay::{ReplayFault, first_leg_end};
use lp_text::Trace;
use std::alloc::{AllocError, Global};

/// What is kept of the end of a leg.
#[derive(Clone, Copy)]
pub(crate) struct FirstEnd {
    /// The number of the event that opened the leg.
    pub(crate) opened: u64,
    /// The number of the event of completion, if the leg completed.
    pub(crate) complete: Option<u64>,
    /// How many groups wait.
    pub(crate) waiting: u64,
    /// The greatest number of births in a certificate.
    pub(crate) births: u64,
}

/// How the first leg of a trace ended under a model; None where no event opened one.
pub(crate) fn first_end<M: Consistency>(
    alloc: Global,
    model: M,
    trace: &Trace,
) -> Result<Option<FirstEnd>, AllocError>
    // A trace has so few events that the births of a certificate can be counted.
    requires { IsTrace trace.now }
    ensures { IfOk result (λ found. found ≡ option_map kept_end (first_end M.rules trace.now)) }
{
    let ends = match first_leg_end(alloc, model, trace) {
        Ok(ends) => ends,
        Err(ReplayFault::NoMemory) => return Err(AllocError),
    };
    match ends.iter().next() {
        Some(end) => Ok(Some(kept_end(&end))),
        None => Ok(None),
    }
}

/// What is kept of an end.
fn kept_end(end: &LegEndRef<'_>) -> FirstEnd
    requires { FewBirths (end_in end.now) }
    ensures { result ≡ kept_end (end_in end.now) }
{
    let waiting = match end.completed {
        Some(_) => 0,
        None => end.certs.len() as u64,
    };
    FirstEnd {
        opened: end.opened,
        complete: end.completed,
        waiting,
        births: most_births(&end.certs),
    }
}

/// The greatest number of births in one of the certificates; 0 where there is none.
fn most_births(certs: &CertListRef<'_>) -> u64
    requires { All (λ cert. births_in cert < 2 ^ 64) certs.now }
    ensures { result ≡ greatest (map births_in certs.now) }
{
    let mut most = 0u64;
    for place in 0..certs.len() {
        most = most.max(births(&mut certs.lines(place)));
    }
    most
}

/// How many of the lines that are left tell a birth.
fn births(lines: &mut CertLines<'_>) -> u64
    requires { count_by is_born lines.old < 2 ^ 64 }
    ensures { result ≡ count_by is_born lines.old }
{
    let mut births = 0;
    while let Some(line) = lines.next() {
        if matches!(line, Line::Born { .. }) {
            births += 1;
        }
    }
    births
}
