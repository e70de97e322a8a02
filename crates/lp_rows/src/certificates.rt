//! The certificates of a report, each after the trace that it is of, as the input of a check.

use crate::difference::{Stage, compare};
use crate::play::checked;
use crate::trouble::Trouble;
use lp_models::ModelName;
use std::alloc::Global;

/// Whether a line of a report begins a certificate.
fn is_claim(line: &str) -> bool {
    line.starts_with("waiting ") || line.starts_with("floor ")
}

/// Whether a line of a report goes on with a certificate.
fn is_reason(line: &str) -> bool {
    line.starts_with("hold ") || line.starts_with("busy ") || line.starts_with("born ")
}

/// A certificate, with the trace that it is of in front.
fn input_of(alloc: Global, trace: &[u8], certificate: &str) -> Result<Vec<u8>, Trouble> {
    let mut input = Vec::new(alloc);
    input.extend_from_slice(trace)?;
    input.extend_from_slice(b"lpcert 1\n")?;
    input.extend_from_slice(certificate.as_bytes())?;
    Ok(input)
}

/// Checks a certificate of a trace, which has to be accepted, and says how many that were: one, or
/// none where there is no line.
fn accept<T: Print>(
    stage: &Stage<'_, T>,
    alloc: Global,
    model: ModelName,
    trace: &[u8],
    certificate: &str,
) -> Result<usize, Trouble> {
    if certificate.is_empty() {
        return Ok(0);
    }
    let input = input_of(alloc, trace, certificate)?;
    let given = checked(alloc, model, input.as_slice(), 7)?;
    compare(stage, certificate_part(), b"accepted\n", given.as_slice())?;
    Ok(1)
}

const fn certificate_part() -> &'static str {
    "the answer to a certificate of its report"
}

/// Checks each certificate of a trace's report, and counts them.
pub fn accept_all<T: Print>(
    stage: &Stage<'_, T>,
    alloc: Global,
    model: ModelName,
    trace: &[u8],
    report: &str,
) -> Result<usize, Trouble> {
    let mut count = 0usize;
    let mut certificate = String::new(alloc);
    for line in report.lines() {
        if !is_reason(line) {
            count = count.saturating_add(accept(stage, alloc, model, trace, certificate.as_str())?);
            certificate.clear();
        }
        if is_reason(line) || is_claim(line) {
            certificate.push_str(line)?;
            certificate.push('\n')?;
        }
    }
    Ok(count)
}
