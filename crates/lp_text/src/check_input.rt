//! The input of a check: a trace and a certificate.
ghost use Rattle.std.specs.Prelude.{◌≡◌, ◌≤◌, [], Err, IfErr, IfOk, IfSome, Ok, length, option_copied};
ghost use Rattle.std.specs.Option.{option_map};
ghost use Rattle.lp_text.specs.CheckReading.{cert_after, cert_from, check_reading, divided, reasons_from};
ghost use Rattle.lp_text.specs.CheckTexts.{IsInput, input_text};
ghost use Rattle.lp_text.specs.Faults.{Gives};
ghost use Rattle.lp_text.specs.Input.{AtText, ReadsAll};
ghost use Rattle.lp_text.specs.StreamContract.{ReadsToEnd, ended, stream_end};
ghost use Rattle.lp_text.specs.Words.{lines};

use crate::check_lines::{claim_line, reason_line};
use crate::counted::Counted;
use crate::fault::{Cause, ReadFault};
use crate::input::read_input;
use crate::keyword::is;
use crate::quick_reason::quick_reason;
use crate::read::MOST_BYTES;
use crate::split::cut;
use crate::stream_fault::StreamFault;
use crate::trace::Trace;
use lp_definitions::{Cert, Line, LineList};
use std::alloc::Global;
use std::io::Read;

/// What a check is given: a trace, and a certificate of one of its legs.
#[derive(Drop)]
pub struct CheckInput {
    /// What happened.
    pub trace: Trace,
    /// Why a group is said to wait.
    pub cert: Cert,
}

/// Where an input is divided.
#[derive(Clone, Copy)]
struct Division<'a> {
    /// What stands before the line `lpcert 1`; the whole input where there is none.
    trace: &'a [u8],
    /// The number of the line `lpcert 1`, or of the one after the last.
    line: u64,
    /// What stands after the line `lpcert 1`.
    cert: Option<&'a [u8]>,
}

impl CheckInput {
    /// The trace and the certificate that an input spells, or the input's first fault; NoMemory
    /// where an allocation failed.
    pub fn read(alloc: Global, text: &[u8]) -> Result<CheckInput, ReadFault>
        // What is read keeps the limits, and the text is its spelling.
        ensures found { IfOk result (λ input. IsInput input × (text.now ≡ input_text input)) }
        // What spells a trace and a certificate is read as these, unless memory runs out.
        ensures only { (input : CheckInput) → IsInput input → text.now ≡ input_text input → Gives (λ read. read) result (Ok input) }
        // Which trace and certificate, or which fault: the first one.
        ensures exact { Gives (λ input. input) result (check_reading text.now) }
    {
        if text.len() > MOST_BYTES {
            return Err(Cause::Long.at(0));
        }
        let division = divide(text);
        let trace = match Trace::read(alloc, division.trace) {
            Ok(trace) => trace,
            Err(fault) => return Err(fault),
        };
        match read_cert(alloc, division.line, division.cert) {
            Ok(cert) => Ok(CheckInput { trace, cert }),
            Err(fault) => Err(fault),
        }
    }

    /// The trace and the certificate that a reader has, read to its end.
    ///
    /// It makes at most 134,217,729 reads. A read that fails or is interrupted ends it, as Read; else a text that is no trace
    /// and certificate is Trace with its first fault, and NoMemory comes where an allocation failed.
    pub fn read_from<R: Read>(
        alloc: Global,
        reader: &mut Counted<R>,
    ) -> Result<CheckInput, StreamFault>
        // What was read spells a trace and a certificate, and nothing is left.
        ensures found { IfOk result (λ input. IsInput input × ReadsAll (R.remaining reader.old.stream) (R.remaining reader.new.stream) (input_text input)) }
        // The fault of a text is the one that the definitions give.
        ensures trace { IfErr result (λ fault. AtText fault (λ why. IfSome (R.remaining reader.old.stream) (λ text. check_reading text ≡ Err why))) }
        // The reader is read to its end, and a fault of reading comes of a read that failed.
        ensures reads { ReadsToEnd (ended stream_end result) reader.old reader.new }
    {
        let text = read_input(alloc, reader)?;
        let input = CheckInput::read(alloc, text.as_slice())?;
        Ok(input)
    }
}

/// Where an input is divided: at the first line `lpcert 1` that has its end.
fn divide(text: &[u8]) -> Division<'_>
    requires few { length text.now ≤ 134217728 }
    ensures trace { lines result.trace.now ≡ (divided (lines text.now)).0 }
    ensures prefix { length result.trace.now ≤ length text.now }
    ensures line { result.line ≡ length (divided (lines text.now)).0 }
    ensures cert { option_map lines (option_copied result.cert) ≡ (divided (lines text.now)).1 }
    ensures small { result.line ≤ 134217729 }
    ensures back { IfSome result.cert (λ cert. length cert.now ≤ length text.now) }
{
    let mut line = 1;
    let mut rest = text;
    loop {
        let (first, left) = cut(b'\n', rest);
        let Some(more) = left else {
            return Division {
                trace: text,
                line,
                cert: None,
            };
        };
        if is(first, "lpcert 1") {
            return Division {
                trace: &text[..text.len() - rest.len()],
                line,
                cert: Some(more),
            };
        }
        rest = more;
        line += 1;
    }
}

/// The certificate after the line of this number, if there is one.
fn read_cert(alloc: Global, line: u64, text: Option<&[u8]>) -> Result<Cert, ReadFault>
    requires small { line ≤ 134217729 }
    requires few { IfSome text (λ text. length text.now ≤ 134217728) }
    ensures { Gives (λ cert. cert) result (cert_after line (option_map lines (option_copied text.entry))) }
{
    match text {
        Some(text) => read_claim(alloc, line + 1, text),
        None => Err(Cause::Cert.at(line)),
    }
}

/// A certificate, whose first line has this number.
#[tactic(auto, using(crate::proofs::CertLines::cert_step), unfolding(crate::specs::CheckReading::cert_from))]
fn read_claim(alloc: Global, number: u64, text: &[u8]) -> Result<Cert, ReadFault>
    requires small { number ≤ 134217730 }
    requires few { length text.now ≤ 134217728 }
    ensures { Gives (λ cert. cert) result (cert_from number (lines text.now)) }
{
    let (line, left) = cut(b'\n', text);
    let Some(rest) = left else {
        let cause = if line.is_empty() {
            Cause::Cert
        } else {
            Cause::Unended
        };
        return Err(cause.at(number));
    };
    let mut cert = match claim_line(alloc, line) {
        Ok(cert) => cert,
        Err(fault) => return Err(fault.at(number)),
    };
    let reasons = read_reasons(alloc, number + 1, rest)?;
    cert.lines = LineList::from_vec(reasons);
    Ok(cert)
}

/// The lines of a certificate, the first of which is the line of this number.
fn read_reasons(alloc: Global, first: u64, text: &[u8]) -> Result<Vec<Line>, ReadFault>
    requires small { first ≤ 134217731 }
    requires few { length text.now ≤ 134217728 }
    ensures { Gives (λ lines. lines.items) result (reasons_from first [] (lines text.now)) }
{
    let mut number = first;
    let mut reasons = Vec::new(alloc);
    let mut rest = text;
    loop {
        if let Some((reason, more)) = quick_reason(rest) {
            let Ok(()) = reasons.push(reason) else {
                return Err(ReadFault::NoMemory);
            };
            rest = more;
            number += 1;
            continue;
        }
        let (line, left) = cut(b'\n', rest);
        let Some(more) = left else {
            if line.is_empty() {
                return Ok(reasons);
            }
            return Err(Cause::Unended.at(number));
        };
        let reason = match reason_line(line) {
            Ok(reason) => reason,
            Err(fault) => return Err(fault.at(number)),
        };
        let Ok(()) = reasons.push(reason) else {
            return Err(ReadFault::NoMemory);
        };
        rest = more;
        number += 1;
    }
}
