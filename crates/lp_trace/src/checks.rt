//! A check: a trace and a certificate in, the answer out.
ghost use Rattle.std.specs.Prelude.{◌≡◌, ◌≢◌, ◌++◌, codes, decimal, None, is_none, IfSome, IfOk, IfErr, IsTrue, Err};
ghost use Rattle.std.specs.Io.KnownBytes.{Appends};
ghost use Rattle.lp_checker.specs.Folds.{leg_with};
ghost use Rattle.lp_definitions.specs.Holds.{Holds};
ghost use Rattle.lp_definitions.specs.Judgement.{cert_fault};
ghost use Rattle.lp_trace.specs.Answer.{HoldsInTrace, ReadsInput, answer_to, answer_words, event_of};
ghost use Rattle.lp_definitions.specs.Faults.{fault_number};
ghost use Rattle.lp_text.specs.CheckReading.{check_reading};
ghost use Rattle.lp_text.specs.CheckTexts.{IsInput, input_text};
ghost use Rattle.lp_text.specs.Input.{ReadsAll};
ghost use Rattle.lp_text.specs.StreamContract.{ReadFailed, ReadsToEnd, WriteFailed, WritesToEnd, ended, write_end};
ghost use Rattle.lp_replay.specs.Runs.{AtTrace, run_end};
ghost use Rattle.lp_text.specs.Words.{line_of};
ghost use Rattle.lp_text.specs.Writing.{AppendsPrefix, Writes};
ghost use Rattle.lp_text.specs.inside.Writing.{Puts, seen_of};

use crate::page::Page;
use crate::report::number;
use itoa::Buffer;
use lp_cert::{Cert, Claim};
use lp_checker::{CertFault, check_floor, check_waiting};
use lp_model::Consistency;
use lp_replay::{ReplayFault, RunFault, TraceLeg, leg_numbered};
use lp_text::{CheckInput, Counted, WriteFault};
use std::alloc::Global;
use std::io::{Read, Write};

/// Reads a trace and a certificate to the reader's end, checks the certificate in the leg that it
/// names under a model, and writes the answer in one line: `accepted`, or `refused` with the number
/// of the fault and its event where it has one. Says whether the certificate was accepted.
///
/// A certificate of an event that opens no leg is refused as C6. It makes at most 134,217,729
/// reads. A read or write that fails or is interrupted ends it, and so does a write that takes no
/// byte. Nothing is written before all allocations are done; C7 is RunFault::NoMemory.
pub fn check<M: Consistency, R: Read, W: Write>(
    alloc: Global,
    model: M,
    reader: &mut Counted<R>,
    writer: &mut Counted<W>,
) -> Result<bool, RunFault>
    // What was read spells a trace and a certificate, and the answer to it was written and nothing else.
    ensures answer { IfOk result (λ accepted. ReadsInput (R.remaining reader.old.stream) (R.remaining reader.new.stream)
        (λ input. (accepted ≡ is_none (answer_to M.rules input)) × Appends (W.contents writer.old.stream) (W.contents writer.new.stream) (line_of (answer_words (answer_to M.rules input))))) }
    // What an accepted certificate claims holds of the leg that it names.
    ensures sound { IfOk result (λ accepted. IsTrue accepted → ReadsInput (R.remaining reader.old.stream) (R.remaining reader.new.stream) (λ input. HoldsInTrace M.rules input)) }
    // Where the writer failed, a prefix of that answer was written.
    ensures prefix { ended run_end result ≡ WriteFailed → ReadsInput (R.remaining reader.old.stream) (R.remaining reader.new.stream)
        (λ input. AppendsPrefix (W.contents writer.old.stream) (W.contents writer.new.stream) (line_of (answer_words (answer_to M.rules input)))) }
    // The fault of a text is the one that the definitions give.
    ensures trace { IfErr result (λ fault. AtTrace fault (λ why. IfSome (R.remaining reader.old.stream) (λ text. check_reading text ≡ Err why))) }
    // The reader is read to its end, and only then is anything written; a fault of either comes of a call that failed.
    ensures reads { ReadsToEnd (ended run_end result) reader.old reader.new }
    ensures writes { WritesToEnd (ended run_end result) writer.old writer.new }
{
    let input = read_check(alloc, reader)?;
    match answer_on(alloc, model, &input, writer) {
        Ok(accepted) => Ok(accepted),
        Err(fault) => Err(fault),
    }
}

/// Checks the certificate of an input under a model and writes the answer. Says whether the
/// certificate was accepted.
fn answer_on<M: Consistency, W: Write>(
    alloc: Global,
    model: M,
    input: &CheckInput,
    writer: &mut Counted<W>,
) -> Result<bool, RunFault>
    ensures answer { IfOk result (λ accepted. (accepted ≡ is_none (answer_to M.rules input.now)) × Appends (W.contents writer.old.stream) (W.contents writer.new.stream) (line_of (answer_words (answer_to M.rules input.now)))) }
    ensures sound { IfOk result (λ accepted. IsTrue accepted → HoldsInTrace M.rules input.now) }
    ensures prefix { ended run_end result ≡ WriteFailed → AppendsPrefix (W.contents writer.old.stream) (W.contents writer.new.stream) (line_of (answer_words (answer_to M.rules input.now))) }
    ensures writes { WritesToEnd (ended run_end result) writer.old writer.new }
    ensures late { IfErr result (λ fault. AtTrace fault (λ _. ⊥)) }
    ensures not_reading { ended run_end result ≢ ReadFailed }
{
    let answer = answer_to(alloc, model, input)?;
    let mut page = Page::new(alloc)?;
    match write_answer(&mut page, writer, answer) {
        Ok(()) => Ok(answer.is_none()),
        Err(fault) => Err(RunFault::Write(fault)),
    }
}

/// The input that a reader has.
fn read_check<R: Read>(alloc: Global, reader: &mut Counted<R>) -> Result<CheckInput, RunFault>
    ensures found { IfOk result (λ input. IsInput input × ReadsAll (R.remaining reader.old.stream) (R.remaining reader.new.stream) (input_text input)) }
    ensures trace { IfErr result (λ fault. AtTrace fault (λ why. IfSome (R.remaining reader.old.stream) (λ text. check_reading text ≡ Err why))) }
    ensures reads { ReadsToEnd (ended run_end result) reader.old reader.new }
    ensures early { ended run_end result ≢ WriteFailed }
{
    let input = CheckInput::read_from(alloc, reader)?;
    Ok(input)
}

/// The first fault of an input's certificate, if it has one.
fn answer_to<M: Consistency>(
    alloc: Global,
    model: M,
    input: &CheckInput,
) -> Result<Option<CertFault>, ReplayFault>
    ensures answer { IfOk result (λ answer. answer ≡ answer_to M.rules input.now) }
    ensures sound { IfOk result (λ answer. answer ≡ None → HoldsInTrace M.rules input.now) }
{
    match leg_numbered(alloc, model, &input.trace, input.cert.leg)? {
        Some(leg) => judge(alloc, model, &leg, &input.cert),
        None => Ok(Some(CertFault::NoLeg)),
    }
}

/// The first fault of a certificate in a leg, if it has one.
fn judge<M: Consistency>(
    alloc: Global,
    model: M,
    leg: &TraceLeg<'_>,
    cert: &Cert,
) -> Result<Option<CertFault>, ReplayFault>
    ensures answer { IfOk result (λ answer. answer ≡ cert_fault M.rules (leg_with leg.now.opening leg.now.events.now) cert.now.claim cert.now) }
    ensures sound { IfOk result (λ answer. answer ≡ None → Holds M.rules (leg_with leg.now.opening leg.now.events.now) cert.now) }
{
    let checked = match cert.claim {
        Claim::Waiting => check_waiting(alloc, model, &leg.opening, leg.events, cert),
        Claim::Floor => check_floor(alloc, model, &leg.opening, leg.events, cert),
    };
    match checked {
        Ok(()) => Ok(None),
        Err(CertFault::NoMemory) => Err(ReplayFault::NoMemory),
        Err(fault) => Ok(Some(fault)),
    }
}

/// Writes what the page holds, and then the line of an answer. Never allocates.
fn write_answer<W: Write>(
    page: &mut Page,
    writer: &mut Counted<W>,
    answer: Option<CertFault>,
) -> Result<(), WriteFault>
    ensures written { Writes (W.contents writer.old.stream) (W.contents writer.new.stream) result (page.old.held.items ++ line_of (answer_words answer)) }
    ensures writes { WritesToEnd (ended write_end result) writer.old writer.new }
{
    put_answer(page, writer, answer)?;
    page.flush(writer)
}

/// Puts the line of an answer.
fn put_answer<W: Write>(
    page: &mut Page,
    writer: &mut Counted<W>,
    answer: Option<CertFault>,
) -> Result<(), WriteFault>
    ensures { Puts (seen_of W.contents writer.old) (seen_of W.contents writer.new) page.old.held.items page.new.held.items result (line_of (answer_words answer)) }
{
    let Some(fault) = answer else {
        return page.put_line(writer, b"accepted", &[]);
    };
    let mut buffer = Buffer::new();
    let name = fault_name(fault);
    match event_of(fault) {
        Some(event) => page.put_line(writer, b"refused", &[name, number(&mut buffer, event)]),
        None => page.put_line(writer, b"refused", &[name]),
    }
}

/// The name of a fault: C and its number.
fn fault_name(fault: CertFault) -> &'static [u8]
    ensures { result.now ≡ codes "C" ++ decimal (fault_number fault) }
{
    match fault {
        CertFault::NoSuchGroup => b"C1",
        CertFault::NotOnStack(_) => b"C2",
        CertFault::NoBlame(_) => b"C3",
        CertFault::Gap(_) => b"C4",
        CertFault::BadBirth(_) => b"C5",
        CertFault::NoLeg => b"C6",
        CertFault::NoMemory => b"C7",
    }
}

/// The event of a fault, where it has one.
fn event_of(fault: CertFault) -> Option<u64>
    ensures { result ≡ event_of fault }
{
    match fault {
        CertFault::NotOnStack(event)
        | CertFault::NoBlame(event)
        | CertFault::Gap(event)
        | CertFault::BadBirth(event) => Some(event),
        CertFault::NoSuchGroup | CertFault::NoLeg | CertFault::NoMemory => None,
    }
}
