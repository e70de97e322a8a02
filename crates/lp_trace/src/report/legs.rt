//! Writing how the legs of a run ended, with their certificates.
ghost use Rattle.std.specs.Prelude.{◌≡◌, ◌≤◌, ◌<◌, ◌∷◌, ◌++◌, [], decimal, length, slice_get, take, IfSome, IsFalse, IsTrue, Some};
ghost use Rattle.std.specs.List.{flat_map};
ghost use Rattle.lp_definitions.specs.declared.cert.Cert.{Cert};
ghost use Rattle.lp_cert.specs.Ends.{end_in};
ghost use Rattle.lp_text.specs.CertTexts.{cert_lines, end_words};
ghost use Rattle.lp_text.specs.Words.{line_of};
ghost use Rattle.lp_trace.specs.Report.{leg_line, leg_lines, target_words};
ghost use Rattle.lp_text.specs.inside.Writing.{Puts, line_rest, seen_of};
ghost use Rattle.lp_trace.specs.inside.KeptLines.{AreFirst, text_of};

use super::busy::BusyText;
use super::claims::{LegNumbers, put_claim};
use super::kept_lines::KeptLines;
use super::reasons::put_each;
use super::{level_word, number};
use crate::held::Held;
use crate::page::Page;
use crate::place::SHORT;
use itoa::Buffer;
use lp_cert::{CertLines, CertListRef, LegEndRef, LegList, Line};
use lp_text::{Counted, TraceForm, WriteFault};
use std::io::Write;

/// How many certificates of a leg are few: if one of them can't be held, the others were held for nothing.
const FEW: usize = 8;

/// How many lines are worth a text that others may share.
const SHARED: usize = 8;

/// What a line may have in common with one before.
#[derive(Drop)]
struct Shared {
    numbers: LegNumbers,
    busy: BusyText,
}

/// Puts the lines of the ends of legs.
pub(super) fn put_legs<W: Write>(
    page: &mut Page,
    writer: &mut Counted<W>,
    kept: &mut KeptLines,
    form: TraceForm,
    legs: &LegList,
) -> Result<(), WriteFault>
    ensures { Puts (seen_of W.contents writer.old) (seen_of W.contents writer.new) page.old.held.items page.new.held.items result (flat_map line_of (flat_map (leg_lines form) legs.now)) }
{
    let mut shared = Shared {
        numbers: LegNumbers::new(),
        busy: BusyText::none(),
    };
    for leg in legs {
        if !hold_leg(&mut page.held, &mut shared.numbers, form, &leg) {
            put_leg(page, writer, kept, &mut shared, form, &leg)?;
        }
    }
    Ok(())
}

/// Holds the lines of a leg where these are few and there is room, and says whether it did: a bit, as for `Held::hold_short`.
#[inline(always)]
fn hold_leg(held: &mut Held, numbers: &mut LegNumbers, form: TraceForm, leg: &LegEndRef<'_>) -> bool
    ensures taken { IsTrue result → held.new.items ≡ held.old.items ++ flat_map line_of (leg_lines form (end_in leg.now)) }
    ensures kept { IsFalse result → held.new.items ≡ held.old.items }
{
    let start = held.len();
    if !hold_end(held, numbers, form, leg) {
        return false;
    }
    if hold_certs(held, numbers, &leg.certs) {
        return true;
    }
    held.truncate(start);
    false
}

/// Holds the lines of certificates where these are few, none has a line beside its first, and there is room, and says whether
/// it did.
#[inline(always)]
fn hold_certs(held: &mut Held, numbers: &mut LegNumbers, certs: &CertListRef<'_>) -> bool
    ensures taken { IsTrue result → held.new.items ≡ held.old.items ++ flat_map line_of (flat_map cert_lines certs.now) }
    ensures kept { IsFalse result → held.new.items ≡ held.old.items }
{
    let count = certs.len();
    if count > FEW {
        return false;
    }
    let start = held.len();
    for place in 0..count {
        if !hold_cert(held, numbers, certs, place) {
            held.truncate(start);
            return false;
        }
    }
    true
}

/// Puts the line of the end of a leg, and those of its certificates.
#[inline(never)]
fn put_leg<W: Write>(
    page: &mut Page,
    writer: &mut Counted<W>,
    kept: &mut KeptLines,
    shared: &mut Shared,
    form: TraceForm,
    leg: &LegEndRef<'_>,
) -> Result<(), WriteFault>
    ensures { Puts (seen_of W.contents writer.old) (seen_of W.contents writer.new) page.old.held.items page.new.held.items result (flat_map line_of (leg_lines form (end_in leg.now))) }
{
    put_end(page, writer, &mut shared.numbers, form, leg)?;
    put_certs(page, writer, kept, shared, &leg.certs)
}

/// How a leg ended: by which word, and the number that follows it.
fn end_words<'a>(buffer: &'a mut Buffer, leg: &LegEndRef<'_>) -> (&'static [u8], &'a [u8])
    ensures { result.0.now ∷ result.1.now ∷ [] ≡ end_words leg.now.completed (length leg.now.certs) }
{
    match leg.completed {
        Some(event) => (b"complete", number(buffer, event)),
        None => (b"waiting", number(buffer, leg.certs.len() as u64)),
    }
}

/// What stands between the two numbers of the line of a leg's end, where a trace has one patch: so many of the bytes; and
/// the second number.
#[inline(always)]
fn end_parts(form: TraceForm, leg: &LegEndRef<'_>) -> Option<(&'static [u8; SHORT], usize, u64)>
    ensures size { IfSome result (λ end. end.1 ≤ 16) }
    ensures words { IfSome result (λ end. line_rest (target_words form leg.now.target ++ end_words leg.now.completed (length leg.now.certs)) ≡ take end.1 end.0.now ++ (decimal end.2 ++ 10 ∷ [])) }
{
    if !matches!(form, TraceForm::Single) {
        return None;
    }
    let is_old = leg.target.0 == 0;
    Some(match leg.completed {
        Some(event) if is_old => (b" old complete ..", 14, event),
        Some(event) => (b" new complete ..", 14, event),
        None if is_old => (b" old waiting ...", 13, leg.certs.len() as u64),
        None => (b" new waiting ...", 13, leg.certs.len() as u64),
    })
}

/// Holds the line of the end of a leg where it is short and there is room, and says whether it did.
#[inline(always)]
fn hold_end(held: &mut Held, numbers: &mut LegNumbers, form: TraceForm, leg: &LegEndRef<'_>) -> bool
    ensures taken { IsTrue result → held.new.items ≡ held.old.items ++ line_of (leg_line form (end_in leg.now)) }
    ensures kept { IsFalse result → held.new.items ≡ held.old.items }
{
    let Some((between, len, last)) = end_parts(form, leg) else {
        return false;
    };
    numbers.leg.turn_to(leg.opened);
    held.hold_end(&numbers.leg, between, len, last)
}

/// Puts the line of the end of a leg.
#[inline(always)]
fn put_end<W: Write>(
    page: &mut Page,
    writer: &mut Counted<W>,
    numbers: &mut LegNumbers,
    form: TraceForm,
    leg: &LegEndRef<'_>,
) -> Result<(), WriteFault>
    ensures { Puts (seen_of W.contents writer.old) (seen_of W.contents writer.new) page.old.held.items page.new.held.items result (line_of (leg_line form (end_in leg.now))) }
{
    if hold_end(&mut page.held, numbers, form, leg) {
        return Ok(());
    }
    put_end_line(page, writer, form, leg)
}

/// The same, where it isn't short or there is no room.
#[inline(never)]
fn put_end_line<W: Write>(
    page: &mut Page,
    writer: &mut Counted<W>,
    form: TraceForm,
    leg: &LegEndRef<'_>,
) -> Result<(), WriteFault>
    ensures { Puts (seen_of W.contents writer.old) (seen_of W.contents writer.new) page.old.held.items page.new.held.items result (line_of (leg_line form (end_in leg.now))) }
{
    let mut first = Buffer::new();
    let mut second = Buffer::new();
    let mut third = Buffer::new();
    let opened = number(&mut first, leg.opened);
    let target = level_word(&mut second, form, leg.target);
    let (end, count) = end_words(&mut third, leg);
    match form {
        TraceForm::Single => page.put_line(writer, b"leg", &[opened, target, end, count]),
        TraceForm::Stacked | TraceForm::WithResched => {
            page.put_line(writer, b"leg", &[opened, b"to", target, end, count])
        }
    }
}

/// Puts the lines of certificates.
fn put_certs<W: Write>(
    page: &mut Page,
    writer: &mut Counted<W>,
    kept: &mut KeptLines,
    shared: &mut Shared,
    certs: &CertListRef<'_>,
) -> Result<(), WriteFault>
    ensures { Puts (seen_of W.contents writer.old) (seen_of W.contents writer.new) page.old.held.items page.new.held.items result (flat_map line_of (flat_map cert_lines certs.now)) }
{
    kept.clear();
    for place in 0..certs.len() {
        if !hold_cert(&mut page.held, &mut shared.numbers, certs, place) {
            put_cert(page, writer, kept, shared, certs, place)?;
        }
    }
    Ok(())
}

/// Holds the line of the certificate at a place where it has no other and there is room, and says whether it did: a bit,
/// as for `Held::hold_short`.
#[inline(always)]
fn hold_cert(
    held: &mut Held,
    numbers: &mut LegNumbers,
    certs: &CertListRef<'_>,
    place: usize,
) -> bool
    requires { place < length certs.now }
    ensures taken { IsTrue result → (cert : Cert) → slice_get certs.now place ≡ Some cert → held.new.items ≡ held.old.items ++ flat_map line_of (cert_lines cert) }
    ensures kept { IsFalse result → held.new.items ≡ held.old.items }
{
    certs.is_bare(place) && numbers.hold_claim(held, certs.head(place))
}

/// Puts the lines of the certificate at a place.
#[inline(never)]
fn put_cert<W: Write>(
    page: &mut Page,
    writer: &mut Counted<W>,
    kept: &mut KeptLines,
    shared: &mut Shared,
    certs: &CertListRef<'_>,
    place: usize,
) -> Result<(), WriteFault>
    requires place { place < length certs.now }
    requires earlier { kept.old.place ≤ place }
    requires first { AreFirst certs.now kept.old.place kept.old.starts.items kept.old.text.items }
    ensures earlier { kept.new.place ≤ place }
    ensures first { AreFirst certs.now kept.new.place kept.new.starts.items kept.new.text.items }
    ensures text { (cert : Cert) → slice_get certs.now place ≡ Some cert → Puts (seen_of W.contents writer.old) (seen_of W.contents writer.new) page.old.held.items page.new.held.items result (flat_map line_of (cert_lines cert)) }
{
    let head = certs.head(place);
    if !shared.numbers.hold_claim(&mut page.held, head) {
        put_claim(page, writer, head)?;
    }
    put_reasons(page, writer, kept, &mut shared.busy, certs, place)
}

/// Puts the reasons of the certificate at a place, a line each.
#[inline(always)]
fn put_reasons<W: Write>(
    page: &mut Page,
    writer: &mut Counted<W>,
    kept: &mut KeptLines,
    busy: &mut BusyText,
    certs: &CertListRef<'_>,
    place: usize,
) -> Result<(), WriteFault>
    requires place { place < length certs.now }
    requires earlier { kept.old.place ≤ place }
    requires first { AreFirst certs.now kept.old.place kept.old.starts.items kept.old.text.items }
    ensures earlier { kept.new.place ≤ place }
    ensures first { AreFirst certs.now kept.new.place kept.new.starts.items kept.new.text.items }
    ensures text { (cert : Cert) → slice_get certs.now place ≡ Some cert → Puts (seen_of W.contents writer.old) (seen_of W.contents writer.new) page.old.held.items page.new.held.items result (text_of cert.lines) }
{
    if certs.older_lines(place) >= SHARED {
        return put_shared(page, writer, kept, busy, certs, place);
    }
    let mut lines = certs.lines(place);
    let first = lines.next();
    put_each(page, writer, busy, first, &mut lines)
}

/// The same, where others may begin with many of them too: what is kept then is put in one piece.
#[inline(never)]
fn put_shared<W: Write>(
    page: &mut Page,
    writer: &mut Counted<W>,
    kept: &mut KeptLines,
    busy: &mut BusyText,
    certs: &CertListRef<'_>,
    place: usize,
) -> Result<(), WriteFault>
    requires place { place < length certs.now }
    requires earlier { kept.old.place ≤ place }
    requires first { AreFirst certs.now kept.old.place kept.old.starts.items kept.old.text.items }
    ensures earlier { kept.new.place ≤ place }
    ensures first { AreFirst certs.now kept.new.place kept.new.starts.items kept.new.text.items }
    ensures text { (cert : Cert) → slice_get certs.now place ≡ Some cert → Puts (seen_of W.contents writer.old) (seen_of W.contents writer.new) page.old.held.items page.new.held.items result (text_of cert.lines) }
{
    let (next, mut lines) = kept.turn_to(certs, place);
    page.put(writer, kept.text.as_slice())?;
    put_each(page, writer, busy, next, &mut lines)
}
