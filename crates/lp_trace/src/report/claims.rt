//! Writing the first lines of certificates.
ghost use Rattle.std.specs.Prelude.{◌≡◌, ◌≤◌, ◌∷◌, ◌++◌, [], take, IsFalse, IsTrue};
ghost use Rattle.lp_text.specs.CertTexts.{claim_word};
ghost use Rattle.lp_text.specs.Words.{line_of};
ghost use Rattle.lp_text.specs.inside.Writing.{Puts, seen_of};
ghost use Rattle.lp_trace.specs.inside.Claims.{head_words};

use crate::held::Held;
use crate::page::Page;
use crate::place::{Counter, SHORT};
use lp_cert::{CertHead, Claim};
use lp_text::{Counted, WriteFault};
use std::io::Write;

/// The numbers of the line before, with their digits.
///
/// The certificates of a leg follow its end and one another and mostly differ in the group alone, and the numbers of the next leg
/// are little more.
#[derive(Drop)]
pub(super) struct LegNumbers {
    pub(super) leg: Counter,
    upto: Counter,
}

impl LegNumbers {
    /// The numbers of no leg that there is.
    pub(super) fn new() -> LegNumbers {
        LegNumbers {
            leg: Counter::new(),
            upto: Counter::new(),
        }
    }

    /// Holds the first line of a certificate that begins so where there is room, and says whether it did.
    #[inline(always)]
    pub(super) fn hold_claim(&mut self, held: &mut Held, head: CertHead) -> bool
        ensures taken { IsTrue result → held.new.items ≡ held.old.items ++ line_of (head_words head) }
        ensures kept { IsFalse result → held.new.items ≡ held.old.items }
    {
        self.leg.turn_to(head.leg);
        self.upto.turn_to(head.upto);
        let (word, len) = claim_word(head.claim);
        held.hold_claim(word, len, &self.leg, head.group, &self.upto)
    }
}

/// The first word of a certificate: so many bytes of a short text.
#[inline(always)]
fn claim_word(claim: Claim) -> (&'static [u8; SHORT], usize)
    ensures word { take result.1 result.0.now ≡ claim_word claim }
    ensures few { result.1 ≤ 7 }
{
    match claim {
        Claim::Waiting => (b"waiting.........", 7),
        Claim::Floor => (b"floor...........", 5),
    }
}

/// Puts the first line of a certificate that begins so, where there may be no room to hold it.
#[inline(never)]
pub(super) fn put_claim<W: Write>(
    page: &mut Page,
    writer: &mut Counted<W>,
    head: CertHead,
) -> Result<(), WriteFault>
    ensures { Puts (seen_of W.contents writer.old) (seen_of W.contents writer.new) page.old.held.items page.new.held.items result (line_of (head_words head)) }
{
    let (word, len) = claim_word(head.claim);
    let numbers = [head.leg, u64::from(head.group.0), head.upto];
    page.put_numbers(writer, word, len, &numbers)
}
