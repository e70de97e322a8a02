//! Replies as a list keeps them.
ghost use Rattle.std.specs.Prelude.{◌≡◌, ◌<◌};
ghost use Rattle.lp_replay.specs.Replies.{coded, coded_what};

use super::{ShortReply, ShortWhat};
use lp_stack::Level;
use lp_transition::Refusal;
use std::marker::Model;

/// What an event did where that needs no level, by the first codes. A level's comes after them.
const PLAIN: [ShortWhat; 14] = [
    ShortWhat::Done,
    ShortWhat::Switched,
    ShortWhat::Refused(Refusal::UnknownTask),
    ShortWhat::Refused(Refusal::UnknownSymbol),
    ShortWhat::Refused(Refusal::TaskRange),
    ShortWhat::Refused(Refusal::TaskUsed),
    ShortWhat::Refused(Refusal::WrongClass),
    ShortWhat::Refused(Refusal::WrongMode),
    ShortWhat::Refused(Refusal::StackFull),
    ShortWhat::Refused(Refusal::StackEmpty),
    ShortWhat::Refused(Refusal::StackNotEmpty),
    ShortWhat::Refused(Refusal::InTransition),
    ShortWhat::Refused(Refusal::NotInTransition),
    ShortWhat::Refused(Refusal::AlreadyThere),
];

/// A reply without its groups, as a list keeps it: a number of two bytes, by which a table tells what belongs to it. Contracts
/// see the reply.
#[derive(Drop)]
pub struct PackedReply {
    code: u16,
}

impl Model for PackedReply {
    ghost use Rattle.std.specs.Prelude.{◌<◌};
    ghost use Rattle.lp_replay.specs.declared.replies.ShortReply.{ShortReply};
    ghost use Rattle.lp_replay.specs.Replies.{coded};

    ghost Value = { ShortReply };

    ghost view = { λ p. coded p.code };

    ghost invariant = { λ p. p.code < 540 };
}

impl PackedReply {
    /// A reply, packed.
    #[inline(always)]
    pub(crate) fn of(reply: ShortReply) -> PackedReply
        ensures { result ≡ reply }
    {
        PackedReply {
            code: 2 * code_of(reply.what) + u16::from(reply.completed),
        }
    }

    /// The reply of a code.
    #[inline(always)]
    pub fn with_code(code: u16) -> PackedReply
        requires { code < 540 }
        ensures { result ≡ coded code }
    {
        PackedReply { code }
    }

    /// The code of the reply.
    #[inline(always)]
    pub fn code(&self) -> u16
        ensures { coded result ≡ self.now }
    {
        self.code
    }

    /// The reply.
    #[inline(always)]
    pub fn get(&self) -> ShortReply
        ensures { result ≡ self.now }
    {
        ShortReply {
            what: what_at(self.code / 2),
            completed: self.code % 2 == 1,
        }
    }
}

/// The code of what an event did.
#[inline(always)]
fn code_of(what: ShortWhat) -> u16
    ensures code { coded_what result ≡ what }
    ensures few { result < 270 }
{
    match what {
        ShortWhat::Done => 0,
        ShortWhat::Switched => 1,
        ShortWhat::Refused(why) => 1 + u16::from(why.number()),
        ShortWhat::Ran(level) => 14 + u16::from(level.0),
    }
}

/// What an event did, by its code.
#[inline(always)]
fn what_at(code: u16) -> ShortWhat
    requires { code < 270 }
    ensures { result ≡ coded_what code }
{
    if code < 14 {
        PLAIN[usize::from(code)]
    } else {
        ShortWhat::Ran(Level((code - 14) as u8))
    }
}
