//! The lines of events that are held where they stay, as nearly all are.
ghost use Rattle.std.specs.Prelude.{◌≡◌, ◌≤◌, ◌∷◌, ◌++◌, [], List, ℕ, codes, decimal, drop, take, IfSome, IsFalse, IsTrue};
ghost use Rattle.lp_definitions.specs.Events.{group_numbers, refusal_number};
ghost use Rattle.lp_replay.specs.Replies.{lists_in, reply_of, what_of};
ghost use Rattle.lp_text.specs.Words.{line_of};
ghost use Rattle.lp_text.specs.declared.form.TraceForm.{TraceForm};
ghost use Rattle.lp_text.specs.inside.Writing.{line_rest};
ghost use Rattle.lp_trace.specs.Report.{complete_words, level_word, reply_line, what_words};
ghost use Rattle.lp_trace.specs.inside.Rests.{AreRests, IsRest};

use crate::held::Held;
use crate::place::{Counter, SHORT};
use lp_replay::{PackedReply, Refusal, ShortReply, ShortWhat};
use lp_stack::{GroupId, Level};
use lp_text::TraceForm;

/// How many codes of replies a table has: those of rare levels come after them.
pub(super) const CODES: usize = 64;

/// What follows the number of an event in its line: so many bytes of a short text.
#[derive(Clone, Copy)]
pub(super) struct Rest {
    text: [u8; SHORT],
    len: usize,
}

/// What follows the number of an event in a report of a form, by the code of its reply, where that is among the commonest. It is
/// looked up for each line, which takes no jump.
pub(super) fn rests(form: TraceForm) -> [Option<Rest>; CODES]
    ensures { AreRests form 64 result }
{
    let mut rests = [None; CODES];
    for code in 0..CODES {
        rests[code] = rest_of(form, PackedReply::with_code(code as u16).get());
    }
    rests
}

/// What follows the number of an event with this reply, where it is among the commonest.
fn rest_of(form: TraceForm, reply: ShortReply) -> Option<Rest>
    ensures { IsRest form reply result }
{
    let (text, len) = short_rest(form, reply)?;
    Some(Rest { text: *text, len })
}

/// Holds the line of the reply to the event of a number where it is among the commonest and there is room for it, and says
/// whether it did.
#[inline(always)]
pub(super) fn hold_common(
    held: &mut Held,
    rests: &[Option<Rest>; CODES],
    event: &Counter,
    reply: &PackedReply,
) -> bool
    requires { (form : TraceForm) × AreRests form 64 rests.now }
    ensures taken { IsTrue result → (form : TraceForm) → AreRests form 64 rests.now → (number : ℕ) → event.now ≡ number → (groups : List ℕ) → held.new.items ≡ held.old.items ++ line_of (reply_line form number (reply_of reply.now (groups ∷ []))) }
    ensures plain { IsTrue result → (form : TraceForm) → AreRests form 64 rests.now → lists_in reply.now.what ≡ 0 }
    ensures kept { IsFalse result → held.new.items ≡ held.old.items }
{
    let code = usize::from(reply.code());
    if code >= CODES {
        return false;
    }
    match &rests[code] {
        Some(rest) => {
            // By value: a text of which it is only known that it lies in another place would be asked whether it overlaps.
            let Rest { text, len } = *rest;
            held.hold_short(event, &text, len)
        }
        None => false,
    }
}

/// Holds the line of the reply to the event of a number where the event switched these groups and there is room, and says
/// whether it did.
#[inline(never)]
pub(super) fn hold_switched(
    held: &mut Held,
    event: &Counter,
    reply: ShortReply,
    groups: &[GroupId],
) -> bool
    ensures taken { IsTrue result → (form : TraceForm) → held.new.items ≡ held.old.items ++ line_of (reply_line form event.now (reply_of reply (group_numbers groups.now ∷ []))) }
    ensures kept { IsFalse result → held.new.items ≡ held.old.items }
{
    match reply.what {
        ShortWhat::Switched => {
            let (end, len) = switched_end(reply.completed);
            held.hold_switched(event, groups, end, len)
        }
        _ => false,
    }
}

/// The end of the line of an event at which groups switched: so many bytes of a short text.
#[inline(always)]
fn switched_end(completed: bool) -> (&'static [u8; SHORT], usize)
    ensures size { result.1 ≤ 16 }
    ensures words { take result.1 result.0.now ≡ line_rest (complete_words completed) }
{
    if completed {
        (b" complete\n......", 10)
    } else {
        (b"\n...............", 1)
    }
}

/// What follows the event's number, where it is among the commonest: so many bytes of a short text.
#[inline(always)]
fn short_rest(form: TraceForm, reply: ShortReply) -> Option<(&'static [u8; SHORT], usize)>
    ensures size { IfSome result (λ rest. rest.1 ≤ 16) }
    ensures words { IfSome result (λ rest. (lists : List (List ℕ)) → take rest.1 rest.0.now ≡ line_rest (what_words form (what_of reply.what lists) ++ complete_words reply.completed)) }
    ensures plain { IfSome result (λ rest. lists_in reply.what ≡ 0) }
{
    if reply.completed {
        return match reply.what {
            ShortWhat::Done => Some((b" done complete\n.", 15)),
            _ => None,
        };
    }
    match reply.what {
        ShortWhat::Done => Some((b" done\n..........", 6)),
        ShortWhat::Ran(level) => ran_rest(form, level),
        ShortWhat::Refused(why) => Some(refused_rest(why)),
        ShortWhat::Switched => None,
    }
}

/// Where a call ran a version.
#[inline(always)]
fn ran_rest(form: TraceForm, level: Level) -> Option<(&'static [u8; SHORT], usize)>
    ensures size { IfSome result (λ rest. rest.1 ≤ 16) }
    ensures words { IfSome result (λ rest. take rest.1 rest.0.now ≡ line_rest (codes "ran" ∷ level_word form level ∷ [])) }
{
    match form {
        TraceForm::Single if level.0 == 0 => Some((b" ran old\n.......", 9)),
        TraceForm::Single => Some((b" ran new\n.......", 9)),
        TraceForm::Stacked | TraceForm::WithResched => numbered_rest(level),
    }
}

/// Where a level has a number, for those that are common.
#[inline(always)]
fn numbered_rest(level: Level) -> Option<(&'static [u8; SHORT], usize)>
    ensures size { IfSome result (λ rest. rest.1 ≤ 16) }
    ensures words { IfSome result (λ rest. take rest.1 rest.0.now ≡ line_rest (codes "ran" ∷ decimal level.0 ∷ [])) }
{
    match level.0 {
        0 => Some((b" ran 0\n.........", 7)),
        1 => Some((b" ran 1\n.........", 7)),
        2 => Some((b" ran 2\n.........", 7)),
        3 => Some((b" ran 3\n.........", 7)),
        4 => Some((b" ran 4\n.........", 7)),
        _ => None,
    }
}

/// Where an event was refused. A text of its own for each costs nothing to look up, and less to copy than a number to write.
#[inline(always)]
fn refused_rest(why: Refusal) -> (&'static [u8; SHORT], usize)
    ensures size { result.1 ≤ 16 }
    ensures words { take result.1 result.0.now ≡ line_rest (codes "refused" ∷ (codes "E" ++ decimal (refusal_number why)) ∷ []) }
{
    match why {
        Refusal::UnknownTask => (b" refused E1\n....", 12),
        Refusal::UnknownSymbol => (b" refused E2\n....", 12),
        Refusal::TaskRange => (b" refused E3\n....", 12),
        Refusal::TaskUsed => (b" refused E4\n....", 12),
        Refusal::WrongClass => (b" refused E5\n....", 12),
        Refusal::WrongMode => (b" refused E6\n....", 12),
        Refusal::StackFull => (b" refused E7\n....", 12),
        Refusal::StackEmpty => (b" refused E8\n....", 12),
        Refusal::StackNotEmpty => (b" refused E9\n....", 12),
        Refusal::InTransition => (b" refused E10\n...", 13),
        Refusal::NotInTransition => (b" refused E11\n...", 13),
        Refusal::AlreadyThere => (b" refused E12\n...", 13),
    }
}
