//! Writing the report of a run.
ghost use Rattle.std.specs.Prelude.{◌≡◌, ◌+◌, ◌<◌, ◌∷◌, ◌++◌, [], List, codes, decimal};
ghost use Rattle.std.specs.List.{flat_map};
ghost use Rattle.lp_definitions.specs.Events.{group_numbers};
ghost use Rattle.lp_text.specs.Words.{line_of};
ghost use Rattle.lp_trace.specs.Report.{complete_words, reply_line, reply_lines, level_word, report, report_header, stays_line};
ghost use Rattle.lp_trace.specs.inside.Rests.{AreRests};
ghost use Rattle.lp_replay.specs.Replies.{replies_of, reply_of};
ghost use Rattle.lp_text.specs.inside.Writing.{Puts, line_rest, seen_of};
ghost use Rattle.lp_text.specs.Writing.{Writes};
ghost use Rattle.lp_text.specs.StreamContract.{WritesToEnd, ended, write_end};

mod busy;
mod claims;
mod events;
mod kept_lines;
mod legs;
mod reasons;

use crate::page::Page;
use crate::place::Counter;
use events::{CODES, Rest, hold_common, hold_switched, rests};
use itoa::Buffer;
pub(crate) use kept_lines::KeptLines;
use legs::put_legs;
use lp_replay::{GroupLists, Outcome, PackedReply, ReplyList, ShortReply, ShortWhat};
use lp_stack::{GroupId, Level};
use lp_text::{Counted, TraceForm, WriteFault};
use std::io::Write;

/// Writes what the page holds, and then the report of an outcome under a model of this name.
///
/// Never allocates. A fault of the writer, an interruption and a write that takes no byte end it.
pub(crate) fn write_report<W: Write>(
    page: &mut Page,
    writer: &mut Counted<W>,
    kept: &mut KeptLines,
    form: TraceForm,
    name: &str,
    outcome: &Outcome,
) -> Result<(), WriteFault>
    ensures written { Writes (W.contents writer.old.stream) (W.contents writer.new.stream) result (page.old.held.items ++ report form name.now outcome.now) }
    ensures writes { WritesToEnd (ended write_end result) writer.old writer.new }
{
    put_report(page, writer, kept, form, name, outcome)?;
    page.flush(writer)
}

/// Puts the report.
fn put_report<W: Write>(
    page: &mut Page,
    writer: &mut Counted<W>,
    kept: &mut KeptLines,
    form: TraceForm,
    name: &str,
    outcome: &Outcome,
) -> Result<(), WriteFault>
    ensures { Puts (seen_of W.contents writer.old) (seen_of W.contents writer.new) page.old.held.items page.new.held.items result (report form name.now outcome.now) }
{
    put_header(page, writer, form)?;
    put_model(page, writer, name)?;
    put_events(page, writer, form, &outcome.replies)?;
    put_legs(page, writer, kept, form, &outcome.legs)?;
    put_stays(page, writer, outcome)
}

/// The first line, without its end.
fn header(form: TraceForm) -> &'static [u8]
    ensures { result.now ≡ report_header form }
{
    match form {
        TraceForm::Single => b"lpreport 1",
        TraceForm::Stacked => b"lpreport 2",
        TraceForm::WithResched => b"lpreport 3",
    }
}

/// Puts the first line.
fn put_header<W: Write>(
    page: &mut Page,
    writer: &mut Counted<W>,
    form: TraceForm,
) -> Result<(), WriteFault>
    ensures { Puts (seen_of W.contents writer.old) (seen_of W.contents writer.new) page.old.held.items page.new.held.items result (line_of (report_header form ∷ [])) }
{
    page.put_line(writer, header(form), &[])
}

/// Puts the line of the model's name.
fn put_model<W: Write>(
    page: &mut Page,
    writer: &mut Counted<W>,
    name: &str,
) -> Result<(), WriteFault>
    ensures { Puts (seen_of W.contents writer.old) (seen_of W.contents writer.new) page.old.held.items page.new.held.items result (line_of (codes "model" ∷ name.now ∷ [])) }
{
    page.put_line(writer, b"model", &[name.as_bytes()])
}

/// A number, in a buffer of its own.
pub(crate) fn number<'a>(buffer: &'a mut Buffer, number: u64) -> &'a [u8]
    ensures { result.now ≡ decimal number }
{
    buffer.format(number).as_bytes()
}

/// A level, in a buffer of its own where it is a number.
fn level_word<'a>(buffer: &'a mut Buffer, form: TraceForm, level: Level) -> &'a [u8]
    ensures { result.now ≡ level_word form level }
{
    match form {
        TraceForm::Single if level.0 == 0 => b"old",
        TraceForm::Single => b"new",
        TraceForm::Stacked | TraceForm::WithResched => number(buffer, u64::from(level.0)),
    }
}

/// The end of an event's line.
fn line_end(completed: bool) -> &'static [u8]
    ensures { result.now ≡ line_rest (complete_words completed) }
{
    if completed { b" complete\n" } else { b"\n" }
}

/// Puts the lines of the replies, the first of which has the number 1.
fn put_events<W: Write>(
    page: &mut Page,
    writer: &mut Counted<W>,
    form: TraceForm,
    replies: &ReplyList,
) -> Result<(), WriteFault>
    ensures { Puts (seen_of W.contents writer.old) (seen_of W.contents writer.new) page.old.held.items page.new.held.items result (flat_map line_of (reply_lines form 1 replies.now)) }
{
    let (short, lists) = replies.parts();
    put_replies(page, writer, form, &rests(form), short, lists)
}

/// Puts the lines of these replies, to which these lists of groups belong.
fn put_replies<W: Write>(
    page: &mut Page,
    writer: &mut Counted<W>,
    form: TraceForm,
    rests: &[Option<Rest>; CODES],
    replies: &[PackedReply],
    lists: &GroupLists,
) -> Result<(), WriteFault>
    requires { AreRests form 64 rests.now }
    ensures { Puts (seen_of W.contents writer.old) (seen_of W.contents writer.new) page.old.held.items page.new.held.items result (flat_map line_of (reply_lines form 1 (replies_of replies.now lists.now))) }
{
    let mut next = 0;
    let mut event = Counter::new();
    for (i, packed) in replies.iter().enumerate() {
        event.increment();
        if !hold_common(&mut page.held, rests, &event, packed) {
            let reply = packed.get();
            let groups = lists.at(next);
            if !hold_switched(&mut page.held, &event, reply, groups) {
                put_event(page, writer, form, i as u64 + 1, reply, groups)?;
            }
            next += reply.lists();
        }
    }
    Ok(())
}

/// Puts the line of the reply to the event of a number, which switched these groups if any, where it isn't held.
#[inline(never)]
fn put_event<W: Write>(
    page: &mut Page,
    writer: &mut Counted<W>,
    form: TraceForm,
    event: u64,
    reply: ShortReply,
    groups: &[GroupId],
) -> Result<(), WriteFault>
    ensures { Puts (seen_of W.contents writer.old) (seen_of W.contents writer.new) page.old.held.items page.new.held.items result (line_of (reply_line form event (reply_of reply (group_numbers groups.now ∷ [])))) }
{
    let mut first = Buffer::new();
    let mut second = Buffer::new();
    let event = number(&mut first, event);
    let end = line_end(reply.completed);
    match reply.what {
        ShortWhat::Ran(level) => {
            let level = level_word(&mut second, form, level);
            page.put_all(writer, &[event, b" ran ", level, end])
        }
        ShortWhat::Done => page.put_all(writer, &[event, b" done", end]),
        ShortWhat::Switched => put_switched(page, writer, event, groups, end),
        ShortWhat::Refused(why) => {
            let why = number(&mut second, u64::from(why.number()));
            page.put_all(writer, &[event, b" refused E", why, end])
        }
    }
}

/// Puts the line of an event at which these groups switched.
fn put_switched<W: Write>(
    page: &mut Page,
    writer: &mut Counted<W>,
    event: &[u8],
    groups: &[GroupId],
    end: &[u8],
) -> Result<(), WriteFault>
    ensures { Puts (seen_of W.contents writer.old) (seen_of W.contents writer.new) page.old.held.items page.new.held.items result (event.now ++ (codes " over" ++ (flat_map (λ group. 32 ∷ decimal group) (group_numbers groups.now) ++ end.now))) }
{
    page.put_all(writer, &[event, b" over"])?;
    for group in groups {
        put_group(page, writer, *group)?;
    }
    page.put(writer, end)
}

/// Puts a group after a space.
fn put_group<W: Write>(
    page: &mut Page,
    writer: &mut Counted<W>,
    group: GroupId,
) -> Result<(), WriteFault>
    ensures { Puts (seen_of W.contents writer.old) (seen_of W.contents writer.new) page.old.held.items page.new.held.items result (32 ∷ decimal group.0) }
{
    let mut buffer = Buffer::new();
    page.put_all(writer, &[b" ", number(&mut buffer, u64::from(group.0))])
}

/// Puts the line of the stays.
fn put_stays<W: Write>(
    page: &mut Page,
    writer: &mut Counted<W>,
    outcome: &Outcome,
) -> Result<(), WriteFault>
    ensures { Puts (seen_of W.contents writer.old) (seen_of W.contents writer.new) page.old.held.items page.new.held.items result (line_of (stays_line outcome.now)) }
{
    let mut first = Buffer::new();
    let mut second = Buffer::new();
    let stays = number(&mut first, outcome.stays);
    let mixed = number(&mut second, outcome.mixed);
    page.put_line(writer, b"stays", &[stays, b"mixed", mixed])
}
