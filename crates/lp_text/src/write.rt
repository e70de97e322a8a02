//! Writing a trace text.
ghost use Rattle.std.specs.Prelude.{◌≡◌, ◌<◌, ◌≤◌, ◌∷◌, ◌++◌, [], decimal, length, map, None, slice_index_or};
ghost use Rattle.std.specs.List.{flat_map, AllByRecursion};
ghost use Rattle.lp_patch.specs.Patches.{patch_refusal};
ghost use Rattle.lp_text.specs.Traces.{functions, IsEvent, IsTrace, boot_words, event_words, name, patch_lines, patch_words, sym_words, text_of};
ghost use Rattle.lp_text.specs.Words.{event_word, header, line_of};
ghost use Rattle.lp_text.specs.StreamContract.{WritesToEnd, ended, write_end};
ghost use Rattle.lp_text.specs.Writing.{Writes};
ghost use Rattle.lp_text.specs.inside.Writing.{Wrote, seen_of};

use crate::counted::Counted;
use crate::form::TraceForm;
use crate::keyword::{EventKeyword, LineKeyword, class_word, fork_word};
use crate::trace::Trace;
use itoa::Buffer;
use lp_definitions::Event;
use lp_model::ForkKind;
use lp_stack::{Class, TaskId};
use lp_symbols::{SymId, Symbols};
use std::io::{self, Write};
use thiserror::Error;

/// Why a text was not written to its end. What was written is a prefix of it.
#[derive(Debug, Drop, Error)]
pub enum WriteFault {
    /// The writer failed, or was interrupted.
    #[error("the output can't be written: {0}")]
    Failed(io::Error),
    /// The writer took no byte.
    #[error("the output takes no byte")]
    Stopped,
}

/// Writes all of the bytes. Never allocates.
pub fn put<W: Write>(writer: &mut Counted<W>, bytes: &[u8]) -> Result<(), WriteFault>
    ensures written { Writes (W.contents writer.old.stream) (W.contents writer.new.stream) result bytes.now }
    // A fault comes of a write that failed or took no byte.
    ensures writes { WritesToEnd (ended write_end result) writer.old writer.new }
{
    let mut rest = bytes;
    while !rest.is_empty() {
        match writer.write(rest) {
            Ok(0) => return Err(WriteFault::Stopped),
            Ok(count) => rest = &rest[count..],
            Err(error) => return Err(WriteFault::Failed(error)),
        }
    }
    Ok(())
}

/// Writes two pieces, one after the other.
fn put_both<W: Write>(
    writer: &mut Counted<W>,
    first: &[u8],
    second: &[u8],
) -> Result<(), WriteFault>
    ensures { Wrote (seen_of W.contents writer.old) (seen_of W.contents writer.new) result (first.now ++ second.now) }
{
    put(writer, first)?;
    put(writer, second)
}

/// Writes a line of these words.
fn put_line<W: Write>(
    writer: &mut Counted<W>,
    first: &[u8],
    words: &[&[u8]],
) -> Result<(), WriteFault>
    ensures { Wrote (seen_of W.contents writer.old) (seen_of W.contents writer.new) result (line_of (first.now ∷ map (λ word. word.now) words.now)) }
{
    put(writer, first)?;
    for word in words {
        put_both(writer, b" ", word)?;
    }
    put(writer, b"\n")
}

/// A number, in a buffer of its own.
fn number<'a>(buffer: &'a mut Buffer, number: u16) -> &'a [u8]
    ensures { result.now ≡ decimal number }
{
    buffer.format(number).as_bytes()
}

/// The name of a symbol.
pub(crate) fn name_of(symbols: &Symbols, id: SymId) -> &[u8]
    requires { id.0 < length symbols.now }
    ensures { result.now ≡ name symbols.now id }
{
    symbols.name(id).unwrap().as_bytes()
}

/// Writes the line of an event of one task.
fn put_task<W: Write>(
    writer: &mut Counted<W>,
    word: EventKeyword,
    task: TaskId,
) -> Result<(), WriteFault>
    ensures { Wrote (seen_of W.contents writer.old) (seen_of W.contents writer.new) result (line_of (event_word word ∷ decimal task.0 ∷ [])) }
{
    let mut buffer = Buffer::new();
    put_line(writer, word.bytes(), &[number(&mut buffer, task.0)])
}

/// Writes the line of an event of no task.
fn put_word<W: Write>(writer: &mut Counted<W>, word: EventKeyword) -> Result<(), WriteFault>
    ensures { Wrote (seen_of W.contents writer.old) (seen_of W.contents writer.new) result (line_of (event_word word ∷ [])) }
{
    put_line(writer, word.bytes(), &[])
}

/// Writes the line of a call.
fn put_call<W: Write>(
    writer: &mut Counted<W>,
    symbols: &Symbols,
    task: TaskId,
    func: SymId,
) -> Result<(), WriteFault>
    requires { func.0 < length symbols.now }
    ensures { Wrote (seen_of W.contents writer.old) (seen_of W.contents writer.new) result (line_of (event_words symbols.now (Event.Call task func))) }
{
    let mut buffer = Buffer::new();
    let name = name_of(symbols, func);
    put_line(
        writer,
        EventKeyword::Call.bytes(),
        &[number(&mut buffer, task.0), name],
    )
}

/// Writes the line of a fork.
fn put_fork<W: Write>(
    writer: &mut Counted<W>,
    parent: TaskId,
    child: TaskId,
    how: ForkKind,
) -> Result<(), WriteFault>
    ensures { Wrote (seen_of W.contents writer.old) (seen_of W.contents writer.new) result (line_of (event_words [] (Event.Fork parent child how))) }
{
    let mut first = Buffer::new();
    let mut second = Buffer::new();
    let parent = number(&mut first, parent.0);
    let child = number(&mut second, child.0);
    put_line(
        writer,
        EventKeyword::Fork.bytes(),
        &[parent, child, fork_word(how)],
    )
}

/// Writes the line of an event.
fn put_event<W: Write>(
    writer: &mut Counted<W>,
    symbols: &Symbols,
    event: Event,
) -> Result<(), WriteFault>
    requires { IsEvent (length symbols.now) event }
    ensures { Wrote (seen_of W.contents writer.old) (seen_of W.contents writer.new) result (line_of (event_words symbols.now event)) }
{
    match event {
        Event::Call(task, func) => put_call(writer, symbols, task, func),
        Event::Ret(task) => put_task(writer, EventKeyword::Ret, task),
        Event::Sleep(task) => put_task(writer, EventKeyword::Sleep, task),
        Event::Wake(task) => put_task(writer, EventKeyword::Wake, task),
        Event::Enter(task) => put_task(writer, EventKeyword::Enter, task),
        Event::Exit(task) => put_task(writer, EventKeyword::Exit, task),
        Event::Idle(task) => put_task(writer, EventKeyword::Idle, task),
        Event::Resched(task) => put_task(writer, EventKeyword::Resched, task),
        Event::Fork(parent, child, how) => put_fork(writer, parent, child, how),
        Event::Die(task) => put_task(writer, EventKeyword::Die, task),
        Event::Walk => put_word(writer, EventKeyword::Walk),
        Event::Stop => put_word(writer, EventKeyword::Stop),
        Event::Enable => put_word(writer, EventKeyword::Enable),
        Event::Disable => put_word(writer, EventKeyword::Disable),
        Event::Reverse => put_word(writer, EventKeyword::Reverse),
    }
}

/// Writes the line of a boot task.
fn put_boot<W: Write>(writer: &mut Counted<W>, task: TaskId, class: Class) -> Result<(), WriteFault>
    ensures { Wrote (seen_of W.contents writer.old) (seen_of W.contents writer.new) result (line_of (boot_words (task, class))) }
{
    let mut buffer = Buffer::new();
    put_line(
        writer,
        LineKeyword::Boot.bytes(),
        &[number(&mut buffer, task.0), class_word(class)],
    )
}

/// Writes the line of a symbol.
fn put_symbol<W: Write>(
    writer: &mut Counted<W>,
    symbols: &Symbols,
    id: SymId,
) -> Result<(), WriteFault>
    requires { id.0 < length symbols.now }
    ensures { Wrote (seen_of W.contents writer.old) (seen_of W.contents writer.new) result (line_of (sym_words (name symbols.now id))) }
{
    let name = name_of(symbols, id);
    put_line(writer, LineKeyword::Sym.bytes(), &[name])
}

/// Writes the line of a function of the patch of a number.
fn put_function<W: Write>(
    writer: &mut Counted<W>,
    form: TraceForm,
    patch: u16,
    symbols: &Symbols,
    func: SymId,
) -> Result<(), WriteFault>
    requires { func.0 < length symbols.now }
    ensures { Wrote (seen_of W.contents writer.old) (seen_of W.contents writer.new) result (line_of (patch_words form patch (name symbols.now func))) }
{
    let mut buffer = Buffer::new();
    let name = name_of(symbols, func);
    match form {
        TraceForm::Single => put_line(writer, LineKeyword::Patch.bytes(), &[name]),
        TraceForm::Stacked | TraceForm::WithResched => {
            let number = number(&mut buffer, patch);
            put_line(writer, LineKeyword::Patch.bytes(), &[number, name])
        }
    }
}

/// Writes the lines of the symbols.
fn put_symbols<W: Write>(writer: &mut Counted<W>, symbols: &Symbols) -> Result<(), WriteFault>
    ensures { Wrote (seen_of W.contents writer.old) (seen_of W.contents writer.new) result (flat_map line_of (map sym_words symbols.now)) }
{
    for i in 0..symbols.len() {
        put_symbol(writer, symbols, SymId(i as u16))?;
    }
    Ok(())
}

/// Writes the lines of the patch of a number.
fn put_patch<W: Write>(
    writer: &mut Counted<W>,
    form: TraceForm,
    number: u16,
    symbols: &Symbols,
    patch: &[SymId],
) -> Result<(), WriteFault>
    requires { patch_refusal (length symbols.now) patch.now ≡ None }
    ensures { Wrote (seen_of W.contents writer.old) (seen_of W.contents writer.new) result (flat_map line_of (map (λ func. patch_words form number (name symbols.now func)) patch.now)) }
{
    for func in patch {
        put_function(writer, form, number, symbols, *func)?;
    }
    Ok(())
}

/// Writes the lines of the patches.
fn put_patches<W: Write>(
    writer: &mut Counted<W>,
    form: TraceForm,
    symbols: &Symbols,
    patches: &[Vec<SymId>],
) -> Result<(), WriteFault>
    requires few { length patches.now ≤ 16 }
    requires good { AllByRecursion (λ patch. patch_refusal (length symbols.now) patch ≡ None) (functions patches.now) }
    ensures { Wrote (seen_of W.contents writer.old) (seen_of W.contents writer.new) result (flat_map line_of (patch_lines form symbols.now 1 (functions patches.now))) }
{
    for (i, patch) in patches.iter().enumerate() {
        let number = i as u16 + 1;
        put_patch(writer, form, number, symbols, patch.as_slice())?;
    }
    Ok(())
}

/// Writes the lines of the boot tasks.
fn put_boots<W: Write>(writer: &mut Counted<W>, boots: &[(TaskId, Class)]) -> Result<(), WriteFault>
    ensures { Wrote (seen_of W.contents writer.old) (seen_of W.contents writer.new) result (flat_map line_of (map boot_words boots.now)) }
{
    for (task, class) in boots {
        put_boot(writer, *task, *class)?;
    }
    Ok(())
}

/// Writes the lines of the events.
fn put_events<W: Write>(
    writer: &mut Counted<W>,
    symbols: &Symbols,
    events: &[Event],
) -> Result<(), WriteFault>
    requires { AllByRecursion (IsEvent (length symbols.now)) events.now }
    ensures { Wrote (seen_of W.contents writer.old) (seen_of W.contents writer.new) result (flat_map line_of (map (event_words symbols.now) events.now)) }
{
    for event in events {
        put_event(writer, symbols, *event)?;
    }
    Ok(())
}

impl Trace {
    /// Writes the one spelling of the trace, in small pieces: give it a buffered writer.
    ///
    /// Never allocates. A fault of the writer, an interruption and a write that takes no byte end it.
    pub fn write<W: Write>(&self, writer: &mut Counted<W>) -> Result<(), WriteFault>
        ensures written { Writes (W.contents writer.old.stream) (W.contents writer.new.stream) result (text_of self.now) }
        // A fault comes of a write that failed or took no byte.
        ensures writes { WritesToEnd (ended write_end result) writer.old writer.new }
    {
        put_trace(writer, self)
    }
}

/// Writes the text of a trace.
fn put_trace<W: Write>(writer: &mut Counted<W>, trace: &Trace) -> Result<(), WriteFault>
    ensures { Wrote (seen_of W.contents writer.old) (seen_of W.contents writer.new) result (text_of trace.now) }
{
    let patches = trace.patches.as_slice();
    let boots = trace.boots.as_slice();
    let events = trace.events.as_slice();
    put_parts(writer, trace.form, &trace.symbols, patches, boots, events)
}

/// Writes the first line.
fn put_header<W: Write>(writer: &mut Counted<W>, form: TraceForm) -> Result<(), WriteFault>
    ensures { Wrote (seen_of W.contents writer.old) (seen_of W.contents writer.new) result (line_of (header form ∷ [])) }
{
    put_line(writer, form.header(), &[])
}

/// Writes the text of these parts.
fn put_parts<W: Write>(
    writer: &mut Counted<W>,
    form: TraceForm,
    symbols: &Symbols,
    patches: &[Vec<SymId>],
    boots: &[(TaskId, Class)],
    events: &[Event],
) -> Result<(), WriteFault>
    requires few { length patches.now ≤ 16 }
    requires patches { AllByRecursion (λ patch. patch_refusal (length symbols.now) patch ≡ None) (functions patches.now) }
    requires events { AllByRecursion (IsEvent (length symbols.now)) events.now }
    ensures { Wrote (seen_of W.contents writer.old) (seen_of W.contents writer.new) result (text_of (record { form = form; symbols = symbols.now; patches = functions patches.now; boots = boots.now; events = events.now })) }
{
    put_header(writer, form)?;
    put_symbols(writer, symbols)?;
    put_patches(writer, form, symbols, patches)?;
    put_boots(writer, boots)?;
    put_events(writer, symbols, events)
}
