//! Parts that have no spelling, each with its place.
use super::*;
use lp_model::ForkKind;
use lp_symbols::SymFault;
use lp_trace::OfFault;
use std::alloc::AllocError;

const A: SymId = SymId(0);

const B: SymId = SymId(1);

/// No symbol: a, b and c are 0 to 2.
const D: SymId = SymId(3);

const ONE: (TaskId, Class) = (TaskId(1), Class::Normal);

const TWO: (TaskId, Class) = (TaskId(2), Class::Idle);

const NOBODY: TaskId = TaskId(0);

/// Adds these names.
fn add_all(symbols: &mut Symbols, names: &[&str]) -> Result<(), SymFault> {
    for name in names {
        symbols.add(*name)?;
    }
    Ok(())
}

/// These names, in a box.
fn named(alloc: Global, names: &[&str]) -> Option<Box<Symbols>> {
    match Symbols::new(alloc) {
        Ok(mut symbols) => match add_all(&mut symbols, names) {
            Ok(()) => Box::new(alloc, symbols).ok(),
            Err(_) => None,
        },
        Err(_) => None,
    }
}

/// The symbols a, b and c.
fn three(alloc: Global) -> Option<Box<Symbols>> {
    named(alloc, &["a", "b", "c"])
}

/// Whether the first part without a spelling is the one at this place.
fn stops_at(made: Result<Trace, OfFault>, place: u64) -> bool {
    match made {
        Err(OfFault::Unwritable(at)) => at == place,
        _ => false,
    }
}

/// Whether a trace was made of so many events.
fn has_events(made: Result<Trace, OfFault>, count: usize) -> bool {
    match made {
        Ok(trace) => trace.events().len() == count,
        Err(_) => false,
    }
}

/// Patches with functions that are unknown or are there twice, and boot tasks without a number, or
/// with one that is there before, each with its place.
const PARTS: [(&[SymId], &[(TaskId, Class)], u64); 5] = [
    (&[], &[ONE], 4),
    (&[D], &[], 4),
    (&[A, B, A], &[], 6),
    (&[A, B], &[(NOBODY, Class::Normal)], 6),
    (&[A, B], &[ONE, TWO, (TaskId(1), Class::Idle)], 8),
];

/// Whether each of them is in its place.
fn are_in_places(alloc: Global, symbols: &Symbols) -> bool {
    for (patch, boots, place) in &PARTS {
        if !stops_at(Trace::of(alloc, symbols, patch, boots, &[]), *place) {
            return false;
        }
    }
    true
}

/// Whether they are where the symbols are a, b and c.
fn are_in_places_of_three(alloc: Global) -> bool {
    match three(alloc) {
        Some(symbols) => are_in_places(alloc, &symbols),
        None => false,
    }
}

#[test]
fn patches_and_boot_tasks_are_in_their_places(rt: HostRuntime) {
    assert!(rt; are_in_places_of_three(rt.alloc()));
}

/// Whether a trace without a symbol stops at its first part.
fn stops_without_a_symbol(alloc: Global) -> bool {
    match Symbols::new(alloc) {
        Ok(none) => stops_at(Trace::of(alloc, &none, &[], &[], &[]), 1),
        Err(_) => false,
    }
}

#[test]
fn there_is_a_symbol(rt: HostRuntime) {
    assert!(rt; stops_without_a_symbol(rt.alloc()));
}

/// Adds so many symbols, and gives a patch of all of them.
fn patch_of(alloc: Global, symbols: &mut Symbols, count: u16) -> Result<Vec<SymId>, SymFault> {
    let mut patch = Vec::new(alloc);
    for i in 0..count {
        patch.push(add_numbered(alloc, symbols, i)?)?;
    }
    Ok(patch)
}

/// Adds the symbol of a number.
fn add_numbered(alloc: Global, symbols: &mut Symbols, number: u16) -> Result<SymId, SymFault> {
    let name = format!(in alloc; "f{number}")?;
    symbols.add(&name)
}

/// Whether a patch of 257 functions is one too long, and has room for 256 of them.
fn has_up_to_256(alloc: Global, symbols: &Symbols, funcs: &[SymId]) -> bool {
    funcs.len() == 257
        && stops_at(Trace::of(alloc, symbols, funcs, &[ONE], &[]), 514)
        && has_functions(Trace::of(alloc, symbols, &funcs[1..], &[ONE], &[]), 256)
}

/// Whether a trace was made of a patch of so many functions.
fn has_functions(made: Result<Trace, OfFault>, count: usize) -> bool {
    match made {
        Ok(trace) => trace.patches() == 1 && trace.patch(1).len() == count,
        Err(_) => false,
    }
}

/// Whether it is so of names that are added to these.
fn has_up_to_256_of(alloc: Global, symbols: &mut Symbols) -> bool {
    match patch_of(alloc, symbols, 257) {
        Ok(patch) => has_up_to_256(alloc, symbols, patch.as_slice()),
        Err(_) => false,
    }
}

/// Whether it is so of the only names.
fn has_up_to_256_functions(alloc: Global) -> bool {
    match Symbols::new(alloc) {
        Ok(mut symbols) => has_up_to_256_of(alloc, &mut symbols),
        Err(_) => false,
    }
}

#[test]
fn a_patch_has_up_to_256_functions(rt: HostRuntime) {
    assert!(rt; has_up_to_256_functions(rt.alloc()));
}

/// Events of no task or of an unknown function, and one that the first text has no word for.
const WRONG: [Event; 7] = [
    Event::Ret(NOBODY),
    Event::Idle(NOBODY),
    Event::Resched(TaskId(1)),
    Event::Call(NOBODY, A),
    Event::Call(TaskId(1), D),
    Event::Fork(NOBODY, TaskId(2), ForkKind::Own),
    Event::Fork(TaskId(1), NOBODY, ForkKind::Share),
];

/// Whether a trace stops at each of them.
fn stops_at_wrong_events(alloc: Global, symbols: &Symbols) -> bool {
    for event in &WRONG {
        let events = [
            Event::Enable,
            Event::Call(TaskId(7), B),
            *event,
            Event::Walk,
        ];
        if !stops_at(Trace::of(alloc, symbols, &[A], &[ONE], &events), 8) {
            return false;
        }
    }
    true
}

/// Whether it does where the symbols are a, b and c.
fn stops_at_wrong_events_of_three(alloc: Global) -> bool {
    match three(alloc) {
        Some(symbols) => stops_at_wrong_events(alloc, &symbols),
        None => false,
    }
}

#[test]
fn an_event_has_tasks_and_a_known_function(rt: HostRuntime) {
    assert!(rt; stops_at_wrong_events_of_three(rt.alloc()));
}

/// An event so many times.
fn times(alloc: Global, count: usize, event: Event) -> Result<Vec<Event>, AllocError> {
    let mut events = Vec::new(alloc);
    for _ in 0..count {
        events.push(event)?;
    }
    Ok(events)
}

/// Whether a trace has an event as often as these, and stops at the last where there is one more.
fn is_full(alloc: Global, symbols: &Symbols, events: &[Event], place: u64) -> bool {
    if events.is_empty() {
        return false;
    }
    let fitting = events.len() - 1;
    has_events(Trace::of(alloc, symbols, &[A], &[], &events[1..]), fitting)
        && stops_at(Trace::of(alloc, symbols, &[A], &[], events), place)
}

/// Whether an event has room so many times, and one more stops at this place.
fn is_full_of(alloc: Global, symbols: &Symbols, count: usize, event: Event, place: u64) -> bool {
    match times(alloc, count, event) {
        Ok(events) => is_full(alloc, symbols, events.as_slice(), place),
        Err(_) => false,
    }
}

/// Whether a trace has room for a million walks.
fn has_a_million(alloc: Global) -> bool {
    match three(alloc) {
        Some(symbols) => is_full_of(alloc, &symbols, 1_000_001, Event::Walk, 1_000_005),
        None => false,
    }
}

#[test]
fn a_million_events_have_spellings(rt: HostRuntime) {
    assert!(rt; has_a_million(rt.alloc()));
}

/// A name of 512 bytes.
fn long_name(alloc: Global) -> Result<String, AllocError> {
    let mut name = String::new(alloc);
    for _ in 0..512 {
        name.push('x')?;
    }
    Ok(name)
}

/// A symbol with such a name.
fn long_named(alloc: Global) -> Option<Box<Symbols>> {
    match long_name(alloc) {
        Ok(name) => named(alloc, &[name.as_str()]),
        Err(_) => None,
    }
}

/// Whether a trace has room for 256,138 calls of its function.
fn has_its_greatest_size(alloc: Global) -> bool {
    let call = Event::Call(TaskId(65_535), A);
    match long_named(alloc) {
        Some(symbols) => is_full_of(alloc, &symbols, 256_139, call, 256_141),
        None => false,
    }
}

/// A call of a function with a name of 512 bytes has a line of 524 bytes, and the lines before the
/// calls have 1,046. So 256,138 calls fit into the 134,217,728 bytes of a text.
#[test]
fn a_text_has_its_greatest_size(rt: HostRuntime) {
    assert!(rt; has_its_greatest_size(rt.alloc()));
}

const FUNCS: [SymId; 2] = [A, B];

/// Stacks with no patch, or with a patch of no function, each with its place.
const STACKS: [(&[&[SymId]], u64); 4] = [
    (&[], 4),
    (&[&[], &[A]], 4),
    (&[&[A], &[]], 5),
    (&[&FUNCS, &[]], 6),
];

/// Whether each of them is in its place.
fn stacks_are_in_places(alloc: Global, symbols: &Symbols) -> bool {
    for (stack, place) in &STACKS {
        if !stops_at(Trace::of_stack(alloc, symbols, stack, &[ONE], &[]), *place) {
            return false;
        }
    }
    true
}

/// Whether they are where the symbols are a, b and c.
fn stacks_are_in_places_of_three(alloc: Global) -> bool {
    match three(alloc) {
        Some(symbols) => stacks_are_in_places(alloc, &symbols),
        None => false,
    }
}

#[test]
fn a_stack_has_patches_with_functions(rt: HostRuntime) {
    assert!(rt; stacks_are_in_places_of_three(rt.alloc()));
}

/// Whether a trace was made of so many patches.
fn has_patches(made: Result<Trace, OfFault>, count: u8) -> bool {
    match made {
        Ok(trace) => trace.patches() == count,
        Err(_) => false,
    }
}

/// Whether a stack has room for 16 patches.
fn has_up_to_16(alloc: Global, symbols: &Symbols) -> bool {
    let patches = [&FUNCS[..1]; 17];
    has_patches(
        Trace::of_stack(alloc, symbols, &patches[1..], &[ONE], &[]),
        16,
    ) && stops_at(Trace::of_stack(alloc, symbols, &patches, &[ONE], &[]), 20)
}

/// Whether it has where the symbols are a, b and c.
fn has_up_to_16_of_three(alloc: Global) -> bool {
    match three(alloc) {
        Some(symbols) => has_up_to_16(alloc, &symbols),
        None => false,
    }
}

#[test]
fn a_stack_has_up_to_16_patches(rt: HostRuntime) {
    assert!(rt; has_up_to_16_of_three(rt.alloc()));
}
