//! The legs of a trace.
ghost use Rattle.std.specs.Prelude.{◌≡◌, ◌≤◌, ◌<◌, ◌+◌, ◌++◌, ℕ, false, length, slice_index_or, take, true, IfOk, IfSome, IsTrue, OnOk};
ghost use Rattle.std.specs.Option.{option_map};
ghost use Rattle.lp_checker.specs.Folds.{leg_with};
ghost use Rattle.lp_definitions.specs.Run.{Run, leg_of, opens, plus};
ghost use Rattle.lp_definitions.specs.Events.{is_control};
ghost use Rattle.lp_machine.specs.Steps.{StandsIn};
ghost use Rattle.lp_machine.specs.Table.{state_in};
ghost use Rattle.lp_transition.specs.LastScan.{IsQuietScan};
ghost use Rattle.lp_transition.specs.Scan.{is_scan_kind, scan_event};
ghost use Rattle.lp_replay.specs.Legs.{leg_numbered, opened_by, to_end};

use super::fault::ReplayFault;
use super::start;
use lp_cert::opens_leg;
use lp_model::{CheckKind, Consistency};
use lp_text::Trace;
use lp_transition::{Core, Event, Halt, Opening};
use std::alloc::Global;

/// A leg of a trace.
#[derive(Drop)]
pub struct TraceLeg<'a> {
    /// The engine as the opening event left it.
    pub opening: Opening,
    /// The events after it, up to the next that opens a leg.
    pub events: &'a [Event],
}

/// The leg of a trace that the event of a number opens; None where it opens none. NoMemory where an allocation failed.
pub fn leg_numbered<M: Consistency>(
    alloc: Global,
    model: M,
    trace: &Trace,
    number: u64,
) -> Result<Option<TraceLeg<'_>>, ReplayFault>
    ensures { IfOk result (λ found. option_map (λ leg. leg_with leg.opening leg.events.now) found ≡ leg_numbered M.rules trace.now number) }
{
    let events = trace.events();
    if number == 0 || number > events.len() as u64 {
        return Ok(None);
    }
    let (before, rest) = events.split_at(number as usize - 1);
    let mut core = start::engine(alloc, model, trace)?;
    opened_after(alloc, &mut core, before, rest)
}

/// Takes the events before these, and gives the leg that the first of these opens; None where it
/// opens none.
fn opened_after<'a, M: Consistency>(
    alloc: Global,
    core: &mut Core<M>,
    before: &[Event],
    events: &'a [Event],
) -> Result<Option<TraceLeg<'a>>, ReplayFault>
    requires { (run : Run) × StandsIn M.rules run (state_in core.old) × (length run.events + (length before.now + length events.now) ≤ 1000000) }
    ensures { IfOk result (λ found. (run : Run) → StandsIn M.rules run (state_in core.old) → option_map (λ leg. leg_with leg.opening leg.events.now) found ≡ opened_by M.rules (leg_of M.rules (record run { events = run.events ++ before.now })) events.now) }
{
    step_all(alloc, core, before)?;
    opened_by(alloc, core, events)
}

/// Takes these events.
fn step_all<M: Consistency>(
    alloc: Global,
    core: &mut Core<M>,
    events: &[Event],
) -> Result<(), ReplayFault>
    requires { (run : Run) × StandsIn M.rules run (state_in core.old) × (length run.events + length events.now ≤ 1000000) }
    ensures { OnOk result ((run : Run) → StandsIn M.rules run (state_in core.old) → StandsIn M.rules (record run { events = run.events ++ events.now }) (state_in core.new)) }
{
    for event in events {
        step(alloc, core, *event)?;
    }
    Ok(())
}

/// Takes one event, and says whether it opened a leg.
fn step<M: Consistency>(
    alloc: Global,
    core: &mut Core<M>,
    event: Event,
) -> Result<bool, ReplayFault>
    requires { core.old.number < 1000000 }
    ensures { IfOk result (λ opened. (run : Run) → StandsIn M.rules run (state_in core.old) → (opened ≡ opens M.rules (leg_of M.rules run) event) × StandsIn M.rules (plus run event) (state_in core.new)) }
{
    if let Some(kind) = quiet_scan(core, event) {
        let _ = core.step_quiet_scan(kind);
        return Ok(false);
    }
    match core.step(alloc, event) {
        Ok(reply) => Ok(opens_leg(event, &reply.what)),
        Err(Halt::NoMemory) => Err(ReplayFault::NoMemory),
        Err(Halt::JournalFull) => unreachable!(),
    }
}

/// The kind of scan that an event is, where the engine needn't look at anybody for it.
fn quiet_scan<M: Consistency>(core: &Core<M>, event: Event) -> Option<CheckKind>
    ensures scan { IfSome result (λ kind. (is_scan_kind kind ≡ true) × (event ≡ scan_event kind)) }
    ensures quiet { IfSome result (λ kind. IsQuietScan M.rules core.now kind) }
{
    let kind = match event {
        Event::Walk => CheckKind::Walk,
        Event::Stop => CheckKind::Stop,
        _ => return None,
    };
    if core.is_quiet_scan(kind) {
        Some(kind)
    } else {
        None
    }
}

/// The leg that the first of these events opens; None where it opens none.
fn opened_by<'a, M: Consistency>(
    alloc: Global,
    core: &mut Core<M>,
    events: &'a [Event],
) -> Result<Option<TraceLeg<'a>>, ReplayFault>
    requires { (run : Run) × StandsIn M.rules run (state_in core.old) × (length run.events + length events.now ≤ 1000000) }
    ensures { IfOk result (λ found. (run : Run) → StandsIn M.rules run (state_in core.old) → option_map (λ leg. leg_with leg.opening leg.events.now) found ≡ opened_by M.rules (leg_of M.rules run) events.now) }
{
    let Some((event, rest)) = events.split_first() else {
        return Ok(None);
    };
    if !step(alloc, core, *event)? {
        return Ok(None);
    }
    let opening = core.standing(alloc)?;
    let count = to_end(alloc, core, rest)?;
    Ok(Some(TraceLeg {
        opening,
        events: &rest[..count],
    }))
}

/// How many of these events come before the next that opens a leg. Only a control event does, so those after the last one aren't
/// taken.
fn to_end<M: Consistency>(
    alloc: Global,
    core: &mut Core<M>,
    events: &[Event],
) -> Result<usize, ReplayFault>
    requires { (run : Run) × StandsIn M.rules run (state_in core.old) × (length run.events + length events.now ≤ 1000000) }
    ensures few { IfOk result (λ count. count ≤ length events.now) }
    ensures leg { IfOk result (λ count. (run : Run) → StandsIn M.rules run (state_in core.old) → to_end M.rules (leg_of M.rules run) events.now ≡ record (leg_of M.rules run) { events = (leg_of M.rules run).events ++ take count events.now }) }
{
    let last = up_to_control(events);
    for (count, event) in events.iter().enumerate() {
        if count == last {
            return Ok(events.len());
        }
        if step(alloc, core, *event)? {
            return Ok(count);
        }
    }
    Ok(events.len())
}

/// How many of these events there are up to the last control event, with it.
fn up_to_control(events: &[Event]) -> usize
    ensures { (place : ℕ) (d : Event) → result ≤ place → place < length events.now → is_control (slice_index_or events.now place d) ≡ false }
{
    let mut count = events.len();
    while count > 0 {
        if events[count - 1].is_control() {
            return count;
        }
        count -= 1;
    }
    0
}
