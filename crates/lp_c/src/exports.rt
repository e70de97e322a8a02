//! The calls. Each gives a status, 0 where it did what it says; else nothing has happened.
ghost use Rattle.std.specs.Prelude.{◌≡◌, ◌<◌, ◌≤◌, ℕ, List, Option, [], None, Some, length, map, IfOk, IfErr, slice_get, slice_index};
ghost use Rattle.std.specs.Option.{ForSome};
ghost use Rattle.lp_transition.specs.Blames.{blame_of};
ghost use Rattle.lp_machine.specs.Table.{slot as live_in};
ghost use Rattle.lp_definitions.specs.declared.cert.Cert.{Cert};
ghost use Rattle.livepatch.specs.Simulated.{run_with};
ghost use Rattle.lp_models.specs.Models.{models, name_of};
ghost use Rattle.lp_c.specs.Codes.{boot_of, line_code as code_of_line};
ghost use Rattle.lp_c.specs.Held.{IsCertified, IsCreated, IsFirst, IsStep, IsTaken, TellsState, TellsTask, cert_of, lines_in};

use crate::codes::{
    BlameCode, BootTask, CertCode, EngineState, EventCode, HAS_ENGINE, JOURNAL_FULL, LineCode,
    NO_ENGINE, NO_EVENT, NO_MEMORY, NO_MODEL, NOT_THERE, OK, TASK_DOUBLED, TASK_RANGE, TaskState,
    Told, cert_code, event_of, line_code, mode_number, model_of,
};
use crate::patches::{boots_of, patch_stack};
use crate::session::Session;
use crate::slot::Slot;
use livepatch::{AnySimulator, BootFault, GroupId, Halt, ModelName, PatchStack, TaskId};
use std::alloc::Global;

/// Makes an engine in an empty slot: under the model of a number, over so many symbols, with these patches, of which each has
/// as many of the functions as its length says, and with these boot tasks.
#[unsafe(no_mangle)]
pub extern "C" fn lp_create(
    alloc: Global,
    slot: &mut Slot,
    model: u32,
    symbols: u16,
    functions: &[u16],
    lengths: &[u32],
    tasks: &[BootTask],
) -> u32
    ensures created { result ≡ 0 → IsCreated model symbols functions.now lengths.now (map boot_of tasks.now) slot.new.held }
    ensures failed { 0 < result → slot.new.held ≡ slot.old.held }
    ensures full { ForSome slot.old.held (λ _. result ≡ 21) }
    ensures no_model { slot.old.held ≡ None → slice_get models model ≡ None → result ≡ 22 }
{
    if let Some(session) = slot.take(alloc) {
        slot.put(alloc, session);
        return HAS_ENGINE;
    }
    let Some(model) = model_of(model) else {
        return NO_MODEL;
    };
    match session_of(alloc, model, symbols, functions, lengths, tasks) {
        Ok(session) => {
            slot.put(alloc, session);
            OK
        }
        Err(status) => status,
    }
}

/// Hands an event to the engine; the reply is in `told`.
#[unsafe(no_mangle)]
pub extern "C" fn lp_step(alloc: Global, slot: &mut Slot, event: &EventCode, told: &mut Told) -> u32
    ensures step { result ≡ 0 → IsStep event.now slot.old.held slot.new.held told.new }
    ensures failed { 0 < result → slot.new.held ≡ slot.old.held }
    ensures silent { 0 < result → told.new ≡ told.old }
    ensures no_engine { slot.old.held ≡ None → result ≡ 20 }
{
    let Some(mut session) = slot.take(alloc) else {
        return NO_ENGINE;
    };
    let status = step(alloc, &mut session, event, told);
    slot.put(alloc, session);
    status
}

/// The group at a place of those that switched at the last event, in increasing order.
#[unsafe(no_mangle)]
pub extern "C" fn lp_group(alloc: Global, slot: &mut Slot, place: usize, group: &mut u32) -> u32
    ensures found { ForSome slot.old.held (λ held. place < length held.groups → result ≡ 0) }
    ensures group { ForSome slot.old.held (λ held. place < length held.groups → group.new ≡ slice_index held.groups place) }
    ensures past { ForSome slot.old.held (λ held. length held.groups ≤ place → result ≡ 24) }
    ensures unchanged { slot.new.held ≡ slot.old.held }
    ensures silent { 0 < result → group.new ≡ group.old }
    ensures no_engine { slot.old.held ≡ None → result ≡ 20 }
{
    let Some(session) = slot.take(alloc) else {
        return NO_ENGINE;
    };
    let status = match session.groups().get(place) {
        None => NOT_THERE,
        Some(found) => {
            *group = u32::from(found.0);
            OK
        }
    };
    slot.put(alloc, session);
    status
}

/// Where the engine stands.
#[unsafe(no_mangle)]
pub extern "C" fn lp_state(alloc: Global, slot: &mut Slot, state: &mut EngineState) -> u32
    ensures state { ForSome slot.old.held (λ held. TellsState held state.new) }
    ensures done { ForSome slot.old.held (λ held. result ≡ 0) }
    ensures unchanged { slot.new.held ≡ slot.old.held }
    ensures silent { 0 < result → state.new ≡ state.old }
    ensures no_engine { slot.old.held ≡ None → result ≡ 20 }
{
    let Some(session) = slot.take(alloc) else {
        return NO_ENGINE;
    };
    *state = state_of(session.simulator());
    slot.put(alloc, session);
    OK
}

/// A live task as it stands.
#[unsafe(no_mangle)]
pub extern "C" fn lp_task(alloc: Global, slot: &mut Slot, task: u16, state: &mut TaskState) -> u32
    ensures task { ForSome slot.old.held (λ held. ForSome (live_in held.named.simulated.core.table task) (λ x. (result ≡ 0) × TellsTask x state.new)) }
    ensures none { ForSome slot.old.held (λ held. live_in held.named.simulated.core.table task ≡ None → result ≡ 24) }
    ensures unchanged { slot.new.held ≡ slot.old.held }
    ensures silent { 0 < result → state.new ≡ state.old }
    ensures no_engine { slot.old.held ≡ None → result ≡ 20 }
{
    let Some(session) = slot.take(alloc) else {
        return NO_ENGINE;
    };
    let status = tell_task(session.simulator(), TaskId(task), state);
    slot.put(alloc, session);
    status
}

/// The standing blame of a group: a frame by which every check of it is refused until the frame is popped or the leg ends.
#[unsafe(no_mangle)]
pub extern "C" fn lp_blame(alloc: Global, slot: &mut Slot, group: u16, blame: &mut BlameCode) -> u32
    ensures blame { ForSome slot.old.held (λ held. ForSome (blame_of held.named.simulated.core group) (λ b. (result ≡ 0) × (blame.new ≡ record { serial = b.serial; task = b.task.0; unused = 0 }))) }
    ensures none { ForSome slot.old.held (λ held. blame_of held.named.simulated.core group ≡ None → result ≡ 24) }
    ensures unchanged { slot.new.held ≡ slot.old.held }
    ensures silent { 0 < result → blame.new ≡ blame.old }
    ensures no_engine { slot.old.held ≡ None → result ≡ 20 }
{
    let Some(session) = slot.take(alloc) else {
        return NO_ENGINE;
    };
    let status = match session.simulator().blame(GroupId(group)) {
        None => NOT_THERE,
        Some(found) => {
            *blame = BlameCode {
                serial: found.serial,
                task: u32::from(found.task.0),
                unused: 0,
            };
            OK
        }
    };
    slot.put(alloc, session);
    status
}

/// Keeps the certificate that a group waits in the leg under way, until the next event is taken: `lp_line` has its lines.
#[unsafe(no_mangle)]
pub extern "C" fn lp_certificate(
    alloc: Global,
    slot: &mut Slot,
    group: u16,
    cert: &mut CertCode,
) -> u32
    ensures certified { result ≡ 0 → ForSome slot.old.held (λ held. IsCertified group held slot.new.held cert.new) }
    ensures none { result ≡ 24 → ForSome slot.old.held (λ held. cert_of held group ≡ None) }
    ensures failed { 0 < result → slot.new.held ≡ slot.old.held }
    ensures silent { 0 < result → cert.new ≡ cert.old }
    ensures no_engine { slot.old.held ≡ None → result ≡ 20 }
{
    let Some(mut session) = slot.take(alloc) else {
        return NO_ENGINE;
    };
    let status = certify(alloc, &mut session, GroupId(group), cert);
    slot.put(alloc, session);
    status
}

/// The line at a place of the certificate that was asked for since the last event.
#[unsafe(no_mangle)]
pub extern "C" fn lp_line(alloc: Global, slot: &mut Slot, place: usize, line: &mut LineCode) -> u32
    ensures line { ForSome slot.old.held (λ held. ForSome (slice_get (lines_in held.cert) place) (λ found. (result ≡ 0) × (line.new ≡ code_of_line found))) }
    ensures past { ForSome slot.old.held (λ held. slice_get (lines_in held.cert) place ≡ None → result ≡ 24) }
    ensures unchanged { slot.new.held ≡ slot.old.held }
    ensures silent { 0 < result → line.new ≡ line.old }
    ensures no_engine { slot.old.held ≡ None → result ≡ 20 }
{
    let Some(session) = slot.take(alloc) else {
        return NO_ENGINE;
    };
    let status = tell_line(&session, place, line);
    slot.put(alloc, session);
    status
}

/// Frees the engine, if one is there. The slot is then empty, and may be used again.
#[unsafe(no_mangle)]
pub extern "C" fn lp_free(alloc: Global, slot: &mut Slot)
    ensures { slot.new.held ≡ None }
{
    drop(slot.take(alloc));
}

/// The letter at a place of the name of the model of a number, so that nobody has to list the models again.
#[unsafe(no_mangle)]
pub extern "C" fn lp_model_name(model: u32, place: usize, letter: &mut u32) -> u32
    ensures letter { ForSome (slice_get models model) (λ named. ForSome (slice_get (name_of named) place) (λ found. (result ≡ 0) × (letter.new ≡ found))) }
    ensures past { ForSome (slice_get models model) (λ named. slice_get (name_of named) place ≡ None → result ≡ 24) }
    ensures no_model { slice_get models model ≡ None → result ≡ 22 }
    ensures silent { 0 < result → letter.new ≡ letter.old }
{
    let Some(model) = model_of(model) else {
        return NO_MODEL;
    };
    match model.name().as_bytes().get(place) {
        None => NOT_THERE,
        Some(found) => {
            *letter = u32::from(*found);
            OK
        }
    }
}

/// A session with a run before its first event, or the status of the first fault.
fn session_of(
    alloc: Global,
    model: ModelName,
    symbols: u16,
    functions: &[u16],
    lengths: &[u32],
    tasks: &[BootTask],
) -> Result<Box<Session>, u32>
    ensures first { IfOk result (λ session. IsFirst symbols functions.now lengths.now (map boot_of tasks.now) session.value) }
    ensures model { IfOk result (λ session. session.value.named.model ≡ model) }
    ensures status { IfErr result (λ status. 0 < status) }
{
    match patch_stack(alloc, symbols, functions, lengths) {
        Ok(patches) => booted(alloc, model, patches, tasks),
        Err(status) => Err(status),
    }
}

/// A session over these patches.
fn booted(
    alloc: Global,
    model: ModelName,
    patches: PatchStack,
    tasks: &[BootTask],
) -> Result<Box<Session>, u32>
    ensures run { IfOk result (λ session. session.value.named.simulated.run ≡ run_with patches (map boot_of tasks.now) []) }
    ensures groups { IfOk result (λ session. session.value.groups ≡ []) }
    ensures cert { IfOk result (λ session. session.value.cert ≡ None) }
    ensures model { IfOk result (λ session. session.value.named.model ≡ model) }
    ensures status { IfErr result (λ status. 0 < status) }
{
    match boots_of(alloc, tasks) {
        Ok(boots) => match AnySimulator::new(alloc, model, patches, boots.as_slice()) {
            Ok(simulator) => boxed(alloc, simulator),
            Err(BootFault::TaskRange) => Err(TASK_RANGE),
            Err(BootFault::TaskDoubled) => Err(TASK_DOUBLED),
            Err(BootFault::NoMemory) => Err(NO_MEMORY),
        },
        Err(_) => {
            drop(patches);
            Err(NO_MEMORY)
        }
    }
}

/// A session in a box.
fn boxed(alloc: Global, simulator: AnySimulator) -> Result<Box<Session>, u32>
    ensures session { IfOk result (λ session. session.value ≡ record { named = simulator; groups = []; cert = None }) }
    ensures status { IfErr result (λ status. 0 < status) }
{
    match Box::new(alloc, Session::new(alloc, simulator)) {
        Ok(session) => Ok(session),
        Err(_) => Err(NO_MEMORY),
    }
}

/// Takes an event.
fn step(alloc: Global, session: &mut Session, event: &EventCode, told: &mut Told) -> u32
    ensures taken { result ≡ 0 → IsTaken event.now session.old session.new told.new }
    ensures failed { 0 < result → session.new ≡ session.old }
    ensures silent { 0 < result → told.new ≡ told.old }
{
    let Some(event) = event_of(*event) else {
        return NO_EVENT;
    };
    match session.step(alloc, event) {
        Ok(answer) => {
            *told = answer;
            OK
        }
        Err(Halt::NoMemory) => NO_MEMORY,
        Err(Halt::JournalFull) => JOURNAL_FULL,
    }
}

/// Where an engine stands.
fn state_of(simulator: &AnySimulator) -> EngineState
    ensures { (groups : List ℕ) (cert : Option Cert) → TellsState (record { named = simulator.now; groups = groups; cert = cert }) result }
{
    EngineState {
        events: simulator.count(),
        target: u32::from(simulator.target().0),
        in_transition: u32::from(simulator.in_transition()),
    }
}

/// A live task as it stands, where there is one.
fn tell_task(simulator: &AnySimulator, task: TaskId, state: &mut TaskState) -> u32
    ensures task { ForSome (live_in simulator.now.simulated.core.table task.0) (λ x. (result ≡ 0) × TellsTask x state.new) }
    ensures none { live_in simulator.now.simulated.core.table task.0 ≡ None → result ≡ 24 }
    ensures silent { 0 < result → state.new ≡ state.old }
{
    let Some(view) = simulator.task(task) else {
        return NOT_THERE;
    };
    let Some(level) = simulator.level_of(task) else {
        return NOT_THERE;
    };
    let Some(group) = simulator.group_of(task) else {
        return NOT_THERE;
    };
    *state = TaskState {
        level: u32::from(level.0),
        group: u32::from(group.0),
        mode: mode_number(view.mode),
        unused: 0,
        depth: view.frames.len(),
    };
    OK
}

/// Keeps and tells the certificate of a group, if it waits.
fn certify(alloc: Global, session: &mut Session, group: GroupId, told: &mut CertCode) -> u32
    ensures certified { result ≡ 0 → IsCertified group.0 session.old (Some session.new) told.new }
    ensures none { result ≡ 24 → cert_of session.old group.0 ≡ None }
    ensures failed { 0 < result → session.new ≡ session.old }
    ensures silent { 0 < result → told.new ≡ told.old }
{
    match session.certify(alloc, group) {
        Ok(true) => {}
        Ok(false) => return NOT_THERE,
        Err(_) => return NO_MEMORY,
    }
    let Some(cert) = session.cert() else {
        unreachable!()
    };
    *told = cert_code(cert);
    OK
}

/// A line of the certificate, where there is one at this place.
fn tell_line(session: &Session, place: usize, told: &mut LineCode) -> u32
    ensures line { ForSome (slice_get (lines_in session.now.cert) place) (λ found. (result ≡ 0) × (told.new ≡ code_of_line found)) }
    ensures past { slice_get (lines_in session.now.cert) place ≡ None → result ≡ 24 }
    ensures silent { 0 < result → told.new ≡ told.old }
{
    let Some(cert) = session.cert() else {
        return NOT_THERE;
    };
    match cert.lines.as_slice().get(place) {
        Some(line) => {
            *told = line_code(line);
            OK
        }
        None => NOT_THERE,
    }
}
