//! An engine with the journal of its events.
ghost use Rattle.std.specs.Prelude.{◌≡◌, ◌≤◌, ◌<◌, ◌↔◌, [], true, Err, None, Ok, IfSome, IfOk, OnErr, OnOk, length, map};
ghost use Rattle.lp_transition.specs.Boot.{boot_refusal};
ghost use Rattle.lp_transition.specs.Scan.{is_scan_kind, scan_event, verdicts_of};
ghost use Rattle.lp_machine.specs.Steps.{StandsIn};
ghost use Rattle.lp_machine.specs.Table.{state_in};
ghost use Rattle.lp_transition.specs.declared.engine.boot.BootFault.TheVariants.{NoMemory};
ghost use Rattle.lp_transition.specs.declared.engine.step.Halt.TheVariants.{JournalFull};
ghost use Rattle.lp_log.specs.Journals.{IsReplayed, run_of, reply_to, and_entry};
ghost use Rattle.lp_log.specs.Logs.{IsReady, AreSame};
ghost use Rattle.lp_log.specs.Seats.{new_seat};

mod commanded;
mod commanding;
mod judged;
mod ready;
mod sending;
mod sent;
mod stepped;

use crate::{Control, Entry, Journal, Seat};
pub use commanding::Commanding;
use lp_model::{CheckKind, Consistency, Verdict};
use lp_patch::PatchStack;
use lp_stack::{Class, TaskId};
use lp_transition::{BootFault, Core, Event, Halt, Reply};
pub use ready::Ready;
pub use sending::Sending;
use std::alloc::{AllocError, Global};
use std::marker::Model;

/// A log at its start, and all that may send to it.
#[derive(Drop)]
pub struct Opened<M: Consistency> {
    /// The log.
    pub log: Log<M>,
    /// The seats of its tasks, in their order.
    pub seats: Vec<Seat>,
    /// The control.
    pub control: Control,
}

/// An engine with the journal of its events: the engine stands where the run of the journal stands, and each
/// stored reply is the one that the definitions give at its place.
///
/// Contracts see the engine, the journal, and for how many entries more there is memory.
pub struct Log<M: Consistency> {
    core: Core<M>,
    patches: PatchStack,
    boots: Vec<(TaskId, Class)>,
    entries: Vec<Entry>,
}

/// By hand, so that the proof of who owns one lets go of it in one step, not field by field.
impl<M: Consistency> Drop for Log<M> {
    fn drop(self) {
        let Log {
            core: _,
            patches: _,
            boots: _,
            entries: _,
        } = self;
    }
}

impl<M: Consistency> Model for Log<M> {
    ghost use Rattle.std.specs.Prelude.{◌-◌, vec_len, vec_capacity};
    ghost use Rattle.lp_log.specs.Logs.{Logged, IsLogged};

    ghost Value = { Logged };

    ghost view = { λ l. record { core = l.core; journal = record { patches = l.patches; boots = l.boots.items; entries = l.entries.items }; room = vec_capacity l.entries - vec_len l.entries } };

    ghost invariant = { λ l. IsLogged M.rules l.core (record { patches = l.patches; boots = l.boots.items; entries = l.entries.items }) };
}

impl<M: Consistency> Log<M> {
    /// A log with an empty journal, a seat for each of the tasks, in their order, and the control. Refused as the
    /// engine is: T1 or T2 for the first task at fault, else T3 where an allocation failed.
    pub fn open(
        alloc: Global,
        model: M,
        patches: PatchStack,
        boots: &[(TaskId, Class)],
    ) -> Result<Opened<M>, BootFault>
        ensures refused { IfSome (boot_refusal boots.now) (λ fault. result ≡ Err fault) }
        ensures memory { boot_refusal boots.now ≡ None → OnErr result (result ≡ Err NoMemory) }
        ensures started { IfOk result (λ opened. opened.log.journal ≡ record { patches = patches; boots = boots.now; entries = [] }) }
        ensures seats { IfOk result (λ opened. opened.seats.items ≡ map (λ boot. new_seat boot.0.0) boots.now) }
        ensures control { IfOk result (λ opened. opened.control ≡ []) }
    {
        let patched = patches.copy(alloc);
        match Core::boot(alloc, model, patches, boots) {
            Ok(core) => match Log::after(alloc, core, patched, boots) {
                Ok(opened) => Ok(opened),
                Err(_) => Err(BootFault::NoMemory),
            },
            Err(fault) => {
                drop(patched);
                Err(fault)
            }
        }
    }

    /// A log of an engine that has taken no event, with a copy of the patches, if one could be made.
    ///
    /// The engine has a `drop` of its own, here and in `over`: the proof goes over each part of it at each early return
    /// that gives it up without one.
    fn after(
        alloc: Global,
        core: Core<M>,
        patched: Result<PatchStack, AllocError>,
        boots: &[(TaskId, Class)],
    ) -> Result<Opened<M>, AllocError>
        requires patches { IfOk patched (λ patches. patches ≡ core.patches) }
        requires stands { StandsIn M.rules (run_of (record { patches = core.patches; boots = boots.now; entries = [] })) (state_in core) }
        ensures started { IfOk result (λ opened. opened.log.journal ≡ record { patches = core.patches; boots = boots.now; entries = [] }) }
        ensures seats { IfOk result (λ opened. opened.seats.items ≡ map (λ boot. new_seat boot.0.0) boots.now) }
        ensures control { IfOk result (λ opened. opened.control ≡ []) }
    {
        match start(alloc, patched, boots) {
            Ok((patches, boots)) => Log::over(alloc, core, patches, boots),
            Err(error) => {
                drop(core);
                Err(error)
            }
        }
    }

    /// A log of an engine that has taken no event, with an empty journal of this start, a seat for each of the tasks, in
    /// their order, and the control; AllocError where an allocation failed.
    pub fn over(
        alloc: Global,
        core: Core<M>,
        patches: PatchStack,
        boots: Vec<(TaskId, Class)>,
    ) -> Result<Opened<M>, AllocError>
        requires { StandsIn M.rules (run_of (record { patches = patches; boots = boots.items; entries = [] })) (state_in core) }
        ensures started { IfOk result (λ opened. opened.log.journal ≡ record { patches = patches; boots = boots.items; entries = [] }) }
        ensures seats { IfOk result (λ opened. opened.seats.items ≡ map (λ boot. new_seat boot.0.0) boots.items) }
        ensures control { IfOk result (λ opened. opened.control ≡ []) }
    {
        match Seat::all(alloc, boots.as_slice()) {
            Ok(seats) => Ok(Opened {
                log: Log {
                    core,
                    patches,
                    boots,
                    entries: Vec::new(alloc),
                },
                seats,
                control: Control::new(alloc),
            }),
            Err(error) => {
                drop(core);
                drop(patches);
                drop(boots);
                Err(error)
            }
        }
    }

    /// The events so far, in their order.
    pub fn entries(&self) -> &[Entry]
        ensures value { result.now ≡ self.now.journal.entries }
        ensures replayed { IsReplayed M.rules self.now.journal }
        ensures stands { StandsIn M.rules (run_of self.now.journal) (state_in self.now.core) }
    {
        self.entries.as_slice()
    }

    /// The engine, borrowed.
    pub fn core(&self) -> &Core<M>
        ensures value { result.now ≡ self.now.core }
        ensures stands { StandsIn M.rules (run_of self.now.journal) (state_in self.now.core) }
    {
        &self.core
    }

    /// Gives the engine up, and hands out the journal. Never allocates.
    pub fn into_journal(self) -> Journal
        ensures value { result ≡ self.journal }
        ensures replayed { IsReplayed M.rules result }
    {
        let Self {
            core,
            patches,
            boots,
            entries,
        } = self;
        drop(core);
        Journal::new(patches, boots, entries)
    }

    /// Takes one event, and adds it to the journal with the answer. Where it fails the engine and the journal are
    /// as they were: NoMemory where an allocation failed, JournalFull where no event is left.
    pub fn apply(&mut self, alloc: Global, event: Event) -> Result<Reply, Halt>
        ensures full { (result ≡ Err JournalFull) ↔ (1000000 ≤ length self.old.journal.entries) }
        ensures reply { IfOk result (λ given. given ≡ reply_to M.rules self.old.journal event) }
        ensures journal { IfOk result (λ given. self.new.journal ≡ and_entry self.old.journal event given) }
        ensures unchanged { OnErr result (AreSame self.old self.new) }
    {
        let step = self.weigh(alloc, event)?;
        let ready = self.ready(alloc, step)?;
        Ok(self.commit(ready))
    }

    /// Takes a walk or a stop by what its checks found of the waiting tasks, and adds it to the journal with the
    /// answer. Where it fails the engine and the journal are as they were: NoMemory where an allocation failed,
    /// JournalFull where no event is left.
    pub fn apply_scan(
        &mut self,
        alloc: Global,
        kind: CheckKind,
        verdicts: &[Verdict],
    ) -> Result<Reply, Halt>
        requires scan { is_scan_kind kind ≡ true }
        requires found { verdicts.now ≡ verdicts_of M.rules kind (state_in self.old.core) }
        ensures full { (result ≡ Err JournalFull) ↔ (1000000 ≤ length self.old.journal.entries) }
        ensures reply { IfOk result (λ given. given ≡ reply_to M.rules self.old.journal (scan_event kind)) }
        ensures journal { IfOk result (λ given. self.new.journal ≡ and_entry self.old.journal (scan_event kind) given) }
        ensures unchanged { OnErr result (AreSame self.old self.new) }
    {
        let step = self.weigh_scan(alloc, kind, verdicts)?;
        let ready = self.ready(alloc, step)?;
        Ok(self.commit(ready))
    }
}

/// The patches and the tasks with which a run starts, as a log keeps them; AllocError where an allocation failed.
fn start(
    alloc: Global,
    patched: Result<PatchStack, AllocError>,
    boots: &[(TaskId, Class)],
) -> Result<(PatchStack, Vec<(TaskId, Class)>), AllocError>
    ensures { IfOk result (λ start. (patched ≡ Ok start.0) × (start.1.items ≡ boots.now)) }
{
    Ok((patched?, Vec::from_slice(alloc, boots)?))
}
