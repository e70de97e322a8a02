//! One engine, with the run so far and why each group waits.
ghost use Rattle.std.specs.Prelude.{◌≡◌, ◌⊎◌, ◌≤◌, ◌<◌, ◌-◌, ◌↔◌, ℕ, [], true, false, None, Some, Err, drop, is_some, length, take, vec_len, vec_capacity, IfOk, IfSome, IsSome, OnErr, OnOk, MatchResult};
ghost use Rattle.std.specs.Option.{option_map};
ghost use Rattle.lp_transition.specs.Blames.{blame_of};
ghost use Rattle.lp_transition.specs.Weigh.{HasBlamesAfter};
ghost use Rattle.lp_transition.specs.Boot.{boot_refusal};
ghost use Rattle.lp_definitions.specs.Run.{Run, leg_of, plus, reply};
ghost use Rattle.lp_machine.specs.Steps.{StandsIn};
ghost use Rattle.lp_machine.specs.Table.{state_in};
ghost use Rattle.lp_transition.specs.declared.engine.boot.BootFault.TheVariants.{NoMemory};
ghost use Rattle.lp_transition.specs.declared.engine.step.Halt.TheVariants.{JournalFull};
ghost use Rattle.lp_cert.specs.Ends.{floor_in, is_opened, leg_under_way, waiting_in};
ghost use Rattle.lp_cert.specs.Explained.{Explained};
ghost use Rattle.lp_definitions.specs.Ends.{end_of};
ghost use Rattle.lp_checker.specs.Folds.{leg_with};
ghost use Rattle.lp_definitions.specs.Holds.{Holds};
ghost use Rattle.lp_definitions.specs.Judgement.{cert_fault};
ghost use Rattle.livepatch.specs.Simulated.{IsKept, run_with};

use lp_cert::{Cert, Claim, ExplainedCore, opens_leg};
use lp_checker::{CertFault, check_floor, check_waiting};
use lp_model::Consistency;
use lp_patch::PatchStack;
use lp_stack::{Class, GroupId, TaskId};
use lp_transition::{
    BootFault, Core, Event, Halt, MOST_EVENTS, Opening, Reply, StandingBlame, What,
};
use std::alloc::{AllocError, Global};
use std::marker::Model;

/// An engine with the run so far, which knows why each group waits.
///
/// Contracts see the run, and the engine that stands where the run does.
pub struct Simulator<M: Consistency> {
    explained: ExplainedCore<M>,
    patches: PatchStack,
    boots: Vec<(TaskId, Class)>,
    events: Vec<Event>,
    /// The opening of the leg that the run is in. While it is None the engine itself stands there: the copy is made when
    /// the next event comes, so that a failed allocation leaves all as it was.
    opening: Option<Opening>,
}

/// By hand, so that the proof of who owns one lets go of it in one step, not field by field.
impl<M: Consistency> Drop for Simulator<M> {
    fn drop(self) {
        let Simulator {
            explained: _,
            patches: _,
            boots: _,
            events: _,
            opening: _,
        } = self;
    }
}

impl<M: Consistency> Model for Simulator<M> {
    ghost use Rattle.livepatch.specs.Simulated.{Simulated, IsKept, run_with};

    ghost Value = { Simulated };

    ghost view = { λ s. record { core = s.explained.core; run = run_with s.patches s.boots.items s.events.items } };

    ghost invariant = { λ s. IsKept M.rules (run_with s.patches s.boots.items s.events.items) s.explained s.opening };
}

impl<M: Consistency> Simulator<M> {
    /// A run with these patches and these tasks, each on level 0 with an empty stack, before its first event.
    ///
    /// Refused for the first task at fault, as T1 or T2, else T3 where an allocation failed.
    pub fn new(
        alloc: Global,
        model: M,
        patches: PatchStack,
        boots: &[(TaskId, Class)],
    ) -> Result<Simulator<M>, BootFault>
        ensures refused { IfSome (boot_refusal boots.now) (λ fault. result ≡ Err fault) }
        ensures memory { boot_refusal boots.now ≡ None → OnErr result (result ≡ Err NoMemory) }
        ensures run { IfOk result (λ simulator. simulator.run ≡ run_with patches boots.now []) }
    {
        let copied = patches.copy(alloc);
        match Core::boot(alloc, model, patches, boots) {
            Ok(core) => match Simulator::over(alloc, core, copied, boots) {
                Ok(simulator) => Ok(simulator),
                Err(_) => Err(BootFault::NoMemory),
            },
            Err(fault) => {
                drop(copied);
                Err(fault)
            }
        }
    }

    /// The run of an engine that has taken no event, with a copy of its patches, if one could be made.
    fn over(
        alloc: Global,
        core: Core<M>,
        copied: Result<PatchStack, AllocError>,
        boots: &[(TaskId, Class)],
    ) -> Result<Simulator<M>, AllocError>
        requires patches { IfOk copied (λ patches. patches ≡ core.patches) }
        requires stands { StandsIn M.rules (run_with core.patches boots.now []) (state_in core) }
        requires unscanned { core.last_scan.kind ≡ None }
        requires blameless { (group : ℕ) → blame_of core group ≡ None }
        ensures { IfOk result (λ simulator. simulator.run ≡ run_with core.patches boots.now []) }
    {
        let core = Box::new(alloc, core)?;
        let patches = copied?;
        let boots = Vec::from_slice(alloc, boots)?;
        let explained = ExplainedCore::new(alloc, core)?;
        Ok(Simulator {
            explained,
            patches,
            boots,
            events: Vec::new(alloc),
            opening: None,
        })
    }

    /// Takes one event, and answers it. Where it fails all is as it was: NoMemory where an allocation failed, JournalFull
    /// where no event is left.
    pub fn step(&mut self, alloc: Global, event: Event) -> Result<Reply, Halt>
        ensures full { (result ≡ Err JournalFull) ↔ (1000000 ≤ length self.old.run.events) }
        ensures reply { IfOk result (λ given. given ≡ reply M.rules (leg_of M.rules self.old.run) event) }
        ensures run { OnOk result (self.new.run ≡ plus self.old.run event) }
        ensures blames { OnOk result (HasBlamesAfter M.rules self.old.core event self.new.core) }
        ensures unchanged { OnErr result (self.new ≡ self.old) }
    {
        ready(
            alloc,
            self.explained.core(),
            &mut self.events,
            &mut self.opening,
        )?;
        // In the journal before it is taken: kept until afterwards, it would be moved once more at each event.
        self.events.push_reserved(event);
        match self.explained.step(alloc, event) {
            Ok(reply) => {
                give_up_opening(event, &reply.what, &mut self.opening);
                Ok(reply)
            }
            Err(error) => {
                take_back(&mut self.events);
                Err(Halt::from(error))
            }
        }
    }

    /// The engine, which tells how its tasks stand.
    pub fn core(&self) -> &Core<M>
        ensures value { result.now ≡ self.now.core }
        ensures stands { StandsIn M.rules self.now.run (state_in self.now.core) }
    {
        self.explained.core()
    }

    /// How many events are numbered.
    pub fn count(&self) -> u64
        ensures value { result ≡ length self.now.run.events }
        ensures fits { result ≤ 1000000 }
    {
        self.explained.core().events()
    }

    /// The events so far, in their order.
    pub fn events(&self) -> &[Event]
        ensures { result.now ≡ self.now.run.events }
    {
        self.events.as_slice()
    }

    /// The standing blame of a group: a frame by which every check of it is refused until the frame is popped or the leg
    /// ends. None where there is none.
    pub fn blame(&self, group: GroupId) -> Option<StandingBlame>
        ensures { result ≡ blame_of self.now.core group.0 }
    {
        self.explained.core().standing_blame(group)
    }

    /// Whether a group waits in the leg under way: whether `certificate` has one of it. Never allocates.
    pub fn is_waiting(&self, group: GroupId) -> bool
        ensures { result ≡ is_some (waiting_in (option_map (end_of M.rules) (leg_under_way M.rules self.now.run)) group.0) }
    {
        self.explained.is_waiting(group)
    }

    /// The certificate that a group waits in the leg under way; None where it doesn't wait. AllocError where an allocation
    /// failed.
    pub fn certificate(&self, alloc: Global, group: GroupId) -> Result<Option<Cert>, AllocError>
        ensures value { IfOk result (λ found. found ≡ waiting_in (option_map (end_of M.rules) (leg_under_way M.rules self.now.run)) group.0) }
        ensures accepted { IfOk result (λ found. IfSome found (λ cert. cert_fault M.rules (leg_of M.rules self.now.run) cert.claim cert ≡ None)) }
    {
        let _ = self.explained.core().events();
        self.explained.waiting(alloc, group)
    }

    /// The certificate that the leg under way isn't complete, that of the least group that waits; None where it is
    /// complete, or there is none. AllocError where an allocation failed.
    pub fn floor(&self, alloc: Global) -> Result<Option<Cert>, AllocError>
        ensures value { IfOk result (λ found. found ≡ floor_in (option_map (end_of M.rules) (leg_under_way M.rules self.now.run))) }
        ensures accepted { IfOk result (λ found. IfSome found (λ cert. cert_fault M.rules (leg_of M.rules self.now.run) cert.claim cert ≡ None)) }
    {
        let _ = self.explained.core().events();
        self.explained.floor(alloc)
    }

    /// Checks a certificate against the leg that the run is in, for the claim that it makes.
    ///
    /// # Errors
    /// As `check_waiting` has them.
    pub fn check(&self, alloc: Global, cert: &Cert) -> Result<(), CertFault>
        ensures answer { MatchResult result (λ _. cert_fault M.rules (leg_of M.rules self.now.run) cert.now.claim cert.now ≡ None) (λ fault. fault ≡ CertFault.NoMemory ⊎ cert_fault M.rules (leg_of M.rules self.now.run) cert.now.claim cert.now ≡ Some fault) }
        ensures sound { IfOk result (λ _. Holds M.rules (leg_of M.rules self.now.run) cert.now) }
    {
        match &self.opening {
            Some(opening) => self.check_since(alloc, opening, cert),
            None => self.check_here(alloc, cert),
        }
    }

    /// Where the engine itself stands at the opening: no event came since.
    fn check_here(&self, alloc: Global, cert: &Cert) -> Result<(), CertFault>
        requires { (leg_of M.rules self.now.run).events ≡ [] }
        ensures answer { MatchResult result (λ _. cert_fault M.rules (leg_of M.rules self.now.run) cert.now.claim cert.now ≡ None) (λ fault. fault ≡ CertFault.NoMemory ⊎ cert_fault M.rules (leg_of M.rules self.now.run) cert.now.claim cert.now ≡ Some fault) }
        ensures sound { IfOk result (λ _. Holds M.rules (leg_of M.rules self.now.run) cert.now) }
    {
        let core = self.explained.core();
        let opening = core.standing(alloc)?;
        check_by(alloc, core.model(), &opening, &[], cert)
    }

    /// With the opening, and the events that came since.
    fn check_since(&self, alloc: Global, opening: &Opening, cert: &Cert) -> Result<(), CertFault>
        requires { state_in opening.now ≡ (leg_of M.rules self.now.run).opening }
        ensures answer { MatchResult result (λ _. cert_fault M.rules (leg_of M.rules self.now.run) cert.now.claim cert.now ≡ None) (λ fault. fault ≡ CertFault.NoMemory ⊎ cert_fault M.rules (leg_of M.rules self.now.run) cert.now.claim cert.now ≡ Some fault) }
        ensures sound { IfOk result (λ _. Holds M.rules (leg_of M.rules self.now.run) cert.now) }
    {
        let events = since(self.events.as_slice(), opening);
        check_by(alloc, self.explained.core().model(), opening, events, cert)
    }
}

/// Takes the last event out of the journal again.
#[cold]
#[inline(never)]
fn take_back(events: &mut Vec<Event>)
    requires { 0 < length events.old.items }
    ensures { events.new.items ≡ take (length events.old.items - 1) events.old.items }
{
    let count = events.len() - 1;
    events.truncate(count);
}

/// Makes room for an event, if one is left: its place in the journal, and the opening of the leg, which the engine still
/// stands at before the first event after it.
#[inline(always)]
fn ready<M: Consistency>(
    alloc: Global,
    core: &Core<M>,
    events: &mut Vec<Event>,
    opening: &mut Option<Opening>,
) -> Result<(), Halt>
    ensures full { (result ≡ Err JournalFull) ↔ (1000000 ≤ core.now.number) }
    ensures left { OnOk result (core.now.number < 1000000) }
    ensures items { events.new.items ≡ events.old.items }
    ensures place { OnOk result (vec_len events.new < vec_capacity events.new) }
    ensures kept { (run : Run) (explained : Explained) → explained.core ≡ core.now → IsKept M.rules run explained opening.old → IsKept M.rules run explained opening.new }
    ensures some { OnOk result (IsSome opening.new) }
{
    if core.events() < u64::from(MOST_EVENTS)
        && events.len() < events.capacity()
        && opening.is_some()
    {
        return Ok(());
    }
    make_room(alloc, core, events, opening)
}

/// The same where something is lacking. Out of line and cold, so that the compiler takes the events that lack nothing for
/// the many that they are, and joins what they call.
#[cold]
#[inline(never)]
fn make_room<M: Consistency>(
    alloc: Global,
    core: &Core<M>,
    events: &mut Vec<Event>,
    opening: &mut Option<Opening>,
) -> Result<(), Halt>
    ensures full { (result ≡ Err JournalFull) ↔ (1000000 ≤ core.now.number) }
    ensures left { OnOk result (core.now.number < 1000000) }
    ensures items { events.new.items ≡ events.old.items }
    ensures place { OnOk result (vec_len events.new < vec_capacity events.new) }
    ensures kept { (run : Run) (explained : Explained) → explained.core ≡ core.now → IsKept M.rules run explained opening.old → IsKept M.rules run explained opening.new }
    ensures some { OnOk result (IsSome opening.new) }
{
    if core.events() >= u64::from(MOST_EVENTS) {
        return Err(Halt::JournalFull);
    }
    events.reserve(1)?;
    if opening.is_none() {
        copy_opening(alloc, core, opening)?;
    }
    Ok(())
}

/// Copies the tasks as the opening of a leg.
fn copy_opening<M: Consistency>(
    alloc: Global,
    core: &Core<M>,
    opening: &mut Option<Opening>,
) -> Result<(), AllocError>
    requires none { opening.old ≡ None }
    ensures kept { (run : Run) (explained : Explained) → explained.core ≡ core.now → IsKept M.rules run explained opening.old → IsKept M.rules run explained opening.new }
    ensures some { OnOk result (IsSome opening.new) }
{
    *opening = Some(core.standing(alloc)?);
    Ok(())
}

/// Where an event opened a leg, the opening of the one before is of no more use.
#[inline(always)]
fn give_up_opening(event: Event, what: &What, opening: &mut Option<Opening>)
    ensures opened { is_opened event what.now ≡ true → opening.new ≡ None }
    ensures other { is_opened event what.now ≡ false → opening.new ≡ opening.old }
{
    if opens_leg(event, what) {
        forget(opening);
    }
}

/// Frees the opening of a leg that ended. Out of line, since few events end one.
#[cold]
#[inline(never)]
fn forget(opening: &mut Option<Opening>)
    ensures { opening.new ≡ None }
{
    *opening = None;
}

/// The events that came after an opening.
fn since<'a>(events: &'a [Event], opening: &Opening) -> &'a [Event]
    requires { opening.now.number ≤ length events.now }
    ensures { result.now ≡ drop opening.now.number events.now }
{
    &events[opening.number() as usize..]
}

/// Checks a certificate of the leg with this opening and these events, for the claim that it makes.
fn check_by<M: Consistency>(
    alloc: Global,
    model: M,
    opening: &Opening,
    events: &[Event],
    cert: &Cert,
) -> Result<(), CertFault>
    ensures answer { MatchResult result (λ _. cert_fault M.rules (leg_with opening.now events.now) cert.now.claim cert.now ≡ None) (λ fault. fault ≡ CertFault.NoMemory ⊎ cert_fault M.rules (leg_with opening.now events.now) cert.now.claim cert.now ≡ Some fault) }
    ensures sound { IfOk result (λ _. Holds M.rules (leg_with opening.now events.now) cert.now) }
{
    match cert.claim {
        Claim::Waiting => check_waiting(alloc, model, opening, events, cert),
        Claim::Floor => check_floor(alloc, model, opening, events, cert),
    }
}
