//! An engine whose model is chosen when it is made.
ghost use Rattle.std.specs.Prelude.{◌≡◌, ◌⊎◌, ◌≤◌, ◌↔◌, [], None, Some, Err, is_some, length, not, IfOk, IfSome, OnErr, OnOk, MatchResult};
ghost use Rattle.std.specs.Option.{option_map};
ghost use Rattle.lp_stack.specs.TaskView.{seen};
ghost use Rattle.lp_transition.specs.Blames.{blame_of};
ghost use Rattle.lp_transition.specs.Boot.{boot_refusal};
ghost use Rattle.lp_machine.specs.Machine.{complete_in, view_of};
ghost use Rattle.lp_definitions.specs.Run.{plus};
ghost use Rattle.lp_machine.specs.Table.{slot, state_in};
ghost use Rattle.lp_transition.specs.declared.engine.boot.BootFault.TheVariants.{NoMemory};
ghost use Rattle.lp_transition.specs.declared.engine.step.Halt.TheVariants.{JournalFull};
ghost use Rattle.lp_models.specs.Models.{rules_named};
ghost use Rattle.livepatch.specs.Named.{HoldsIn, fault_in, floor_cert, reply_in, waiting_cert};
ghost use Rattle.livepatch.specs.Simulated.{run_with};

use crate::Simulator;
use crate::named::Named;
use lp_cert::Cert;
use lp_checker::CertFault;
use lp_model::Consistency;
use lp_models::{AllAtOnce, Hybrid, Immediate, LeaveKernel, ModelName, ProcessGroup};
use lp_patch::PatchStack;
use lp_stack::{Class, GroupId, Level, TaskId, View};
use lp_transition::{BootFault, Event, Halt, Reply, StandingBlame};
use std::alloc::{AllocError, Global};
use std::marker::Model;

/// A simulator under one of the models, which is named when it is made.
///
/// Contracts see the model's name, and what they see of a `Simulator`.
pub struct AnySimulator {
    of: Inside,
}

#[derive(Drop)]
enum Inside {
    Hybrid(Box<Named<Hybrid>>),
    LeaveKernel(Box<Named<LeaveKernel>>),
    AllAtOnce(Box<Named<AllAtOnce>>),
    Immediate(Box<Named<Immediate>>),
    ProcessGroup(Box<Named<ProcessGroup>>),
}

/// The value of an expression over the run inside, whose type is that of its model.
macro_rules! inside {
    ($of:expr, $named:ident => $value:expr) => {
        match $of {
            Inside::Hybrid($named) => $value,
            Inside::LeaveKernel($named) => $value,
            Inside::AllAtOnce($named) => $value,
            Inside::Immediate($named) => $value,
            Inside::ProcessGroup($named) => $value,
        }
    };
}

/// By hand, so that the proof of who owns one lets go of it in one step, not field by field.
impl Drop for AnySimulator {
    fn drop(self) {
        let AnySimulator { of: _ } = self;
    }
}

impl Model for AnySimulator {
    ghost use Rattle.livepatch.specs.Named.{NamedRun};
    ghost use Rattle.livepatch.specs.inside.Chosen.{chosen};

    ghost Value = { NamedRun };

    ghost view = { λ s. chosen s.of };
}

impl AnySimulator {
    /// A run with these patches and these tasks under the model that is named, before its first event.
    ///
    /// Refused for the first task at fault, as T1 or T2, else T3 where an allocation failed.
    pub fn new(
        alloc: Global,
        model: ModelName,
        patches: PatchStack,
        boots: &[(TaskId, Class)],
    ) -> Result<AnySimulator, BootFault>
        ensures refused { IfSome (boot_refusal boots.now) (λ fault. result ≡ Err fault) }
        ensures memory { boot_refusal boots.now ≡ None → OnErr result (result ≡ Err NoMemory) }
        ensures model { IfOk result (λ simulator. simulator.model ≡ model) }
        ensures run { IfOk result (λ simulator. simulator.simulated.run ≡ run_with patches boots.now []) }
    {
        let of = match model {
            ModelName::Hybrid => Inside::Hybrid(boxed(alloc, model, Hybrid, patches, boots)?),
            ModelName::LeaveKernel => Inside::LeaveKernel(boxed(
                alloc,
                model,
                LeaveKernel,
                patches,
                boots,
            )?),
            ModelName::AllAtOnce => Inside::AllAtOnce(boxed(
                alloc, model, AllAtOnce, patches, boots,
            )?),
            ModelName::Immediate => Inside::Immediate(boxed(
                alloc, model, Immediate, patches, boots,
            )?),
            ModelName::ProcessGroup => Inside::ProcessGroup(boxed(
                alloc,
                model,
                ProcessGroup,
                patches,
                boots,
            )?),
        };
        Ok(AnySimulator { of })
    }

    /// Takes one event, and answers it. Where it fails all is as it was: NoMemory where an allocation failed, JournalFull
    /// where no event is left.
    pub fn step(&mut self, alloc: Global, event: Event) -> Result<Reply, Halt>
        ensures full { (result ≡ Err JournalFull) ↔ (1000000 ≤ length self.old.simulated.run.events) }
        ensures reply { IfOk result (λ given. given ≡ reply_in self.old event) }
        ensures run { OnOk result (self.new.simulated.run ≡ plus self.old.simulated.run event) }
        ensures model { self.new.model ≡ self.old.model }
        ensures unchanged { OnErr result (self.new ≡ self.old) }
    {
        inside!(&mut self.of, named => named.step(alloc, event))
    }

    /// How many events are numbered.
    pub fn count(&self) -> u64
        ensures value { result ≡ length self.now.simulated.run.events }
        ensures fits { result ≤ 1000000 }
    {
        inside!(&self.of, named => named.simulator().count())
    }

    /// The level to which the tasks switch, or on which all are.
    pub fn target(&self) -> Level
        ensures { result.0 ≡ self.now.simulated.core.target }
    {
        inside!(&self.of, named => named.simulator().core().target())
    }

    /// Whether a transition is under way: a live task is off the target.
    pub fn in_transition(&self) -> bool
        ensures { result ≡ not (complete_in (state_in self.now.simulated.core)) }
    {
        inside!(&self.of, named => named.simulator().core().in_transition())
    }

    /// The level of a live task; None for any other.
    pub fn level_of(&self, task: TaskId) -> Option<Level>
        ensures { option_map (λ level. level.0) result ≡ option_map (λ x. x.level) (slot self.now.simulated.core.table task.0) }
    {
        inside!(&self.of, named => named.simulator().core().side_of(task))
    }

    /// A live task as it stands, borrowed; None for any other.
    pub fn task(&self, task: TaskId) -> Option<View<'_>>
        ensures { option_map seen result ≡ option_map (view_of task.0) (slot self.now.simulated.core.table task.0) }
    {
        inside!(&self.of, named => named.simulator().core().task(task))
    }

    /// The group of a live task; None for any other.
    pub fn group_of(&self, task: TaskId) -> Option<GroupId>
        ensures { option_map (λ group. group.0) result ≡ option_map (λ x. x.group) (slot self.now.simulated.core.table task.0) }
    {
        inside!(&self.of, named => named.simulator().core().group_of(task))
    }

    /// The standing blame of a group: a frame by which every check of it is refused until the frame is popped or the leg
    /// ends. None where there is none.
    pub fn blame(&self, group: GroupId) -> Option<StandingBlame>
        ensures { result ≡ blame_of self.now.simulated.core group.0 }
    {
        inside!(&self.of, named => named.simulator().blame(group))
    }

    /// Whether a group waits in the leg under way: whether `certificate` has one of it. Never allocates.
    pub fn is_waiting(&self, group: GroupId) -> bool
        ensures { result ≡ is_some (waiting_cert self.now group.0) }
    {
        inside!(&self.of, named => named.is_waiting(group))
    }

    /// The certificate that a group waits in the leg under way; None where it doesn't wait. AllocError where an allocation
    /// failed.
    pub fn certificate(&self, alloc: Global, group: GroupId) -> Result<Option<Cert>, AllocError>
        ensures value { IfOk result (λ found. found ≡ waiting_cert self.now group.0) }
        ensures accepted { IfOk result (λ found. IfSome found (λ cert. fault_in self.now cert ≡ None)) }
    {
        inside!(&self.of, named => named.certificate(alloc, group))
    }

    /// The certificate that the leg under way isn't complete, that of the least group that waits; None where it is
    /// complete, or there is none. AllocError where an allocation failed.
    pub fn floor(&self, alloc: Global) -> Result<Option<Cert>, AllocError>
        ensures value { IfOk result (λ found. found ≡ floor_cert self.now) }
        ensures accepted { IfOk result (λ found. IfSome found (λ cert. fault_in self.now cert ≡ None)) }
    {
        inside!(&self.of, named => named.floor(alloc))
    }

    /// Checks a certificate against the leg that the run is in, for the claim that it makes.
    ///
    /// # Errors
    /// As `check_waiting` has them.
    pub fn check(&self, alloc: Global, cert: &Cert) -> Result<(), CertFault>
        ensures answer { MatchResult result (λ _. fault_in self.now cert.now ≡ None) (λ fault. fault ≡ CertFault.NoMemory ⊎ fault_in self.now cert.now ≡ Some fault) }
        ensures sound { IfOk result (λ _. HoldsIn self.now cert.now) }
    {
        inside!(&self.of, named => named.check(alloc, cert))
    }
}

/// A run under a model of this name.
fn boxed<M: Consistency>(
    alloc: Global,
    name: ModelName,
    model: M,
    patches: PatchStack,
    boots: &[(TaskId, Class)],
) -> Result<Box<Named<M>>, BootFault>
    requires { M.rules ≡ rules_named name }
    ensures refused { IfSome (boot_refusal boots.now) (λ fault. result ≡ Err fault) }
    ensures memory { boot_refusal boots.now ≡ None → OnErr result (result ≡ Err NoMemory) }
    ensures model { IfOk result (λ named. named.value.model ≡ name) }
    ensures run { IfOk result (λ named. named.value.simulated.run ≡ run_with patches boots.now []) }
{
    let simulator = Simulator::new(alloc, model, patches, boots)?;
    match Box::new(alloc, Named::new(name, simulator)) {
        Ok(boxed) => Ok(boxed),
        Err(_) => Err(BootFault::NoMemory),
    }
}
