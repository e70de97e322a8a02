//! A simulator with the name of its model.
ghost use Rattle.std.specs.Prelude.{◌≡◌, ◌⊎◌, ◌≤◌, ◌↔◌, None, Some, Err, is_some, length, IfOk, IfSome, OnErr, OnOk, MatchResult};
ghost use Rattle.lp_definitions.specs.Run.{plus};
ghost use Rattle.lp_transition.specs.declared.engine.step.Halt.TheVariants.{JournalFull};
ghost use Rattle.lp_models.specs.Models.{rules_named};
ghost use Rattle.livepatch.specs.Named.{HoldsIn, fault_in, floor_cert, reply_in, waiting_cert};

use crate::Simulator;
use lp_cert::Cert;
use lp_checker::CertFault;
use lp_model::Consistency;
use lp_models::ModelName;
use lp_stack::GroupId;
use lp_transition::{Event, Halt, Reply};
use std::alloc::{AllocError, Global};
use std::marker::Model;

/// A simulator under a model that has this name.
///
/// What its rules decide is said here of the name, once for all models. So the calls of `AnySimulator` need no proof of
/// their own for each model.
pub(crate) struct Named<M: Consistency> {
    name: ModelName,
    simulator: Simulator<M>,
}

/// By hand, so that the proof of who owns one lets go of it in one step, not field by field.
impl<M: Consistency> Drop for Named<M> {
    fn drop(self) {
        let Named {
            name: _,
            simulator: _,
        } = self;
    }
}

impl<M: Consistency> Model for Named<M> {
    ghost use Rattle.std.specs.Prelude.{◌≡◌};
    ghost use Rattle.lp_models.specs.Models.{rules_named};
    ghost use Rattle.livepatch.specs.Named.{NamedRun};

    ghost Value = { NamedRun };

    ghost view = { λ s. record { model = s.name; simulated = s.simulator } };

    ghost invariant = { λ s. M.rules ≡ rules_named s.name };
}

impl<M: Consistency> Named<M> {
    /// A run whose model has this name.
    pub(crate) fn new(name: ModelName, simulator: Simulator<M>) -> Named<M>
        requires { M.rules ≡ rules_named name }
        ensures { result ≡ record { model = name; simulated = simulator } }
    {
        Named { name, simulator }
    }

    /// The run, of which everything can be asked that no rules decide.
    pub(crate) fn simulator(&self) -> &Simulator<M>
        ensures { result.now ≡ self.now.simulated }
    {
        &self.simulator
    }

    /// `Simulator::step`.
    pub(crate) fn step(&mut self, alloc: Global, event: Event) -> Result<Reply, Halt>
        ensures full { (result ≡ Err JournalFull) ↔ (1000000 ≤ length self.old.simulated.run.events) }
        ensures reply { IfOk result (λ given. given ≡ reply_in self.old event) }
        ensures run { OnOk result (self.new.simulated.run ≡ plus self.old.simulated.run event) }
        ensures model { self.new.model ≡ self.old.model }
        ensures unchanged { OnErr result (self.new ≡ self.old) }
    {
        self.simulator.step(alloc, event)
    }

    /// `Simulator::is_waiting`.
    pub(crate) fn is_waiting(&self, group: GroupId) -> bool
        ensures { result ≡ is_some (waiting_cert self.now group.0) }
    {
        self.simulator.is_waiting(group)
    }

    /// `Simulator::certificate`.
    pub(crate) fn certificate(
        &self,
        alloc: Global,
        group: GroupId,
    ) -> Result<Option<Cert>, AllocError>
        ensures value { IfOk result (λ found. found ≡ waiting_cert self.now group.0) }
        ensures accepted { IfOk result (λ found. IfSome found (λ cert. fault_in self.now cert ≡ None)) }
    {
        self.simulator.certificate(alloc, group)
    }

    /// `Simulator::floor`.
    pub(crate) fn floor(&self, alloc: Global) -> Result<Option<Cert>, AllocError>
        ensures value { IfOk result (λ found. found ≡ floor_cert self.now) }
        ensures accepted { IfOk result (λ found. IfSome found (λ cert. fault_in self.now cert ≡ None)) }
    {
        self.simulator.floor(alloc)
    }

    /// `Simulator::check`.
    pub(crate) fn check(&self, alloc: Global, cert: &Cert) -> Result<(), CertFault>
        ensures answer { MatchResult result (λ _. fault_in self.now cert.now ≡ None) (λ fault. fault ≡ CertFault.NoMemory ⊎ fault_in self.now cert.now ≡ Some fault) }
        ensures sound { IfOk result (λ _. HoldsIn self.now cert.now) }
    {
        self.simulator.check(alloc, cert)
    }
}
