//! An engine that explains itself: the maker of certificates notes each event as the engine takes it.
ghost use Rattle.std.specs.Prelude.{◌≡◌, ◌++◌, ◌<◌, [], None, is_some, option_to_list, IfOk, OnErr, OnOk};
ghost use Rattle.std.specs.Option.{option_map};
ghost use Rattle.lp_definitions.specs.Run.{Run, plus};
ghost use Rattle.lp_machine.specs.Steps.{IsStep};
ghost use Rattle.lp_machine.specs.Table.{state_in};
ghost use Rattle.lp_transition.specs.Weigh.{HasBlamesAfter};
ghost use Rattle.lp_cert.specs.Ends.{cert_upto, ends_left, floor_in, is_complete_in, waiting_in};
ghost use Rattle.lp_cert.specs.Explained.{IsExplained};

use crate::leg_list::{LegEnds, LegList};
use crate::maker::Maker;
use lp_definitions::Cert;
use lp_model::{CheckKind, Consistency};
use lp_stack::GroupId;
use lp_transition::{Core, Event, Reply};
use std::alloc::{AllocError, Global};
use std::marker::Model;

/// An engine with the maker of its certificates. What gives a group a line is asked before the engine takes the event: asked later,
/// the line would be of the tasks as the event left them.
///
/// Contracts see the engine, the ends of the legs that ended, and the end of the leg under way as it stands.
pub struct ExplainedCore<M: Consistency> {
    core: Box<Core<M>>,
    /// Quiet events pass it by: it has noted those up to the last event of another kind.
    maker: Maker,
}

/// By hand, so that the proof of who owns one lets go of it in one step, not field by field.
impl<M: Consistency> Drop for ExplainedCore<M> {
    fn drop(self) {
        let ExplainedCore { core: _, maker: _ } = self;
    }
}

impl<M: Consistency> Model for ExplainedCore<M> {
    ghost use Rattle.std.specs.Option.{option_map};
    ghost use Rattle.lp_cert.specs.Ends.{end_upto};
    ghost use Rattle.lp_cert.specs.Explained.{Explained};

    ghost Value = { Explained };

    ghost view = { λ e. record { core = e.core.value; ended = e.maker.ended; current = option_map (end_upto e.core.value.number) e.maker.current } };
}

impl<M: Consistency> ExplainedCore<M> {
    /// An engine that has taken no event; AllocError where an allocation failed.
    pub fn new(alloc: Global, core: Box<Core<M>>) -> Result<ExplainedCore<M>, AllocError>
        ensures { IfOk result (λ explained. explained ≡ record { core = core.value; ended = []; current = None }) }
    {
        let maker = Maker::new(alloc)?;
        Ok(ExplainedCore { core, maker })
    }

    /// Takes one event, and answers it. Where an allocation failed all is as it was. It is compiled where it is called, so that a kind
    /// of event that is known there pays for no other.
    #[inline(always)]
    pub fn step(&mut self, alloc: Global, event: Event) -> Result<Reply, AllocError>
        requires room { self.old.core.number < 1000000 }
        ensures step { IfOk result (λ reply. IsStep M.rules (state_in self.old.core) event reply (state_in self.new.core)) }
        ensures explained { OnOk result ((run : Run) → IsExplained M.rules run self.old → IsExplained M.rules (plus run event) self.new) }
        ensures blames { OnOk result (HasBlamesAfter M.rules self.old.core event self.new.core) }
        ensures unchanged { OnErr result (self.new ≡ self.old) }
    {
        let core: &mut Core<M> = &mut self.core;
        if event.is_quiet() {
            self.maker.let_pass(core);
            return core.step_plain(alloc, event);
        }
        self.maker.note_passed(core);
        if event.is_control() {
            return self.maker.take_weighed(alloc, core, event);
        }
        match event {
            Event::Walk => self.maker.take_scan(alloc, core, CheckKind::Walk, event),
            Event::Stop => self.maker.take_scan(alloc, core, CheckKind::Stop, event),
            _ => self.maker.take_plain(alloc, core, event),
        }
    }

    /// The engine, which tells how its tasks stand.
    pub fn core(&self) -> &Core<M>
        ensures { result.now ≡ self.now.core }
    {
        &self.core
    }

    /// Whether a group waits in the leg under way: whether `waiting` has a certificate of it. Never allocates.
    pub fn is_waiting(&self, group: GroupId) -> bool
        ensures { result ≡ is_some (waiting_in self.now.current group.0) }
    {
        self.maker.is_waiting(group)
    }

    /// The certificate that a group waits in the leg under way, if it does; AllocError where an allocation failed.
    pub fn waiting(&self, alloc: Global, group: GroupId) -> Result<Option<Cert>, AllocError>
        ensures { IfOk result (λ found. found ≡ waiting_in self.now.current group.0) }
    {
        let found = self.maker.waiting(alloc, group)?;
        Ok(up_to(found, self.core.events()))
    }

    /// The certificate that the leg under way isn't complete, if there is one that isn't: the least group that waits.
    /// AllocError where an allocation failed.
    pub fn floor(&self, alloc: Global) -> Result<Option<Cert>, AllocError>
        ensures { IfOk result (λ found. found ≡ floor_in self.now.current) }
    {
        let found = self.maker.floor(alloc)?;
        Ok(up_to(found, self.core.events()))
    }

    /// Whether the leg under way is complete; false where there is none. Its end stays the same from then on.
    pub fn is_complete(&self) -> bool
        ensures { result ≡ is_complete_in self.now.current }
    {
        self.maker.is_complete()
    }

    /// The ends of the legs that ended, borrowed.
    pub fn ended(&self) -> LegEnds<'_>
        ensures { ends_left result ≡ self.now.ended }
    {
        self.maker.ended()
    }

    /// The ends of all legs, given up, the last one as it stands; AllocError where an allocation failed.
    pub fn into_ends(self, alloc: Global) -> Result<LegList, AllocError>
        ensures { IfOk result (λ ends. ends ≡ self.ended ++ option_to_list self.current) }
    {
        let ExplainedCore { core, mut maker } = self;
        maker.note_passed(&core);
        maker.into_ends(alloc)
    }
}

/// A certificate up to a later event, where only quiet events came since.
fn up_to(cert: Option<Cert>, upto: u64) -> Option<Cert>
    ensures { result ≡ option_map (cert_upto upto) cert }
{
    let mut cert = cert?;
    cert.upto = upto;
    Some(cert)
}
