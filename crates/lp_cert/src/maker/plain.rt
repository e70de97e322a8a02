//! Events that are neither scans nor control events, which needn't be weighed first: of these the quiet ones pass, and are noted
//! together once they are over.
ghost use Rattle.std.specs.Prelude.{◌≡◌, ◌+◌, ◌<◌, ℕ, Bool, true, false, None, is_some, IfOk, OnErr, OnOk};
ghost use Rattle.lp_definitions.specs.Events.{is_control, is_scan};
ghost use Rattle.lp_definitions.specs.TaskEvents.{is_quiet};
ghost use Rattle.lp_definitions.specs.declared.event.Event.{Event};
ghost use Rattle.lp_model.specs.Rules.{Rules};
ghost use Rattle.lp_machine.specs.Steps.{IsStep};
ghost use Rattle.lp_machine.specs.Table.{Engine, state_in};
ghost use Rattle.lp_transition.specs.LastScan.{used_scan};
ghost use Rattle.lp_transition.specs.Weigh.{HasBlamesAfter, Weighed, refusal_in};
ghost use Rattle.lp_cert.specs.Ends.{IsMadeFurther, made_upto, passed_upto};
ghost use Rattle.lp_cert.specs.inside.Invariant.{IsMadeAfter, IsStepped, is_settled};
ghost use Rattle.lp_cert.specs.inside.OwnEffects.{HasEffectRoom, IsTold, after_effect};
ghost use Rattle.lp_cert.specs.inside.Waiters.{HasFewGroups, lines_at, own_lines};

use super::Maker;
use crate::open_leg::OpenLeg;
use crate::waiters::{OwnEffect, Waiters};
use lp_model::Consistency;
use lp_transition::{Core, Event, Reply, What};
use std::alloc::{AllocError, Global};

impl Maker {
    /// Lets a call, a return, a sleep, a wake-up or an entry into the kernel pass, whichever it is, before the engine takes
    /// it: `note_passed` notes all such events that passed. A call of this does nothing, as its contract is all that is
    /// wanted of it.
    #[inline(always)]
    pub(crate) fn let_pass<M: Consistency>(&self, core: &Core<M>)
        requires room { core.now.number < 1000000 }
        ensures made { (event : Event) → is_quiet event ≡ true → IsMadeFurther M.rules core.now event (made_upto core.now.number self.now) (made_upto (core.now.number + 1) self.now) }
    {
        // For the proof alone, which knows what every value keeps once a field is read, and of an engine what this call promises.
        let _ = &self.waiters;
        let _ = core.events();
    }

    /// Notes the events that passed since the last one noted, which the engine has taken. Never allocates.
    pub(crate) fn note_passed<M: Consistency>(&mut self, core: &Core<M>)
        ensures { self.new ≡ passed_upto core.now.number self.old }
    {
        self.ready = None;
        self.noted = core.events() as u32;
    }

    /// Lets the engine take an event that is neither a scan nor a control event, and notes it. What it does to the groups that wait is told
    /// before, as they stand then; where no transition is under way the end of the leg stays as it is. AllocError where an
    /// allocation failed, and then the engine and the certificates are as they were. Out of line, so that others pay nothing for
    /// what it needs.
    #[inline(never)]
    pub(crate) fn take_plain<M: Consistency>(
        &mut self,
        alloc: Global,
        core: &mut Core<M>,
        event: Event,
    ) -> Result<Reply, AllocError>
        requires room { core.old.number < 1000000 }
        requires plain { is_scan event ≡ false }
        requires uncontrolled { is_control event ≡ false }
        ensures step { IfOk result (λ reply. IsStep M.rules (state_in core.old) event reply (state_in core.new)) }
        ensures made { OnOk result (IsMadeAfter M.rules core.old event core.new self.old self.new) }
        ensures blames { OnOk result (HasBlamesAfter M.rules core.old event core.new) }
        ensures unchanged { OnErr result (core.new ≡ core.old) }
        ensures ended { OnErr result (self.new.ended ≡ self.old.ended) }
        ensures current { OnErr result (self.new.current ≡ self.old.current) }
    {
        let number = core.events() as u32 + 1;
        self.ready = None;
        if is_settled(self.current) {
            let reply = core.step_plain(alloc, event)?;
            self.noted = number;
            return Ok(reply);
        }
        self.waiters.reserve_own(event)?;
        let effect = self.waiters.own_effect(core, event);
        let reply = core.step_plain(alloc, event)?;
        self.noted = number;
        let Some(leg) = &mut self.current else {
            return Ok(reply);
        };
        affect_leg(number, &reply, leg, &mut self.waiters, &effect);
        Ok(reply)
    }
}

/// The leg under way after an event that was answered so, and does this where it is accepted. Never allocates.
pub(super) fn affect_leg(
    number: u32,
    reply: &Reply,
    leg: &mut OpenLeg,
    waiters: &mut Waiters,
    effect: &OwnEffect,
)
    requires { HasEffectRoom effect.now waiters.old }
    ensures { (model : Rules) (e : Engine) (step : Weighed) (has_frame : (task serial : ℕ) → Bool) → used_scan model step.event ≡ None → ((group : ℕ) → own_lines model e step.event step.verdicts (lines_at waiters.old) group ≡ after_effect has_frame effect.now (lines_at waiters.old) group) → IsTold has_frame effect.now waiters.old → HasFewGroups e step.event → reply.now ≡ step.reply → IsStepped model e step number leg.old leg.new waiters.old waiters.new }
{
    if leg.is_over(number, reply, waiters) {
        return;
    }
    if is_refused(&reply.what) {
        return;
    }
    waiters.have_effect(effect);
    waiters.switch(&reply.what);
}

/// Whether an event was refused.
fn is_refused(what: &What) -> bool
    ensures { result ≡ is_some (refusal_in what.now) }
{
    matches!(what, What::Refused(_))
}

/// Whether the leg under way is complete, or there is none.
#[inline(always)]
pub(super) fn is_settled(current: Option<OpenLeg>) -> bool
    ensures { result ≡ is_settled current }
{
    match current {
        Some(leg) => leg.completed.is_some(),
        None => true,
    }
}
