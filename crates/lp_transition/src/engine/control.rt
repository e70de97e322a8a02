//! The events that begin a transition or turn it round.
ghost use Rattle.std.specs.Prelude.{◌≡◌, [], ◌≤◌, ◌<◌, ◌↔◌, ℕ, None, true, false, IsTrue, if◌then◌else◌, length, nat_eq};
ghost use Rattle.lp_numbers.specs.Numbers.{has};
ghost use Rattle.lp_definitions.specs.Events.{is_control};
ghost use Rattle.lp_definitions.specs.Tasks.{first_of};
ghost use Rattle.lp_definitions.specs.Run.{control_tests, new_target};
ghost use Rattle.lp_transition.specs.Blames.{AreBlamesAfter};
ghost use Rattle.lp_transition.specs.LastScan.{IsLastScanAfter};
ghost use Rattle.lp_machine.specs.Table.{state_in};
ghost use Rattle.lp_transition.specs.inside.Turning.{waits_turned};
ghost use Rattle.lp_machine.specs.Machine.{complete_in, refusal_of, answer, next};

use super::Core;
use crate::{Event, Refusal, Reply, What};
use lp_model::Consistency;
use lp_numbers::NumberSet;
use lp_stack::Level;

impl<M: Consistency> Core<M> {
    /// Why the enabling of the next patch is refused.
    pub(super) fn enable_refusal(&self) -> Option<Refusal>
        ensures { result ≡ first_of (control_tests (state_in self.now) (complete_in (state_in self.now)) Event.Enable) }
    {
        if self.in_transition() {
            return Some(Refusal::InTransition);
        }
        if self.target.0 == self.patches.patches().0 {
            return Some(Refusal::AlreadyThere);
        }
        None
    }

    /// Why the disabling of the last patch is refused.
    pub(super) fn disable_refusal(&self) -> Option<Refusal>
        ensures { result ≡ first_of (control_tests (state_in self.now) (complete_in (state_in self.now)) Event.Disable) }
    {
        if self.in_transition() {
            return Some(Refusal::InTransition);
        }
        if self.target.0 == 0 {
            return Some(Refusal::AlreadyThere);
        }
        None
    }

    /// The level to which an accepted control event takes the tasks.
    pub fn new_level(&self, event: Event) -> Level
        requires accepted { refusal_of M.rules (state_in self.now) event ≡ None }
        requires control { is_control event ≡ true }
        ensures value { result.0 ≡ new_target (state_in self.now) event }
        ensures fits { result.0 ≤ length self.now.patches }
    {
        let most = self.patches.patches();
        match event {
            Event::Enable => Level(self.target.0.min(most.0) + 1),
            Event::Disable => Level(self.target.0.saturating_sub(1)),
            Event::Reverse => self.from,
            _ => self.target,
        }
    }

    /// The answer to an accepted control event: it completes the transition that it opens where
    /// every live task is on its target already.
    pub(super) fn answer_control(&self, event: Event) -> Reply
        requires accepted { refusal_of M.rules (state_in self.now) event ≡ None }
        requires control { is_control event ≡ true }
        ensures { result ≡ answer M.rules (state_in self.now) event }
    {
        Reply {
            what: What::Done,
            completed: nobody_turns(self.tasks.live_set(), &self.waiting, event),
        }
    }

    /// Each live task is on the level that it came from or on the target, so those that wait turn as one set: no task is looked
    /// at, however many there are.
    pub(super) fn take_control(&mut self, event: Event)
        requires room { self.old.number < 1000000 }
        requires accepted { refusal_of M.rules (state_in self.old) event ≡ None }
        requires control { is_control event ≡ true }
        ensures state { state_in self.new ≡ next M.rules (state_in self.old) event }
        ensures blames { AreBlamesAfter M.rules self.old event [] self.new }
        ensures last_scan { IsLastScanAfter M.rules self.old event self.new }
    {
        let level = self.new_level(event);
        self.events += 1;
        self.from = self.target;
        self.target = level;
        turn(&mut self.waiting, self.tasks.live_set(), event);
        self.unchanged.reset();
        self.blames.clear();
    }

    /// Why the turning of the transition is refused.
    pub(super) fn reverse_refusal(&self) -> Option<Refusal>
        ensures { result ≡ first_of (control_tests (state_in self.now) (complete_in (state_in self.now)) Event.Reverse) }
    {
        if !self.in_transition() {
            return Some(Refusal::NotInTransition);
        }
        None
    }
}

/// Whether a control event opens a transition in which nobody waits: at a reversal those wait that didn't before.
fn nobody_turns(live: &NumberSet, waiting: &NumberSet, event: Event) -> bool
    ensures { IsTrue result ↔ ((t : ℕ) → waits_turned event (has live.now t) (has waiting.now t) ≡ false) }
{
    match event {
        Event::Reverse => live.is_same(waiting),
        _ => live.is_empty(),
    }
}

/// Makes those wait who do so once a control event has opened a transition.
fn turn(waiting: &mut NumberSet, live: &NumberSet, event: Event)
    ensures members { (t : ℕ) → has waiting.new t ≡ waits_turned event (has live.now t) (has waiting.old t) }
    ensures numbers { length waiting.new ≡ 65536 }
{
    match event {
        Event::Reverse => waiting.turn(live),
        _ => waiting.copy_from(live),
    }
}

/// Makes a number a member of a set, or no member.
pub(super) fn put_number(set: &mut NumberSet, number: u16, is_member: bool)
    ensures after { (n : ℕ) → has set.new n ≡ (if nat_eq n number then is_member else has set.old n) }
    ensures numbers { length set.new ≡ 65536 }
{
    if is_member {
        set.insert(number);
    } else {
        set.remove(number);
    }
}
