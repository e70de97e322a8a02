//! A leg's events, taken one after the other with nobody switching.
ghost use Rattle.std.specs.Prelude.{◌≡◌, ℕ, suc, pred, ◌+◌, ◌-◌, ◌<◌, ◌≤◌, ◌&&◌, length, nat_lt, nat_le, IfOk, OnOk};
ghost use Rattle.std.specs.Option.{option_map};
ghost use Rattle.lp_definitions.specs.Leg.{accepted, after, check, has_member};
ghost use Rattle.lp_machine.specs.Table.{slot};
ghost use Rattle.lp_definitions.specs.Tasks.{fits, outlines};
ghost use Rattle.lp_definitions.specs.Judgement.{blame_at, is_on_stack};
ghost use Rattle.lp_checker.specs.inside.Births.{group_in};
ghost use Rattle.lp_checker.specs.inside.Folds.{IsAt};
ghost use Rattle.lp_checker.specs.inside.Sections.{is_waiting_member};
ghost use Rattle.lp_checker.specs.inside.Cursors.{leg_in};

use crate::fold::Fold;
use lp_definitions::Event;
use lp_model::{Blame, CheckKind, Consistency};
use lp_stack::{GroupId, TaskId};
use lp_tasks::Opening;
use std::alloc::{AllocError, Global};
use std::marker::Model;

/// The tasks just after an event of a leg.
///
/// Contracts see the leg, how many of its events may be taken, and how many were.
#[derive(Drop)]
pub(crate) struct Cursor<'a, M: Consistency> {
    model: M,
    opening: &'a Opening,
    events: &'a [Event],
    end: usize,
    fold: Box<Fold>,
    moment: usize,
    /// The event that was taken last, where it was accepted.
    event: Option<Event>,
}

impl<'a, M: Consistency> Model for Cursor<'a, M> {
    ghost use Rattle.lp_checker.specs.inside.Cursors.{Reached, IsReached};

    ghost Value = { Reached };

    ghost view = { λ c. record { range = record { opening = c.opening.now; events = c.events.now; end = c.end }; moment = c.moment } };

    ghost invariant = { λ c. IsReached M.rules (record { opening = c.opening.now; events = c.events.now; end = c.end }) c.moment c.event c.fold.value };
}

impl<'a, M: Consistency> Cursor<'a, M> {
    ghost use Rattle.lp_tasks.specs.Openings.{IsOpening};
    ghost use Rattle.lp_definitions.specs.Sound.{IsSound};

    /// At the opening of a leg, of which no more events than these many will be taken.
    pub(crate) fn open(
        alloc: Global,
        model: M,
        opening: &'a Opening,
        events: &'a [Event],
        end: usize,
    ) -> Result<Cursor<'a, M>, AllocError>
        requires within { end ≤ length events.now }
        requires room { opening.now.number + end ≤ 1000000 }
        ensures { IfOk result (λ cursor. cursor.range ≡ record { opening = opening.now; events = events.now; end = end }) }
    {
        Ok(Cursor {
            model,
            opening,
            events,
            end,
            fold: opened(alloc, model, opening, events)?,
            moment: 0,
            event: None,
        })
    }

    /// Goes to just after an event, or to the opening at moment 0. Events can't be taken back, so an
    /// earlier one is reached from the opening again.
    pub(crate) fn go_to(&mut self, alloc: Global, moment: usize) -> Result<(), AllocError>
        requires { moment ≤ self.old.range.end }
        ensures range { self.new.range ≡ self.old.range }
        ensures moment { OnOk result (self.new.moment ≡ moment) }
    {
        if moment < self.moment {
            self.go_back(alloc)?;
        }
        for _place in self.moment..moment {
            self.step(alloc)?;
        }
        Ok(())
    }

    /// Goes back to the opening.
    fn go_back(&mut self, alloc: Global) -> Result<(), AllocError>
        ensures range { self.new.range ≡ self.old.range }
        ensures moment { OnOk result (self.new.moment ≡ 0) }
    {
        self.fold = opened(alloc, self.model, self.opening, self.events)?;
        self.moment = 0;
        self.event = None;
        Ok(())
    }

    /// Takes the next event.
    fn step(&mut self, alloc: Global) -> Result<(), AllocError>
        requires { self.old.moment < self.old.range.end }
        ensures range { self.new.range ≡ self.old.range }
        ensures moment { OnOk result (self.new.moment ≡ suc self.old.moment) }
    {
        let event = self.events[self.moment];
        let accepted = self.fold.step(alloc, self.model, event)?;
        self.event = accepted;
        self.moment += 1;
        Ok(())
    }

    /// The model.
    pub(crate) fn model(&self) -> M {
        self.model
    }

    /// How many events may be taken.
    pub(crate) fn end(&self) -> usize
        ensures value { result ≡ self.now.range.end }
        ensures room { self.now.range.opening.number + self.now.range.end ≤ 1000000 }
    {
        self.end
    }

    /// How many events the run had up to the opening.
    pub(crate) fn number(&self) -> u64
        ensures value { result ≡ self.now.range.opening.number }
        ensures opening { IsOpening self.now.range.opening }
        ensures room { self.now.range.opening.number + self.now.range.end ≤ 1000000 }
    {
        // For the proof alone, which knows what every value keeps once a field is read.
        let _ = &self.moment;
        self.opening.number()
    }

    /// The place of an event in the leg, from 1; 0 for the opening and all before it.
    pub(crate) fn moment_of(&self, at: u64) -> u64
        ensures value { result ≡ at - self.now.range.opening.number }
        ensures room { self.now.range.opening.number + self.now.range.end ≤ 1000000 }
    {
        at.saturating_sub(self.opening.number())
    }

    /// The place of an event in the leg, from 1, where it is after one place and no later than
    /// another.
    pub(crate) fn moment_within(&self, at: u64, begin: usize, last: usize) -> Option<usize>
        ensures { result ≡ fits (nat_lt begin (at - self.now.range.opening.number) && nat_le (at - self.now.range.opening.number) last) (at - self.now.range.opening.number) }
    {
        let moment = self.moment_of(at);
        if moment <= begin as u64 {
            return None;
        }
        if moment > last as u64 {
            return None;
        }
        Some(moment as usize)
    }

    /// The event that was taken last, where it was accepted.
    pub(crate) fn event(&self) -> Option<Event>
        requires { 0 < self.now.moment }
        ensures { result ≡ accepted M.rules (leg_in self.now.range) (pred self.now.moment) }
    {
        self.event
    }

    /// The kind of check of a group that this event is.
    pub(crate) fn check(&self, group: GroupId) -> Option<CheckKind>
        requires { 0 < self.now.moment }
        ensures { result ≡ check M.rules (leg_in self.now.range) (pred self.now.moment) group.0 }
    {
        self.fold.check(self.model, self.event, group)
    }

    /// Why this event, a check of a group, doesn't admit a live member.
    pub(crate) fn blame(&self, group: GroupId, task: TaskId) -> Option<Blame>
        requires { 0 < self.now.moment }
        ensures { result ≡ blame_at M.rules (leg_in self.now.range) group.0 self.now.moment task.0 }
    {
        let kind = self.check(group)?;
        self.fold.blame(self.model, kind, group, task)
    }

    /// Whether a frame of a serial is on the stack of a live task.
    pub(crate) fn has_frame(&self, task: TaskId, serial: u64) -> bool
        ensures value { result ≡ is_on_stack M.rules (leg_in self.now.range) task.0 serial self.now.moment }
        ensures sound { IsSound (leg_in self.now.range).opening }
    {
        self.fold.has_frame(task, serial)
    }

    /// The group of a live task.
    pub(crate) fn group_of(&self, task: TaskId) -> Option<GroupId>
        ensures { option_map (λ group. group.0) result ≡ group_in (after M.rules (leg_in self.now.range) self.now.moment task.0) }
    {
        self.fold.group_of(task)
    }

    /// Whether a group has a live member.
    pub(crate) fn has_member(&self, group: GroupId) -> bool
        ensures { let leg = leg_in self.now.range in result ≡ has_member leg.bounds (outlines (after M.rules leg self.now.moment)) group.0 }
    {
        self.fold.has_member(group)
    }

    /// Whether a number was a live member of a group at the opening, and off the target.
    pub(crate) fn was_waiting(&self, task: TaskId, group: GroupId) -> bool
        ensures { result ≡ is_waiting_member self.now.range.opening.target group.0 (slot self.now.range.opening.table task.0) }
    {
        is_waiting_member(self.opening, task, group)
    }
}

/// Whether a number is a live member of a group at an opening, and off the target.
fn is_waiting_member(opening: &Opening, task: TaskId, group: GroupId) -> bool
    ensures { result ≡ is_waiting_member opening.now.target group.0 (slot opening.now.table task.0) }
{
    let Some(own) = opening.group_of(task) else {
        return false;
    };
    let Some(level) = opening.level_of(task) else {
        return false;
    };
    own.0 == group.0 && level.0 != opening.target().0
}

/// The tasks at an opening; in a box, since the proof of a function goes over each field of what the
/// function owns, at each of its exits.
fn opened<M: Consistency>(
    alloc: Global,
    _model: M,
    opening: &Opening,
    events: &[Event],
) -> Result<Box<Fold>, AllocError>
    ensures { IfOk result (λ fold. IsAt M.rules opening.now events.now 0 fold.value) }
{
    let _ = opening.number();
    let _ = events.len();
    let fold = Fold::of(alloc, opening)?;
    let boxed = Box::new(alloc, fold)?;
    Ok(boxed)
}
