//! The maker of certificates.
ghost use Rattle.std.specs.Prelude.{◌≡◌, suc, ◌<◌, ◌++◌, true, false, Some, None, ◌≤◌, length, option_to_list, is_some, IfOk, OnErr, OnOk};
ghost use Rattle.lp_definitions.specs.Run.{new_target};
ghost use Rattle.lp_definitions.specs.declared.event.Event.{Event};
ghost use Rattle.lp_machine.specs.Table.{state_in};
ghost use Rattle.lp_transition.specs.LastScan.{used_scan};
ghost use Rattle.lp_transition.specs.Weigh.{IsWeighed};
ghost use Rattle.lp_cert.specs.Ends.{IsFresh, IsMadeFurther, ends_left, floor_in, is_complete_in, is_opening, room_for, waiting_in};
ghost use Rattle.lp_cert.specs.inside.Invariant.{IsStepped, leg_at, waiting_cert};
ghost use Rattle.lp_cert.specs.inside.OwnEffects.{HasOwnRoom};
ghost use Rattle.lp_cert.specs.inside.Waiters.{lines_at};
ghost use Rattle.std.specs.Option.{option_map};

mod plain;
mod quiet_scan;
mod weighed;

use self::plain::affect_leg;
use crate::leg_end::LegEnd;
use crate::leg_list::{LegEnds, LegList};
use crate::leg_rows::LegRows;
use crate::open_leg::OpenLeg;
use crate::opening::opens_leg;
use crate::waiters::{OWN_REASONS, Waiters};
use lp_definitions::{Cert, Claim};
use lp_model::{CheckKind, Consistency};
use lp_stack::GroupId;
use lp_transition::{Core, Event, Step};
use std::alloc::{AllocError, Global};
use std::marker::Model;

/// For what event there is room: `note` may not fail once the engine is to take it.
#[derive(Clone, Copy)]
pub(crate) struct Ready {
    /// Whether it opens a leg.
    pub(crate) opens: bool,
    /// How many verdicts it was answered by. It is for the proof alone, which else wouldn't know that they have room.
    pub(crate) verdicts: usize,
}

/// Makes the certificates of a run, event by event: why each group still waits, and why no leg was
/// complete before it was.
///
/// Contracts see the ends of the legs that ended, the end of the leg under way as it stands, and the
/// event for which there is room.
pub struct Maker {
    ended: LegRows,
    current: Option<OpenLeg>,
    waiters: Waiters,
    /// The number of the last event noted.
    noted: u32,
    ready: Option<Ready>,
}

/// By hand, so that the proof of who owns one lets go of it in one step, not field by field.
impl Drop for Maker {
    fn drop(self) {
        let Maker {
            ended: _,
            current: _,
            waiters: _,
            noted: _,
            ready: _,
        } = self;
    }
}

impl Model for Maker {
    ghost use Rattle.std.specs.Option.{option_map};
    ghost use Rattle.lp_cert.specs.Ends.{Made};
    ghost use Rattle.lp_cert.specs.Invariant.{open_end, room_of};
    ghost use Rattle.lp_cert.specs.inside.Invariant.{IfReady};

    ghost Value = { Made };

    ghost view = { λ m. record { ended = m.ended.ends; current = option_map (open_end m.noted m.waiters) m.current; ready = option_map room_of m.ready } };

    ghost invariant = { λ m. IfReady m.noted m.current m.waiters m.ended m.ready };
}

impl Maker {
    /// No leg; AllocError where an allocation failed.
    pub fn new(alloc: Global) -> Result<Maker, AllocError>
        ensures { IfOk result IsFresh }
    {
        Ok(Maker {
            waiters: Waiters::new(alloc)?,
            ended: LegRows::new(alloc),
            current: None,
            noted: 0,
            ready: None,
        })
    }

    /// Makes room for an event that was weighed on the engine, which takes all the memory that
    /// `note` needs; AllocError where an allocation failed. The certificates stay the same.
    pub fn ready<M: Consistency>(
        &mut self,
        alloc: Global,
        _core: &Core<M>,
        step: &Step,
    ) -> Result<(), AllocError>
        ensures ended { self.new.ended ≡ self.old.ended }
        ensures current { self.new.current ≡ self.old.current }
        ensures ready { OnOk result (self.new.ready ≡ Some (room_for step.now)) }
    {
        self.ready = None;
        let ready = Ready {
            opens: opens_leg(step.event(), &step.reply().what),
            verdicts: step.verdicts().len(),
        };
        if ready.opens {
            self.ended
                .close(alloc, self.current, self.noted, &self.waiters)?;
            self.ready = Some(ready);
            return Ok(());
        }
        self.waiters.reserve(ready.verdicts.max(OWN_REASONS))?;
        self.ready = Some(ready);
        Ok(())
    }

    /// Notes an event that was weighed on the engine, before the engine takes it, however it was weighed: of a group that a scan
    /// leaves out the newest line goes on. Never allocates.
    pub fn note<M: Consistency>(&mut self, core: &Core<M>, step: &Step)
        requires weighed { IsWeighed M.rules core.now step.now }
        requires ready { self.old.ready ≡ Some (room_for step.now) }
        ensures made { IsMadeFurther M.rules core.now step.now.event self.old self.new }
    {
        let number = core.events() as u32 + 1;
        let Some(ready) = self.ready.take() else {
            unreachable!()
        };
        self.noted = number;
        if !ready.opens {
            let Some(leg) = &mut self.current else {
                return;
            };
            note_leg(core, step, number, leg, &mut self.waiters);
            return;
        }
        let next = opened(core, step, number);
        self.waiters.open(core, next.target);
        self.ended.push_closed();
        self.current = Some(next);
    }

    /// The certificate that a group waits in the leg under way, if it does; AllocError where an
    /// allocation failed.
    pub fn waiting(&self, alloc: Global, group: GroupId) -> Result<Option<Cert>, AllocError>
        ensures { IfOk result (λ found. found ≡ waiting_in self.now.current group.0) }
    {
        let Some(leg) = self.current else {
            return Ok(None);
        };
        if leg.completed.is_some() {
            return Ok(None);
        }
        cert_of(alloc, Claim::Waiting, leg, self.noted, &self.waiters, group)
    }

    /// Whether a group waits in the leg under way: whether `waiting` has a certificate of it. Never allocates.
    pub fn is_waiting(&self, group: GroupId) -> bool
        ensures { result ≡ is_some (waiting_in self.now.current group.0) }
    {
        let Some(leg) = self.current else {
            return false;
        };
        if leg.completed.is_some() {
            return false;
        }
        self.waiters.waits(group)
    }

    /// The certificate that the leg under way isn't complete, if there is one that isn't: the least
    /// group that waits. AllocError where an allocation failed.
    pub fn floor(&self, alloc: Global) -> Result<Option<Cert>, AllocError>
        ensures { IfOk result (λ found. found ≡ floor_in self.now.current) }
    {
        let Some(leg) = self.current else {
            return Ok(None);
        };
        if leg.completed.is_some() {
            return Ok(None);
        }
        let Some(group) = self.waiters.least() else {
            return Ok(None);
        };
        cert_of(alloc, Claim::Floor, leg, self.noted, &self.waiters, group)
    }

    /// The end of the leg under way as it stands, if there is one; AllocError where an allocation
    /// failed.
    pub fn current(&self, alloc: Global) -> Result<Option<LegEnd>, AllocError>
        ensures { IfOk result (λ found. found ≡ self.now.current) }
    {
        let Some(leg) = self.current else {
            return Ok(None);
        };
        let certs = leg.certs(alloc, self.noted, &self.waiters)?;
        Ok(Some(leg.end(certs)))
    }

    /// The ends of all legs, given up, the last one as it stands; AllocError where an allocation
    /// failed. What is kept of the legs is moved.
    pub fn into_ends(self, alloc: Global) -> Result<LegList, AllocError>
        ensures { IfOk result (λ ends. ends ≡ self.ended ++ option_to_list self.current) }
    {
        let Self {
            mut ended,
            current,
            waiters,
            noted,
            ready: _,
        } = self;
        if let Some(leg) = current {
            let certs = leg.into_certs(alloc, noted, waiters)?;
            ended.close_whole(leg.end(certs))?;
            ended.push_closed();
        }
        Ok(LegList { rows: ended })
    }

    /// Whether the leg under way is complete; false where there is none. Its end stays the same from
    /// then on.
    pub fn is_complete(&self) -> bool
        ensures { result ≡ is_complete_in self.now.current }
    {
        match self.current {
            Some(leg) => leg.completed.is_some(),
            None => false,
        }
    }

    /// The ends of the legs that ended, borrowed.
    pub fn ended(&self) -> LegEnds<'_>
        ensures { ends_left result ≡ self.now.ended }
    {
        LegEnds::of(&self.ended)
    }
}

/// The leg under way after an event that opens none. Never allocates.
fn note_leg<M: Consistency>(
    core: &Core<M>,
    step: &Step,
    number: u32,
    leg: &mut OpenLeg,
    waiters: &mut Waiters,
)
    requires weighed { IsWeighed M.rules core.now step.now }
    requires number { number ≡ suc core.now.number }
    requires own_room { HasOwnRoom step.now.event waiters.old }
    requires room { length step.now.verdicts ≤ waiters.old.reasons.room }
    requires scan_room { 0 < waiters.old.reasons.scan_room }
    ensures { IsStepped M.rules core.now step.now number leg.old leg.new waiters.old waiters.new }
{
    if used_scan(&core.model(), step.event()).is_none() {
        let effect = waiters.own_effect(core, step.event());
        affect_leg(number, step.reply(), leg, waiters, &effect);
        return;
    }
    if leg.is_over(number, step.reply(), waiters) {
        return;
    }
    waiters.scan(core, number, step.verdicts());
    waiters.switch(&step.reply().what);
}

/// The kind of scan that an event is, if the model uses it.
fn used_scan<M: Consistency>(model: &M, event: Event) -> Option<CheckKind>
    ensures { result ≡ used_scan M.rules event }
{
    let kind = match event {
        Event::Walk => CheckKind::Walk,
        Event::Stop => CheckKind::Stop,
        _ => return None,
    };
    if model.uses(kind) { Some(kind) } else { None }
}

/// The leg that an event opens.
fn opened<M: Consistency>(core: &Core<M>, step: &Step, number: u32) -> OpenLeg
    requires weighed { IsWeighed M.rules core.now step.now }
    requires opens { is_opening step.now ≡ true }
    ensures { result ≡ leg_at number (new_target (state_in core.now) step.now.event) step.now.reply.completed }
{
    OpenLeg::new(number, core.new_level(step.event()), step.reply().completed)
}

/// The certificate of a group after so many events, if it waits; AllocError where an allocation
/// failed.
fn cert_of(
    alloc: Global,
    claim: Claim,
    leg: OpenLeg,
    noted: u32,
    waiters: &Waiters,
    group: GroupId,
) -> Result<Option<Cert>, AllocError>
    ensures { IfOk result (λ found. found ≡ option_map (waiting_cert claim leg.opened noted group) (lines_at waiters.now group.0)) }
{
    let Some(lines) = waiters.lines(group) else {
        return Ok(None);
    };
    Ok(Some(Cert {
        claim,
        leg: u64::from(leg.opened),
        group,
        upto: u64::from(noted),
        lines: lines.collect(alloc)?,
    }))
}
