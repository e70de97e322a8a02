//! What events that are no scans do to the groups that wait.
ghost use Rattle.std.specs.Prelude.{◌≡◌, ◌<◌, ℕ, List, Bool, suc, [], true, None, IfSome, OnOk};
ghost use Rattle.lp_model.specs.declared.verdict.Verdict.{Verdict};
ghost use Rattle.lp_transition.specs.Blames.{has_frame_in, own_blame};
ghost use Rattle.lp_transition.specs.LastScan.{used_scan};
ghost use Rattle.lp_machine.specs.Table.{state_in};
ghost use Rattle.lp_cert.specs.inside.Heads.{IsUsed};
ghost use Rattle.lp_cert.specs.inside.OwnEffects.{HasEffectRoom, HasOwnRoom, IsTold, after_effect};
ghost use Rattle.lp_cert.specs.inside.Waiters.{HasFewGroups, lines_at, own_lines};
ghost use Rattle.lp_cert.specs.Waiters.{head_of};

use super::{Waiters, is_held};
use crate::head::{OwnFork, Refused};
use lp_model::{Blame, CheckKind, Consistency, ForkKind};
use lp_stack::{GroupId, TaskId};
use lp_transition::{Core, Event};
use std::alloc::AllocError;

/// How many reasons an event that is no scan adds at most: the one that continued, and its own.
pub(crate) const OWN_REASONS: usize = 2;

/// What an accepted event that is no scan does to the groups that wait, but for those that it switches.
#[derive(Clone, Copy)]
pub(crate) enum OwnEffect {
    /// A child's own group waits as this group of its parent does.
    Birth(GroupId, OwnFork),
    /// This group waits no longer.
    End(GroupId),
    /// The own check of this group's only member refuses it.
    Refusal(GroupId, Refused),
    /// Each group is as it was.
    Nothing,
}

impl Waiters {
    /// Makes room for what an event does by itself: a birth or a refusal needs some. AllocError where an allocation failed.
    pub(crate) fn reserve_own(&mut self, event: Event) -> Result<(), AllocError>
        ensures groups { self.new.groups ≡ self.old.groups }
        ensures heads { (group : ℕ) → head_of self.new.reasons group ≡ head_of self.old.reasons group }
        ensures lists { self.new.reasons.lists ≡ self.old.reasons.lists }
        ensures scans { self.new.reasons.scans ≡ self.old.reasons.scans }
        ensures room { OnOk result (HasOwnRoom event self.new) }
    {
        match event {
            Event::Fork(..) | Event::Resched(_) => self.reserve(OWN_REASONS),
            _ => Ok(()),
        }
    }

    /// What an event does, if it is accepted. A scan that the model doesn't use does nothing.
    pub(crate) fn own_effect<M: Consistency>(&self, core: &Core<M>, event: Event) -> OwnEffect
        requires unscanned { used_scan M.rules event ≡ None }
        ensures lines { (verdicts : List Verdict) (group : ℕ) → own_lines M.rules core.now event verdicts (lines_at self.now) group ≡ after_effect (has_frame_in (state_in core.now)) result (lines_at self.now) group }
        ensures told { IsTold (has_frame_in (state_in core.now)) result self.now }
        ensures few { HasFewGroups core.now event }
        ensures room { HasOwnRoom event self.now → HasEffectRoom result self.now }
    {
        match event {
            Event::Fork(parent, child, how) => {
                self.birth(core, parent, child, how, core.events() + 1)
            }
            Event::Die(task) => self.end(core, task),
            Event::Resched(task) => self.refusal(core, task, core.events() as u32 + 1),
            _ => OwnEffect::Nothing,
        }
    }

    /// A child of a group that waits is born on its level, so what kept its parent's group back is why its own group waits too.
    fn birth<M: Consistency>(
        &self,
        core: &Core<M>,
        parent: TaskId,
        child: TaskId,
        how: ForkKind,
        at: u64,
    ) -> OwnEffect
        requires at { at ≡ suc core.now.number }
        ensures lines { (group : ℕ) → own_lines M.rules core.now (Event.Fork parent child how) [] (lines_at self.now) group ≡ after_effect (has_frame_in (state_in core.now)) result (lines_at self.now) group }
        ensures told { IsTold (has_frame_in (state_in core.now)) result self.now }
        ensures few { HasFewGroups core.now (Event.Fork parent child how) }
        ensures room { HasOwnRoom (Event.Fork parent child how) self.now → HasEffectRoom result self.now }
    {
        let Some(group) = core.group_of(parent) else {
            return OwnEffect::Nothing;
        };
        let born = core.model().child_group(group, child, how);
        if born.0 != child.0 || !self.waits(group) {
            return OwnEffect::Nothing;
        }
        let birth = OwnFork {
            child: born,
            parent,
            at,
        };
        OwnEffect::Birth(group, birth)
    }

    /// The group of a task that ends waits no longer where it was the only member.
    fn end<M: Consistency>(&self, core: &Core<M>, task: TaskId) -> OwnEffect
        ensures lines { (group : ℕ) → own_lines M.rules core.now (Event.Die task) [] (lines_at self.now) group ≡ after_effect (has_frame_in (state_in core.now)) result (lines_at self.now) group }
        ensures told { IsTold (has_frame_in (state_in core.now)) result self.now }
        ensures room { HasEffectRoom result self.now }
    {
        let Some(group) = core.group_of(task) else {
            return OwnEffect::Nothing;
        };
        if core.is_alone(task) {
            OwnEffect::End(group)
        } else {
            OwnEffect::Nothing
        }
    }

    /// A check that a task makes of itself with frames on its stack: where it is of its group, and refuses it, that is a reason of
    /// the group.
    fn refusal<M: Consistency>(&self, core: &Core<M>, task: TaskId, at: u32) -> OwnEffect
        requires at { at ≡ suc core.now.number }
        ensures lines { (group : ℕ) → own_lines M.rules core.now (Event.Resched task) [] (lines_at self.now) group ≡ after_effect (has_frame_in (state_in core.now)) result (lines_at self.now) group }
        ensures told { IsTold (has_frame_in (state_in core.now)) result self.now }
        ensures room { HasOwnRoom (Event.Resched task) self.now → HasEffectRoom result self.now }
    {
        let Some(group) = core.group_of(task) else {
            return OwnEffect::Nothing;
        };
        if !core.is_alone(task) || !self.waits(group) {
            return OwnEffect::Nothing;
        }
        let Some(blame) = own_blame(core, task) else {
            return OwnEffect::Nothing;
        };
        let refused = Refused {
            at,
            task,
            blame,
            frame_stands: is_held(core, self.reasons.head(group).ongoing),
        };
        OwnEffect::Refusal(group, refused)
    }

    /// Notes what an accepted event does. Never allocates.
    pub(crate) fn have_effect(&mut self, effect: &OwnEffect)
        requires { HasEffectRoom effect.now self.old }
        ensures { (has_frame : (task serial : ℕ) → Bool) → IsTold has_frame effect.now self.old → (group : ℕ) → lines_at self.new group ≡ after_effect has_frame effect.now (lines_at self.old) group }
    {
        match effect {
            OwnEffect::Birth(parent, birth) => self.bear(*parent, birth),
            OwnEffect::End(group) => self.switch_one(*group),
            OwnEffect::Refusal(group, refused) => self.refuse_alone(*group, refused),
            OwnEffect::Nothing => {}
        }
    }
}

/// Why a task's own check doesn't admit it, if the model uses the check; None where it does.
fn own_blame<M: Consistency>(core: &Core<M>, task: TaskId) -> Option<Blame>
    ensures blame { result ≡ own_blame M.rules (state_in core.now) task.0 }
    ensures used { IfSome result IsUsed }
{
    let model = core.model();
    if !model.uses(CheckKind::Resched) {
        return None;
    }
    let view = core.task(task)?;
    model.blame(CheckKind::Resched, &view, &core.aim())
}
