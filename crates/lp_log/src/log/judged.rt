//! Walks that are judged over copies of the tasks, while the tasks run on.
ghost use Rattle.std.specs.Prelude.{◌≡◌, ◌≢◌, ◌≤◌, ◌↔◌, map, Err, IfOk, IfErr, IfSome, OnErr, IsTrue, length};
ghost use Rattle.lp_stack.specs.TaskView.{seen};
ghost use Rattle.lp_definitions.specs.declared.event.Event.TheVariants.{Walk};
ghost use Rattle.lp_transition.specs.declared.engine.step.Halt.TheVariants.{JournalFull};
ghost use Rattle.std.specs.List.{filter};
ghost use Rattle.lp_transition.specs.Blames.{is_open};
ghost use Rattle.lp_transition.specs.Scan.{is_asked, views_of};
ghost use Rattle.lp_machine.specs.Table.{state_in};
ghost use Rattle.lp_transition.specs.Weigh.{IsWeighed};
ghost use Rattle.lp_log.specs.declared.seat.TurnedBy.TheVariants.{NotYours, JournalFull as Full};
ghost use Rattle.lp_log.specs.Journals.{reply_to, and_entry};
ghost use Rattle.lp_log.specs.Logs.{AreSame};

use super::Log;
use crate::seat::TurnedBy;
use lp_model::{CheckKind, Consistency};
use lp_scan::{Batch, Judged};
use lp_stack::{View, ViewCopy};
use lp_transition::{Event, Halt, MOST_EVENTS, Reply, Step};
use std::alloc::{AllocError, Global};

impl<M: Consistency> Log<M> {
    /// Copies of the waiting tasks whose groups have no standing blame, to be judged while the tasks run on: the other groups
    /// a walk would refuse. AllocError where an allocation failed.
    pub fn batch(&self, alloc: Global) -> Result<Batch, AllocError>
        ensures target { IfOk result (λ batch. batch.target.0 ≡ self.now.core.target) }
        ensures patches { IfOk result (λ batch. batch.patches ≡ self.now.core.patches) }
        ensures copies { IfOk result (λ batch. batch.copies.items ≡ filter (λ view. is_asked (state_in self.now.core) (is_open self.now.core) view.task) (views_of (state_in self.now.core))) }
    {
        let views = self.core.open_views(alloc)?;
        let copies = copies_of(alloc, views.as_slice())?;
        let aim = self.core.aim();
        let patches = aim.patches.copy(alloc)?;
        Ok(Batch {
            target: aim.target,
            patches,
            copies,
        })
    }

    /// What a walk is to be judged over before the log takes it: a batch, where the event is a walk and the model looks at
    /// tasks in walks. None else. Refused where no event is left, else where an allocation failed.
    pub fn batch_for(&self, alloc: Global, event: Event) -> Result<Option<Batch>, TurnedBy>
        ensures walk { IfOk result (λ batch. IfSome batch (λ _. event ≡ Walk)) }
        ensures yours { IfErr result (λ cause. (event ≡ Walk) × (cause ≢ NotYours)) }
        ensures full { IfErr result (λ cause. (cause ≡ Full) ↔ (1000000 ≤ length self.now.journal.entries)) }
    {
        if event != Event::Walk || !self.core.model().uses(CheckKind::Walk) {
            return Ok(None);
        }
        if self.is_full() {
            return Err(TurnedBy::JournalFull);
        }
        let batch = self.batch(alloc)?;
        Ok(Some(batch))
    }

    /// Takes a walk by what was judged before, and adds it to the journal with the answer. What was found of a copy is
    /// used where the patches and the target are the present ones and the copy shows the task as it is; every other
    /// waiting task is looked at, unless its group has a standing blame. Where it fails the engine and the journal are as they were: NoMemory where an allocation
    /// failed, JournalFull where no event is left.
    pub fn apply_judged(&mut self, alloc: Global, judged: &Judged<M>) -> Result<Reply, Halt>
        ensures full { (result ≡ Err JournalFull) ↔ (1000000 ≤ length self.old.journal.entries) }
        ensures reply { IfOk result (λ given. given ≡ reply_to M.rules self.old.journal Walk) }
        ensures journal { IfOk result (λ given. self.new.journal ≡ and_entry self.old.journal Walk given) }
        ensures unchanged { OnErr result (AreSame self.old self.new) }
    {
        let step = self.weigh_judged(alloc, judged)?;
        let ready = self.ready(alloc, step)?;
        Ok(self.commit(ready))
    }

    /// A walk, weighed by what was judged before. NoMemory where an allocation failed, JournalFull where no event is left.
    pub fn weigh_judged(&self, alloc: Global, judged: &Judged<M>) -> Result<Step, Halt>
        ensures full { (result ≡ Err JournalFull) ↔ (1000000 ≤ length self.now.journal.entries) }
        ensures weighed { IfOk result (λ step. IsWeighed M.rules self.now.core step) }
        ensures event { IfOk result (λ step. step.event ≡ Walk) }
    {
        if self.is_full() {
            return Err(Halt::JournalFull);
        }
        let views = self.core.open_views(alloc)?;
        let aim = self.core.aim();
        let found = judged.find(alloc, &aim, views.as_slice())?;
        self.weigh_open(alloc, CheckKind::Walk, found.as_slice())
    }

    /// Whether no number is left for one more event.
    pub(super) fn is_full(&self) -> bool
        ensures journal { IsTrue result ↔ (1000000 ≤ length self.now.journal.entries) }
        ensures number { IsTrue result ↔ (1000000 ≤ self.now.core.number) }
    {
        self.core.events() >= u64::from(MOST_EVENTS)
    }
}

/// Copies of these tasks.
fn copies_of(alloc: Global, views: &[View<'_>]) -> Result<Vec<ViewCopy>, AllocError>
    ensures { IfOk result (λ copies. copies.items ≡ map seen views.now) }
{
    let mut copies = Vec::with_capacity(alloc, views.len())?;
    for view in views {
        copies.push(ViewCopy::of(view))?;
    }
    Ok(copies)
}
