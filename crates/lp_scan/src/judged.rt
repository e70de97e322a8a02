//! Walks that are judged over copies of the tasks, while the tasks run on.
ghost use Rattle.std.specs.Prelude.{◌≡◌, ◌<◌, ◌≤◌, ◌↔◌, map, length, IfOk, IsTrue};
ghost use Rattle.lp_stack.specs.TaskView.{seen};
ghost use Rattle.lp_patch.specs.Aimed.{aimed};
ghost use Rattle.lp_patch.specs.Patches.{Aim};
ghost use Rattle.lp_model.specs.declared.check.CheckKind.TheVariants.{Walk};
ghost use Rattle.lp_transition.specs.Scan.{verdict_of};
ghost use Rattle.lp_scan.specs.Found.{found_of};

use crate::scan_plain;
use crate::shared::{ScanGate, scan_shared};
use lp_model::{CheckKind, Consistency, Verdict};
use lp_patch::{Aim, PatchStack};
use lp_stack::{Level, TaskId, View, ViewCopy};
use std::alloc::{AllocError, Global};
use std::marker::Model;
use std::thread::Threads;

/// Copies of tasks, which are to be judged against a level of some patches.
#[derive(Drop)]
pub struct Batch {
    /// The level to which the tasks go.
    pub target: Level,
    /// The patches.
    pub patches: PatchStack,
    /// The tasks as they stood.
    pub copies: Vec<ViewCopy>,
}

/// A batch, and what a walk of the model found of each of its tasks.
///
/// Contracts see where the tasks were to go, the tasks, and what was found.
#[derive(Drop)]
pub struct Judged<M: Consistency> {
    model: M,
    batch: Batch,
    found: Vec<Verdict>,
}

impl<M: Consistency> Model for Judged<M> {
    ghost use Rattle.std.specs.Prelude.{◌≡◌};
    ghost use Rattle.lp_model.specs.declared.check.CheckKind.TheVariants.{Walk};
    ghost use Rattle.lp_scan.specs.Found.{found_of};
    ghost use Rattle.lp_scan.specs.Judgements.{Judgement};

    ghost Value = { Judgement };

    ghost view = { λ j. record { aim = record { patches = j.batch.patches; target = j.batch.target.0 }; tasks = j.batch.copies.items; found = j.found.items } };

    ghost invariant = { λ j. j.found.items ≡ found_of M.rules Walk (record { patches = j.batch.patches; target = j.batch.target.0 }) j.batch.copies.items };
}

/// Judges a batch by several threads, as `scan_shared` does; AllocError where an allocation failed. Waits for its
/// workers.
pub fn judge<R: Threads + Sync, M: Consistency + Sync, G: ScanGate + Sync>(
    rt: &R,
    alloc: Global,
    workers: usize,
    gate: &G,
    model: M,
    batch: Batch,
) -> Result<Judged<M>, AllocError>
    requires some { 0 < workers }
    requires few { workers ≤ 64 }
    ensures aim { IfOk result (λ judged. judged.aim ≡ record { patches = batch.patches; target = batch.target.0 }) }
    ensures tasks { IfOk result (λ judged. judged.tasks ≡ batch.copies.items) }
    ensures found { IfOk result (λ judged. judged.found ≡ found_of M.rules Walk judged.aim judged.tasks) }
{
    let found = found_in(rt, alloc, workers, gate, model, &batch)?;
    Ok(Judged {
        model,
        batch,
        found,
    })
}

/// What a walk finds of the tasks of a batch.
fn found_in<R: Threads + Sync, M: Consistency + Sync, G: ScanGate + Sync>(
    rt: &R,
    alloc: Global,
    workers: usize,
    gate: &G,
    model: M,
    batch: &Batch,
) -> Result<Vec<Verdict>, AllocError>
    requires some { 0 < workers }
    requires few { workers ≤ 64 }
    ensures { IfOk result (λ found. found.items ≡ found_of M.rules Walk (record { patches = batch.now.patches; target = batch.now.target.0 }) batch.now.copies.items) }
{
    let views = views_of(alloc, batch.copies.as_slice())?;
    let aim = Aim {
        patches: &batch.patches,
        target: batch.target,
    };
    let walk = CheckKind::Walk;
    scan_shared(
        rt,
        alloc,
        workers,
        gate,
        model,
        walk,
        &aim,
        views.as_slice(),
    )
}

/// The copied tasks, borrowed.
fn views_of(alloc: Global, copies: &[ViewCopy]) -> Result<Vec<View<'_>>, AllocError>
    ensures { IfOk result (λ views. map seen views.items ≡ copies.now) }
{
    let mut views = Vec::with_capacity(alloc, copies.len())?;
    for copy in copies {
        views.push(copy.view())?;
    }
    Ok(views)
}

impl<M: Consistency> Judged<M> {
    ghost use Rattle.lp_scan.specs.Judgements.{Judgement};

    /// What was found, of each task of the batch.
    pub fn verdicts(&self) -> &[Verdict]
        ensures value { result.now ≡ self.now.found }
        ensures found { self.now.found ≡ found_of M.rules Walk self.now.aim self.now.tasks }
    {
        self.found.as_slice()
    }

    /// What a walk finds of these tasks now, in their order; AllocError where an allocation failed.
    ///
    /// What was found of a copy is used where the patches and the target are the same and the copy shows the task as it
    /// is. Every other task is looked at: the tasks ran on while the batch was judged, and an old verdict would switch a
    /// task that has entered a patched function since.
    pub fn find(
        &self,
        alloc: Global,
        aim: &Aim<'_>,
        views: &[View<'_>],
    ) -> Result<Vec<Verdict>, AllocError>
        ensures { IfOk result (λ found. found.items ≡ found_of M.rules Walk (aimed aim.now) (map seen views.now)) }
    {
        if !self.goes_to(aim) {
            return scan_plain(alloc, self.model, CheckKind::Walk, aim, views);
        }
        self.find_again(alloc, aim, views)
    }

    /// Whether the tasks of the batch were to go to the same level of the same patches.
    fn goes_to(&self, aim: &Aim<'_>) -> bool
        ensures { IsTrue result ↔ (self.now.aim ≡ aimed aim.now) }
    {
        self.batch.target == aim.target && self.batch.patches.same(aim.patches)
    }

    /// What a walk finds of these tasks, where the patches and the target are those of the batch.
    fn find_again(
        &self,
        alloc: Global,
        aim: &Aim<'_>,
        views: &[View<'_>],
    ) -> Result<Vec<Verdict>, AllocError>
        requires { self.now.aim ≡ aimed aim.now }
        ensures { IfOk result (λ found. found.items ≡ found_of M.rules Walk (aimed aim.now) (map seen views.now)) }
    {
        let mut found = Vec::with_capacity(alloc, views.len())?;
        let mut place = 0;
        for view in views {
            place = place_from(self.batch.copies.as_slice(), place, view.task);
            found.push(self.verdict_at(place, aim, view))?;
        }
        Ok(found)
    }

    /// What a walk finds of a task, of which there may be a copy at this place.
    fn verdict_at(&self, place: usize, aim: &Aim<'_>, view: &View<'_>) -> Verdict
        requires { self.now.aim ≡ aimed aim.now }
        ensures { result ≡ verdict_of M.rules Walk (aimed aim.now) (seen view.now) }
    {
        match self.batch.copies.get(place) {
            Some(copy) if copy.same_as(view) => self.found[place],
            _ => Verdict::of(&self.model, CheckKind::Walk, view, aim),
        }
    }
}

/// The first place from this one on whose copy isn't of a lesser task, if the copies are in the order of their tasks.
/// No contract: `same_as` decides, so a wrong place would cost a second look at the task and nothing else.
fn place_from(copies: &[ViewCopy], place: usize, task: TaskId) -> usize {
    let mut place = place;
    while place < copies.len() && copies[place].view().task < task {
        place += 1;
    }
    place
}
