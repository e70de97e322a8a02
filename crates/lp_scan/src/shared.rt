//! A scan by several threads.
ghost use Rattle.std.specs.Prelude.{◌≡◌, ◌<◌, ◌≤◌, map, length, IfOk};
ghost use Rattle.lp_stack.specs.TaskView.{seen};
ghost use Rattle.lp_patch.specs.Aimed.{aimed};
ghost use Rattle.lp_scan.specs.Found.{found_of};
ghost use Rattle.lp_scan.specs.inside.Pieces.{piece_of, GivesPieces};

use crate::pieces::piece;
use crate::scan_plain;
use lp_model::{CheckKind, Consistency, Verdict};
use lp_patch::Aim;
use lp_stack::View;
use std::alloc::{AllocError, Global};
use std::thread;
use std::thread::Threads;

/// What each piece of a shared scan passes before it looks at its tasks.
pub trait ScanGate {
    /// A piece, counted from 0, has come.
    fn pass(&self, piece: usize);
}

/// A gate that holds nobody.
#[derive(Clone, Copy, Debug)]
pub struct OpenGate;

impl ScanGate for OpenGate {
    fn pass(&self, _piece: usize) {}
}

/// What a check of a kind finds of each of these tasks, in their order, as `scan_plain` gives it;
/// AllocError where an allocation failed.
///
/// The tasks are cut into as many pieces as there are workers, in their order; a piece may be empty. Each piece
/// first passes the gate, on a thread of its own where one can be had (else one piece runs after another). Waits for
/// its workers.
pub fn scan_shared<R: Threads + Sync, M: Consistency + Sync, G: ScanGate + Sync>(
    rt: &R,
    alloc: Global,
    workers: usize,
    gate: &G,
    model: M,
    kind: CheckKind,
    aim: &Aim<'_>,
    views: &[View<'_>],
) -> Result<Vec<Verdict>, AllocError>
    requires some { 0 < workers }
    requires few { workers ≤ 64 }
    ensures { IfOk result (λ found. found.items ≡ found_of M.rules kind (aimed aim.now) (map seen views.now)) }
{
    let parts = thread::map_indices(
        rt,
        alloc,
        workers,
        &|at: usize| -> Result<Vec<Verdict>, AllocError>
            requires { at < workers }
            ensures { IfOk result (λ part. part.items ≡ found_of M.rules kind (aimed aim.entry.now) (map seen (piece_of views.entry.now workers at))) }
        {
            gate.pass(at);
            scan_plain(alloc, model, kind, aim, piece(views, workers, at))
        },
    )?;
    joined::<M>(alloc, workers, kind, aim, views, parts.as_slice())
}

/// What the pieces gave, one after another.
fn joined<M: Consistency>(
    alloc: Global,
    workers: usize,
    kind: CheckKind,
    aim: &Aim<'_>,
    views: &[View<'_>],
    parts: &[Result<Vec<Verdict>, AllocError>],
) -> Result<Vec<Verdict>, AllocError>
    requires some { 0 < workers }
    requires all { length parts.now ≡ workers }
    requires pieces { GivesPieces (λ part. part.items) (λ views. found_of M.rules kind (aimed aim.now) (map seen views)) views.now workers parts.now }
    ensures { IfOk result (λ found. found.items ≡ found_of M.rules kind (aimed aim.now) (map seen views.now)) }
{
    let mut found = Vec::with_capacity(alloc, views.len())?;
    for at in 0..workers {
        match &parts[at] {
            Ok(part) => found.extend_from_slice(part.as_slice())?,
            Err(_) => return Err(AllocError),
        }
    }
    Ok(found)
}
