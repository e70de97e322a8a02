//! The gate of a scan, which each piece passes.
use super::*;
use lp_model::CheckKind;
use lp_patch::{Aim, PatchStack};
use lp_scan::{ScanGate, scan_shared};
use lp_stack::Level;
use std::sync::atomic::{AtomicBool, Ordering};

/// Marks the pieces that pass.
#[derive(Drop)]
struct Marked {
    first: AtomicBool,
    second: AtomicBool,
    third: AtomicBool,
}

impl Marked {
    fn new() -> Marked {
        Marked {
            first: AtomicBool::new(false),
            second: AtomicBool::new(false),
            third: AtomicBool::new(false),
        }
    }

    /// Whether each of three pieces has passed.
    fn are_all(&self) -> bool {
        self.first.load(Ordering::SeqCst)
            && self.second.load(Ordering::SeqCst)
            && self.third.load(Ordering::SeqCst)
    }
}

impl ScanGate for Marked {
    fn pass(&self, piece: usize) {
        match piece {
            0 => self.first.store(true, Ordering::SeqCst),
            1 => self.second.store(true, Ordering::SeqCst),
            2 => self.third.store(true, Ordering::SeqCst),
            _ => (),
        }
    }
}

/// A piece without a task passes as well, and a scan of no task has as many pieces as any other.
#[test]
fn an_empty_piece_passes(rt: HostRuntime) {
    assert!(rt; do_all_pass(&rt, rt.alloc()));
}

/// Whether each of three workers passes the gate of a walk over no task.
fn do_all_pass<R: Threads + Sync>(rt: &R, alloc: Global) -> bool {
    match patched(alloc) {
        Ok(patches) => walk_of_none(rt, alloc, &patches),
        Err(_) => false,
    }
}

fn walk_of_none<R: Threads + Sync>(rt: &R, alloc: Global, patches: &PatchStack) -> bool {
    let marked = Marked::new();
    let aim = Aim {
        patches,
        target: Level(1),
    };
    match scan_shared(rt, alloc, 3, &marked, Hybrid, CheckKind::Walk, &aim, &[]) {
        Ok(found) => found.is_empty() && marked.are_all(),
        Err(_fault) => false,
    }
}
