//! Calls of the crates below the engine: that they succeed where memory suffices, that the limits are those of the
//! formats, what they answer to cases that were worked by hand, and calls after a failed allocation.
mod members;
mod models;
mod numbers;
mod patches;
mod scans;
mod stacks;
mod symbols;
mod tables;

use super::{A, B, C, names, no_names, patches};
use lp_patch::{PatchFault, PatchSet, PatchStack};
use lp_stack::{Class, Frame, Level, Mode, TaskId, TaskStack};
use lp_symbols::{SymFault, SymId, Symbols};
use std::alloc::Global;

/// A call at a level.
fn frame(func: SymId, level: u8, serial: u32) -> Frame {
    Frame {
        func,
        level: Level(level),
        serial,
    }
}
