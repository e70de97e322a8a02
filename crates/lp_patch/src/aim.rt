//! What a transition heads for.
ghost use Rattle.std.specs.Prelude.{◌≡◌};
ghost use Rattle.lp_patch.specs.Aimed.{aimed};
ghost use Rattle.lp_patch.specs.Patches.{is_stale};

use crate::PatchStack;
use lp_stack::{Frame, Level};

/// The patches, borrowed, and the level to which a transition takes the tasks.
#[derive(Clone, Copy)]
pub struct Aim<'a> {
    /// The patches.
    pub patches: &'a PatchStack,
    /// The level to reach, 0 for none of the patches.
    pub target: Level,
}

impl Aim<'_> {
    /// Whether a frame is stale: it runs another version of its function than the target's.
    ///
    /// Such a function is what a stack check looks for (Linux livepatch documentation,
    /// consistency model; Ksplice's check of each thread's stack).
    pub fn stale(&self, frame: &Frame) -> bool
        ensures { result ≡ is_stale (aimed self.now) frame.now }
    {
        self.patches.version(frame.func, frame.level)
            != self.patches.version(frame.func, self.target)
    }
}
