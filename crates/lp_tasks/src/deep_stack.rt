//! An array for one stack.
ghost use Rattle.std.specs.Prelude.{◌≡◌, ◌<◌, ◌≤◌, ◌-◌, ◌+◌, [], ◌∷◌, ◌++◌, length, take};

use arrayvec::ArrayVec;
use lp_stack::{Frame, MOST_FRAMES};
use std::marker::Model;

/// A stack of at most 100 frames. No call allocates.
///
/// Contracts see the list of the frames.
#[derive(Drop)]
pub(crate) struct DeepStack {
    frames: ArrayVec<Frame, MOST_FRAMES>,
}

impl Model for DeepStack {
    ghost use Rattle.std.specs.Prelude.{◌≤◌, List, length};
    ghost use Rattle.lp_stack.specs.declared.frame.Frame.{Frame};

    ghost Value = { List Frame };

    ghost view = { λ s. s.frames.items };

    ghost invariant = { λ s. length s.frames.items ≤ 100 };
}

impl DeepStack {
    /// A stack without frames.
    pub(crate) fn new() -> DeepStack
        ensures { result ≡ [] }
    {
        DeepStack {
            frames: ArrayVec::new(),
        }
    }

    /// A copy of the stack.
    pub(crate) fn copy(&self) -> DeepStack
        ensures { result ≡ self.now }
    {
        let mut frames = ArrayVec::new();
        // As many frames as fit one stack fit another.
        let _ = frames.try_extend_from_slice(self.frames.as_slice());
        DeepStack { frames }
    }

    /// The frames, borrowed.
    pub(crate) fn frames(&self) -> &[Frame]
        ensures value { result.now ≡ self.now }
        ensures few { length result.now ≤ 100 }
    {
        self.frames.as_slice()
    }

    /// Makes these the frames, and one more, in place of those that were there.
    pub(crate) fn start(&mut self, lower: &[Frame], frame: Frame)
        requires { length lower.now < 100 }
        ensures { self.new ≡ lower.now ++ frame ∷ [] }
    {
        self.frames.clear();
        let _ = self.frames.try_extend_from_slice(lower);
        self.frames.push(frame);
    }

    /// Pushes a frame.
    pub(crate) fn push(&mut self, frame: Frame)
        requires { length self.old < 100 }
        ensures { self.new ≡ self.old ++ frame ∷ [] }
    {
        self.frames.push(frame);
    }

    /// Pops the frame that was pushed last, if there is one. Gives the number of frames left.
    pub(crate) fn pop(&mut self) -> usize
        ensures rest { self.new ≡ take (length self.old - 1) self.old }
        ensures left { result ≡ length self.new }
    {
        let _ = self.frames.pop();
        self.frames.len()
    }
}
