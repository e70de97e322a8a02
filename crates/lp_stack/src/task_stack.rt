//! A task and its frames.
ghost use Rattle.std.specs.Prelude.{◌≡◌, ◌<◌, ◌↔◌, ◌-◌, [], ◌∷◌, ◌++◌, length, take, slice_get, IsOk, IfErr, OnOk, OnErr};

use crate::{Class, Frame, Mode, TaskId, View};
use arrayvec::ArrayVec;
use std::marker::Model;

/// The most frames that the stack of a task has.
pub const MOST_FRAMES: usize = 100;

/// A task with its class, its mode and its stack of at most 100 frames. No call allocates.
#[derive(Drop)]
pub struct TaskStack {
    task: TaskId,
    class: Class,
    mode: Mode,
    frames: ArrayVec<Frame, MOST_FRAMES>,
}

impl Model for TaskStack {
    ghost use Rattle.std.specs.Prelude.{◌≤◌, length};
    ghost use Rattle.lp_stack.specs.TaskView.{TaskView};

    ghost Value = { TaskView };

    ghost view = { λ s. record { task = s.task.0; class = s.class; mode = s.mode; frames = s.frames.items } };

    ghost invariant = { λ s. length s.frames.items ≤ 100 };
}

impl TaskStack {
    ghost use Rattle.lp_stack.specs.TaskView.{TaskView, seen};

    /// A task that has called nothing yet.
    pub fn new(task: TaskId, class: Class, mode: Mode) -> Self
        ensures { result ≡ record { task = task.0; class = class; mode = mode; frames = [] } }
    {
        TaskStack {
            task,
            class,
            mode,
            frames: ArrayVec::new(),
        }
    }

    /// Pushes a frame. Where 100 are there, the frame is handed back and nothing changes.
    pub fn push(&mut self, frame: Frame) -> Result<(), Frame>
        ensures variant { IsOk result ↔ (length self.old.frames < 100) }
        ensures ok { OnOk result (self.new ≡ record self.old { frames = self.old.frames ++ frame ∷ [] }) }
        ensures err { OnErr result (self.new ≡ self.old) }
        ensures frame_returned { IfErr result (λ f. f ≡ frame) }
    {
        if self.frames.is_full() {
            return Err(frame);
        }
        self.frames.push(frame);
        Ok(())
    }

    /// Takes the frame that was pushed last; None where there is no frame, and then nothing changes.
    pub fn pop(&mut self) -> Option<Frame>
        ensures value { result ≡ slice_get self.old.frames (length self.old.frames - 1) }
        ensures rest { self.new ≡ record self.old { frames = take (length self.old.frames - 1) self.old.frames } }
    {
        self.frames.pop()
    }

    /// Puts the task in a mode.
    pub fn set_mode(&mut self, mode: Mode)
        ensures { self.new ≡ record self.old { mode = mode } }
    {
        self.mode = mode;
    }

    /// A copy of the task with its stack.
    pub fn copy(&self) -> TaskStack
        ensures { result ≡ self.now }
    {
        let mut frames = ArrayVec::new();
        // As many frames as fit one stack fit another.
        let _ = frames.try_extend_from_slice(self.frames.as_slice());
        let mode = self.mode;
        TaskStack {
            task: self.task,
            class: self.class,
            mode,
            frames,
        }
    }

    /// The task as it stands, borrowed without copying.
    pub fn view(&self) -> View<'_>
        ensures { seen result ≡ self.now }
    {
        View {
            task: self.task,
            class: self.class,
            mode: self.mode,
            frames: self.frames.as_slice(),
        }
    }
}
