//! A view that is kept.
ghost use Rattle.std.specs.Prelude.{◌≡◌, ◌↔◌, IsTrue};

use crate::{Class, Frame, MOST_FRAMES, Mode, TaskId, View};
use arrayvec::ArrayVec;
use std::marker::Model;

/// A copy of a task as it stood, which borrows nothing. No call allocates.
#[derive(Drop)]
pub struct ViewCopy {
    task: TaskId,
    class: Class,
    mode: Mode,
    frames: ArrayVec<Frame, MOST_FRAMES>,
}

impl Model for ViewCopy {
    ghost use Rattle.std.specs.Prelude.{◌≤◌, length};
    ghost use Rattle.lp_stack.specs.TaskView.{TaskView};

    ghost Value = { TaskView };

    ghost view = { λ c. record { task = c.task.0; class = c.class; mode = c.mode; frames = c.frames.items } };

    ghost invariant = { λ c. length c.frames.items ≤ 100 };
}

impl ViewCopy {
    ghost use Rattle.lp_stack.specs.TaskView.{seen};

    /// A copy of what a view shows.
    pub fn of(view: &View<'_>) -> ViewCopy
        ensures { result ≡ seen view.now }
    {
        let mut frames = ArrayVec::new();
        // A view has at most 100 frames, so they fit.
        let _ = frames.try_extend_from_slice(view.frames);
        ViewCopy {
            task: view.task,
            class: view.class,
            mode: view.mode,
            frames,
        }
    }

    /// The task as it stood, borrowed.
    pub fn view(&self) -> View<'_>
        ensures { seen result ≡ self.now }
    {
        View {
            task: self.task,
            class: self.class,
            mode: self.mode,
            frames: self.frames.as_slice(),
        }
    }

    /// Whether the copy shows the same task, class, mode and frames as a view does.
    pub fn same_as(&self, view: &View<'_>) -> bool
        ensures { IsTrue result ↔ (self.now ≡ seen view.now) }
    {
        self.task == view.task
            && self.class == view.class
            && self.mode == view.mode
            && same_frames(self.frames.as_slice(), view.frames)
    }
}

/// Whether two stacks have the same frames in the same order.
fn same_frames(left: &[Frame], right: &[Frame]) -> bool
    ensures { IsTrue result ↔ (left.now ≡ right.now) }
{
    left == right
}
