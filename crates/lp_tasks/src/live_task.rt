//! A live task: its record, and how it stands.
ghost use Rattle.std.specs.Prelude.{◌≡◌, ◌≢◌, ℕ, ◌<◌, ◌≤◌, [], Some, length, nat_eq};
ghost use Rattle.std.specs.List.{list_any};
ghost use Rattle.std.specs.Option.{ForSome, option_map};
ghost use Rattle.lp_stack.specs.TaskView.{seen};
ghost use Rattle.lp_machine.specs.Machine.{view_of};
ghost use Rattle.lp_tasks.specs.inside.Deep.{deep_at, with_deep, IsRecorded};
ghost use Rattle.lp_tasks.specs.inside.OwnChecks.{own_check_mode};

use crate::deep_stacks::DeepStacks;
use arrayvec::ArrayVec;
use lp_model::CheckKind;
use lp_stack::{Class, Frame, GroupId, Level, Mode, TaskId, View};
use lp_symbols::SymId;
use std::marker::Model;

/// The most frames that the record of a task has room for.
pub(crate) const OWN_FRAMES: usize = 6;

/// A live task with its level and its group, and at most 6 frames. No call allocates.
#[derive(Drop)]
pub struct LiveTask {
    class: Class,
    mode: Mode,
    level: Level,
    group: GroupId,
    frames: ArrayVec<Frame, OWN_FRAMES>,
}

impl Model for LiveTask {
    ghost use Rattle.std.specs.Prelude.{◌≤◌, length};
    ghost use Rattle.lp_definitions.specs.Leg.{LegTask};

    ghost Value = { LegTask };

    ghost view = { λ t. record { class = t.class; mode = t.mode; group = t.group.0; level = t.level.0; frames = t.frames.items } };

    ghost invariant = { λ t. length t.frames.items ≤ 6 };
}

impl LiveTask {
    ghost use Rattle.lp_definitions.specs.Leg.{LegTask};
    ghost use Rattle.lp_machine.specs.Machine.{put_in, calling, returning};
    ghost use Rattle.lp_tasks.specs.inside.OwnChecks.{at_own_check};

    /// A task with an empty stack.
    pub fn new(class: Class, mode: Mode, group: GroupId, level: Level) -> Self
        ensures { result ≡ record { class = class; mode = mode; group = group.0; level = level.0; frames = [] } }
    {
        LiveTask {
            class,
            mode,
            level,
            group,
            frames: ArrayVec::new(),
        }
    }

    /// A copy of the task.
    pub fn copy(&self) -> LiveTask
        ensures { result ≡ self.now }
    {
        let mut frames = ArrayVec::new();
        // As many frames as fit one record fit another.
        let _ = frames.try_extend_from_slice(self.frames.as_slice());
        LiveTask {
            class: self.class,
            mode: self.mode,
            level: self.level,
            group: self.group,
            frames,
        }
    }

    /// The task of this number as it stands, with the deep stack that it may have.
    #[inline(always)]
    pub fn view<'a>(&'a self, deep: &'a DeepStacks, task: TaskId) -> LiveView<'a>
        requires { IsRecorded (Some self.now) (deep_at deep.now task.0) }
        ensures { Some result ≡ with_deep (Some self.now) (deep_at deep.now task.0) }
    {
        let own = self.frames.as_slice();
        if own.len() < OWN_FRAMES {
            return self.with_frames(own);
        }
        self.with_frames(deep.frames(task).unwrap_or(own))
    }

    /// The task with these frames in place of its own.
    #[inline(always)]
    fn with_frames<'a>(&self, frames: &'a [Frame]) -> LiveView<'a>
        requires { length frames.now ≤ 100 }
        ensures { result ≡ record self.now { frames = frames.now } }
    {
        LiveView {
            class: self.class,
            mode: self.mode,
            group: self.group,
            level: self.level,
            frames,
        }
    }

    /// The level of the task.
    #[inline(always)]
    pub fn level(&self) -> Level
        ensures { result.0 ≡ self.now.level }
    {
        self.level
    }

    /// The group of the task.
    pub fn group(&self) -> GroupId
        ensures { result.0 ≡ self.now.group }
    {
        self.group
    }

    /// The task of this number calls a function, on its level; it has room for one more frame.
    #[inline(always)]
    pub fn call(&mut self, deep: &mut DeepStacks, task: TaskId, func: SymId, serial: u32)
        requires recorded { IsRecorded (Some self.old) (deep_at deep.old task.0) }
        requires room { ForSome (with_deep (Some self.old) (deep_at deep.old task.0)) (λ x. length x.frames < 100) }
        ensures called { with_deep (Some self.new) (deep_at deep.new task.0) ≡ option_map (calling serial func) (with_deep (Some self.old) (deep_at deep.old task.0)) }
        ensures recorded { IsRecorded (Some self.new) (deep_at deep.new task.0) }
        ensures others { (other : ℕ) → other ≢ task.0 → deep_at deep.new other ≡ deep_at deep.old other }
    {
        let frame = Frame {
            func,
            level: self.level,
            serial,
        };
        if self.frames.len() < OWN_FRAMES {
            self.frames.push(frame);
            return;
        }
        deep.push(task, self.frames.as_slice(), frame);
    }

    /// The task of this number returns from the function that it called last, if there is one.
    #[inline(always)]
    pub fn ret(&mut self, deep: &mut DeepStacks, task: TaskId)
        requires recorded { IsRecorded (Some self.old) (deep_at deep.old task.0) }
        ensures returned { with_deep (Some self.new) (deep_at deep.new task.0) ≡ option_map returning (with_deep (Some self.old) (deep_at deep.old task.0)) }
        ensures recorded { IsRecorded (Some self.new) (deep_at deep.new task.0) }
        ensures others { (other : ℕ) → other ≢ task.0 → deep_at deep.new other ≡ deep_at deep.old other }
    {
        if self.frames.len() < OWN_FRAMES {
            let _ = self.frames.pop();
            return;
        }
        // A record keeps the lowest frames of a deep stack, so nothing is moved back.
        if deep.pop(task) {
            return;
        }
        let _ = self.frames.pop();
    }

    /// Puts the task in a mode.
    #[inline(always)]
    pub fn set_mode(&mut self, mode: Mode)
        ensures { self.new ≡ put_in mode self.old }
    {
        self.mode = mode;
    }

    /// The task is checked alone.
    pub fn reach_own_check(&mut self, kind: CheckKind)
        ensures { self.new ≡ at_own_check kind self.old }
    {
        self.mode = own_check_mode(kind, self.mode);
    }

    /// Puts the task on a level.
    pub fn set_level(&mut self, level: Level)
        ensures { self.new ≡ record self.old { level = level.0 } }
    {
        self.level = level;
    }
}

/// A live task as it stands, with all its frames, borrowed.
#[derive(Drop)]
pub struct LiveView<'a> {
    class: Class,
    mode: Mode,
    group: GroupId,
    level: Level,
    /// Those of the task's record or, of a deep stack, those of its array.
    frames: &'a [Frame],
}

impl<'a> Model for LiveView<'a> {
    ghost use Rattle.std.specs.Prelude.{◌≤◌, length};
    ghost use Rattle.lp_definitions.specs.Leg.{LegTask};

    ghost Value = { LegTask };

    ghost view = { λ v. record { class = v.class; mode = v.mode; group = v.group.0; level = v.level.0; frames = v.frames.now } };

    ghost invariant = { λ v. length v.frames.now ≤ 100 };
}

impl<'a> LiveView<'a> {
    /// The task as a check sees it, under the number that it has.
    #[inline(always)]
    pub fn view(&self, task: TaskId) -> View<'a>
        ensures { seen result ≡ view_of task.0 self.now }
    {
        View {
            task,
            class: self.class,
            mode: self.mode,
            frames: self.frames,
        }
    }

    /// The level of the task.
    #[inline(always)]
    pub fn level(&self) -> Level
        ensures { result.0 ≡ self.now.level }
    {
        self.level
    }

    /// The group of the task.
    #[inline(always)]
    pub fn group(&self) -> GroupId
        ensures { result.0 ≡ self.now.group }
    {
        self.group
    }

    /// The class of the task.
    #[inline(always)]
    pub fn class(&self) -> Class
        ensures { result ≡ self.now.class }
    {
        self.class
    }

    /// The mode of the task.
    #[inline(always)]
    pub fn mode(&self) -> Mode
        ensures { result ≡ self.now.mode }
    {
        self.mode
    }

    /// How many frames are on the stack.
    #[inline(always)]
    pub fn depth(&self) -> usize
        ensures value { result ≡ length self.now.frames }
        ensures few { result ≤ 100 }
    {
        self.frames.len()
    }

    /// Whether a frame with this serial is on the stack.
    #[inline(always)]
    pub fn has_frame(&self, serial: u64) -> bool
        ensures { result ≡ list_any (λ frame. nat_eq frame.serial serial) self.now.frames }
    {
        self.frames
            .iter()
            .any(|frame| u64::from(frame.serial) == serial)
    }
}

/// The mode in which an own check finds its task.
pub fn own_check_mode(kind: CheckKind, mode: Mode) -> Mode
    ensures { result ≡ own_check_mode kind mode }
{
    match kind {
        CheckKind::KernelExit => Mode::User,
        _ => mode,
    }
}
