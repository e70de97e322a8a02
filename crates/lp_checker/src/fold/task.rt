//! A live task.
ghost use Rattle.std.specs.Prelude.{◌≡◌, ◌<◌, ◌≤◌, [], length, IfOk, OnOk, OnErr};

use lp_stack::{Class, Frame, GroupId, Level, Mode, TaskId, View};
use lp_symbols::SymId;
use std::alloc::{AllocError, Global};
use std::marker::Model;

/// A live task with its level and its group, which it keeps. Its frames are a vector, unlike the
/// engine's: any call of the checker may allocate, and room for 100 frames a task would be pages of
/// zeros, since most stacks are short.
#[derive(Drop)]
pub(crate) struct FoldedTask {
    frames: Vec<Frame>,
    class: Class,
    mode: Mode,
    level: Level,
    group: GroupId,
}

impl Model for FoldedTask {
    ghost use Rattle.std.specs.Prelude.{◌≤◌, length};
    ghost use Rattle.lp_definitions.specs.Leg.{LegTask};

    ghost Value = { LegTask };

    ghost view = { λ t. record { class = t.class; mode = t.mode; group = t.group.0; level = t.level.0; frames = t.frames.items } };

    ghost invariant = { λ t. length t.frames.items ≤ 100 };
}

impl FoldedTask {
    ghost use Rattle.lp_stack.specs.TaskView.{seen};
    ghost use Rattle.lp_machine.specs.Machine.{view_of, put_in, calling, returning};

    /// A task with an empty stack.
    pub(crate) fn new(alloc: Global, class: Class, mode: Mode, group: GroupId, level: Level) -> Self
        ensures { result ≡ record { class = class; mode = mode; group = group.0; level = level.0; frames = [] } }
    {
        FoldedTask {
            frames: Vec::new(alloc),
            class,
            mode,
            level,
            group,
        }
    }

    /// A task with the stack that a view shows.
    pub(crate) fn of(
        alloc: Global,
        view: &View<'_>,
        group: GroupId,
        level: Level,
    ) -> Result<Self, AllocError>
        ensures { IfOk result (λ task. task ≡ record { class = view.now.class; mode = view.now.mode; group = group.0; level = level.0; frames = view.now.frames.now }) }
    {
        Ok(FoldedTask {
            frames: Vec::from_slice(alloc, view.frames)?,
            class: view.class,
            mode: view.mode,
            level,
            group,
        })
    }

    /// The task as a check sees it, under the number that it has.
    pub(crate) fn view(&self, task: TaskId) -> View<'_>
        ensures { seen result ≡ view_of task.0 self.now }
    {
        View {
            task,
            class: self.class,
            mode: self.mode,
            frames: self.frames.as_slice(),
        }
    }

    /// The level of the task.
    pub(crate) fn level(&self) -> Level
        ensures { result.0 ≡ self.now.level }
    {
        self.level
    }

    /// The group of the task.
    pub(crate) fn group(&self) -> GroupId
        ensures { result.0 ≡ self.now.group }
    {
        self.group
    }

    /// The class of the task.
    pub(crate) fn class(&self) -> Class
        ensures { result ≡ self.now.class }
    {
        self.class
    }

    /// The mode of the task.
    pub(crate) fn mode(&self) -> Mode
        ensures { result ≡ self.now.mode }
    {
        self.mode
    }

    /// How many frames are on the stack.
    pub(crate) fn depth(&self) -> usize
        ensures value { result ≡ length self.now.frames }
        ensures few { result ≤ 100 }
    {
        self.frames.len()
    }

    /// Pushes a frame of a function, on the task's level.
    pub(crate) fn call(&mut self, func: SymId, serial: u32) -> Result<(), AllocError>
        requires { length self.old.frames < 100 }
        ensures called { OnOk result (self.new ≡ calling serial func self.old) }
        ensures unchanged { OnErr result (self.new ≡ self.old) }
    {
        let frame = Frame {
            func,
            level: self.level,
            serial,
        };
        self.frames.push(frame)?;
        Ok(())
    }

    /// Pops the frame that was pushed last, if there is one.
    pub(crate) fn ret(&mut self)
        ensures { self.new ≡ returning self.old }
    {
        let _ = self.frames.pop();
    }

    /// Puts the task in a mode.
    pub(crate) fn set_mode(&mut self, mode: Mode)
        ensures { self.new ≡ put_in mode self.old }
    {
        self.mode = mode;
    }
}
