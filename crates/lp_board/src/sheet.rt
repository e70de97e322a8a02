//! A sheet of the board, and what an event changes of it.
ghost use Rattle.std.specs.Prelude.{◌≡◌, ◌<◌, slice_index_or, length, None, IfOk};
ghost use Rattle.lp_board.specs.Words.{if_live, all_shown};
ghost use Rattle.lp_board.specs.inside.Publishers.{page_of};
ghost use Rattle.lp_board.specs.Pages.{shown_at, shown_by, written};

use crate::history::Prefix;
use crate::levels::Levels;
use crate::name::DeskName;
use crate::shown::Shown;
use crossbeam_utils::rule::{Outcome, Protocol};
use left_right::Absorb;
use lp_stack::{Level, TaskId};
use lp_transition::Event;
use std::alloc::{AllocError, Global};
use std::marker::PhantomData;

/// Whether a transition is under way, and the lower of its two levels.
#[derive(Clone, Copy, Debug, PartialEq, Eq)]
pub struct Heading {
    pub in_transition: bool,
    pub lower: Level,
}

/// What an event changes: the new levels of tasks, None for one that lives no longer, and the new heading.
#[derive(Drop)]
pub struct Update {
    pub(crate) levels: Vec<(TaskId, Option<Level>)>,
    pub(crate) heading: Heading,
}

/// What an event changes, with the events up to it.
pub struct Change<N: DeskName> {
    pub(crate) update: Update,
    pub(crate) prefix: Prefix<N>,
}

/// By hand, so that the proof of who owns one lets go of it in one step, not field by field.
impl<N: DeskName> Drop for Change<N> {
    fn drop(self) {
        let Change {
            update: _,
            prefix: _,
        } = self;
    }
}

/// The level of each task number, None where no task lives, the heading, and the events that led there.
pub struct Sheet<N: DeskName> {
    pub(crate) levels: Levels,
    pub(crate) heading: Heading,
    pub(crate) prefix: Prefix<N>,
}

/// By hand, so that the proof of who owns one lets go of it in one step, not field by field.
impl<N: DeskName> Drop for Sheet<N> {
    fn drop(self) {
        let Sheet {
            levels: _,
            heading: _,
            prefix: _,
        } = self;
    }
}

/// A sheet as proofs see it. No value of it is made; a clause reads an array as a list.
pub struct Page {
    pub levels: [Option<Level>; 0],
    pub heading: Heading,
    pub events: [Event; 0],
}

impl<N: DeskName> Sheet<N> {
    ghost use Rattle.lp_board.specs.declared.sheet.Page.{Page};

    /// What it shows of a task.
    pub(crate) fn shown(&self, task: TaskId) -> Shown
        ensures { result ≡ shown_by self.now.heading (slice_index_or self.now.levels task.0 None) }
    {
        shown_by(self.heading, self.levels.get(task))
    }

    /// What it shows of each live task, by increasing number; AllocError where an allocation failed.
    pub(crate) fn all(&self, alloc: Global) -> Result<Vec<(TaskId, Shown)>, AllocError>
        ensures { IfOk result (λ tasks. tasks.items ≡ all_shown (shown_at (page_of self.now))) }
    {
        self.levels.shown(alloc, self.heading)
    }
}

/// What is shown of a task on this level.
pub(crate) fn shown_by(heading: Heading, level: Option<Level>) -> Shown
    ensures { result ≡ shown_by heading level }
{
    match level {
        None => Shown::Absent,
        Some(_) if !heading.in_transition => Shown::Settled,
        Some(level) if heading.lower.0 < level.0 => Shown::Patched,
        Some(_) => Shown::Unpatched,
    }
}

impl<N: DeskName> Absorb<Change<N>> for Sheet<N> {
    ghost use Rattle.lp_board.specs.Pages.{written};

    type State = Page;

    ghost state = { λ s. record { levels = s.levels; heading = s.heading; events = s.prefix } };

    ghost applied = { λ p c. record { levels = written p.levels c.update.levels.items; heading = c.update.heading; events = c.prefix } };

    ghost never_fails = { Unit {0} };

    fn absorb_first(&mut self, operation: &Change<N>, _other: &Sheet<N>) -> Result<(), AllocError> {
        self.levels.write(operation.update.levels.as_slice());
        self.heading = operation.update.heading;
        self.prefix = operation.prefix.again();
        Ok(())
    }
}

/// The rule of the board: what is published is the page of the state after its events.
pub struct Shows<N: DeskName> {
    of: PhantomData<N>,
}

impl<N: DeskName> Protocol<Sheet<N>, ()> for Shows<N> {
    ghost use Rattle.lp_board.specs.Pages.{IsPage};

    ghost holds = { λ s _. IsPage N.desk (record { levels = s.levels; heading = s.heading; events = s.prefix }) };

    ghost first = { tt };
}

impl<N: DeskName> Outcome<Sheet<N>, ()> for Shows<N> {
    ghost use Rattle.lp_board.specs.Pages.{IsPage};

    ghost then = { λ _ _ s _. IsPage N.desk (record { levels = s.levels; heading = s.heading; events = s.prefix }) };
}
