//! An event that was weighed.
ghost use Rattle.std.specs.Prelude.{◌≡◌, []};
ghost use Rattle.lp_transition.specs.declared.engine.step.Halt.TheVariants.{NoMemory};

use crate::{Event, Reply};
use lp_model::Verdict;
use std::alloc::{AllocError, AllocFailed, Global};
use std::marker::Model;
use thiserror::Error;

/// Why an event takes no number. The engine is then as it was.
#[derive(Clone, Copy, Debug, PartialEq, Eq, Error)]
pub enum Halt {
    /// E13: an allocation failed.
    #[error("E13: out of memory")]
    NoMemory,
    /// E14: 1,000,000 events are numbered. Tested before all else.
    #[error("E14: 1,000,000 events are numbered")]
    JournalFull,
}

impl From<AllocError> for Halt {
    ghost from_gives = { λ _ e. e ≡ NoMemory };

    fn from(_e: AllocError) -> Halt {
        Halt::NoMemory
    }
}

impl<T: Drop> From<AllocFailed<T>> for Halt {
    ghost from_gives = { λ _ e. e ≡ NoMemory };

    fn from(_e: AllocFailed<T>) -> Halt {
        Halt::NoMemory
    }
}

/// An event with its answer. All that can fail is done: taking it never allocates.
pub struct Step {
    event: Event,
    reply: Reply,
    verdicts: Vec<Verdict>,
}

/// By hand, so that the proof of who owns one lets go of it in one step, not field by field.
impl Drop for Step {
    fn drop(self) {
        let Step {
            event: _,
            reply: _,
            verdicts: _,
        } = self;
    }
}

impl Model for Step {
    ghost use Rattle.lp_transition.specs.Weigh.{Weighed};

    ghost Value = { Weighed };

    ghost view = { λ s. record { event = s.event; reply = s.reply; verdicts = s.verdicts.items } };
}

impl Step {
    ghost use Rattle.lp_transition.specs.Weigh.{Weighed};

    /// The event.
    pub fn event(&self) -> Event
        ensures { result ≡ self.now.event }
    {
        self.event
    }

    /// The answer to the event.
    pub fn reply(&self) -> &Reply
        ensures { result.now ≡ self.now.reply }
    {
        &self.reply
    }

    /// The verdicts by which a scan was answered; none for any other event.
    pub fn verdicts(&self) -> &[Verdict]
        ensures { result.now ≡ self.now.verdicts }
    {
        self.verdicts.as_slice()
    }

    /// The answer, given back. Never allocates.
    pub(super) fn into_reply(self) -> Reply
        ensures { result ≡ self.reply }
    {
        let Self {
            event: _,
            reply,
            verdicts: _,
        } = self;
        reply
    }

    /// A scan with its answer and the verdicts that it was answered by.
    pub(super) fn scan(event: Event, reply: Reply, verdicts: Vec<Verdict>) -> Step
        ensures { result ≡ record { event = event; reply = reply; verdicts = verdicts.items } }
    {
        Step {
            event,
            reply,
            verdicts,
        }
    }

    /// An event with its answer that no verdicts were needed for.
    pub(super) fn plain(alloc: Global, event: Event, reply: Reply) -> Step
        ensures { result ≡ record { event = event; reply = reply; verdicts = [] } }
    {
        Step {
            event,
            reply,
            verdicts: Vec::new(alloc),
        }
    }
}
