//! A model whose replays have code of their own.

use lp_model::{Blame, CheckKind, Consistency, ForkKind};
use lp_patch::Aim;
use lp_stack::{GroupId, TaskId, View};
use std::marker::PhantomData;

/// The replay of a whole trace.
#[derive(Clone, Copy)]
pub(super) struct WholeTrace;

/// The replay of a trace's first leg.
#[derive(Clone, Copy)]
pub(super) struct FirstLeg;

/// A model that answers as the one inside, for one of these replays.
///
/// An engine is compiled once for each model, and checks and plays by threads step engines too. Under a model of its own a
/// replay's loop over the events is the only caller of what steps its engine, which is then compiled into that loop:
/// without it a run of calls and returns takes a tenth longer, and a comparison a seventh.
#[derive(Clone, Copy)]
pub(super) struct OwnCode<M: Consistency, R: Copy> {
    model: M,
    replay: PhantomData<R>,
}

impl<M: Consistency, R: Copy> OwnCode<M, R> {
    pub(super) fn new(model: M) -> OwnCode<M, R> {
        OwnCode {
            model,
            replay: PhantomData,
        }
    }
}

impl<M: Consistency, R: Copy> Consistency for OwnCode<M, R> {
    ghost rules = { M.rules };

    ghost lawful = { M.lawful };

    #[inline(always)]
    fn uses(&self, kind: CheckKind) -> bool {
        self.model.uses(kind)
    }

    #[inline(always)]
    fn admits(&self, kind: CheckKind, view: &View<'_>, aim: &Aim<'_>) -> bool {
        self.model.admits(kind, view, aim)
    }

    #[inline(always)]
    fn blame(&self, kind: CheckKind, view: &View<'_>, aim: &Aim<'_>) -> Option<Blame> {
        self.model.blame(kind, view, aim)
    }

    #[inline(always)]
    fn first_group(&self, task: TaskId) -> GroupId {
        self.model.first_group(task)
    }

    #[inline(always)]
    fn child_group(&self, group: GroupId, child: TaskId, how: ForkKind) -> GroupId {
        self.model.child_group(group, child, how)
    }

    #[inline(always)]
    fn whole_call(&self) -> bool {
        self.model.whole_call()
    }
}
