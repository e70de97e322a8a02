//! The history of a desk's events, which only grows, and beginnings of it that were seen.
ghost use Rattle.std.specs.Prelude.{◌≡◌, ◌⊎◌, ◌↔◌, ◌∷◌, ◌++◌, ◌<◌, ◌≤◌, ◌^◌, [], true, length, OnErr, IfOk, IsTrue, IsFalse};
ghost use mathlib.Core.List.{IsPrefix};
ghost use Rattle.lp_board.specs.inside.History.{head_of};

use crate::name::DeskName;
use logbook::{Gain, Offer, Plain, Play, Rule, Seen, Word};
use lp_transition::Event;
use std::marker::{Model, PhantomData};

/// The rule of the history.
pub struct Law;

impl Rule<Event, u64> for Law {
    ghost use Rattle.std.specs.Prelude.{[]};
    ghost use base.Fml.{ftrue};
    ghost use Rattle.lp_board.specs.inside.History.{IsKept};

    ghost holds = { λ cells events. IsKept cells events };

    ghost first = { [] };

    ghost hinted = { λ n events. Unit {0} };

    ghost shows = { λ events. [] };

    ghost keeps = { λ names events. ftrue };

    ghost moves = { λ ask before after answer. Unit {0} };
}

/// Callers trade nothing.
pub struct Nothing;

impl Gain<Event, u64> for Nothing {
    ghost use base.Fml.{ftrue};

    ghost after = { λ names about answer. ftrue };
}

/// A step that adds an event.
pub struct Add;

impl Play<Event, u64> for Add {
    ghost use Rattle.lp_board.specs.inside.History.{Adds};

    ghost then = { Adds };
}

/// What a step asks for: the event.
impl Plain<Event, Event, u64> for Add {
    ghost use Rattle.std.specs.Prelude.{None};

    ghost ask = { λ event. event };

    ghost state = { λ event. None };
}

/// The word of a history: its length.
pub type Head = Word<Event, u64, Law>;

/// A prefix of the history that was seen. It has a number and no list.
///
/// Contracts see its events.
#[derive(Drop)]
pub struct Prefix<N: DeskName> {
    count: u64,
    seen: Seen<Event, u64, Law>,
    of: PhantomData<N>,
}

impl<N: DeskName> Model for Prefix<N> {
    ghost use Rattle.std.specs.Prelude.{◌≡◌, List, length};
    ghost use Rattle.lp_definitions.specs.declared.event.Event.{Event};

    ghost Value = { List Event };

    ghost view = { λ f. f.seen.log };

    ghost invariant = { λ f. (f.count ≡ length f.seen.log) × (f.seen.book ≡ N.desk.book) };
}

impl<N: DeskName> Prefix<N> {
    /// A prefix of the history that has seen no event.
    pub(crate) fn new(seen: Seen<Event, u64, Law>) -> Prefix<N>
        requires { (seen.log ≡ []) × (seen.book ≡ N.desk.book) }
        ensures { result ≡ [] }
    {
        Prefix {
            count: 0,
            seen,
            of: PhantomData,
        }
    }

    /// How many events it has.
    pub(crate) fn len(&self) -> u64
        ensures { result ≡ length self.now }
    {
        self.count
    }

    /// The same prefix once more. Never allocates.
    pub(crate) fn again(&self) -> Prefix<N>
        ensures { result ≡ self.now }
    {
        Prefix {
            count: self.count,
            seen: self.seen.again(),
            of: PhantomData,
        }
    }

    /// Whether another prefix of this history begins this one, as it does where it is no longer.
    pub(crate) fn begins_with(&self, other: &Prefix<N>) -> bool
        ensures { IsTrue result ↔ IsPrefix other.now self.now }
    {
        let mut both = self.seen.again();
        both.learn(&other.seen);
        other.count <= self.count
    }

    /// The longer of two prefixes, which the other begins.
    pub(crate) fn longer(self, other: Prefix<N>) -> Prefix<N>
        ensures one { (result ≡ self) ⊎ (result ≡ other) }
        ensures this { IsPrefix self result }
        ensures that { IsPrefix other result }
    {
        let mut both = self.seen.again();
        both.learn(&other.seen);
        if self.count < other.count {
            other
        } else {
            self
        }
    }

    /// Adds an event to all that was seen, and says whether it did. It did not where the history is longer.
    pub(crate) fn extend(&mut self, head: &Head, event: Event) -> bool
        requires head { head.now ≡ head_of N.desk.book }
        requires room { length self.old < 2 ^ 62 }
        ensures { IsTrue result → self.new ≡ self.old ++ event ∷ [] }
    {
        let mut offer: Offer<Event, u64, Law, Nothing> = self
            .seen
            .plain::<Nothing, Event, Add>(&event);
        let mut pen = self.seen.no_pen();
        let count = self.count;
        let found = head.compare_exchange::<Add, Nothing>(
            count,
            count + 1,
            &mut self.seen,
            &mut offer,
            &mut pen,
        );
        self.count = if found == count { count + 1 } else { found };
        found == count
    }
}
