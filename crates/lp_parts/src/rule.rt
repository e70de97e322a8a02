//! The rule of the list and its parts, and the steps that keep it.
use crate::names::Keying;
use atomic_table::{Join, Split};
use crossbeam_utils::atomic::seq_cell::{Pass, RuledSeqCell};
use crossbeam_utils::rule::{Outcome, Protocol};
use std::collections::LinkedList;
use std::marker::{Brand, PhantomData};

/// What a pass knows. No value of it is made.
pub struct View<E> {
    /// Whether it knows the list, and which parts others own.
    pub keeps: bool,
    /// The list.
    pub all: LinkedList<E>,
    /// The keys of the parts that others own.
    pub out: LinkedList<Option<u16>>,
    /// Whether it owns a part.
    pub owns: bool,
    /// Whose part that is.
    pub of: Option<u16>,
    /// The part.
    pub sent: LinkedList<E>,
}

/// The rule: each part is what its key has of the list, and has one owner.
pub struct Parted<P>(PhantomData<P>);

impl<E, P: Keying<E>> Protocol<[u64; 1], View<E>> for Parted<P> {
    ghost use Rattle.std.specs.Prelude.{[]};
    ghost use Rattle.lp_parts.specs.Parts.{Kept, keeper};

    ghost holds = { Kept P.key };

    ghost first = { keeper [] [] };
}

pub(crate) type Cell<E, P> = RuledSeqCell<[u64; 1], View<E>, Parted<P>, 1>;

pub(crate) type Token<E> = Pass<[u64; 1], View<E>>;

/// The key of a step.
pub(crate) trait Key {
    ghost use Rattle.std.specs.Prelude.{ℕ, Option};

    ghost of: { Option ℕ };
}

impl Key for Brand {
    ghost use Rattle.std.specs.Prelude.{None};

    ghost of = { None };
}

/// The entry of a step.
pub(crate) trait Item<E> {
    ghost use Rattle.std.specs.Prelude.{Option};

    ghost entry: { Option E };
}

impl<E> Item<E> for Brand {
    ghost use Rattle.std.specs.Prelude.{None};

    ghost entry = { None };
}

/// An entry is added, by who owns its part.
pub(crate) struct Add<P, I>(PhantomData<(P, I)>);

impl<E, P: Keying<E>, I: Item<E>> Outcome<[u64; 1], View<E>> for Add<P, I> {
    ghost use Rattle.lp_parts.specs.Parts.{AddsNamed};

    ghost then = { AddsNamed P.key I.entry };
}

/// A part is taken up that nobody owns.
pub(crate) struct TakeUp<K: Key>(PhantomData<K>);

impl<E, K: Key> Outcome<[u64; 1], View<E>> for TakeUp<K> {
    ghost use Rattle.lp_parts.specs.Parts.{TakesUp};

    ghost then = { TakesUp K.of };
}

/// A part goes to another pass, and comes back.
pub(crate) struct Hand;

impl<E> Split<View<E>> for Hand {
    ghost use Rattle.lp_parts.specs.Parts.{handed, rid};

    ghost left = { rid };

    ghost right = { handed };
}

impl<E> Join<View<E>> for Hand {
    ghost use Rattle.lp_parts.specs.Parts.{nobody, taking};

    ghost both = { taking };

    ghost spent = { nobody };
}

/// A part is back.
pub(crate) struct GiveBack<P>(PhantomData<P>);

impl<E, P: Keying<E>> Outcome<[u64; 1], View<E>> for GiveBack<P> {
    ghost use Rattle.lp_parts.specs.Parts.{GivesBack};

    ghost then = { GivesBack P.key };
}
