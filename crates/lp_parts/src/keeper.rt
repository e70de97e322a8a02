//! The keeper of a list, and its parts.
ghost use Rattle.std.specs.Prelude.{◌≡◌, ◌∷◌, ◌++◌, [], true, Some};
ghost use Rattle.crossbeam_utils.specs.Seq.{cell_view};
ghost use Rattle.lp_parts.specs.Parts.{Among, Knows, part_for, with_entry, with_part, without};

use crate::names::{Keying, Place};
use crate::rule::{Add, Cell, GiveBack, Hand, Item, Key, TakeUp, Token};
use std::alloc::{AllocError, Global};
use std::marker::{Brand, Model, PhantomData};
use std::sync::Wait;

/// An empty list that has no name yet.
///
/// Contracts see what names it.
#[derive(Drop)]
pub struct Blank<E, P: Keying<E>> {
    cell: Cell<E, P>,
    token: Token<E>,
}

impl<E, P: Keying<E>> Model for Blank<E, P> {
    ghost use Rattle.std.specs.Prelude.{◌≡◌, []};
    ghost use Rattle.atomic_table.specs.Seated.{TableId};
    ghost use Rattle.crossbeam_utils.specs.Seq.{cell_view};
    ghost use Rattle.lp_parts.specs.Parts.{keeper};

    ghost Value = { TableId };

    ghost view = { λ b. b.cell.table.shared.table_id };

    ghost invariant = { λ b. (b.token.table_id ≡ b.cell.table.shared.table_id) × (cell_view b.token ≡ keeper [] []) };
}

impl<E, P: Keying<E>> Blank<E, P> {
    /// An empty list; AllocError where an allocation failed.
    pub fn new(alloc: Global) -> Result<Blank<E, P>, AllocError> {
        let (cell, token) = Cell::ruled(alloc, [0])?;
        Ok(Blank { cell, token })
    }

    /// The keeper of the list.
    pub fn open<N: Place>(self) -> Keeper<E, P, N>
        requires { self ≡ N.table }
        ensures all { result.all ≡ [] }
        ensures out { result.out ≡ [] }
    {
        let Self { cell, token } = self;
        Keeper {
            cell,
            token,
            of: PhantomData,
        }
    }
}

/// The keeper of a list, who alone adds to it.
///
/// Contracts see the list, and the keys of the parts that others own.
#[derive(Drop)]
pub struct Keeper<E, P: Keying<E>, N: Place> {
    cell: Cell<E, P>,
    token: Token<E>,
    of: PhantomData<N>,
}

impl<E, P: Keying<E>, N: Place> Model for Keeper<E, P, N> {
    ghost use Rattle.std.specs.Prelude.{◌≡◌, true};
    ghost use Rattle.crossbeam_utils.specs.Seq.{cell_view};
    ghost use Rattle.lp_parts.specs.Parts.{Whole};

    ghost Value = { Whole E };

    ghost view = { λ k. record { all = (cell_view k.token).all; out = (cell_view k.token).out } };

    ghost invariant = { λ k. (k.cell.table.shared.table_id ≡ N.table) × (k.token.table_id ≡ N.table) × ((cell_view k.token).keeps ≡ true) };
}

/// A part of a list, which nobody else owns.
///
/// Contracts see whose it is, and what it has.
#[derive(Drop)]
pub struct Part<E, N: Place> {
    token: Token<E>,
    of: PhantomData<N>,
}

impl<E, N: Place> Model for Part<E, N> {
    ghost use Rattle.std.specs.Prelude.{◌≡◌, true, []};
    ghost use Rattle.crossbeam_utils.specs.Seq.{cell_view};
    ghost use Rattle.lp_parts.specs.Parts.{Owned};

    ghost Value = { Owned E };

    ghost view = { λ p. record { of = (cell_view p.token).of; sent = (cell_view p.token).sent } };

    ghost invariant = { λ p. (p.token.table_id ≡ N.table) × (p.token.me.1 ≡ []) × ((cell_view p.token).owns ≡ true) };
}

impl<E, P: Keying<E>, N: Place> Keeper<E, P, N> {
    /// A part that nobody owns, and that has nothing yet.
    pub fn give<R: Wait>(&mut self, rt: &R, key: Option<u16>) -> Part<E, N>
        requires free { Among key self.old.out → ⊥ }
        requires none { part_for P.key key self.old.all ≡ [] }
        ensures all { self.new.all ≡ self.old.all }
        ensures out { self.new.out ≡ key ∷ self.old.out }
        ensures of { result.of ≡ key }
        ensures sent { result.sent ≡ [] }
    {
        let Keeper { cell, token, of: _ } = self;
        take_up::<Brand, E, P, R>(rt, cell, token, key);
        let token = cell.split_pass::<Hand>(token);
        Part {
            token,
            of: PhantomData,
        }
    }

    /// Adds an entry to the list, and to the part whose it is. The part was what its key had of the list.
    pub fn add<R: Wait>(&mut self, rt: &R, mine: Part<E, N>, entry: &E) -> Part<E, N>
        requires own { P.key entry.now ≡ mine.of }
        ensures all { self.new.all ≡ self.old.all ++ entry.now ∷ [] }
        ensures out { self.new.out ≡ self.old.out }
        ensures of { result.of ≡ mine.of }
        ensures sent { result.sent ≡ mine.sent ++ entry.now ∷ [] }
        ensures was { mine.sent ≡ part_for P.key mine.of self.old.all }
        ensures among { Among mine.of self.old.out }
    {
        let Keeper { cell, token, of: _ } = self;
        let Part {
            token: other,
            of: _,
        } = mine;
        cell.join_pass::<Hand>(token, other);
        add_entry::<Brand, E, P, R>(rt, cell, token, entry);
        let token = cell.split_pass::<Hand>(token);
        Part {
            token,
            of: PhantomData,
        }
    }

    /// Takes a part back, which is what its key has of the list.
    pub fn take_back<R: Wait>(&mut self, rt: &R, mine: Part<E, N>)
        ensures all { self.new.all ≡ self.old.all }
        ensures out { self.new.out ≡ without mine.of self.old.out }
        ensures was { mine.sent ≡ part_for P.key mine.of self.old.all }
        ensures among { Among mine.of self.old.out }
    {
        let Keeper { cell, token, of: _ } = self;
        let Part {
            token: other,
            of: _,
        } = mine;
        cell.join_pass::<Hand>(token, other);
        let _ = cell.load_as::<GiveBack<P>, R>(rt, token);
    }
}

/// The token takes up the part of this key.
fn take_up<K: Key, E, P: Keying<E>, R: Wait>(
    rt: &R,
    cell: &Cell<E, P>,
    token: &mut Token<E>,
    key: Option<u16>,
)
    requires named { K.of ≡ key }
    requires cell { token.old.table_id ≡ cell.now.table.shared.table_id }
    requires keeps { (cell_view token.old).keeps ≡ true }
    requires free { Among key (cell_view token.old).out → ⊥ }
    requires none { part_for P.key key (cell_view token.old).all ≡ [] }
    ensures cell { token.new.table_id ≡ token.old.table_id }
    ensures view { cell_view token.new ≡ with_part key (cell_view token.old) }
{
    let _ = key;
    let _ = cell.load_as::<TakeUp<K>, R>(rt, token);
}

/// The token adds an entry, of the part that it owns.
fn add_entry<I: Item<E>, E, P: Keying<E>, R: Wait>(
    rt: &R,
    cell: &Cell<E, P>,
    token: &mut Token<E>,
    entry: &E,
)
    requires named { I.entry ≡ Some entry.now }
    requires cell { token.old.table_id ≡ cell.now.table.shared.table_id }
    requires keeps { (cell_view token.old).keeps ≡ true }
    requires owns { (cell_view token.old).owns ≡ true }
    requires own { P.key entry.now ≡ (cell_view token.old).of }
    ensures cell { token.new.table_id ≡ token.old.table_id }
    ensures view { cell_view token.new ≡ with_entry entry.now (cell_view token.old) }
    ensures knows { Knows P.key (cell_view token.old) }
{
    let _ = entry;
    let _ = cell.load_as::<Add<P, I>, R>(rt, token);
}
