//! Readers of the board, and what they are told.
ghost use Rattle.std.specs.Prelude.{◌≡◌, ◌⊎◌, ◌↔◌, ◌∷◌, [], length, slice_index_or, IfSome, IfNone, IfOk, IsTrue, OnOk, OnErr, Err};
ghost use mathlib.Core.List.{IsPrefix};
ghost use Rattle.lp_board.specs.Words.{shown_word, all_shown};
ghost use Rattle.lp_board.specs.Names.{state_after};
ghost use Rattle.lp_board.specs.Pages.{IsPage};
ghost use Rattle.lp_board.specs.inside.Publishers.{page_of};
ghost use Rattle.lp_board.specs.declared.reader.BoardFault.TheVariants.{Shut};

use crate::history::Prefix;
use crate::name::DeskName;
use crate::sheet::{Sheet, Shows};
use crate::shown::Shown;
use core::mem::replace_with;
use left_right::reader::Reader;
use lp_stack::TaskId;
use std::alloc::Global;
use std::marker::Model;
use thiserror::Error;

pub(crate) type Raw<N> = Reader<Sheet<N>, (), Shows<N>>;

/// The events that a desk had published at some moment.
///
/// Contracts see the events.
#[derive(Drop)]
pub struct Told<N: DeskName> {
    prefix: Prefix<N>,
}

impl<N: DeskName> Model for Told<N> {
    ghost use Rattle.std.specs.Prelude.{List};
    ghost use Rattle.lp_definitions.specs.declared.event.Event.{Event};

    ghost Value = { List Event };

    ghost view = { λ t. t.prefix };
}

impl<N: DeskName> Told<N> {
    pub(crate) fn new(prefix: Prefix<N>) -> Told<N>
        ensures { result ≡ prefix }
    {
        Told { prefix }
    }

    /// How many events these are.
    pub fn events(&self) -> u64
        ensures { result ≡ length self.now }
    {
        self.prefix.len()
    }

    /// Whether what was told here begins with what was told there, as it does where that was told no later. Never
    /// allocates.
    pub fn begins_with(&self, other: &Told<N>) -> bool
        ensures { IsTrue result ↔ IsPrefix other.now self.now }
    {
        self.prefix.begins_with(&other.prefix)
    }

    /// The same once more. Never allocates.
    pub fn again(&self) -> Told<N>
        ensures { result ≡ self.now }
    {
        Told {
            prefix: self.prefix.again(),
        }
    }
}

/// Why a reader gave no snapshot. The reader is then as it was.
#[derive(Clone, Copy, Debug, PartialEq, Eq, Error)]
pub enum BoardFault {
    /// The board was given up; or it shows less than its reader was told, which never happens, but no contract says so.
    #[error("the board was given up")]
    Shut,
    /// An allocation failed.
    #[error("out of memory")]
    NoMemory,
}

/// A reader of a desk's board. It never waits.
///
/// Contracts see the events that its last answer showed, and all that it has seen or learnt.
pub struct BoardReader<N: DeskName> {
    raw: Raw<N>,
    seen: Prefix<N>,
    known: Prefix<N>,
}

/// By hand, so that the proof of who owns one lets go of it in one step, not field by field.
impl<N: DeskName> Drop for BoardReader<N> {
    fn drop(self) {
        let BoardReader {
            raw: _,
            seen: _,
            known: _,
        } = self;
    }
}

impl<N: DeskName> Model for BoardReader<N> {
    ghost use mathlib.Core.List.{IsPrefix};
    ghost use Rattle.lp_board.specs.Readers.{Knows};

    ghost Value = { Knows };

    ghost view = { λ b. record { seen = b.seen; known = b.known } };

    ghost invariant = { λ b. IsPrefix b.seen b.known };
}

impl<N: DeskName> BoardReader<N> {
    ghost use Rattle.lp_board.specs.Readers.{Knows};

    /// A reader that has seen nothing.
    pub(crate) fn new(raw: Raw<N>, start: &Prefix<N>) -> BoardReader<N>
        requires { start.now ≡ [] }
        ensures { result ≡ record { seen = []; known = [] } }
    {
        BoardReader {
            raw,
            seen: start.again(),
            known: start.again(),
        }
    }

    /// How many events its last answer showed; 0 before the first.
    pub fn seen(&self) -> u64
        ensures value { result ≡ length self.now.seen }
        ensures begins { IsPrefix self.now.seen self.now.known }
    {
        self.seen.len()
    }

    /// The events that its last answer showed, to compare them with what others saw or were told. Never allocates.
    pub fn told(&self) -> Told<N>
        ensures { result ≡ self.now.seen }
    {
        Told::new(self.seen.again())
    }

    /// From now on it sees no less than what it is told. Never allocates.
    pub fn learn(&mut self, told: Told<N>)
        ensures one { (self.new.known ≡ self.old.known) ⊎ (self.new.known ≡ told) }
        ensures known { IsPrefix self.old.known self.new.known }
        ensures told { IsPrefix told self.new.known }
        ensures seen { self.new.seen ≡ self.old.seen }
    {
        let Told { prefix } = told;
        self.known = self.known.again().longer(prefix);
    }

    /// Where a task stands. None where the board was given up, and then the reader is as it was; no contract says that a
    /// board shows at least what its reader was told, so None is also what it would get otherwise. Never allocates.
    pub fn state_of(&mut self, task: TaskId) -> Option<Shown>
        ensures shown { IfSome result (λ shown. shown ≡ shown_word (state_after N.desk self.new.seen) task.0) }
        ensures later { IfSome result (λ _. IsPrefix self.old.known self.new.seen × (self.new.known ≡ self.new.seen)) }
        ensures seen { IsPrefix self.old.seen self.new.seen }
        ensures none { IfNone result (self.new ≡ self.old) }
    {
        let asked = (self.known.again(), task);
        match replace_with(&mut self.raw, asked, read_one::<N>) {
            Some((shown, prefix)) => {
                self.saw(prefix);
                Some(shown)
            }
            None => None,
        }
    }

    /// Where each live task stands, by increasing number, all at one moment. Refused as Shut or NoMemory, and then the
    /// reader is as it was.
    pub fn snapshot(&mut self, alloc: Global) -> Result<Vec<(TaskId, Shown)>, BoardFault>
        ensures shown { IfOk result (λ tasks. tasks.items ≡ all_shown (shown_word (state_after N.desk self.new.seen))) }
        ensures later { OnOk result (IsPrefix self.old.known self.new.seen × (self.new.known ≡ self.new.seen)) }
        ensures seen { IsPrefix self.old.seen self.new.seen }
        ensures err { OnErr result (self.new ≡ self.old) }
    {
        let asked = (self.known.again(), alloc);
        match replace_with(&mut self.raw, asked, read_all::<N>) {
            Ok((tasks, prefix)) => {
                self.saw(prefix);
                Ok(tasks)
            }
            Err(fault) => Err(fault),
        }
    }

    /// From now on it has seen these events, and knows no others.
    fn saw(&mut self, prefix: Prefix<N>)
        ensures { self.new ≡ record { seen = prefix; known = prefix } }
    {
        self.seen = prefix.again();
        self.known = prefix;
    }
}

/// Where a task stands on what is published, and after which events. None where the board can't be entered, or where
/// what is published doesn't begin with what is known. That never happens, as what is known was published before; but
/// no contract of what the board stands on says so.
fn read_one<N: DeskName>(
    raw: Raw<N>,
    asked: (Prefix<N>, TaskId),
) -> (Raw<N>, Option<(Shown, Prefix<N>)>)
    ensures shown { IfSome result.1 (λ r. r.0 ≡ shown_word (state_after N.desk r.1) asked.1.0) }
    ensures later { IfSome result.1 (λ r. IsPrefix asked.0 r.1) }
{
    let (known, task) = asked;
    match raw.enter_as::<Shows<N>>() {
        Ok(reading) => {
            let sheet = reading.get();
            let answer = if sheet.prefix.begins_with(&known) {
                Some((sheet.shown(task), sheet.prefix.again()))
            } else {
                None
            };
            (reading.leave(), answer)
        }
        Err(raw) => (raw, None),
    }
}

/// Where each live task stands on what is published, and after which events.
fn read_all<N: DeskName>(
    raw: Raw<N>,
    asked: (Prefix<N>, Global),
) -> (
    Raw<N>,
    Result<(Vec<(TaskId, Shown)>, Prefix<N>), BoardFault>,
)
    ensures shown { IfOk result.1 (λ r. r.0.items ≡ all_shown (shown_word (state_after N.desk r.1))) }
    ensures later { IfOk result.1 (λ r. IsPrefix asked.0 r.1) }
{
    let (known, alloc) = asked;
    match raw.enter_as::<Shows<N>>() {
        Ok(reading) => {
            let answer = read_sheet(reading.get(), &known, alloc);
            (reading.leave(), answer)
        }
        Err(raw) => (raw, Err(BoardFault::Shut)),
    }
}

/// Where each live task stands on a sheet, and after which events. Shut only where the sheet doesn't begin with what is
/// known, else NoMemory where an allocation failed.
fn read_sheet<N: DeskName>(
    sheet: &Sheet<N>,
    known: &Prefix<N>,
    alloc: Global,
) -> Result<(Vec<(TaskId, Shown)>, Prefix<N>), BoardFault>
    requires { IsPage N.desk (page_of sheet.now) }
    ensures shown { IfOk result (λ r. r.0.items ≡ all_shown (shown_word (state_after N.desk r.1))) }
    ensures later { IfOk result (λ r. IsPrefix known.now r.1) }
    ensures shut { (result ≡ Err Shut) ↔ (IsPrefix known.now sheet.now.prefix → ⊥) }
{
    if !sheet.prefix.begins_with(known) {
        return Err(BoardFault::Shut);
    }
    match sheet.all(alloc) {
        Ok(tasks) => Ok((tasks, sheet.prefix.again())),
        Err(_) => Err(BoardFault::NoMemory),
    }
}
