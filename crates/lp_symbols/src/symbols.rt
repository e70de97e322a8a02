//! The list of names.
ghost use Rattle.std.specs.Prelude.{◌≡◌, ◌≤◌, [], ◌∷◌, ◌++◌, length, option_copied, position, slice_get, None, IsTrue, ◌↔◌, IfSome, IfOk, IfErr, OnOk, OnErr};
ghost use Rattle.std.specs.List.{All, IsDistinct, list_all};
ghost use Rattle.std.specs.Option.{option_map};
ghost use Rattle.std.specs.Char.{is_ascii_graphic};
ghost use Rattle.std.specs.Str.{bytes_eq};
ghost use Rattle.lp_symbols.specs.declared.symbols.SymFault.TheVariants.{NoMemory};
ghost use Rattle.lp_symbols.specs.Names.{is_name, refusal_of};

use crate::{Numbering, SymId};
use indexmap::IndexSet;
use std::alloc::{AllocError, AllocFailed, Global};
use std::marker::Model;
use thiserror::Error;

/// Why a name was not added.
#[derive(Clone, Copy, Debug, PartialEq, Eq, Error)]
pub enum SymFault {
    /// S1: the name isn't of 1 to 512 bytes, or one of them isn't from 33 to 126.
    #[error("S1: the name isn't of 1 to 512 bytes from 33 to 126")]
    BadName,
    /// S2: the name is there already.
    #[error("S2: the name is there already")]
    Doubled,
    /// S3: 4,096 names are there.
    #[error("S3: 4,096 names are there")]
    TooMany,
    /// S4: an allocation failed.
    #[error("S4: out of memory")]
    NoMemory,
}

impl From<AllocError> for SymFault {
    ghost from_gives = { λ _ e. e ≡ NoMemory };

    fn from(_e: AllocError) -> SymFault {
        SymFault::NoMemory
    }
}

impl<T: Drop> From<AllocFailed<T>> for SymFault {
    ghost from_gives = { λ _ e. e ≡ NoMemory };

    fn from(_e: AllocFailed<T>) -> SymFault {
        SymFault::NoMemory
    }
}

/// The most names that a list of symbols has.
pub const MOST_SYMBOLS: usize = 4096;

/// The most bytes that a name has.
pub const LONGEST_NAME: usize = 512;

/// Names of functions, numbered from 0 in the order in which they were added:
/// at most 4,096, no two of them the same.
///
/// Contracts see the list of the names, each as its bytes.
#[derive(Drop)]
pub struct Symbols {
    names: IndexSet<String>,
}

impl Model for Symbols {
    ghost use Rattle.std.specs.Prelude.{List, ℕ, map};
    ghost use Rattle.std.specs.String.{string_bytes};
    ghost use Rattle.lp_symbols.specs.Names.{AreNames};

    ghost Value = { List (List ℕ) };

    ghost view = { λ s. map string_bytes s.names.keys };

    ghost invariant = { λ s. AreNames (map string_bytes s.names.keys) };
}

impl Numbering for Symbols {
    ghost use Rattle.std.specs.Prelude.{length};

    ghost count = { λ names. length names };

    fn count(&self) -> usize
        ensures value { result ≡ length self.now }
        ensures fits { result ≤ 4096 }
    {
        self.len()
    }
}

impl Symbols {
    /// An empty list. It allocates nothing yet, so it is never refused.
    pub fn new(alloc: Global) -> Result<Self, SymFault>
        ensures { result ≡ Ok [] }
    {
        Ok(Symbols {
            names: IndexSet::new(alloc),
        })
    }

    /// How many names there are.
    ///
    /// It also shows what every list keeps: at most 4,096 names, no two the same, each of 1 to 512 bytes from 33 to 126.
    pub fn len(&self) -> usize
        ensures value { result ≡ length self.now }
        ensures fits { result ≤ 4096 }
        ensures distinct { IsDistinct bytes_eq self.now }
        ensures proper { All (λ name. IsTrue (is_name name)) self.now }
    {
        self.names.len()
    }

    /// Whether there is no name.
    pub fn is_empty(&self) -> bool
        ensures { IsTrue result ↔ (self.now ≡ []) }
    {
        self.names.is_empty()
    }

    /// The number of a name; None where it isn't there. Hashes once and never allocates.
    #[tactic(auto, using(crate::proofs::Maps::maps))]
    pub fn find(&self, name: &str) -> Option<SymId>
        ensures { option_map (λ id. id.0) result ≡ position (bytes_eq name.now) self.now }
    {
        let index = self.names.get_index_of(name)?;
        Some(SymId(index as u16))
    }

    /// The name with a number; None where no name has it.
    pub fn name(&self, id: SymId) -> Option<&str>
        ensures value { option_copied result ≡ slice_get self.now id.0 }
        ensures proper { IfSome result (λ name. IsTrue (is_name name.now)) }
    {
        Some(self.names.get_index(id.index())?.as_str())
    }

    /// Adds a name and answers its number, which is how many names there were.
    ///
    /// Refused as S1, S2, S3 or S4, tested in this order, and then nothing changes.
    #[tactic(auto, using(crate::proofs::Maps::maps))]
    pub fn add(&mut self, name: &str) -> Result<SymId, SymFault>
        ensures refused { IfSome (refusal_of self.old name.now) (λ fault. result ≡ Err fault) }
        ensures only_memory { refusal_of self.old name.now ≡ None → IfErr result (λ fault. fault ≡ NoMemory) }
        ensures number { IfOk result (λ id. id.0 ≡ length self.old) }
        ensures added { OnOk result (self.new ≡ self.old ++ name.now ∷ []) }
        ensures err { OnErr result (self.new ≡ self.old) }
    {
        if !is_name(name) {
            return Err(SymFault::BadName);
        }
        if self.names.contains(name) {
            return Err(SymFault::Doubled);
        }
        let number = self.names.len();
        if number == MOST_SYMBOLS {
            return Err(SymFault::TooMany);
        }
        let owned = String::from_str(*self.names.allocator(), name)?;
        self.names.insert(owned)?;
        Ok(SymId(number as u16))
    }
}

/// Whether a text can be a name: 1 to 512 bytes, each from 33 to 126.
fn is_name(text: &str) -> bool
    ensures { result ≡ is_name text.now }
{
    !text.is_empty() && text.len() <= LONGEST_NAME && is_graphic(text.as_bytes())
}

/// Whether each byte is from 33 to 126.
fn is_graphic(bytes: &[u8]) -> bool
    ensures { result ≡ list_all is_ascii_graphic bytes.now }
{
    bytes.iter().all(|b| b.is_ascii_graphic())
}
