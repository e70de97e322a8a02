//! The number of a symbol.
ghost use Rattle.std.specs.Prelude.{◌≡◌, ◌<◌, ◌^◌};

use std::fmt;

/// The number of a symbol: its place in the list of names, from 0.
#[derive(Clone, Copy, Debug, Default, PartialEq, Eq, PartialOrd, Ord, Hash)]
pub struct SymId(pub u16);

impl SymId {
    /// The number as an index into a list with one entry for each symbol.
    pub fn index(self) -> usize
        ensures value { result ≡ self.0 }
        ensures fits { result < 2 ^ 16 }
    {
        usize::from(self.0)
    }
}

impl fmt::Display for SymId {
    fn fmt<W: fmt::Write>(&self, f: &mut fmt::Formatter<W>) -> fmt::Result {
        write!(f, "{}", self.0)
    }
}
