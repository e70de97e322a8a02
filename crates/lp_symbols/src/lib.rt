//! Names of functions, numbered in the order in which they were first seen.
//!
//! Costs: `find` hashes the name once and `add` twice; `name` is one look-up. `add` alone allocates.
#![tactic(auto)]

mod numbering;
mod sym_id;
mod symbols;

pub use numbering::Numbering;
pub use sym_id::SymId;
pub use symbols::{LONGEST_NAME, MOST_SYMBOLS, SymFault, Symbols};
