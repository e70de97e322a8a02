//! Sets of 16-bit numbers, tables of a value for each, and the members of groups, that never allocate once they are made.
//!
//! Costs: only `new` and `copy` allocate, about 8 KB for a set, 384 KB for the members of groups and room for 65,536 values
//! for a table, of which two nothing is written past the greatest number that came. `contains`, `insert` and `remove` are
//! constant, `next` reads five words at most. `clear` goes over the words that have a member, `copy_from` over the words
//! of each 4,096 numbers of which either set has one. `add_to` goes over the members of one group, `has_more_than` over
//! one more than it asks for.
//!
//! A set is a bit a number, in 1,024 words of 64 bits, with 16 words that say which of those have a member, and one
//! word over them.
#![tactic(auto)]

mod ascending;
mod levels;
mod link_table;
mod members;
mod row;
mod set;
mod table;

pub use ascending::Ascending;
pub use members::Members;
pub use set::{NUMBERS, NumberSet};
pub use table::NumberTable;
