//! Traces of events and certificates as texts: the grammar, the readers and the writer.
//!
//! Costs: reading goes over the text once and allocates for what it keeps; `of` and `of_stack` copy the parts once,
//! without writing a line; `write` never allocates. `Trace::read_from` keeps of the text the unfinished line,
//! `CheckInput::read_from` all of it.
#![tactic(auto)]

mod builder;
mod check_input;
mod check_lines;
mod counted;
mod fault;
mod form;
mod input;
mod keyword;
pub mod laws;
mod length;
mod line;
mod number;
mod of;
mod parser;
mod quick;
mod quick_reason;
mod read;
mod split;
mod stream;
mod stream_fault;
mod symbol_cache;
mod trace;
mod write;

pub use check_input::CheckInput;
pub use counted::Counted;
pub use fault::{Cause, ReadFault, TraceFault};
pub use form::TraceForm;
pub use lp_definitions::{Cert, Event};
pub use lp_stack::{Class, TaskId};
pub use lp_symbols::SymId;
pub use of::OfFault;
pub use stream_fault::StreamFault;
pub use trace::Trace;
pub use write::{WriteFault, put};
