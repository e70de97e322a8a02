//! The headline, which is said of the definitions.
pub use lp_laws::headline_holds;
