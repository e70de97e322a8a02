//! The laws of a certificate's faults, which are said of the definitions.
pub use lp_laws::{accepted_certificates_hold, made_certificates_are_accepted};
