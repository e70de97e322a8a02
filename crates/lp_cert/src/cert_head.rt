//! Certificates without their lines.

use lp_definitions::Claim;
use lp_stack::GroupId;

/// A certificate without its lines.
#[derive(Clone, Copy, Debug, PartialEq, Eq)]
pub struct CertHead {
    /// What is claimed.
    pub claim: Claim,
    /// The number of the event that opened the leg.
    pub leg: u64,
    /// The group that waits.
    pub group: GroupId,
    /// The number of the last event after which it waits.
    pub upto: u64,
}

/// What the certificates of a leg have in common.
#[derive(Clone, Copy)]
pub(crate) struct CommonHead {
    pub(crate) claim: Claim,
    /// The event that opened the leg.
    pub(crate) leg: u32,
    /// The event up to which they go.
    pub(crate) upto: u32,
}
