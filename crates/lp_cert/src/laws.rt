//! The laws of certificates. The functions do nothing: each has a law as its contract.
ghost use Rattle.lp_cert.specs.Laws.{LinesComeWithEvents, MakersTell};

use lp_model::Consistency;

/// The lines of a group come with the events of its leg.
pub fn lines_come_with_events<M: Consistency>()
    ensures { LinesComeWithEvents M.rules }
{}

/// What a maker holds of a run is the ends of its legs, and tells who waits.
pub fn makers_tell<M: Consistency>()
    ensures { MakersTell M.rules }
{}
