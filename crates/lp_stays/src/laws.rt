//! The law of counts. The function does nothing: it has the law as its contract.
ghost use Rattle.lp_stays.specs.Counts.{KeepsCounts};

/// An event that moves no stack, as one that is neither a call nor a return, or that is refused, leaves
/// each count that of the run with the event.
pub fn other_events_keep_counts()
    ensures { KeepsCounts }
{}
