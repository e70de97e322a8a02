//! Which events open a leg.
ghost use Rattle.std.specs.Prelude.{◌≡◌};
ghost use Rattle.lp_cert.specs.Ends.{is_opened};

use lp_transition::{Event, What};

/// Whether an event opened a leg, by what its reply tells: it is a control event, and was accepted. A refused one ends no leg:
/// its tasks wait on as before.
#[inline(always)]
pub fn opens_leg(event: Event, what: &What) -> bool
    ensures { result ≡ is_opened event what.now }
{
    event.is_control() && !matches!(what, What::Refused(_))
}
