//! Which trace it is.
use std::marker::Brand;

/// Stands for the trace that threads play: its events. Each call of `threads` picks it.
pub(crate) trait TraceName {
    ghost use Rattle.std.specs.Prelude.{List};
    ghost use Rattle.lp_definitions.specs.declared.event.Event.{Event};

    ghost events: { List Event };
}

impl TraceName for Brand {
    ghost use Rattle.std.specs.Prelude.{[]};

    ghost events = { [] };
}
