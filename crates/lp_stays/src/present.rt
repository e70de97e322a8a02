//! The stay that one task is in, for one patch.
ghost use Rattle.std.specs.Prelude.{◌≡◌};
ghost use Rattle.lp_stays.specs.Invariant.{outside};
ghost use Rattle.lp_stays.specs.inside.Calls.{is_outside, is_both, called, returned};

use std::marker::Model;

/// What is kept of a task and a patch.
#[derive(Clone, Copy)]
pub(crate) struct Present {
    /// How many calls of the patch's functions are on the task's stack, 0 outside of stays.
    frames: u8,
    /// Whether one of the stay's calls ran the old side.
    old: bool,
    /// Whether one of the stay's calls ran the new side.
    new: bool,
}

impl Model for Present {
    ghost use Rattle.lp_stays.specs.Invariant.{Ongoing};

    ghost Value = { Ongoing };

    ghost view = { λ x. record { frames = x.frames; old = x.old; new = x.new } };

    ghost inverse = { λ x. record { frames = x.frames; old = x.old; new = x.new } };
}

impl Present {
    /// Outside of stays.
    pub(crate) fn outside() -> Present
        ensures { result ≡ outside }
    {
        Present {
            frames: 0,
            old: false,
            new: false,
        }
    }

    /// Whether the task is outside of stays.
    pub(crate) fn is_outside(self) -> bool
        ensures { result ≡ is_outside self }
    {
        self.frames == 0
    }

    /// Whether both sides ran.
    pub(crate) fn is_both(self) -> bool
        ensures { result ≡ is_both self }
    {
        self.new & self.old
    }

    /// After a call, on the new side or the old. A stack has at most 100 calls.
    pub(crate) fn called(self, new_side: bool) -> Present
        ensures { result ≡ called new_side self }
    {
        Present {
            frames: self.frames.saturating_add(1),
            old: self.old | !new_side,
            new: self.new | new_side,
        }
    }

    /// After a return.
    pub(crate) fn returned(self) -> Present
        ensures { result ≡ returned self }
    {
        if self.frames <= 1 {
            return Present::outside();
        }
        Present {
            frames: self.frames - 1,
            old: self.old,
            new: self.new,
        }
    }
}
