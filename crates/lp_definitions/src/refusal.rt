//! Why an event is refused.
ghost use Rattle.std.specs.Prelude.{◌≡◌, Some};
ghost use Rattle.lp_definitions.specs.Events.{refusal_number};
ghost use Rattle.lp_definitions.specs.Printed.{refusal_text};

use std::fmt;

/// Why an event is refused. The first that fits is given; a refused event takes its number and
/// changes nothing else.
#[derive(Clone, Copy, Debug, PartialEq, Eq)]
pub enum Refusal {
    /// E1: the task isn't live.
    UnknownTask,
    /// E2: there is no such symbol.
    UnknownSymbol,
    /// E3: the child's number is no task number.
    TaskRange,
    /// E4: the child's number was used before, also by a task that has died.
    TaskUsed,
    /// E5: an idle task where the event is a normal one's, or the other way round.
    WrongClass,
    /// E6: the task isn't in the mode that the event needs.
    WrongMode,
    /// E7: the task has 100 frames.
    StackFull,
    /// E8: the task has no frame.
    StackEmpty,
    /// E9: the task has frames.
    StackNotEmpty,
    /// E10: a transition is under way.
    InTransition,
    /// E11: no transition is under way.
    NotInTransition,
    /// E12: there is no further level that way.
    AlreadyThere,
}

impl Refusal {
    /// The number of the refusal, 1 to 12.
    pub fn number(self) -> u8
        ensures { result ≡ refusal_number self }
    {
        match self {
            Refusal::UnknownTask => 1,
            Refusal::UnknownSymbol => 2,
            Refusal::TaskRange => 3,
            Refusal::TaskUsed => 4,
            Refusal::WrongClass => 5,
            Refusal::WrongMode => 6,
            Refusal::StackFull => 7,
            Refusal::StackEmpty => 8,
            Refusal::StackNotEmpty => 9,
            Refusal::InTransition => 10,
            Refusal::NotInTransition => 11,
            Refusal::AlreadyThere => 12,
        }
    }
}

impl fmt::Display for Refusal {
    ghost output = { λ refusal. Some (refusal_text refusal) };

    fn fmt<W: fmt::Write>(&self, f: &mut fmt::Formatter<W>) -> fmt::Result {
        write!(f, "E{}", self.number())
    }
}
