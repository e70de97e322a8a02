//! Which trace text it is.
ghost use Rattle.std.specs.Prelude.{◌≡◌};
ghost use Rattle.lp_text.specs.Traces.{has_event};
ghost use Rattle.lp_text.specs.Words.{form_of, has_resched, has_word, header};

use crate::keyword::{EventKeyword, LineKeyword, is};
use lp_definitions::Event;

/// Which of the trace texts it is.
#[derive(Clone, Copy, Debug, PartialEq, Eq)]
pub enum TraceForm {
    /// `lptrace 1`: one patch.
    Single,
    /// `lptrace 2`: 1 to 16 patches on one another.
    Stacked,
    /// `lptrace 3`: as the second, and tasks may look at their own stacks in the kernel (`resched`).
    WithResched,
}

impl TraceForm {
    /// The form that a first line names.
    pub(crate) fn of(line: &[u8]) -> Option<TraceForm>
        ensures { result ≡ form_of line.now }
    {
        if is(line, "lptrace 1") {
            Some(TraceForm::Single)
        } else if is(line, "lptrace 2") {
            Some(TraceForm::Stacked)
        } else if is(line, "lptrace 3") {
            Some(TraceForm::WithResched)
        } else {
            None
        }
    }

    /// Whether `resched` is a word of the text.
    #[inline(always)]
    fn has_resched(self) -> bool
        ensures { result ≡ has_resched self }
    {
        match self {
            TraceForm::WithResched => true,
            TraceForm::Single | TraceForm::Stacked => false,
        }
    }

    /// Whether a word is one of the text's.
    #[inline(always)]
    pub(crate) fn has_word(self, word: LineKeyword) -> bool
        ensures { result ≡ has_word self word }
    {
        match word {
            LineKeyword::Event(EventKeyword::Resched) => self.has_resched(),
            _ => true,
        }
    }

    /// Whether an event has a word in the text.
    pub(crate) fn has_event(self, event: Event) -> bool
        ensures { result ≡ has_event self event }
    {
        match event {
            Event::Resched(_) => self.has_resched(),
            _ => true,
        }
    }

    /// The first line, without its end.
    pub(crate) fn header(self) -> &'static [u8]
        ensures { result.now ≡ header self }
    {
        match self {
            TraceForm::Single => b"lptrace 1",
            TraceForm::Stacked => b"lptrace 2",
            TraceForm::WithResched => b"lptrace 3",
        }
    }
}
