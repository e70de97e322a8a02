//! The words that begin a line, and those of classes and forks.
ghost use Rattle.std.specs.Prelude.{◌≡◌};
ghost use Rattle.std.specs.Str.{bytes_eq};
ghost use Rattle.lp_text.specs.Words.{class_of, class_word, event_word, event_word_of, fork_kind_of, fork_word, line_word, line_word_of};

use lp_model::ForkKind;
use lp_stack::Class;

/// The first word of an event's line.
#[derive(Clone, Copy)]
pub enum EventKeyword {
    Call,
    Ret,
    Sleep,
    Wake,
    Enter,
    Exit,
    Idle,
    Resched,
    Fork,
    Die,
    Walk,
    Stop,
    Enable,
    Disable,
    Reverse,
}

/// The first word of a line after the first line.
#[derive(Clone, Copy)]
pub enum LineKeyword {
    Sym,
    Patch,
    Boot,
    Event(EventKeyword),
}

impl EventKeyword {
    /// The event's word that these bytes are.
    #[inline(always)]
    #[tactic(auto, unfolding(crate::specs::Words::event_word_of))]
    pub(crate) fn of(word: &[u8]) -> Option<EventKeyword>
        ensures { result ≡ event_word_of word.now }
    {
        if is(word, "call") {
            Some(EventKeyword::Call)
        } else if is(word, "ret") {
            Some(EventKeyword::Ret)
        } else if is(word, "sleep") {
            Some(EventKeyword::Sleep)
        } else if is(word, "wake") {
            Some(EventKeyword::Wake)
        } else if is(word, "enter") {
            Some(EventKeyword::Enter)
        } else if is(word, "exit") {
            Some(EventKeyword::Exit)
        } else if is(word, "idle") {
            Some(EventKeyword::Idle)
        } else if is(word, "resched") {
            Some(EventKeyword::Resched)
        } else if is(word, "fork") {
            Some(EventKeyword::Fork)
        } else if is(word, "die") {
            Some(EventKeyword::Die)
        } else if is(word, "walk") {
            Some(EventKeyword::Walk)
        } else if is(word, "stop") {
            Some(EventKeyword::Stop)
        } else if is(word, "enable") {
            Some(EventKeyword::Enable)
        } else if is(word, "disable") {
            Some(EventKeyword::Disable)
        } else if is(word, "reverse") {
            Some(EventKeyword::Reverse)
        } else {
            None
        }
    }

    /// The word.
    pub(crate) fn bytes(self) -> &'static [u8]
        ensures { result.now ≡ event_word self }
    {
        match self {
            EventKeyword::Call => b"call",
            EventKeyword::Ret => b"ret",
            EventKeyword::Sleep => b"sleep",
            EventKeyword::Wake => b"wake",
            EventKeyword::Enter => b"enter",
            EventKeyword::Exit => b"exit",
            EventKeyword::Idle => b"idle",
            EventKeyword::Resched => b"resched",
            EventKeyword::Fork => b"fork",
            EventKeyword::Die => b"die",
            EventKeyword::Walk => b"walk",
            EventKeyword::Stop => b"stop",
            EventKeyword::Enable => b"enable",
            EventKeyword::Disable => b"disable",
            EventKeyword::Reverse => b"reverse",
        }
    }
}

impl LineKeyword {
    /// The first word that these bytes are.
    #[inline(always)]
    #[tactic(auto, unfolding(crate::specs::Words::line_word_of))]
    pub(crate) fn of(word: &[u8]) -> Option<LineKeyword>
        ensures { result ≡ line_word_of word.now }
    {
        if is(word, "sym") {
            Some(LineKeyword::Sym)
        } else if is(word, "patch") {
            Some(LineKeyword::Patch)
        } else if is(word, "boot") {
            Some(LineKeyword::Boot)
        } else {
            Some(LineKeyword::Event(EventKeyword::of(word)?))
        }
    }

    /// The word.
    pub(crate) fn bytes(self) -> &'static [u8]
        ensures { result.now ≡ line_word self }
    {
        match self {
            LineKeyword::Sym => b"sym",
            LineKeyword::Patch => b"patch",
            LineKeyword::Boot => b"boot",
            LineKeyword::Event(word) => word.bytes(),
        }
    }
}

/// Whether a word is this one.
#[inline(always)]
pub(crate) fn is(word: &[u8], text: &str) -> bool
    ensures { result ≡ bytes_eq word.now text.now }
{
    word == text.as_bytes()
}

/// The class that a word names.
pub(crate) fn class_of(word: &[u8]) -> Option<Class>
    ensures { result ≡ class_of word.now }
{
    if is(word, "normal") {
        Some(Class::Normal)
    } else if is(word, "idle") {
        Some(Class::Idle)
    } else {
        None
    }
}

/// The word of a class.
pub(crate) fn class_word(class: Class) -> &'static [u8]
    ensures { result.now ≡ class_word class }
{
    match class {
        Class::Normal => b"normal",
        Class::Idle => b"idle",
    }
}

/// What a word asks of a fork.
pub(crate) fn fork_kind_of(word: &[u8]) -> Option<ForkKind>
    ensures { result ≡ fork_kind_of word.now }
{
    if is(word, "own") {
        Some(ForkKind::Own)
    } else if is(word, "share") {
        Some(ForkKind::Share)
    } else {
        None
    }
}

/// The word of what a fork asks.
pub(crate) fn fork_word(how: ForkKind) -> &'static [u8]
    ensures { result.now ≡ fork_word how }
{
    match how {
        ForkKind::Own => b"own",
        ForkKind::Share => b"share",
    }
}
