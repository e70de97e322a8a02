//! Why a text is no trace or no input of a check, or could not be read.
ghost use Rattle.std.specs.Prelude.{◌≡◌, Some};
ghost use Rattle.lp_text.specs.declared.fault.LineFault.TheVariants.{NoMemory as LineNoMemory};
ghost use Rattle.lp_text.specs.declared.fault.ReadFault.TheVariants.{NoMemory as ReadNoMemory};
ghost use Rattle.lp_text.specs.Faults.{cause_number, cause_text, read_fault_text, trace_fault_text};
ghost use Rattle.lp_text.specs.inside.LineFaults.{cause_at, read_fault};

use std::alloc::AllocError;
use std::fmt;
use thiserror::Error;

/// What is wrong with a line of a trace text, or of the input of a check. On one line the first that
/// fits, in this order.
#[derive(Clone, Copy, Debug, PartialEq, Eq, Error)]
pub enum Cause {
    /// L1: the first line is neither `lptrace 1` nor `lptrace 2`, or there are no bytes.
    Header,
    /// L2: the last line lacks its byte 10; before every other cause of that line.
    Unended,
    /// L3: the first word is none of the text's words, or begins an earlier part than the one reached.
    Word,
    /// L4: a wrong number of words, an empty word, a number not of 1 to 5 digits without leading
    /// zeros, a wrong class or kind of fork.
    Shape,
    /// L5: in `sym`, more than 512 bytes, or a byte outside 33 to 126.
    Name,
    /// L6: in `sym`, the name is there already.
    Doubled,
    /// L7: in `patch` or `call`, the name is no symbol.
    Unknown,
    /// L8: in `patch`, the function or the patch's number is out of place; or no `patch` line stands
    /// before a boot or event line (then before L4), or before the end.
    Patch,
    /// L9: a task number outside 1 to 65,535; in `boot` also a doubled one.
    Task,
    /// L10: one line more than its part may have.
    Many,
    /// L11: more than 134,217,728 bytes; at line 0, before all others.
    Long,
    /// L12: in the input of a check, what follows the trace is no certificate.
    Cert,
}

impl Cause {
    /// The number of the cause, 1 to 12.
    pub fn number(self) -> u8
        ensures { result ≡ cause_number self }
    {
        match self {
            Cause::Header => 1,
            Cause::Unended => 2,
            Cause::Word => 3,
            Cause::Shape => 4,
            Cause::Name => 5,
            Cause::Doubled => 6,
            Cause::Unknown => 7,
            Cause::Patch => 8,
            Cause::Task => 9,
            Cause::Many => 10,
            Cause::Long => 11,
            Cause::Cert => 12,
        }
    }

    /// The number of the cause and what is wrong, in words.
    fn text(self) -> &'static str
        ensures { result.now ≡ cause_text self }
    {
        match self {
            Cause::Header => "L1: the first line is no header",
            Cause::Unended => "L2: the last line lacks its end",
            Cause::Word =>
                "L3: the first word is none of the text's, or belongs to an earlier part",
            Cause::Shape => "L4: a word too many or too few, or one that isn't as it has to be",
            Cause::Name => "L5: no name",
            Cause::Doubled => "L6: the name is there already",
            Cause::Unknown => "L7: the name is no symbol",
            Cause::Patch => "L8: a patch is out of place, or there is none",
            Cause::Task => "L9: no task number, or a boot task is there already",
            Cause::Many => "L10: one line more than its part may have",
            Cause::Long => "L11: more than 134,217,728 bytes",
            Cause::Cert => "L12: what follows the trace is no certificate",
        }
    }

    /// The fault of a text that this is at the line of a number.
    pub(crate) fn at(self, line: u64) -> ReadFault
        ensures { result ≡ cause_at line self }
    {
        ReadFault::Trace(TraceFault { line, cause: self })
    }
}

impl fmt::Display for Cause {
    ghost output = { λ cause. Some (cause_text cause) };

    fn fmt<W: fmt::Write>(&self, f: &mut fmt::Formatter<W>) -> fmt::Result {
        f.write_str(self.text())
    }
}

/// The first fault of a text that is no trace, or no input of a check.
#[derive(Clone, Copy, Debug, PartialEq, Eq, Error)]
pub struct TraceFault {
    /// The number of the line, from 1; 0 for the text as a whole.
    pub line: u64,
    /// What is wrong with it.
    pub cause: Cause,
}

impl fmt::Display for TraceFault {
    ghost output = { λ fault. Some (trace_fault_text fault) };

    fn fmt<W: fmt::Write>(&self, f: &mut fmt::Formatter<W>) -> fmt::Result {
        let cause = self.cause;
        write!(f, "line {}: {cause}", self.line)
    }
}

/// Why a text was not read.
#[derive(Clone, Copy, Debug, PartialEq, Eq, Error)]
pub enum ReadFault {
    /// The text is no trace; of a check, no trace with a certificate after it.
    Trace(TraceFault),
    /// An allocation failed.
    NoMemory,
}

impl fmt::Display for ReadFault {
    ghost output = { λ fault. Some (read_fault_text fault) };

    fn fmt<W: fmt::Write>(&self, f: &mut fmt::Formatter<W>) -> fmt::Result {
        match self {
            ReadFault::Trace(fault) => write!(f, "{fault}"),
            ReadFault::NoMemory => f.write_str("out of memory"),
        }
    }
}

/// Why what a line says was not added. What reads its words alone needs no memory, and fails with a `Cause`.
#[derive(Clone, Copy)]
pub(crate) enum LineFault {
    /// The line is at fault.
    Cause(Cause),
    /// An allocation failed.
    NoMemory,
}

impl LineFault {
    /// The fault, at the line of a number.
    pub(crate) fn at(self, line: u64) -> ReadFault
        ensures { result ≡ read_fault line self }
    {
        match self {
            LineFault::Cause(cause) => cause.at(line),
            LineFault::NoMemory => ReadFault::NoMemory,
        }
    }
}

impl From<AllocError> for LineFault {
    ghost from_gives = { λ _ e. e ≡ LineNoMemory };

    fn from(_e: AllocError) -> LineFault {
        LineFault::NoMemory
    }
}

impl From<AllocError> for ReadFault {
    ghost from_gives = { λ _ e. e ≡ ReadNoMemory };

    fn from(_e: AllocError) -> ReadFault {
        ReadFault::NoMemory
    }
}
