//! How the program ends where it has not done what it was asked.
ghost use Rattle.std.specs.Prelude.{◌≡◌, OnOk};
ghost use Rattle.std.specs.Io.KnownBytes.{Appends};
ghost use Rattle.lp_program.specs.Faults.{desk_line, line_for, of_run, of_words, status_of};

use itoa::Buffer;
use lp_trace::{RunFault, TraceFault};
use lp_words::WordsFault;
use std::alloc::AllocError;
use std::io::{self, Write};
use thiserror::Error;

/// Why the program ends with a status that isn't 0.
#[derive(Clone, Copy, Debug, PartialEq, Eq, Error)]
pub enum Fault {
    /// Standard input failed.
    #[error("read fault")]
    Read,
    /// Standard output failed.
    #[error("write fault")]
    Write,
    /// The words are none of the program's.
    #[error("usage")]
    Usage,
    /// There is no such model.
    #[error("unknown model")]
    UnknownModel,
    /// The input is no trace, or holds no certificate.
    #[error("line {line}: L{number}", line = .0.line, number = .0.cause.number())]
    Trace(TraceFault),
    /// The certificate was refused, as standard output says.
    #[error("the certificate was refused")]
    Refused,
    /// An allocation failed.
    #[error("out of memory")]
    NoMemory,
    /// A reader of the desk's board or a thread couldn't be had: this letter and number.
    #[error("desk: {0}")]
    Desk(&'static str),
}

impl From<WordsFault> for Fault {
    ghost from_gives = { λ fault e. e ≡ of_words fault };

    fn from(fault: WordsFault) -> Fault {
        match fault {
            WordsFault::Usage => Fault::Usage,
            WordsFault::UnknownModel => Fault::UnknownModel,
            WordsFault::NoMemory => Fault::NoMemory,
        }
    }
}

impl From<RunFault> for Fault {
    ghost from_gives = { λ fault e. e ≡ of_run fault };

    fn from(fault: RunFault) -> Fault {
        match fault {
            RunFault::Read(_) => Fault::Read,
            RunFault::Trace(fault) => Fault::Trace(fault),
            RunFault::NoMemory => Fault::NoMemory,
            RunFault::Write(_) => Fault::Write,
        }
    }
}

impl From<AllocError> for Fault {
    ghost use Rattle.lp_program.specs.declared.fault.Fault.TheVariants.{NoMemory};

    ghost from_gives = { λ _ e. e ≡ NoMemory };

    fn from(_e: AllocError) -> Fault {
        Fault::NoMemory
    }
}

/// A fault of the words: one of them isn't text, or an allocation failed.
impl From<io::Error> for Fault {
    fn from(error: io::Error) -> Fault {
        match error.kind() {
            io::ErrorKind::OutOfMemory => Fault::NoMemory,
            _ => Fault::Usage,
        }
    }
}

impl Fault {
    /// The exit status.
    pub fn status(self) -> u8
        ensures { result ≡ status_of self }
    {
        match self {
            Fault::Read | Fault::Write => 1,
            Fault::Usage | Fault::UnknownModel => 2,
            Fault::Trace(_) => 3,
            Fault::Refused => 4,
            Fault::NoMemory => 5,
            Fault::Desk(_) => 6,
        }
    }

    /// Writes the line that says what is wrong; none where standard output does. Never allocates.
    pub fn tell<W: Write>(self, writer: &mut W) -> io::Result<()>
        ensures { OnOk result (Appends (W.contents writer.old) (W.contents writer.new) (line_for self)) }
    {
        match self {
            Fault::Read => writer.write_all(b"lpt: read fault\n"),
            Fault::Write => writer.write_all(b"lpt: write fault\n"),
            Fault::Usage => writer.write_all(b"lpt: usage\n"),
            Fault::UnknownModel => writer.write_all(b"lpt: unknown model\n"),
            Fault::Trace(fault) => tell_line(fault, writer),
            Fault::Refused => Ok(()),
            Fault::NoMemory => writer.write_all(b"lpt: out of memory\n"),
            Fault::Desk(code) => tell_desk(code, writer),
        }
    }
}

/// Writes which line of the input is at fault, and why.
fn tell_line<W: Write>(fault: TraceFault, writer: &mut W) -> io::Result<()>
    ensures { OnOk result (Appends (W.contents writer.old) (W.contents writer.new) (line_for (Fault.Trace fault))) }
{
    let mut line = Buffer::new();
    let mut cause = Buffer::new();
    writer.write_all(b"lpt: line ")?;
    writer.write_all(line.format(fault.line).as_bytes())?;
    writer.write_all(b": L")?;
    writer.write_all(cause.format(fault.cause.number()).as_bytes())?;
    writer.write_all(b"\n")
}

/// Writes the desk's fault.
fn tell_desk<W: Write>(code: &'static str, writer: &mut W) -> io::Result<()>
    ensures { OnOk result (Appends (W.contents writer.old) (W.contents writer.new) (desk_line code.now)) }
{
    writer.write_all(b"lpt: desk: ")?;
    writer.write_all(code.as_bytes())?;
    writer.write_all(b"\n")
}
