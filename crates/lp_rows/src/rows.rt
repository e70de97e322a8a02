//! The rows of a data file. The head of data/models.rows says how they are written.

use crate::streams::{Sink, Source};
use crate::trouble::Trouble;
use lp_models::ModelName;
use lp_program::Fault;
use lp_trace::{Cause, TraceFault};
use std::alloc::Global;

/// What a row looks at.
#[derive(Clone, Copy)]
pub enum Job {
    /// The run of its input under a model.
    Run(ModelName),
    /// The check of its input under a model.
    Check(ModelName),
    /// The whole program, at each of its lines of words.
    Program,
    /// How the program ends at a fault.
    Fault(Fault),
}

impl Job {
    /// The job of some words.
    fn read(words: &str) -> Option<Job> {
        let (verb, model) = words.split_once(' ')?;
        let model = ModelName::read(model)?;
        match verb {
            "run" => Some(Job::Run(model)),
            "check" => Some(Job::Check(model)),
            _ => None,
        }
    }

    /// A fault of the program by its name in a row. No input comes to the last four.
    fn fault(name: &str) -> Option<Job> {
        let fault = match name {
            "read" => Fault::Read,
            "write" => Fault::Write,
            "usage" => Fault::Usage,
            "unknown model" => Fault::UnknownModel,
            "refused" => Fault::Refused,
            "line 1234567: L12" => Fault::Trace(TraceFault {
                line: 1_234_567,
                cause: Cause::Cert,
            }),
            "no memory" => Fault::NoMemory,
            "desk D3" => Fault::Desk("D3"),
            "desk D5" => Fault::Desk("D5"),
            _ => return None,
        };
        Some(Job::Fault(fault))
    }
}

/// A row.
#[derive(Drop)]
pub struct Row {
    name: String,
    job: Option<Job>,
    lines: Vec<u8>,
    input: Vec<u8>,
    /// Whether the reader fails after the input.
    is_broken: bool,
    wanted: Vec<u8>,
    /// How many bytes the writer takes.
    room: usize,
}

impl Row {
    /// A row whose input begins with a head.
    fn new(alloc: Global, name: &str, head: &[u8]) -> Result<Row, Trouble> {
        let mut input = Vec::new(alloc);
        input.extend_from_slice(head)?;
        Ok(Row {
            name: String::from_str(alloc, name)?,
            job: None,
            lines: Vec::new(alloc),
            input,
            is_broken: false,
            wanted: Vec::new(alloc),
            room: usize::MAX,
        })
    }

    pub fn name(&self) -> &str {
        self.name.as_str()
    }

    /// What it looks at.
    pub fn job(&self) -> Option<Job> {
        self.job
    }

    /// The program's words, a line for each time that it is tried.
    pub fn lines(&self) -> &[u8] {
        self.lines.as_slice()
    }

    pub fn input(&self) -> &[u8] {
        self.input.as_slice()
    }

    /// The output that is wanted, and the lines of the fault as the data file has them.
    pub fn wanted(&self) -> &[u8] {
        self.wanted.as_slice()
    }

    /// What gives its input, so many bytes at a time.
    pub fn source(&self, most: usize) -> Source<'_> {
        if self.is_broken {
            Source::broken(self.input(), most)
        } else {
            Source::new(self.input(), most)
        }
    }

    /// What takes its output, so many bytes at a time.
    pub fn sink(&self, alloc: Global, most: usize) -> Sink {
        Sink::with_room(alloc, most, self.room)
    }

    /// Takes in a line of the row: its first word, and what stands after it.
    fn add(&mut self, word: &str, rest: &str) -> Result<(), Trouble> {
        match word {
            "words" if self.job.is_none() => self.job = Job::read(rest),
            "at" if self.job.is_none() => self.job = Job::fault(rest),
            "program" if matches!(self.job, None | Some(Job::Program)) => {
                self.job = Some(Job::Program);
                add_lines(&mut self.lines, rest)?;
            }
            "in" => add_lines(&mut self.input, rest)?,
            "out" => add_lines(&mut self.wanted, rest)?,
            "fault" => add_end(&mut self.wanted, b"fault ", rest)?,
            "ends" => add_end(&mut self.wanted, b"ends ", rest)?,
            "unended" => {
                self.input.pop();
            }
            _ => self.add_failure(word)?,
        }
        Ok(())
    }

    /// Takes in a line that says where the program's reader or writer fails. No other is left.
    fn add_failure(&mut self, word: &str) -> Result<(), Trouble> {
        match (self.job, word) {
            (Some(Job::Program), "broken") => self.is_broken = true,
            (Some(Job::Program), "full") => self.room = self.wanted.len(),
            _ => return Err(Trouble::NoRow),
        }
        Ok(())
    }
}

/// Adds how something ends: a word, and lines.
fn add_end(text: &mut Vec<u8>, word: &[u8], lines: &str) -> Result<(), Trouble> {
    text.extend_from_slice(word)?;
    add_lines(text, lines)
}

/// Adds lines between which ` / ` stands, each with its end.
fn add_lines(text: &mut Vec<u8>, lines: &str) -> Result<(), Trouble> {
    for line in lines.split(" / ") {
        add_line(text, line)?;
    }
    Ok(())
}

/// Adds a line, in which `\x` and two digits are a byte.
fn add_line(text: &mut Vec<u8>, line: &str) -> Result<(), Trouble> {
    for (place, part) in line.split("\\x").enumerate() {
        if place == 0 {
            text.extend_from_slice(part.as_bytes())?;
        } else {
            add_byte(text, part)?;
        }
    }
    text.push(b'\n')?;
    Ok(())
}

/// Adds the byte whose two digits a part of a line begins with, and the part's rest.
fn add_byte(text: &mut Vec<u8>, part: &str) -> Result<(), Trouble> {
    let Some((digits, rest)) = part.split_at_checked(2) else {
        return Err(Trouble::NoRow);
    };
    let Ok(byte) = u8::from_str_radix(digits, 16) else {
        return Err(Trouble::NoRow);
    };
    text.push(byte)?;
    text.extend_from_slice(rest.as_bytes())?;
    Ok(())
}

/// The head that rows have, and the rows so far.
#[derive(Drop)]
struct Rows {
    head: Vec<u8>,
    /// Whether the head may go on.
    is_head: bool,
    rows: Vec<Row>,
}

impl Rows {
    /// Takes in a line of a file: its first word, and what stands after it.
    fn add(&mut self, alloc: Global, word: &str, rest: &str) -> Result<(), Trouble> {
        if word == "head" {
            return self.add_head(rest);
        }
        self.is_head = false;
        if word == "row" {
            self.rows
                .push(Row::new(alloc, rest, self.head.as_slice())?)?;
            return Ok(());
        }
        match self.rows.last_mut() {
            Some(row) => row.add(word, rest),
            None => Err(Trouble::NoRow),
        }
    }

    /// Takes in a line of a head, which is a new one after a row.
    fn add_head(&mut self, lines: &str) -> Result<(), Trouble> {
        if !self.is_head {
            self.head.clear();
        }
        self.is_head = true;
        add_lines(&mut self.head, lines)
    }
}

/// The rows of a file.
pub fn rows_of(alloc: Global, text: &str) -> Result<Vec<Row>, Trouble> {
    let mut rows = Rows {
        head: Vec::new(alloc),
        is_head: false,
        rows: Vec::new(alloc),
    };
    for line in text.lines() {
        if line.is_empty() || line.starts_with('#') {
            continue;
        }
        let (word, rest) = line.split_once(' ').unwrap_or((line, ""));
        rows.add(alloc, word, rest)?;
    }
    let Rows { rows, .. } = rows;
    Ok(rows)
}
