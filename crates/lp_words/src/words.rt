//! The words that the program is given.
ghost use Rattle.std.specs.Prelude.{◌≡◌, IfOk, IfErr, Some, None, codes, map};
ghost use Rattle.clap.specs.Words.{app_of, first_value, found_of, kind_of, subcommand_rows_of, with_subcommand};
ghost use Rattle.lp_models.specs.Models.{name_of};
ghost use Rattle.lp_words.specs.Asked.{Asks, AsksNothing, asked_in, comparing, flag_word, lpt, subcommand, words_of};
ghost use Rattle.lp_words.specs.inside.Subcommands.{IsAddedAs};
ghost use Rattle.lp_words.specs.inside.WordsFaults.{IsNoFlag, IsRefusal, NamesNoModel, NamesNoJob};

use clap::error::ErrorKind;
use clap::{Arg, ArgAction, ArgMatches, Command, Error};
use lp_models::ModelName;
use std::alloc::{AllocError, Global};
use std::convert::AsStr;

/// What the program is asked to do.
#[derive(Clone, Copy, Debug, PartialEq, Eq)]
pub enum Job {
    /// `run MODEL`: reads a trace and writes the report of its run under the model.
    Run(ModelName),
    /// `check MODEL`: reads a trace and a certificate, and writes the answer to it under the model.
    Check(ModelName),
    /// `compare`, with `--json` or without: reads a trace and writes what its first transition comes to under each
    /// model, as a text or as JSON.
    Compare {
        /// Whether it is JSON that is asked for.
        json: bool,
    },
    /// `threads MODEL`: reads a trace, lets threads play it under the model, and writes what came of it.
    Threads(ModelName),
}

/// Why the words ask for nothing that the program does.
#[derive(Clone, Copy, Debug, PartialEq, Eq, thiserror::Error)]
pub enum WordsFault {
    /// No line of the program's table, or a call for help.
    #[error("usage")]
    Usage,
    /// The words are right but for the model's name.
    #[error("unknown model")]
    UnknownModel,
    /// An allocation failed.
    #[error("out of memory")]
    NoMemory,
}

impl From<AllocError> for WordsFault {
    ghost use Rattle.lp_words.specs.declared.words.WordsFault.TheVariants.{NoMemory};

    ghost from_gives = { λ _ e. e ≡ NoMemory };

    fn from(_e: AllocError) -> WordsFault {
        WordsFault::NoMemory
    }
}

/// Why clap refuses the words.
fn refused(error: &Error) -> WordsFault
    ensures { IsRefusal (kind_of error.now) result }
{
    match error.kind() {
        ErrorKind::OutOfMemory => WordsFault::NoMemory,
        _ => WordsFault::Usage,
    }
}

/// A subcommand that takes the name of a model.
fn taking_model<'a>(alloc: Global, name: &'a str) -> Result<Command<'a>, AllocError>
    ensures { IfOk result (λ command. IsAddedAs command (subcommand name.entry.now)) }
{
    let model = Arg::new(alloc, "MODEL")
        .required(true)
        .action(ArgAction::Set);
    Command::new(alloc, name).arg(model)
}

/// The comparison, which takes a flag.
fn comparing<'a>(alloc: Global) -> Result<Command<'a>, AllocError>
    ensures { IfOk result (λ command. IsAddedAs command comparing) }
{
    let json = Arg::new(alloc, "json")
        .long("json")
        .action(ArgAction::SetTrue);
    Command::new(alloc, "compare").arg(json)
}

/// A command line with one more subcommand that takes the name of a model. What it is added to is
/// handed in: held beside others, each `?` would drop all its fields once more in the proof.
fn with_taking_model<'a>(
    alloc: Global,
    app: Command<'a>,
    name: &'a str,
) -> Result<Command<'a>, AllocError>
    ensures { IfOk result (λ command. app_of command ≡ with_subcommand (app_of app.entry) (subcommand name.entry.now).top) }
{
    let taking = taking_model(alloc, name)?;
    app.subcommand(taking)
}

/// The words of the program: one of the subcommands, three of them with a model.
fn command<'a>(alloc: Global) -> Result<Command<'a>, AllocError>
    ensures { IfOk result (λ command. app_of command ≡ lpt) }
{
    let lpt = Command::new(alloc, "lpt");
    let lpt = with_taking_model(alloc, lpt, "run")?;
    let lpt = with_taking_model(alloc, lpt, "check")?;
    let lpt = with_taking_model(alloc, lpt, "threads")?;
    lpt.subcommand(comparing(alloc)?)
}

/// Whether a flag that a subcommand has is there.
fn flag_of(matches: &ArgMatches<'_>) -> Result<bool, WordsFault>
    ensures json { IfOk result (λ json. first_value (found_of matches.now) (codes "json") ≡ Some (flag_word json)) }
    ensures fault { IfErr result (λ fault. IsNoFlag (first_value (found_of matches.now) (codes "json")) fault) }
{
    match matches.get_str("json") {
        Some("true") => Ok(true),
        Some("false") => Ok(false),
        _ => Err(WordsFault::Usage),
    }
}

/// The model that a subcommand names.
fn model_of(matches: &ArgMatches<'_>) -> Result<ModelName, WordsFault>
    ensures model { IfOk result (λ model. first_value (found_of matches.now) (codes "MODEL") ≡ Some (name_of model)) }
    ensures fault { IfErr result (λ fault. NamesNoModel (first_value (found_of matches.now) (codes "MODEL")) fault) }
{
    let name = matches.get_str("MODEL").ok_or(WordsFault::Usage)?;
    ModelName::read(name).ok_or(WordsFault::UnknownModel)
}

/// What the words ask for that clap has matched.
fn job_in(matches: &ArgMatches<'_>) -> Result<Job, WordsFault>
    ensures job { IfOk result (λ job. asked_in (subcommand_rows_of matches.now) ≡ Some (words_of job)) }
    ensures fault { IfErr result (λ fault. NamesNoJob (asked_in (subcommand_rows_of matches.now)) fault) }
{
    match matches.subcommand() {
        Some(("run", run)) => Ok(Job::Run(model_of(run)?)),
        Some(("check", check)) => Ok(Job::Check(model_of(check)?)),
        Some(("compare", compare)) => Ok(Job::Compare {
            json: flag_of(compare)?,
        }),
        Some(("threads", threads)) => Ok(Job::Threads(model_of(threads)?)),
        _ => Err(WordsFault::Usage),
    }
}

/// What these words ask for, the first of which is the program's name. UnknownModel where they are right but for
/// the model's name, Usage for any other words that ask for nothing, NoMemory where an allocation failed.
pub fn job_of<S: AsStr>(alloc: Global, words: &[S]) -> Result<Job, WordsFault>
    ensures job { IfOk result (Asks (map S.text words.now)) }
    ensures fault { IfErr result (AsksNothing (map S.text words.now)) }
{
    match command(alloc)?.try_get_matches_from(words) {
        Ok(matches) => job_in(&matches),
        Err(error) => Err(refused(&error)),
    }
}
