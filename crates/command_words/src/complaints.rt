//! What is said of words that are no command line.
ghost use Rattle.std.specs.Prelude.{IfOk, map};
ghost use Rattle.std.specs.String.{string_bytes};
ghost use Rattle.clap.specs.Words.{kind_of, subcommand_name_of};
ghost use Rattle.command_words.specs.Complaints.{Fits, FitsName, IsComplaintOn};

use crate::command::command_line;
use clap::error::ErrorKind;
use clap::{ArgMatches, Error};
use std::alloc::{AllocError, Global};

/// What words that are no command line want, or lack.
#[derive(Drop)]
pub enum Complaint {
    /// They ask how the program is called, or there are none.
    Help,
    /// They ask for the version.
    Version,
    /// They say something else; what is wrong with them, in lines.
    Wrong(String),
    /// They are a command line but for a budget that is none.
    Budget,
    /// They are a command line but for a kind of file that is none, or a number that is none of it.
    Generation,
}

/// What an error of the command line says.
fn complaint_of(alloc: Global, error: &Error) -> Result<Complaint, AllocError>
    ensures { IfOk result (λ complaint. Fits complaint (kind_of error.now)) }
{
    match error.kind() {
        ErrorKind::DisplayHelp
        | ErrorKind::DisplayHelpOnMissingArgumentOrSubcommand
        | ErrorKind::MissingSubcommand => Ok(Complaint::Help),
        ErrorKind::DisplayVersion => Ok(Complaint::Version),
        ErrorKind::OutOfMemory => Err(AllocError),
        _ => Ok(Complaint::Wrong(format!(in alloc; "{error}")?)),
    }
}

/// What is said of values in which no other thing is wrong.
fn complaint_on_values(matches: &ArgMatches<'_>) -> Complaint
    ensures { FitsName result (subcommand_name_of matches.now) }
{
    match matches.subcommand_name() {
        Some(name) => {
            if name == "generate" {
                Complaint::Generation
            } else {
                Complaint::Budget
            }
        }
        None => Complaint::Budget,
    }
}

/// What is said of these words, which are no command line.
pub fn complaint_on(alloc: Global, words: &[String]) -> Result<Complaint, AllocError>
    ensures { IfOk result (λ complaint. IsComplaintOn complaint (map string_bytes words.now)) }
{
    match command_line(alloc)?.try_get_matches_from(words) {
        Ok(matches) => Ok(complaint_on_values(&matches)),
        Err(error) => complaint_of(alloc, &error),
    }
}
