//! What words say.
ghost use Rattle.std.specs.Prelude.{◌≡◌, IfOk, map, option_map};
ghost use Rattle.std.specs.String.{string_bytes};
ghost use Rattle.clap.specs.Words.{first_of, found_of, rows_of};
ghost use Rattle.command_words.specs.CommandLine.{check_in, consultation_in, file_in, file_with};
ghost use Rattle.command_words.specs.CommandLine.{generation_in, generation_with, has_flag, said_by, said_in};
ghost use Rattle.command_words.specs.CommandLine.{verification_in, verification_with};
ghost use Rattle.command_words.specs.LineView.{file_view, line_view};

use crate::command::command_line;
use clap::ArgMatches;
use clap::error::ErrorKind;
use std::alloc::{AllocError, Global};

/// A file, and the names of the theory and of the structure that are chosen in it, where they are named.
#[derive(Clone, Copy)]
pub struct FileWords<'a> {
    pub file: &'a str,
    pub theory: Option<&'a str>,
    pub structure: Option<&'a str>,
}

/// What words say.
#[derive(Clone, Copy)]
pub enum Line<'a> {
    /// To consult about a file, with a budget and with a file for the log where they are given.
    Consult(FileWords<'a>, Option<&'a str>, Option<&'a str>),
    /// To check a file.
    Check(FileWords<'a>),
    /// To verify a log of what was derived from a file.
    Verify(FileWords<'a>, &'a str),
    /// To generate a file of this kind and number, and whether its text is what is wanted.
    Generate(&'a str, &'a str, bool),
}

/// The value of an argument.
fn value_of<'a>(matches: &ArgMatches<'a>, name: &str) -> Option<&'a str>
    ensures { option_map (λ s. s.now) result ≡ first_of name.now (rows_of (found_of matches.now)) }
{
    matches.get_str(name)
}

/// Whether an option without a value is given.
fn has_flag(matches: &ArgMatches<'_>, name: &str) -> bool
    ensures { result ≡ has_flag name.now (rows_of (found_of matches.now)) }
{
    match value_of(matches, name) {
        Some(value) => value == "true",
        None => false,
    }
}

fn file_with<'a>(
    file: Option<&'a str>,
    theory: Option<&'a str>,
    structure: Option<&'a str>,
) -> Option<FileWords<'a>>
    ensures { option_map file_view result ≡ file_with (option_map (λ s. s.now) file.entry)
        (option_map (λ s. s.now) theory.entry) (option_map (λ s. s.now) structure.entry) }
{
    match file {
        Some(file) => Some(FileWords {
            file,
            theory,
            structure,
        }),
        None => None,
    }
}

/// The file that the matches name.
fn file_in<'a>(matches: &ArgMatches<'a>) -> Option<FileWords<'a>>
    ensures { option_map file_view result ≡ file_in (rows_of (found_of matches.now)) }
{
    file_with(
        value_of(matches, "FILE"),
        value_of(matches, "theory"),
        value_of(matches, "structure"),
    )
}

fn verification_with<'a>(file: Option<FileWords<'a>>, log: Option<&'a str>) -> Option<Line<'a>>
    ensures { option_map line_view result ≡ verification_with (option_map file_view file.entry)
        (option_map (λ s. s.now) log.entry) }
{
    match (file, log) {
        (Some(file), Some(log)) => Some(Line::Verify(file, log)),
        _ => None,
    }
}

fn generation_with<'a>(
    kind: Option<&'a str>,
    number: Option<&'a str>,
    text: bool,
) -> Option<Line<'a>>
    ensures { option_map line_view result ≡ generation_with (option_map (λ s. s.now) kind.entry)
        (option_map (λ s. s.now) number.entry) text }
{
    match (kind, number) {
        (Some(kind), Some(number)) => Some(Line::Generate(kind, number, text)),
        _ => None,
    }
}

/// The kind and the number that the matches name.
fn generation_in<'a>(matches: &ArgMatches<'a>) -> Option<Line<'a>>
    ensures { option_map line_view result ≡ generation_in (rows_of (found_of matches.now)) }
{
    generation_with(
        value_of(matches, "KIND"),
        value_of(matches, "N"),
        has_flag(matches, "text"),
    )
}

fn consultation_in<'a>(matches: &ArgMatches<'a>) -> Option<Line<'a>>
    ensures { option_map line_view result ≡ consultation_in (rows_of (found_of matches.now)) }
{
    let budget = value_of(matches, "budget");
    let log = value_of(matches, "log");
    match file_in(matches) {
        Some(file) => Some(Line::Consult(file, budget, log)),
        None => None,
    }
}

fn check_in<'a>(matches: &ArgMatches<'a>) -> Option<Line<'a>>
    ensures { option_map line_view result ≡ check_in (rows_of (found_of matches.now)) }
{
    match file_in(matches) {
        Some(file) => Some(Line::Check(file)),
        None => None,
    }
}

fn verification_in<'a>(matches: &ArgMatches<'a>) -> Option<Line<'a>>
    ensures { option_map line_view result ≡ verification_in (rows_of (found_of matches.now)) }
{
    verification_with(file_in(matches), value_of(matches, "LOG"))
}

/// What the matches of a subcommand say.
fn line_in<'a>(command: &'a str, matches: &ArgMatches<'a>) -> Option<Line<'a>>
    ensures { option_map line_view result ≡ said_in command.entry.now (rows_of (found_of matches.now)) }
{
    match command {
        "consult" => consultation_in(matches),
        "check" => check_in(matches),
        "verify" => verification_in(matches),
        "generate" => generation_in(matches),
        _ => None,
    }
}

/// What the words after the program's name say; nothing where they are no command line.
pub fn line_of<'a>(alloc: Global, words: &'a [String]) -> Result<Option<Line<'a>>, AllocError>
    ensures { IfOk result (λ line. option_map line_view line ≡ said_by (map string_bytes words.entry.now)) }
{
    match command_line(alloc)?.try_get_matches_from(words) {
        Ok(matches) => match matches.subcommand() {
            Some((command, inner)) => Ok(line_in(command, inner)),
            None => Ok(None),
        },
        Err(error) => match error.kind() {
            ErrorKind::OutOfMemory => Err(AllocError),
            _ => Ok(None),
        },
    }
}
