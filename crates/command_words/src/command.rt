//! The command line: its subcommands, with their words and options.
ghost use Rattle.std.specs.Prelude.{◌≡◌, IfOk, false};
ghost use Rattle.clap.specs.Words.{rule_of};
ghost use Rattle.command_words.specs.CommandLine as spec;

use clap::{Arg, ArgAction, Command};
use std::alloc::{AllocError, Global};

/// How each command is called; what follows the first line stands under it.
const USAGE: &str =
    "idp consult FILE [--theory NAME] [--structure NAME] [--budget N] [--log LOG]\n       \
idp verify FILE LOG [--theory NAME] [--structure NAME]\n       \
idp check FILE [--theory NAME] [--structure NAME]\n       \
idp generate KIND N [--text]";

/// A word that has to stand there.
fn word_of<'a>(alloc: Global, name: &'a str) -> Arg<'a>
    ensures rule { rule_of result ≡ spec.word_rule name.entry.now }
    ensures local { result.global ≡ false }
{
    Arg::new(alloc, name).required(true)
}

/// An option with a value.
fn option_of<'a>(alloc: Global, name: &'a str) -> Arg<'a>
    ensures rule { rule_of result ≡ spec.option_rule name.entry.now }
    ensures local { result.global ≡ false }
{
    Arg::new(alloc, name).long(name)
}

/// An option without a value.
fn flag_of<'a>(alloc: Global, name: &'a str) -> Arg<'a>
    ensures rule { rule_of result ≡ spec.flag_rule name.entry.now }
    ensures local { result.global ≡ false }
{
    Arg::new(alloc, name).long(name).action(ArgAction::SetTrue)
}

/// A subcommand with a file, and with options that choose in it.
fn choosing<'a>(alloc: Global, name: &'a str) -> Result<Command<'a>, AllocError>
    ensures { IfOk result (spec.IsReadBy (spec.choosing name.entry.now)) }
{
    Command::new(alloc, name)
        .override_usage(USAGE)
        .arg(word_of(alloc, "FILE"))?
        .arg(option_of(alloc, "theory"))?
        .arg(option_of(alloc, "structure"))
}

/// The subcommand with a budget, and with a file for the log.
fn consulting<'a>(alloc: Global) -> Result<Command<'a>, AllocError>
    ensures { IfOk result (spec.IsReadBy spec.consulting) }
{
    choosing(alloc, "consult")?
        .arg(option_of(alloc, "budget"))?
        .arg(option_of(alloc, "log"))
}

/// The subcommand with a log.
fn verifying<'a>(alloc: Global) -> Result<Command<'a>, AllocError>
    ensures { IfOk result (spec.IsReadBy spec.verifying) }
{
    choosing(alloc, "verify")?.arg(word_of(alloc, "LOG"))
}

/// The subcommand with a kind of file and its number.
fn generating<'a>(alloc: Global) -> Result<Command<'a>, AllocError>
    ensures { IfOk result (spec.IsReadBy spec.generating) }
{
    Command::new(alloc, "generate")
        .override_usage(USAGE)
        .arg(word_of(alloc, "KIND"))?
        .arg(word_of(alloc, "N"))?
        .arg(flag_of(alloc, "text"))
}

/// The command without its subcommands.
fn program<'a>(alloc: Global) -> Command<'a>
    ensures { spec.IsReadBy spec.program result }
{
    Command::new(alloc, "idp")
        .override_usage(USAGE)
        .no_binary_name(true)
        .subcommand_required(true)
        .version("0.1")
}

/// The command with the subcommands that are about a file.
fn about_files<'a>(alloc: Global) -> Result<Command<'a>, AllocError>
    ensures { IfOk result (spec.IsReadBy spec.about_files) }
{
    let consult = consulting(alloc)?;
    let check = choosing(alloc, "check")?;
    let verify = verifying(alloc)?;
    program(alloc)
        .subcommand(consult)?
        .subcommand(check)?
        .subcommand(verify)
}

/// The command line of the program, for words without the program's name.
pub fn command_line<'a>(alloc: Global) -> Result<Command<'a>, AllocError>
    ensures { IfOk result (spec.IsReadBy spec.command_line) }
{
    let generate = generating(alloc)?;
    about_files(alloc)?.subcommand(generate)
}
