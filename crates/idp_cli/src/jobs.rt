//! What the words of a command line ask.
ghost use Rattle.std.specs.Prelude.{◌≡◌, ℕ, List, Option, is_some, IfOk, MatchOption};
ghost use Rattle.std.specs.String.{string_bytes};
ghost use Rattle.kb_text.specs.Bytes.{between};
ghost use Rattle.std.specs.List.{list_all};
ghost use Rattle.block_choice.specs.Choices.{word_given};
ghost use Rattle.command_words.specs.CommandLine as words;
ghost use Rattle.command_words.specs.LineView.{file_view, line_view};
ghost use Rattle.idp_cli.specs.Jobs.{AreOfFile, Asks, AsksBy, IsBudgetText, IsFirstBudget, IsNumberText};
ghost use Rattle.idp_cli.specs.Jobs.{IsLogPath, IsUsage, NamesLog, choice_in};
ghost use Rattle.idp_cli.specs.Jobs as asked;
ghost use Rattle.idp_cli.specs.JobViews.{choice_view, job_view};
ghost use Rattle.idp_cli.specs.Runs.{texts_of};

use command_words::{FileWords, Line, line_of};
use consult_text::budget_of;
use generated_files::Kind;
use std::alloc::{AllocError, Global};

/// How many conflicts a query may meet where no budget is given.
const DEFAULT_BUDGET: u64 = 100_000;

/// The names of the theory and of the structure that are chosen, where they are named.
#[derive(Clone, Copy)]
pub struct Options<'a> {
    pub theory: Option<&'a str>,
    pub structure: Option<&'a str>,
}

/// What is asked of a consultation.
#[derive(Clone, Copy)]
pub struct ConsultJob<'a> {
    pub file: &'a str,
    pub options: Options<'a>,
    /// How many conflicts a query may meet; without a limit where there is no number.
    pub budget: Option<u64>,
    /// A log of it is kept.
    pub logs: bool,
}

/// What the words ask.
#[derive(Clone, Copy)]
pub enum Job<'a> {
    /// To answer the commands by what a file means.
    Consult(ConsultJob<'a>),
    /// To print the chosen structure of a file.
    Check(&'a str, Options<'a>),
    /// To verify a log of what was derived from a file.
    Verify(&'a str, Options<'a>, &'a str),
    /// To print the file that is made of a number.
    Make(Kind, u32),
    /// To print what follows from that file, and the least cost of its models.
    Summarise(Kind, u32),
}

fn has_digits_alone(text: &[u8]) -> bool
    ensures { result ≡ list_all (between 48 57) text.now }
{
    for byte in text {
        if *byte < b'0' || *byte > b'9' {
            return false;
        }
    }
    true
}

/// The budget that the text is.
fn budget_in(text: &str) -> Option<Option<u64>>
    ensures { MatchOption result ((b : Option ℕ) → IsBudgetText text.now b → ⊥) (λ b. IsBudgetText text.now b) }
{
    if text == "unlimited" {
        return Some(None);
    }
    if !has_digits_alone(text.as_bytes()) {
        return None;
    }
    match budget_of(text.as_bytes()) {
        Some(budget) => Some(Some(budget)),
        None => None,
    }
}

/// The budget that is given, or the first one of every session.
fn first_budget(text: Option<&str>) -> Option<Option<u64>>
    ensures { MatchOption result ((b : Option ℕ) → IsFirstBudget (word_given text.entry) b → ⊥)
        (λ b. IsFirstBudget (word_given text.entry) b) }
{
    match text {
        Some(text) => budget_in(text),
        None => Some(Some(DEFAULT_BUDGET)),
    }
}

/// The number of the kind that the text is.
#[tactic(auto, using(crate::proofs::Asked::number_is_budget))]
fn number_in(kind: Kind, text: &str) -> Option<u32>
    ensures { MatchOption result ((n : ℕ) → IsNumberText kind text.now n → ⊥) (λ n. IsNumberText kind text.now n) }
{
    if !has_digits_alone(text.as_bytes()) {
        return None;
    }
    // What budgets may be goes further than any number of a kind.
    match budget_of(text.as_bytes()) {
        Some(number) => {
            if number <= u64::from(kind.most()) {
                Some(number as u32)
            } else {
                None
            }
        }
        None => None,
    }
}

/// The kind and the number that the texts are.
#[tactic(auto, using(crate::proofs::Asked::no_file))]
fn made_of(kind: &str, number: &str) -> Option<(Kind, u32)>
    ensures { MatchOption result ((k : Kind) (n : ℕ) → AreOfFile kind.now number.now k n → ⊥)
        (λ made. AreOfFile kind.now number.now made.0 made.1) }
{
    match Kind::from_name(kind) {
        Some(kind) => match number_in(kind, number) {
            Some(number) => Some((kind, number)),
            None => None,
        },
        None => None,
    }
}

/// What is asked about a file that is made.
fn generation<'a>(kind: &str, number: &str, text: bool) -> Option<Job<'a>>
    ensures { MatchOption result ((job : asked.Job) → AsksBy (words.generate kind.now number.now text) job → ⊥)
        (λ job. AsksBy (words.generate kind.now number.now text) (job_view job)) }
{
    match made_of(kind, number) {
        Some((kind, number)) => {
            if text {
                Some(Job::Make(kind, number))
            } else {
                Some(Job::Summarise(kind, number))
            }
        }
        None => None,
    }
}

/// What is chosen in a file.
fn options_in<'a>(words: FileWords<'a>) -> Options<'a>
    ensures { choice_view result ≡ choice_in (file_view words.entry) }
{
    Options {
        theory: words.theory,
        structure: words.structure,
    }
}

/// What is asked of a consultation; nothing where the budget that is given is none.
fn consultation_in<'a>(
    words: FileWords<'a>,
    text: Option<&'a str>,
    log: Option<&'a str>,
) -> Option<ConsultJob<'a>>
    ensures { MatchOption result ((budget : Option ℕ) → IsFirstBudget (word_given text.entry) budget → ⊥)
        (λ job. (job.file.now ≡ words.entry.file.now) × (choice_view job.options ≡ choice_in (file_view words.entry))
        × IsFirstBudget (word_given text.entry) job.budget × (job.logs ≡ is_some (word_given log.entry))) }
{
    match first_budget(text) {
        Some(budget) => Some(ConsultJob {
            file: words.file,
            options: options_in(words),
            budget,
            logs: log.is_some(),
        }),
        None => None,
    }
}

/// What is asked by what the words say.
fn job_in<'a>(line: Line<'a>) -> Option<Job<'a>>
    ensures { MatchOption result ((job : asked.Job) → AsksBy (line_view line.entry) job → ⊥)
        (λ job. AsksBy (line_view line.entry) (job_view job)) }
{
    match line {
        Line::Consult(words, text, log) => match consultation_in(words, text, log) {
            Some(job) => Some(Job::Consult(job)),
            None => None,
        },
        Line::Check(words) => Some(Job::Check(words.file, options_in(words))),
        Line::Verify(words, log) => Some(Job::Verify(words.file, options_in(words), log)),
        Line::Generate(kind, number, text) => generation(kind, number, text),
    }
}

/// What the words ask; nothing where they are no command line.
pub fn job_of<'a>(alloc: Global, words: &'a [String]) -> Result<Option<Job<'a>>, AllocError>
    ensures { IfOk result (λ job. MatchOption job (IsUsage (texts_of words.entry.now))
        (λ job. Asks (texts_of words.entry.now) (job_view job))) }
{
    match line_of(alloc, words) {
        Ok(Some(line)) => Ok(job_in(line)),
        Ok(None) => Ok(None),
        Err(e) => Err(e),
    }
}

/// The file that is named for a log by what the words say.
fn log_in<'a>(line: Line<'a>) -> Option<&'a str>
    ensures { MatchOption result ((p : List ℕ) → NamesLog (line_view line.entry) p → ⊥)
        (λ path. NamesLog (line_view line.entry) path.now) }
{
    match line {
        Line::Consult(_, text, Some(path)) => match first_budget(text) {
            Some(_) => Some(path),
            None => None,
        },
        _ => None,
    }
}

/// The file that the words name for a log; none where they name none, or are no command line.
pub fn log_path(alloc: Global, words: &[String]) -> Result<Option<String>, AllocError>
    ensures { IfOk result (λ path. MatchOption path ((p : List ℕ) → IsLogPath (texts_of words.now) p → ⊥)
        (λ path. IsLogPath (texts_of words.now) (string_bytes path))) }
{
    match line_of(alloc, words) {
        Ok(Some(line)) => match log_in(line) {
            Some(path) => Ok(Some(String::from_str(alloc, path)?)),
            None => Ok(None),
        },
        Ok(None) => Ok(None),
        Err(e) => Err(e),
    }
}
