//! Laws on how a run ends, and on what it prints. The functions do nothing else: their contracts are laws.
#![tactic(auto)]

ghost use Rattle.run_laws.specs.Laws.{UsageLaw, CommandLaw, RefusalLaw, TakingLaw, LengthLaw, ShortLaw, DoneLaw};
ghost use Rattle.run_laws.specs.Laws.{CheckedLaw, MadeLaw, SummarisedLaw};
ghost use Rattle.run_laws.specs.Laws.{AcceptedLogLaw, VerifiedLaw, RefusedLogLaw, BadEntryLaw, LongLogLaw, ShortLogLaw};
ghost use Rattle.run_laws.specs.Laws.{LogPathLaw};
ghost use Rattle.run_laws.specs.OneAnswer.{OneAnswerLaw, OneConsultationLaw, StatesLaw};
ghost use Rattle.run_laws.specs.FileLaws.{FileRepliesLaw, CheckedIsReadBackLaw};

use base_reader::{accepted_or_refused, one_file_meaning, one_file_refusal};
use consult_text::{commands_are_over_the_base, no_two_replies_have_one_text, one_meaning};
use derivation_log::one_answer;
use file_laws::{files_have_word_names, structures_are_read_back};
use narrowed_bases::laws::one_problem;

/// Usage, a refusal, ScriptTooLong and Done come exactly where they should, unless a device failed or memory ran out.
pub fn statuses_come_where_they_should()
    ensures usage { UsageLaw }
    ensures command { CommandLaw }
    ensures refusal { RefusalLaw }
    ensures taking { TakingLaw }
    ensures length { LengthLaw }
    ensures short { ShortLaw }
    ensures done { DoneLaw }
    ensures checked { CheckedLaw }
    ensures made { MadeLaw }
    ensures summarised { SummarisedLaw }
{
    one_file_refusal();
    accepted_or_refused();
}

/// Of a log that is verified: Done, LogRefused with an entry's number and ScriptTooLong come exactly where they should,
/// unless a device failed or memory ran out. And words ask for a log exactly where they name a file for it.
pub fn logs_are_verified_as_they_should_be()
    ensures accepted { AcceptedLogLaw }
    ensures verified { VerifiedLaw }
    ensures refused { RefusedLogLaw }
    ensures bad_entry { BadEntryLaw }
    ensures long { LongLogLaw }
    ensures short { ShortLogLaw }
    ensures path { LogPathLaw }
{
    statuses_come_where_they_should();
    one_file_meaning();
    one_answer();
    one_problem();
}

/// The printed bytes determine what was answered: over a knowledge base whose names are words, two right
/// answers to a line that have one text are one reply, and two consultations of the same lines that print the same
/// bytes have the same replies. The choices in force, which an answer may list, are always literals over the knowledge
/// base, and the budget is always one that can be given.
pub fn printed_bytes_determine_the_replies()
    ensures one { OneAnswerLaw }
    ensures whole { OneConsultationLaw }
    ensures states { StatesLaw }
{
    one_meaning();
    commands_are_over_the_base();
    no_two_replies_have_one_text();
}

/// What is printed about a file can be read, whatever the file: over what it means, the printed bytes determine the
/// replies; and where a check is done, the printed text is read back as the structure that was checked.
pub fn what_is_printed_of_a_file_can_be_read()
    ensures replies { FileRepliesLaw }
    ensures checked { CheckedIsReadBackLaw }
{
    printed_bytes_determine_the_replies();
    files_have_word_names();
    structures_are_read_back();
}
