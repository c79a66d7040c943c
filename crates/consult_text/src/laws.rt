//! What lines mean, in the subject's own words. The functions do nothing: their contracts are laws.
ghost use Rattle.std.specs.Prelude.{ℕ, List};
ghost use Rattle.kb_logic.specs.Bases.{Base};
ghost use Rattle.consult_text.specs.Laws.{HasOneMeaning, CommandsAreOverTheBase};
ghost use Rattle.consult_text.specs.OneText.{NoTwoRepliesHaveOneText};

use kb_text::one_answer;

/// A line is blank, has one command, or is refused for one cause, and never two of these.
pub fn one_meaning()
    ensures { (kb : Base) (line : List ℕ) → HasOneMeaning kb line }
{
    one_answer();
}

/// The literal of a line's command is one of the vocabulary, with elements of its types.
pub fn commands_are_over_the_base()
    ensures { CommandsAreOverTheBase }
{}

/// The text of a reply to a command, over a knowledge base, determines the reply, whatever comes after it.
pub fn no_two_replies_have_one_text()
    ensures { NoTwoRepliesHaveOneText }
{}
