//! Literals: which ones are the same, and which ones the data make known.
ghost use Rattle.std.specs.Prelude.{◌≡◌};
ghost use Rattle.consult_base.specs.Opened.{base_of};
ghost use Rattle.consult_text.specs.Literals.{IsLiteralOver};
ghost use Rattle.consult_text.specs.States.{is_known, without};

use consult_base::KnowledgeBase;
use kb_logic::Literal;
use kept_answers::are_same_literals;
use partial_structures::Truth;

/// Removes the literal, which takes no memory. The order of others stays.
pub(crate) fn remove(literals: &mut Vec<Literal>, literal: &Literal)
    ensures { literals.new.items ≡ without literal.now literals.old.items }
{
    literals.retain(|other| !are_same_literals(literal, other));
}

/// Whether the data make the literal's atom known.
pub(crate) fn is_known(kb: &KnowledgeBase, literal: &Literal) -> bool
    requires { IsLiteralOver (base_of kb.now) literal.now }
    ensures { result ≡ is_known (base_of kb.now) literal.now }
{
    match kb.data().value(literal) {
        Truth::Yes | Truth::No => true,
        Truth::Unknown => false,
    }
}
