//! What an instance of a rule says of an atom.
ghost use Rattle.std.specs.Prelude.{◌≡◌, map, option_map, IfSome};
ghost use Rattle.kb_logic.specs.Trees.{terms_of};
ghost use Rattle.kb_logic.specs.Views.{rule_view, term_view};
ghost use Rattle.plain_evaluation.specs.Environments.{env_view};
ghost use Rattle.partial_structures.specs.KnownAtoms.{atom_of};
ghost use Rattle.certain_truth.specs.Certainty.{either_certain, known_value, known_values};
ghost use Rattle.certain_truth.specs.KnownArithmetic.{ValueFits, ValuesFit};
ghost use Rattle.quantifier_bounds.specs.Fits.{InstanceFits};
ghost use Rattle.quantifier_bounds.specs.Rules.{is_known, is_row, is_value, is_head as head_is, instance_truth};

use crate::left::certainty;
use certain_truth::known_term;
use kb_logic::values::{elem_value, same};
use kb_logic::{Elem, Literal, Rule, Term};
use partial_structures::{Partial, Truth};
use plain_evaluation::environments::Env;

/// Whether the term is known to be the element.
fn is_element(known: &Partial, term: &Term, elem: &Elem, env: &Env<'_>) -> bool
    requires { ValueFits known.now (term_view term.now) (env_view env.now) }
    ensures { result ≡ is_known (known_value known.now (term_view term.now) (env_view env.now)) elem.now }
{
    match known_term(known, term, env) {
        None => false,
        Some(value) => same(elem_value(elem), value),
    }
}

/// Whether the terms are known to be the elements.
fn are_elements(known: &Partial, terms: &[Term], elems: &[Elem], env: &Env<'_>) -> bool
    requires { ValuesFit known.now (terms_of (map term_view terms.now)) (env_view env.now) }
    ensures { result ≡ is_row (known_values known.now (terms_of (map term_view terms.now)) (env_view env.now))
        elems.now }
{
    if terms.len() != elems.len() {
        return false;
    }
    for at in 0..terms.len() {
        if !is_element(known, &terms[at], &elems[at], env) {
            return false;
        }
    }
    true
}

/// Whether the term is known to be the element, where there is one, or there is neither.
fn has_value(known: &Partial, term: &Option<Term>, elem: &Option<Elem>, env: &Env<'_>) -> bool
    requires { IfSome term.now (λ t. ValueFits known.now (term_view t) (env_view env.now)) }
    ensures { result ≡ is_value (option_map (λ t. known_value known.now t (env_view env.now))
        (option_map term_view term.now)) elem.now }
{
    match (term, elem) {
        (Some(term), Some(elem)) => is_element(known, term, elem, env),
        (None, None) => true,
        (Some(_), None) => false,
        (None, Some(_)) => false,
    }
}

/// Whether the head of the rule is the atom.
fn is_head(known: &Partial, rule: &Rule, atom: &Literal, env: &Env<'_>) -> bool
    requires { InstanceFits known.now.symbols known.now.domains (rule_view rule.now) (env_view env.now) }
    ensures { result ≡ head_is known.now (rule_view rule.now) (env_view env.now) (atom_of atom.now) }
{
    known.consistency();
    if rule.symbol != atom.symbol {
        return false;
    }
    if !are_elements(known, rule.args.as_slice(), atom.args.as_slice(), env) {
        return false;
    }
    has_value(known, &rule.value, &atom.value, env)
}

/// What is certain of the instance's body, where its head is the atom.
pub(crate) fn instance(known: &Partial, rule: &Rule, atom: &Literal, env: &Env<'_>) -> Truth
    requires { InstanceFits known.now.symbols known.now.domains (rule_view rule.now) (env_view env.now) }
    ensures { result ≡ instance_truth known.now (rule_view rule.now) (atom_of atom.now) (env_view env.now) }
{
    if is_head(known, rule, atom, env) {
        certainty(known, &rule.body, env)
    } else {
        Truth::No
    }
}

pub(crate) fn either_of(a: Truth, b: Truth) -> Truth
    ensures { result ≡ either_certain a b }
{
    match (a, b) {
        (Truth::Yes, _) => Truth::Yes,
        (Truth::No, _) => b,
        (Truth::Unknown, Truth::Yes) => Truth::Yes,
        (Truth::Unknown, _) => Truth::Unknown,
    }
}
