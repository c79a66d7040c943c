//! What the rules of a definition say of an atom.
//!
//! The head of an instance is the atom only where the variables among its arguments have the atom's elements. So of
//! such a variable that element alone is looked at, and all elements of the other variables are gone through.
ghost use Rattle.std.specs.Prelude.{◌≡◌, ◌++◌, ◌+◌, ◌<◌, ◌≤◌, [], map, fold, length, Contains, IfSome, MatchOption};
ghost use Rattle.std.specs.Prelude.{Some, slice_get, true};
ghost use Rattle.std.specs.List.{AllByRecursion};
ghost use Rattle.kb_logic.specs.Structures.{choices};
ghost use Rattle.kb_logic.specs.Trees.{variable};
ghost use Rattle.kb_logic.specs.Views.{rule_view, term_view};
ghost use Rattle.plain_evaluation.specs.Environments.{env_view};
ghost use Rattle.partial_structures.specs.KnownAtoms.{atom_of};
ghost use Rattle.partial_structures.specs.declared.truths.Truth.TheVariants.{No};
ghost use Rattle.certain_truth.specs.Certainty.{either_certain};
ghost use Rattle.quantifier_bounds.specs.Fits.{InstanceFits, RuleFits};
ghost use Rattle.quantifier_bounds.specs.Rules.{instance_truth, told_by, FixesVariable, IsStart};

use crate::heads::{either_of, instance};
use kb_logic::values::domain_in;
use kb_logic::{Bound, Elem, ElemList, Literal, Rule, Term};
use partial_structures::{Partial, Truth};
use plain_evaluation::environments::{Env, extend, split_in};
use plain_evaluation::frames::Block;

/// Where an atom stands among those of its symbol, so far as its caller knows: the number of its arguments among all
/// tuples over these types, and the place of its value in the value's domain. It is a hint: an element is sought there
/// first.
#[derive(Clone, Copy)]
pub(crate) struct Spot<'a> {
    pub types: &'a [u32],
    pub tuple: usize,
    pub value: usize,
}

/// An atom of which a rule is asked.
#[derive(Clone, Copy)]
struct Asked<'a> {
    rule: &'a Rule,
    atom: &'a Literal,
    spot: Spot<'a>,
}

/// From which of its elements on a rule's variable is gone through.
#[derive(Clone, Copy)]
enum Start {
    /// All of them.
    Free,
    /// The one at this place alone.
    At(usize),
    /// None of them.
    Nowhere,
}

/// The place in its domain of the tuple's element at an argument, or of the value after the last one.
fn hint(domains: &[ElemList], spot: Spot<'_>, at: usize) -> usize {
    let Some((ty, later)) = spot.types.get(at..).unwrap_or(&[]).split_first() else {
        return spot.value;
    };
    let mut number = spot.tuple;
    for other in later {
        number = number
            .checked_div(domain_in(domains, *other).len())
            .unwrap_or(0);
    }
    number
        .checked_rem(domain_in(domains, *ty).len())
        .unwrap_or(0)
}

/// The place of the element in the domain, which is sought at one place first.
fn place_of(domain: &[Elem], elem: &Elem, near: usize) -> Option<usize>
    ensures { MatchOption result (Contains domain.now elem.now → ⊥) (λ p. slice_get domain.now p ≡ Some elem.now) }
{
    if let Some(there) = domain.get(near) {
        if there.same(elem) {
            return Some(near);
        }
    }
    for at in 0..domain.len() {
        if domain[at].same(elem) {
            return Some(at);
        }
    }
    None
}

fn is_variable(term: &Term, n: usize) -> bool
    ensures { result ≡ true → term_view term.now ≡ variable n }
{
    match term {
        Term::Var(m) => *m as usize == n,
        _ => false,
    }
}

/// The atom's element that the variable of this number has where the rule's head is the atom, since it is an argument
/// of the head, and the number of that argument.
fn argument_fixing<'a>(asked: Asked<'a>, n: usize) -> Option<(usize, &'a Elem)>
    ensures { IfSome result (λ p. FixesVariable (rule_view asked.entry.rule.now) (atom_of asked.entry.atom.now) n
        p.1.now) }
{
    let terms = asked.rule.args.as_slice();
    let elems = asked.atom.args.as_slice();
    for at in 0..terms.len() {
        if at >= elems.len() {
            return None;
        }
        if is_variable(&terms[at], n) {
            return Some((at, &elems[at]));
        }
    }
    None
}

/// The same where it is the value of the head.
fn value_fixing<'a>(asked: Asked<'a>, n: usize) -> Option<&'a Elem>
    ensures { IfSome result (λ x. FixesVariable (rule_view asked.entry.rule.now) (atom_of asked.entry.atom.now) n
        x.now) }
{
    match (&asked.rule.value, &asked.atom.value) {
        (Some(term), Some(elem)) => if is_variable(term, n) {
            Some(elem)
        } else {
            None
        },
        _ => None,
    }
}

/// The same where it is either; after the last argument comes the value.
fn fixing<'a>(asked: Asked<'a>, n: usize) -> Option<(usize, &'a Elem)>
    ensures { IfSome result (λ p. FixesVariable (rule_view asked.entry.rule.now) (atom_of asked.entry.atom.now) n
        p.1.now) }
{
    match argument_fixing(asked, n) {
        Some(found) => Some(found),
        None => match value_fixing(asked, n) {
            Some(elem) => Some((asked.rule.args.len(), elem)),
            None => None,
        },
    }
}

// A variable over one element is gone through with others, so that not more variables have a frame of their own than
// a number of instances has digits.
/// From where on the first of these last variables of the rule is gone through.
fn begin(domains: &[ElemList], asked: Asked<'_>, bounds: &[Bound]) -> Start
    requires some { 0 < length bounds.now }
    requires within { length bounds.now ≤ length (rule_view asked.rule.now).vars }
    ensures { IsStart domains.now (rule_view asked.entry.rule.now) (atom_of asked.entry.atom.now) bounds.now result }
{
    let domain = domain_in(domains, bounds[0].ty);
    if domain.len() < 2 {
        return Start::Free;
    }
    match fixing(asked, asked.rule.vars.len() - bounds.len()) {
        None => Start::Free,
        Some((at, elem)) => match place_of(domain, elem, hint(domains, asked.spot, at)) {
            Some(place) => Start::At(place),
            None => Start::Nowhere,
        },
    }
}

/// How many of the first of these last variables of the rule are gone through together, over all their elements.
fn free_len(domains: &[ElemList], asked: Asked<'_>, bounds: &[Bound]) -> usize
    requires some { 0 < length bounds.now }
    requires within { length bounds.now ≤ length (rule_view asked.rule.now).vars }
    ensures some { 0 < result }
    ensures within { result ≤ length bounds.now }
{
    for len in 1..bounds.len() {
        match begin(domains, asked, &bounds[len..]) {
            Start::Free => {}
            Start::At(_) => return len,
            Start::Nowhere => return len,
        }
    }
    bounds.len()
}

/// Some of the first variables, at most so many of them, and the others.
pub fn front<'a>(
    domains: &'a [ElemList],
    bounds: &'a [Bound],
    len: usize,
) -> (Block<'a>, &'a [Bound])
    requires some { 0 < len }
    requires within { len ≤ length bounds.now }
    ensures parts { bounds.now ≡ result.0.bounds.now ++ result.1.now }
    ensures fewer { length result.1.now < length bounds.now }
    ensures few { length result.0.bounds.now ≤ len }
    ensures domains { result.0.domains.now ≡ domains.now }
    ensures count { result.0.count ≡ length (choices domains.now result.0.bounds.now) }
{
    let (first, _) = bounds.split_at(len);
    let (block, _) = split_in(domains, first);
    let (_, others) = bounds.split_at(block.bounds.len());
    (block, others)
}

/// What the instances say in which the first variables have any of their elements, after what was said before.
#[cycle(told)]
fn each_told<'a>(
    known: &'a Partial,
    asked: Asked<'a>,
    bounds: &'a [Bound],
    env: &'a Env<'a>,
    before: Truth,
) -> Truth
    requires some { 0 < length bounds.now }
    requires depth { length (env_view env.now) + length bounds.now ≡ length (rule_view asked.rule.now).vars }
    requires fits { AllByRecursion (λ a. InstanceFits known.now.symbols known.now.domains (rule_view asked.rule.now)
        (env_view env.now ++ a)) (choices known.now.domains bounds.now) }
    ensures { result ≡ fold (λ t a. either_certain t (instance_truth known.now (rule_view asked.entry.rule.now)
        (atom_of asked.entry.atom.now) (env_view env.now ++ a))) before (choices known.now.domains bounds.now) }
{
    let domains = known.domains().as_slice();
    let (block, others) = front(domains, bounds, free_len(domains, asked, bounds));
    let mut told = before;
    for number in 0..block.count {
        told = instances(known, asked, others, &extend(env, block, number), told);
    }
    told
}

/// What the instances of the rule say of the atom, after what was said before.
#[cycle(told)]
fn instances<'a>(
    known: &'a Partial,
    asked: Asked<'a>,
    bounds: &'a [Bound],
    env: &'a Env<'a>,
    before: Truth,
) -> Truth
    requires depth { length (env_view env.now) + length bounds.now ≡ length (rule_view asked.rule.now).vars }
    requires fits { AllByRecursion (λ a. InstanceFits known.now.symbols known.now.domains (rule_view asked.rule.now)
        (env_view env.now ++ a)) (choices known.now.domains bounds.now) }
    ensures { result ≡ fold (λ t a. either_certain t (instance_truth known.now (rule_view asked.entry.rule.now)
        (atom_of asked.entry.atom.now) (env_view env.now ++ a))) before (choices known.now.domains bounds.now) }
{
    if bounds.is_empty() {
        return either_of(before, instance(known, asked.rule, asked.atom, env));
    }
    let domains = known.domains().as_slice();
    match begin(domains, asked, bounds) {
        Start::Nowhere => before,
        Start::Free => each_told(known, asked, bounds, env, before),
        Start::At(place) => {
            let (block, others) = front(domains, bounds, 1);
            instances(
                known,
                asked,
                others,
                &extend(env, block, place as u64),
                before,
            )
        }
    }
}

// Where a variable has no element the others are not gone through, however many elements they have.
/// Whether the rule has no instances, since the type of a variable is empty.
fn has_no_instance(known: &Partial, rule: &Rule) -> bool
    ensures { result ≡ true → choices known.now.domains (rule_view rule.now).vars ≡ [] }
{
    let bounds = rule.vars.as_slice();
    if bounds.is_empty() {
        return false;
    }
    let (block, _) = split_in(known.domains().as_slice(), bounds);
    block.count == 0
}

/// What the rule says of the atom, after what was said before.
fn told_more(known: &Partial, asked: Asked<'_>, before: Truth) -> Truth
    requires { RuleFits known.now.symbols known.now.domains (rule_view asked.rule.now) }
    ensures { result ≡ told_by known.now (atom_of asked.entry.atom.now) before (rule_view asked.entry.rule.now) }
{
    if asked.rule.symbol != asked.atom.symbol {
        return before;
    }
    if has_no_instance(known, asked.rule) {
        return before;
    }
    let bounds = asked.rule.vars.as_slice();
    instances(known, asked, bounds, &Env::Given(&[]), before)
}

/// What the rules say of the atom: whether some instance's body is certainly true, or all are certainly false. The
/// atom mostly stands at the spot.
pub(crate) fn derived(known: &Partial, rules: &[Rule], atom: &Literal, spot: Spot<'_>) -> Truth
    requires { AllByRecursion (RuleFits known.now.symbols known.now.domains) (map rule_view rules.now) }
    ensures { result ≡ fold (told_by known.now (atom_of atom.now)) No (map rule_view rules.now) }
{
    let mut told = Truth::No;
    for at in 0..rules.len() {
        let asked = Asked {
            rule: &rules[at],
            atom,
            spot,
        };
        told = told_more(known, asked, told);
    }
    told
}
