//! What single tokens and nodes become.
ghost use Rattle.std.specs.Prelude.{◌≡◌, IfOk, map};
ghost use Rattle.stage_definitions.specs.NamesStage.{name_noted};
ghost use Rattle.stage_definitions.specs.NamedTrees.{aggregate, at, terms_of};
ghost use Rattle.stage_definitions.specs.Names.{Names};
ghost use Rattle.stage_definitions.specs.Numbering as numbers;
ghost use Rattle.stage_definitions.specs.Uses as use_of;
ghost use Rattle.grammar.specs.View as raw;
ghost use Rattle.formula_names.specs.Meanings.{meaning_view};
ghost use Rattle.stage_definitions.specs.NamedViews.{formula_view, node_view, term_view, var_view};

use crate::standings::may_stand;
use crate::tables::Meaning;
use crate::uses::within_count;
use grammar::{Adding, Comparison, RawApp, RawName, RawNumber, RawTerms};
use kb_logic::{AggKind, Cmp, Memory};
use kb_text::K;
use sqlite_items::Items;
use stage_definitions::{Earliest, NamedFormula, NamedNode, NamedTerm, NamedVar, Standing};
use std::alloc::Global;

/// The word of an application.
pub fn app_name(app: &RawApp) -> &RawName
    ensures { raw.name_view result.now ≡ use_of.app_name (raw.app_view app.now) }
{
    match app {
        RawApp::Constant(name) => name,
        RawApp::Empty(name, _, _) => name,
        RawApp::Apply(name, _, _, _) => name,
    }
}

fn terms_count(terms: &RawTerms) -> usize
    ensures { result ≡ use_of.terms_count (raw.terms_view terms.now) }
{
    terms.more.as_slice().len() + 1
}

/// How many arguments follow the word.
pub fn app_count(app: &RawApp) -> usize
    ensures { result ≡ use_of.app_count (raw.app_view app.now) }
{
    match app {
        RawApp::Constant(_) => 0,
        RawApp::Empty(_, _, _) => 0,
        RawApp::Apply(_, _, terms, _) => terms_count(terms.get()),
    }
}

/// A word as a term, with these arguments.
pub fn application(meaning: Meaning, args: Vec<NamedTerm>) -> NamedNode
    ensures { node_view result ≡ numbers.node_of (meaning_view meaning) (terms_of (map term_view args.items)) }
{
    match meaning {
        Meaning::Variable(level) => NamedNode::Var(level),
        Meaning::Made(ty, place) => {
            NamedNode::Made(within_count(256, ty), within_count(65536, place))
        }
        Meaning::Function(number, _) => NamedNode::Apply(within_count(1024, number), args),
        Meaning::Undeclared => NamedNode::Apply(0, args),
        Meaning::Integers => NamedNode::Apply(0, args),
        Meaning::Naturals => NamedNode::Apply(0, args),
        Meaning::TypeName(_) => NamedNode::Apply(0, args),
        Meaning::Predicate(_, _) => NamedNode::Apply(0, args),
    }
}

pub fn comparison_of(sign: Comparison) -> Cmp
    ensures { result ≡ numbers.comparison_of sign }
{
    match sign {
        Comparison::Equal => Cmp::Eq,
        Comparison::NotEqual => Cmp::Ne,
        Comparison::Less => Cmp::Lt,
        Comparison::Greater => Cmp::Gt,
        Comparison::AtMost => Cmp::Le,
        Comparison::AtLeast => Cmp::Ge,
    }
}

pub fn is_minus(sign: Adding) -> bool
    ensures { result ≡ numbers.is_minus sign }
{
    match sign {
        Adding::Minus => true,
        Adding::Plus => false,
    }
}

/// Notes an aggregate where none of its kind may stand.
pub fn note_aggregate(standing: Standing, kind: AggKind, place: usize, earliest: &mut Earliest)
    ensures { (names : Names) → earliest.new.first ≡ name_noted names earliest.old.first
        (use_of.an_aggregate standing kind place) }
{
    earliest.note_if(!may_stand(standing, kind), K::Unsupported, place);
}

/// `?` with this number of instances.
pub fn quantified(
    alloc: Global,
    number: &RawNumber,
    vars: Items<NamedVar>,
    inner: NamedFormula,
) -> Result<NamedFormula, Memory>
    ensures { IfOk result (λ f. formula_view f ≡ numbers.counted_by (raw.number_view number.now) (map var_view vars)
        (formula_view inner)) }
{
    let inner = Box::new(alloc, inner)?;
    match number {
        RawNumber::Any => Ok(NamedFormula::Any(vars, inner)),
        RawNumber::Exactly(count) => Ok(NamedFormula::Number(Cmp::Eq, count.value, vars, inner)),
        RawNumber::Compared(sign, _, count) => Ok(NamedFormula::Number(
            comparison_of(*sign),
            count.value,
            vars,
            inner,
        )),
    }
}

/// An aggregate over these variables.
pub fn aggregated(
    alloc: Global,
    place: usize,
    kind: AggKind,
    vars: Items<NamedVar>,
    condition: NamedFormula,
    weight: NamedTerm,
) -> Result<NamedTerm, Memory>
    ensures { IfOk result (λ t. term_view t ≡ at place (aggregate kind (map var_view vars) (formula_view condition)
        (term_view weight))) }
{
    let condition = Box::new(alloc, condition)?;
    Ok(NamedTerm {
        place,
        node: NamedNode::Agg(kind, vars, condition, Box::new(alloc, weight)?),
    })
}
