//! Nodes at their places, and chains of operands as one node.
ghost use Rattle.std.specs.Prelude.{◌≡◌, map};
ghost use Rattle.stage_definitions.specs.NamedTrees as tree;
ghost use Rattle.stage_definitions.specs.NamedViews.{formula_view, node_view, signed_view, term_view};

use stage_definitions::{NamedFormula, NamedNode, NamedSigned, NamedTerm};

pub fn any_of(operands: Vec<NamedFormula>) -> NamedFormula
    ensures { formula_view result ≡ tree.disjunction (tree.formulas_of (map formula_view operands.items)) }
{
    NamedFormula::Or(operands)
}

pub fn all_of(operands: Vec<NamedFormula>) -> NamedFormula
    ensures { formula_view result ≡ tree.conjunction (tree.formulas_of (map formula_view operands.items)) }
{
    NamedFormula::And(operands)
}

pub fn signed(minus: bool, term: NamedTerm) -> NamedSigned
    ensures { signed_view result ≡ (minus, term_view term) }
{
    NamedSigned { minus, term }
}

pub fn placed(place: usize, node: NamedNode) -> NamedTerm
    ensures { term_view result ≡ tree.at place (node_view node) }
{
    NamedTerm { place, node }
}

pub fn summed(place: usize, operands: Vec<NamedSigned>) -> NamedTerm
    ensures { term_view result ≡ tree.at place (tree.summation (tree.summands_of (map signed_view operands.items))) }
{
    NamedTerm {
        place,
        node: NamedNode::Sum(operands),
    }
}

pub fn multiplied(place: usize, operands: Vec<NamedTerm>) -> NamedTerm
    ensures { term_view result ≡ tree.at place (tree.product (tree.terms_of (map term_view operands.items))) }
{
    NamedTerm {
        place,
        node: NamedNode::Product(operands),
    }
}

pub fn place_of(term: &NamedTerm) -> usize
    ensures { result ≡ tree.place_of (term_view term.now) }
{
    term.place
}
