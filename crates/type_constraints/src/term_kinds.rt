//! Where the types of terms come from.
ghost use Rattle.std.specs.Prelude.{◌≡◌, ◌++◌, ◌∷◌, [], map, slice_get, OnOk};
ghost use Rattle.stage_definitions.specs.Demands as said;
ghost use Rattle.stage_definitions.specs.NamedViews.{term_view, signed_view};
ghost use Rattle.stage_definitions.specs.NamedTrees.{summands_of, place_of};
ghost use Rattle.type_constraints.specs.PartViews.{kind_view, demand_view, part_view, type_view};

use crate::constraints::{Demand, Kind, Part, TermType};
use kb_logic::{Cmp, Memory, Symbol};
use stage_definitions::{NamedNode, NamedSigned, NamedTerm};

/// The type of a function's value.
fn value_type(symbols: &[Symbol], function: u32) -> Option<u32>
    ensures { result ≡ said.value_type (slice_get symbols.now function) }
{
    match symbols.get(function as usize) {
        Some(symbol) => symbol.value,
        None => None,
    }
}

fn known(ty: Option<u32>) -> TermType
    ensures { type_view result ≡ said.known ty }
{
    match ty {
        Some(ty) => TermType::Declared(ty),
        None => TermType::Untyped,
    }
}

fn kind_of(symbols: &[Symbol], term: &NamedTerm) -> Kind
    ensures { kind_view result ≡ said.kind_of symbols.now (term_view term.now) }
{
    match &term.node {
        NamedNode::Var(n) => Kind::Variable(*n),
        NamedNode::Made(ty, _) => Kind::ByItself(TermType::Declared(*ty)),
        NamedNode::Apply(function, _) => Kind::ByItself(known(value_type(symbols, *function))),
        NamedNode::Int(_) => Kind::ByItself(TermType::Int),
        NamedNode::Sum(_) => Kind::ByItself(TermType::Int),
        NamedNode::Product(_) => Kind::ByItself(TermType::Int),
        NamedNode::Agg(_, _, _, _) => Kind::ByItself(TermType::Int),
    }
}

fn is_plain_integer(term: &NamedTerm) -> bool
    ensures { result ≡ said.is_plain_integer (term_view term.now) }
{
    match &term.node {
        NamedNode::Int(_) => true,
        NamedNode::Var(_) => false,
        NamedNode::Made(_, _) => false,
        NamedNode::Apply(_, _) => false,
        NamedNode::Sum(_) => false,
        NamedNode::Product(_) => false,
        NamedNode::Agg(_, _, _, _) => false,
    }
}

fn is_lone_integer(operands: &[NamedSigned]) -> bool
    ensures { result ≡ said.is_lone_integer (summands_of (map signed_view operands.now)) }
{
    match operands {
        [] => false,
        [operand] => is_plain_integer(&operand.term),
        [_, _, ..] => false,
    }
}

fn is_integer(term: &NamedTerm) -> bool
    ensures { result ≡ said.is_integer_term (term_view term.now) }
{
    match &term.node {
        NamedNode::Int(_) => true,
        NamedNode::Sum(operands) => is_lone_integer(operands),
        NamedNode::Var(_) => false,
        NamedNode::Made(_, _) => false,
        NamedNode::Apply(_, _) => false,
        NamedNode::Product(_) => false,
        NamedNode::Agg(_, _, _, _) => false,
    }
}

fn argument(symbols: &[Symbol], of_function: bool, term: &NamedTerm, ty: u32) -> Demand
    ensures { demand_view result ≡ said.argument_of symbols.now of_function (term_view term.now) ty }
{
    let kind = kind_of(symbols, term);
    if of_function {
        Demand::OfFunction(term.place, is_integer(term), kind, ty)
    } else {
        Demand::OfPredicate(term.place, kind, ty)
    }
}

/// The demand on an argument of a function, or else of a predicate, at the first of these positions.
pub fn demand_position(
    symbols: &[Symbol],
    of_function: bool,
    term: &NamedTerm,
    types: &[u32],
    out: &mut Vec<Part>,
) -> Result<(), Memory>
    ensures { OnOk result (map part_view out.new.items ≡ map part_view out.old.items ++ said.argument_demands
        symbols.now of_function (term_view term.now) types.now) }
{
    if let Some(ty) = types.first() {
        out.push(Part::Demand(argument(symbols, of_function, term, *ty)))?;
    }
    Ok(())
}

fn head_value(symbols: &[Symbol], value: &NamedTerm, ty: u32) -> Demand
    ensures { demand_view result ≡ said.head_value (place_of (term_view value.now)) (said.kind_of symbols.now
        (term_view value.now)) ty }
{
    Demand::OfHead(value.place, kind_of(symbols, value), ty)
}

/// The demand on the value of a head of this function.
pub fn demand_value(
    symbols: &[Symbol],
    function: u32,
    value: &NamedTerm,
    out: &mut Vec<Part>,
) -> Result<(), Memory>
    ensures { OnOk result (map part_view out.new.items ≡ map part_view out.old.items ++ said.value_demands symbols.now
        (said.value_type (slice_get symbols.now function)) (term_view value.now)) }
{
    if let Some(ty) = value_type(symbols, function) {
        out.push(Part::Demand(head_value(symbols, value, ty)))?;
    }
    Ok(())
}

fn number(symbols: &[Symbol], term: &NamedTerm) -> Part
    ensures { part_view result ≡ said.number_demand symbols.now (term_view term.now) }
{
    Part::Demand(Demand::Number(term.place, kind_of(symbols, term)))
}

/// The demand that a term is a number.
pub fn demand_number(
    symbols: &[Symbol],
    term: &NamedTerm,
    out: &mut Vec<Part>,
) -> Result<(), Memory>
    ensures { OnOk result (map part_view out.new.items ≡ map part_view out.old.items ++ said.number_demand symbols.now
        (term_view term.now) ∷ []) }
{
    out.push(number(symbols, term))?;
    Ok(())
}

fn is_order(cmp: Cmp) -> bool
    ensures { result ≡ said.is_order cmp }
{
    match cmp {
        Cmp::Eq => false,
        Cmp::Ne => false,
        Cmp::Lt => true,
        Cmp::Gt => true,
        Cmp::Le => true,
        Cmp::Ge => true,
    }
}

fn demand_order(
    symbols: &[Symbol],
    ordered: bool,
    left: &NamedTerm,
    right: &NamedTerm,
    out: &mut Vec<Part>,
) -> Result<(), Memory>
    ensures { OnOk result (map part_view out.new.items ≡ map part_view out.old.items ++ said.order_demands symbols.now
        ordered (term_view left.now) (term_view right.now)) }
{
    if ordered {
        out.push(number(symbols, left))?;
        out.push(number(symbols, right))?;
    }
    Ok(())
}

/// The demands of a comparison on its sides.
pub fn demand_comparison(
    symbols: &[Symbol],
    cmp: Cmp,
    left: &NamedTerm,
    right: &NamedTerm,
    out: &mut Vec<Part>,
) -> Result<(), Memory>
    ensures { OnOk result (map part_view out.new.items ≡ map part_view out.old.items ++ said.comparison_demands
        symbols.now cmp (term_view left.now) (term_view right.now)) }
{
    let sides = Demand::Sides(left.place, kind_of(symbols, left), kind_of(symbols, right));
    out.push(Part::Demand(sides))?;
    demand_order(symbols, is_order(cmp), left, right, out)
}
