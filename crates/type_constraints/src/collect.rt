//! What a formula demands of the types of its terms.
ghost use Rattle.std.specs.Prelude.{◌≡◌, ◌++◌, ◌∷◌, [], map, OnOk, IfOk};
ghost use Rattle.stage_definitions.specs.Demands as said;
ghost use Rattle.stage_definitions.specs.NamedTrees as tree;
ghost use Rattle.stage_definitions.specs.NamedViews.{formula_view, node_view, signed_view, term_view, var_view};
ghost use Rattle.type_constraints.specs.PartViews.{binding_view, part_view};

use crate::constraints::{Binding, Finding, Part};
use crate::term_kinds::{demand_comparison, demand_number, demand_position};
use kb_logic::{Memory, Symbol};
use stage_definitions::{
    NamedFormula, NamedNode, NamedSigned, NamedTerm, NamedVar, argument_types,
};
use std::alloc::Global;

fn binding(var: &NamedVar) -> Binding
    ensures { binding_view result ≡ said.binding_of (var_view var.now) }
{
    match var.ty {
        Some(ty) => Binding {
            place: var.place,
            finding: Finding::Found(ty),
        },
        None => Binding {
            place: var.place,
            finding: Finding::Nothing,
        },
    }
}

pub fn bindings(alloc: Global, vars: &[NamedVar]) -> Result<Vec<Binding>, Memory>
    ensures { IfOk result (λ bs. map binding_view bs.items ≡ map said.binding_of (map var_view vars.now)) }
{
    let mut bindings = Vec::new(alloc);
    for var in vars {
        bindings.push(binding(var))?;
    }
    Ok(bindings)
}

/// Adds what a formula demands.
#[cycle(list)]
pub fn formula(
    alloc: Global,
    symbols: &[Symbol],
    named: &NamedFormula,
    out: &mut Vec<Part>,
) -> Result<(), Memory>
    ensures { OnOk result (map part_view out.new.items ≡ map part_view out.old.items ++ said.formula_parts symbols.now
        (formula_view named.now)) }
{
    match named {
        NamedFormula::Truth(_) => Ok(()),
        NamedFormula::Atom(symbol, args) => {
            arguments(
                alloc,
                symbols,
                false,
                argument_types(symbols, *symbol),
                args,
                out,
            )
        }
        NamedFormula::Compare(cmp, left, right) => {
            demand_comparison(symbols, *cmp, left, right, out)?;
            term(alloc, symbols, left, out)?;
            term(alloc, symbols, right, out)
        }
        NamedFormula::Not(inner) => formula(alloc, symbols, inner, out),
        NamedFormula::And(operands) | NamedFormula::Or(operands) => {
            formulas(alloc, symbols, operands, out)
        }
        NamedFormula::Implies(left, right) | NamedFormula::Iff(left, right) => {
            formula(alloc, symbols, left, out)?;
            formula(alloc, symbols, right, out)
        }
        NamedFormula::All(vars, inner)
        | NamedFormula::Any(vars, inner)
        | NamedFormula::Number(_, _, vars, inner) => {
            scope(alloc, symbols, vars.as_slice(), inner, out)
        }
    }
}

#[cycle(list)]
fn scope(
    alloc: Global,
    symbols: &[Symbol],
    vars: &[NamedVar],
    inner: &NamedFormula,
    out: &mut Vec<Part>,
) -> Result<(), Memory>
    ensures { OnOk result (map part_view out.new.items ≡ map part_view out.old.items ++ said.scope
        (map said.binding_of (map var_view vars.now)) (said.parts_of
        (said.formula_parts symbols.now (formula_view inner.now))) ∷ []) }
{
    let bindings = bindings(alloc, vars)?;
    let mut parts = Vec::new(alloc);
    formula(alloc, symbols, inner, &mut parts)?;
    out.push(Part::Scope(bindings, parts))?;
    Ok(())
}

#[cycle(list)]
fn formulas(
    alloc: Global,
    symbols: &[Symbol],
    named: &[NamedFormula],
    out: &mut Vec<Part>,
) -> Result<(), Memory>
    ensures { OnOk result (map part_view out.new.items ≡ map part_view out.old.items ++ said.formulas_parts symbols.now
        (tree.formulas_of (map formula_view named.now))) }
{
    for operand in named {
        formula(alloc, symbols, operand, out)?;
    }
    Ok(())
}

/// Adds what a term's parts demand.
#[cycle(list)]
pub fn term(
    alloc: Global,
    symbols: &[Symbol],
    named: &NamedTerm,
    out: &mut Vec<Part>,
) -> Result<(), Memory>
    ensures { OnOk result (map part_view out.new.items ≡ map part_view out.old.items ++ said.term_parts symbols.now
        (term_view named.now)) }
{
    match &named.node {
        NamedNode::Var(_) => Ok(()),
        NamedNode::Int(_) => Ok(()),
        NamedNode::Made(_, _) => Ok(()),
        NamedNode::Apply(function, args) => {
            arguments(
                alloc,
                symbols,
                true,
                argument_types(symbols, *function),
                args,
                out,
            )
        }
        NamedNode::Sum(operands) => summands(alloc, symbols, operands, out),
        NamedNode::Product(operands) => factors(alloc, symbols, operands, out),
        NamedNode::Agg(_, vars, condition, weight) => {
            let bindings = bindings(alloc, vars.as_slice())?;
            let mut parts = Vec::new(alloc);
            formula(alloc, symbols, condition, &mut parts)?;
            demand_number(symbols, weight, &mut parts)?;
            term(alloc, symbols, weight, &mut parts)?;
            out.push(Part::Scope(bindings, parts))?;
            Ok(())
        }
    }
}

/// Adds what the arguments of a function, or else of a predicate, demand at positions of these types.
#[cycle(list)]
pub fn arguments(
    alloc: Global,
    symbols: &[Symbol],
    of_function: bool,
    types: &[u32],
    args: &[NamedTerm],
    out: &mut Vec<Part>,
) -> Result<(), Memory>
    ensures { OnOk result (map part_view out.new.items ≡ map part_view out.old.items ++ said.arguments_parts symbols.now
        of_function types.now (tree.terms_of (map term_view args.now))) }
{
    let (_, mut types) = types.split_at(0);
    for arg in args {
        demand_position(symbols, of_function, arg, types, out)?;
        term(alloc, symbols, arg, out)?;
        types = later(types);
    }
    Ok(())
}

#[cycle(list)]
fn factors(
    alloc: Global,
    symbols: &[Symbol],
    operands: &[NamedTerm],
    out: &mut Vec<Part>,
) -> Result<(), Memory>
    ensures { OnOk result (map part_view out.new.items ≡ map part_view out.old.items ++ said.factors_parts symbols.now
        (tree.terms_of (map term_view operands.now))) }
{
    for operand in operands {
        demand_number(symbols, operand, out)?;
        term(alloc, symbols, operand, out)?;
    }
    Ok(())
}

#[cycle(list)]
fn summands(
    alloc: Global,
    symbols: &[Symbol],
    operands: &[NamedSigned],
    out: &mut Vec<Part>,
) -> Result<(), Memory>
    ensures { OnOk result (map part_view out.new.items ≡ map part_view out.old.items ++ said.summands_parts symbols.now
        (tree.summands_of (map signed_view operands.now))) }
{
    for operand in operands {
        demand_number(symbols, &operand.term, out)?;
        term(alloc, symbols, &operand.term, out)?;
    }
    Ok(())
}

fn later(types: &[u32]) -> &[u32]
    ensures { result.now ≡ said.later_types types.now }
{
    match types.split_first() {
        Some((_, later)) => later,
        None => types,
    }
}
