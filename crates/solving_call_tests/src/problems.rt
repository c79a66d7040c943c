//! Sums of ground problems, normal forms and the order of ground atoms.
ghost use Rattle.std.specs.Prelude.{IsTrue};
ghost use Rattle.ground_core.specs.Problems.{IsLitOf};

use ground_core::{AtomTable, Part, PartList, Problem};
use kb_logic::{
    AggKind, Elem, ElemList, ExtInt, Formula, Literal, LiteralList, Memory, Name, NumberList,
    Symbol,
};
use lit_core::{Lit, Var};
use normal_forms::nnf;
use std::alloc::Global;
use std::test::Fail;

/// Whether the literal has a variable of the problem.
fn is_over(problem: &Problem, lit: Lit) -> bool
    ensures { IsTrue result → IsLitOf problem.now.vars lit }
{
    1 <= lit.var.0 && lit.var.0 <= problem.vars()
}

/// The problem of one proposition.
fn one_atom(alloc: Global) -> Result<Problem, Memory> {
    let mut list = LiteralList::new(alloc);
    list.push(Literal {
        positive: true,
        symbol: 0,
        args: ElemList::new(alloc),
        value: None,
    })?;
    Ok(Problem::new(alloc, AtomTable::from_list(list)))
}

/// Says that the next variable is true exactly where the weight 5 of 1 comes to 3. How many sums there are then.
fn sum_count(alloc: Global, problem: &mut Problem) -> Result<usize, Memory> {
    let lit = Lit {
        var: Var(1),
        positive: true,
    };
    if is_over(problem, lit) {
        let mut parts = Vec::new(alloc);
        parts.push(Part { lit, weight: 5 })?;
        let _ = problem.add_sum(AggKind::Sum, PartList::from_vec(parts), ExtInt::Num(3))?;
    }
    Ok(problem.sums().len())
}

#[test]
fn a_sum_is_kept(rt: HostRuntime) -> Result<(), Fail> {
    let mut problem = one_atom(rt.alloc())?;
    assert!(rt; sum_count(rt.alloc(), &mut problem)? == 1);
    assert!(rt; problem.vars() == 2);
    Ok(())
}

/// `~(p & (q => ~p))`.
fn denied(alloc: Global) -> Result<Formula, Memory> {
    let not_p = Formula::Not(Box::new(alloc, Formula::Atom(0, Vec::new(alloc)))?);
    let implies = Formula::Implies(
        Box::new(alloc, Formula::Atom(1, Vec::new(alloc)))?,
        Box::new(alloc, not_p)?,
    );
    let mut parts = Vec::new(alloc);
    parts.push(Formula::Atom(0, Vec::new(alloc)))?;
    parts.push(implies)?;
    Ok(Formula::Not(Box::new(alloc, Formula::And(parts))?))
}

/// Whether the formula is a disjunction of a negation and a conjunction.
fn is_normal(formula: &Formula) -> bool {
    match formula {
        Formula::Or(parts) => match parts.as_slice() {
            [first, second] => matches!(first, Formula::Not(_))
                && matches!(second, Formula::And(_)),
            _ => false,
        },
        _ => false,
    }
}

fn has_normal_form(alloc: Global, formula: &Formula) -> bool {
    match nnf(alloc, formula) {
        Ok(normal) => is_normal(&normal),
        Err(_) => false,
    }
}

/// It is `~p | (q & p)`.
#[test]
fn negations_go_to_the_atoms(rt: HostRuntime) -> Result<(), Fail> {
    let formula = denied(rt.alloc())?;
    assert!(rt; has_normal_form(rt.alloc(), &formula));
    Ok(())
}

fn number_of(elem: &Elem) -> i64 {
    match elem {
        Elem::Num(n) => *n,
        Elem::Named(_) => -1,
    }
}

/// The atom's symbol, arguments and value as digits.
fn digits_of(atom: &Literal) -> i64 {
    let mut digits = i64::from(atom.symbol);
    for arg in atom.args.as_slice() {
        digits = digits.wrapping_mul(10).wrapping_add(number_of(arg));
    }
    match &atom.value {
        Some(value) => digits.wrapping_mul(10).wrapping_add(number_of(value)),
        None => digits,
    }
}

/// Whether these are the atoms, as digits.
fn are_atoms(atoms: &[Literal], digits: &[i64]) -> bool {
    if atoms.len() != digits.len() {
        return false;
    }
    for place in 0..digits.len() {
        if digits_of(&atoms[place]) != digits[place] {
            return false;
        }
    }
    true
}

/// A symbol of arguments and a value of these types.
fn symbol(alloc: Global, args: &[u32], value: Option<u32>) -> Result<Symbol, Memory> {
    Ok(Symbol {
        name: Name::new(alloc, b"s")?,
        args: NumberList::from_vec(Vec::from_slice(alloc, args)?),
        value,
    })
}

/// These two integers as elements.
fn pair(alloc: Global, members: [i64; 2]) -> Result<ElemList, Memory> {
    let [first, second] = members;
    Ok(ElemList::from_vec(vec![in alloc; Elem::Num(first), Elem::Num(second)]?))
}

/// The atoms of a predicate P over two types, and of a function f of the first to the second.
fn table_of_two(alloc: Global) -> Result<AtomTable, Memory> {
    let symbols = [symbol(alloc, &[0, 1], None)?, symbol(alloc, &[0], Some(1))?];
    let domains = [pair(alloc, [1, 2])?, pair(alloc, [7, 8])?];
    AtomTable::over(alloc, &symbols, &domains)
}

/// A list of the atoms, from a copy of their table.
fn atoms_of_two(alloc: Global) -> Result<LiteralList, Memory> {
    let table = table_of_two(alloc)?;
    table.copy(alloc)?.list(alloc)
}

#[test]
fn atoms_stand_in_domain_order(rt: HostRuntime) -> Result<(), Fail> {
    let atoms = atoms_of_two(rt.alloc())?;
    assert!(rt; are_atoms(atoms.as_slice(), &[17, 18, 27, 28, 117, 118, 127, 128]));
    Ok(())
}
