//! Copies, with ample memory.
use crate::fixtures::{color, edge_and_color, integer_structure, variables, vocabulary};
use kb_logic::{
    BoundList, Definition, DefinitionList, Formula, FormulaList, LiteralList, Memory, Rule,
    RuleList, Term, TermList, Theory,
};
use std::alloc::Global;
use std::test::Fail;

fn member(alloc: Global) -> Result<Formula, Memory> {
    Ok(Formula::Atom(0, vec![in alloc; Term::Var(0)]?))
}

fn rule(alloc: Global) -> Result<Rule, Memory> {
    Ok(Rule {
        vars: BoundList::from_vec(variables(alloc, [1, 0])?),
        symbol: 0,
        args: TermList::from_vec(vec![in alloc; Term::Var(0)]?),
        value: Some(Term::Int(1)),
        has_body: true,
        body: member(alloc)?,
    })
}

fn definition(alloc: Global) -> Result<Definition, Memory> {
    Ok(Definition {
        rules: RuleList::from_vec(vec![in alloc; rule(alloc)?]?),
    })
}

fn theory(alloc: Global) -> Result<Theory, Memory> {
    Ok(Theory {
        sentences: FormulaList::from_vec(vec![in alloc; member(alloc)?]?),
        definitions: DefinitionList::from_vec(vec![in alloc; definition(alloc)?]?),
    })
}

fn rule_count(theory: &Theory) -> usize {
    match theory.definitions.get(0) {
        Some(definition) => definition.rules.len(),
        None => 0,
    }
}

fn theory_is_copied(alloc: Global) -> Result<bool, Memory> {
    let same = theory(alloc)?.copy(alloc)?;
    Ok((same.sentences.len() == 1) & (rule_count(&same) == 1))
}

fn vocabulary_is_copied(alloc: Global) -> Result<bool, Memory> {
    let vocab = vocabulary(alloc, edge_and_color(alloc)?)?;
    match vocab.copy(alloc) {
        Ok(same) => Ok(same.symbols.len() == 2),
        Err(stop) => Err(stop),
    }
}

fn structure_is_copied(alloc: Global) -> Result<bool, Memory> {
    let m = integer_structure(alloc, &[1, 2])?;
    match m.copy(alloc) {
        Ok(same) => Ok(same.relations.len() == 1),
        Err(stop) => Err(stop),
    }
}

fn literals_are_copied(alloc: Global) -> Result<bool, Memory> {
    let literal = color(alloc, b"b", b"Red")?;
    let literals = LiteralList::from_vec(vec![in alloc; literal]?);
    let same = literals.copy(alloc)?;
    Ok(same.get(1).is_none() & (same.len() == 1))
}

#[test]
fn copies_are_made(rt: HostRuntime) -> Result<(), Fail> {
    assert!(rt; theory_is_copied(rt.alloc())?);
    assert!(rt; vocabulary_is_copied(rt.alloc())?);
    assert!(rt; structure_is_copied(rt.alloc())?);
    assert!(rt; literals_are_copied(rt.alloc())?);
    Ok(())
}
