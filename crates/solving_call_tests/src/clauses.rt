//! Literals, clauses and values.
use lit_core::{Assignment, Clause, ClauseList, Lit, Memory, Values, Var};
use std::alloc::Global;
use std::test::Fail;

/// Literals of which the first four stand within a clause, without memory of its own.
const LITS: [Lit; 5] = [
    Lit {
        var: Var(0),
        positive: true,
    },
    Lit {
        var: Var(1),
        positive: false,
    },
    Lit {
        var: Var(2),
        positive: true,
    },
    Lit {
        var: Var(3),
        positive: false,
    },
    Lit {
        var: Var(4),
        positive: true,
    },
];

/// The five literals, the last of them pushed, and all copied.
fn five(alloc: Global) -> Result<Clause, Memory> {
    let mut clause = Clause::from_slice(alloc, &LITS[..4])?;
    clause.push(LITS[4])?;
    clause.copy(alloc)
}

#[test]
fn a_clause_of_four_literals_is_kept(rt: HostRuntime) -> Result<(), Fail> {
    let clause = five(rt.alloc())?;
    assert!(rt; clause.as_slice() == LITS.as_slice());
    Ok(())
}

/// A copy of the empty clause and one of one literal.
fn two_clauses(alloc: Global) -> Result<ClauseList, Memory> {
    let mut list = ClauseList::new(alloc);
    list.push(&[])?;
    list.push(&LITS[..1])?;
    list.copy(alloc)
}

/// Whether the two are read by their places, and the first is left by a cut.
fn are_read_by_place(list: &mut ClauseList) -> bool {
    let two = list.len() == 2 && list.get(2).is_none();
    let one = match list.get(1) {
        Some(clause) => clause.len() == 1,
        None => false,
    };
    list.truncate(1);
    two && one && list.len() == 1
}

#[test]
fn a_list_of_clauses_is_read_by_place(rt: HostRuntime) -> Result<(), Fail> {
    let mut list = two_clauses(rt.alloc())?;
    assert!(rt; are_read_by_place(&mut list));
    Ok(())
}

/// How many values a copy of two has.
fn copied_values(alloc: Global) -> Result<usize, Memory> {
    let values = Values::from_vec(vec![in alloc; true, false]?);
    Ok(values.copy(alloc)?.len())
}

/// How many variables the copy of an assignment has that was grown to two, and then to one.
fn grown(alloc: Global) -> Result<usize, Memory> {
    let mut assignment = Assignment::new(alloc);
    assignment.grow(2)?;
    assignment.grow(1)?;
    Ok(assignment.copy(alloc)?.len())
}

#[test]
fn values_and_assignments_are_copied(rt: HostRuntime) -> Result<(), Fail> {
    assert!(rt; copied_values(rt.alloc())? == 2);
    assert!(rt; grown(rt.alloc())? == 2);
    Ok(())
}
