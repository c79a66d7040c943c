//! `truth` and `decimal`.
ghost use Rattle.std.specs.Prelude.{IfOk};
ghost use Rattle.kb_logic.specs.Arithmetic.{HasNoArithmetic};
ghost use Rattle.kb_logic.specs.Views.{formula_view};

use crate::fixtures::{integer_structure, variables};
use kb_logic::{Bound, Cmp, ExtInt, Formula, Memory, Structure, Term, decimal};
use plain_evaluation::truth;
use std::alloc::Global;
use std::test::Fail;

#[derive(Clone, Copy)]
enum Prefix {
    Every,
    Some,
    Exactly(i64),
}

/// A quantifier over so many variables of type 0 and then of type 1 says of the variable with this number that it is
/// 1 or 2, and whether that is true.
type Case = (Prefix, [usize; 2], u32, bool);

/// Over the integers 1, 2 and 3, and over nothing.
const SMALL: [Case; 7] = [
    (Prefix::Every, [1, 0], 0, false),
    (Prefix::Some, [1, 0], 0, true),
    (Prefix::Every, [0, 1], 0, true),
    (Prefix::Some, [0, 1], 0, false),
    (Prefix::Exactly(2), [1, 0], 0, true),
    (Prefix::Exactly(3), [1, 0], 0, false),
    (Prefix::Exactly(6), [2, 0], 1, true),
];

/// 64 variables over two integers and one over nothing: no assignment, though a `u64` cannot count those of the first
/// 64.
const NO_ASSIGNMENT: [Case; 4] = [
    (Prefix::Every, [64, 1], 0, true),
    (Prefix::Some, [64, 1], 0, false),
    (Prefix::Exactly(0), [64, 1], 0, true),
    (Prefix::Exactly(1), [200, 3], 0, false),
];

/// Over the one integer 1.
const LONG: [Case; 2] = [
    (Prefix::Every, [600_000, 0], 599_999, true),
    (Prefix::Exactly(1), [600_000, 0], 599_999, true),
];

/// The predicate 0 of the variable with this number.
fn member(alloc: Global, number: u32) -> Result<Formula, Memory>
    ensures { IfOk result (λ f. HasNoArithmetic (formula_view f)) }
{
    Ok(Formula::Atom(0, vec![in alloc; Term::Var(number)]?))
}

fn quantified(prefix: Prefix, bounds: Vec<Bound>, body: Box<Formula>) -> Formula
    requires { HasNoArithmetic (formula_view body.value) }
    ensures { HasNoArithmetic (formula_view result) }
{
    match prefix {
        Prefix::Every => Formula::All(bounds, body),
        Prefix::Some => Formula::Any(bounds, body),
        Prefix::Exactly(n) => Formula::Number(Cmp::Eq, n, bounds, body),
    }
}

#[tactic(auto, using(crate::proofs::Fits::truth_fits))]
fn is_true(m: &Structure, f: &Formula) -> bool
    requires { HasNoArithmetic (formula_view f.now) }
{
    truth(m, f)
}

/// Whether the case comes out as it should.
fn holds(m: &Structure, alloc: Global, case: &Case) -> Result<bool, Memory> {
    let (prefix, counts, number, want) = *case;
    let bounds = variables(alloc, counts)?;
    let body = Box::new(alloc, member(alloc, number)?)?;
    Ok(is_true(m, &quantified(prefix, bounds, body)) == want)
}

fn all_hold_in(m: &Structure, alloc: Global, cases: &[Case]) -> Result<bool, Memory> {
    for case in cases {
        if !holds(m, alloc, case)? {
            return Ok(false);
        }
    }
    Ok(true)
}

/// Whether each case does over these integers.
fn all_hold(alloc: Global, members: &[i64], cases: &[Case]) -> Result<bool, Memory> {
    let m = integer_structure(alloc, members)?;
    all_hold_in(&m, alloc, cases)
}

/// Integers, and cases over them.
const GROUPS: [(&[i64], &[Case]); 3] = [
    (&[1, 2, 3], &SMALL),
    (&[1, 2], &NO_ASSIGNMENT),
    (&[1], &LONG),
];

#[test]
fn quantifiers_go_over_the_domain(rt: HostRuntime) -> Result<(), Fail> {
    for (members, cases) in &GROUPS {
        assert!(rt; all_hold(rt.alloc(), members, cases)?);
    }
    Ok(())
}

const NUMBERS: [ExtInt; 6] = [
    ExtInt::Num(0),
    ExtInt::Num(-5),
    ExtInt::Num(i64::MAX),
    ExtInt::Num(i64::MIN),
    ExtInt::NegInf,
    ExtInt::PosInf,
];

fn decimals(alloc: Global) -> Result<Vec<u8>, Memory> {
    let mut out = Vec::new(alloc);
    for n in &NUMBERS {
        decimal(&mut out, *n)?;
        out.push(b' ')?;
    }
    Ok(out)
}

#[test]
fn decimals_have_signs(rt: HostRuntime) -> Result<(), Fail> {
    let want = b"0 -5 9223372036854775807 -9223372036854775808 -inf +inf ";
    assert!(rt; decimals(rt.alloc())?.as_slice() == want.as_slice());
    Ok(())
}
