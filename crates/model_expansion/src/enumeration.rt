//! Several models, each but the first under exclusions of those before it.
ghost use Rattle.std.specs.Prelude.{◌≡◌, ◌+◌, ◌<◌, ◌++◌, ◌∷◌, [], length, All, IfOk, IfErr, OnOk, OnErr};
ghost use Rattle.ground_core.specs.Problems.{AreLitsOf};
ghost use Rattle.ground_core.specs.Growth.{next_lit};
ghost use Rattle.ground_core.specs.Growing.{excluded};
ghost use Rattle.ground_core.specs.Solving.{IsBudgetOf, AreUnretired, HaltedAt, HasCoreWithin, IsKept};
ghost use Rattle.ground_core.specs.Calls.{Keeps, CountsUpTo, Costs, GrowsByAdditions};
ghost use Rattle.model_expansion.specs.Exclusions.{Excludes};
ghost use Rattle.model_expansion.specs.Enumerations.{FindsSeveral, AddsExclusions, IsEmptyAtOnce, Gathers, Ends};
ghost use Rattle.model_expansion.specs.Enumerations.{IsAllAtOnce};

use crate::found::Several;
use ground_core::{Budget, Grow, Halt, Memory};
use kb_logic::ListOf;
use lit_core::{Lit, Values};
use model_search::{model_of, retire_each};
use std::alloc::Global;

/// Excludes these values, and keeps them and the selector. Room is made before, so that no selector
/// is made that is not kept.
fn exclude<S: Grow>(
    s: &mut S,
    assumed: &mut Vec<Lit>,
    found: &mut Vec<Values>,
    values: Values,
) -> Result<(), Memory>
    requires atoms { length (S.state s.old).problem.atoms < length values }
    requires kept { IsKept (S.state s.old) }
    ensures excluded { OnOk result (S.state s.new ≡ excluded (S.state s.old) values) }
    ensures assumed { OnOk result (assumed.new.items ≡ assumed.old.items ++ next_lit (S.state s.old).problem ∷ []) }
    ensures found { OnOk result (found.new.items ≡ found.old.items ++ values ∷ []) }
    ensures state_same { OnErr result (S.state s.new ≡ S.state s.old) }
    ensures assumed_same { OnErr result (assumed.new.items ≡ assumed.old.items) }
    ensures found_same { OnErr result (found.new.items ≡ found.old.items) }
    ensures kept { IsKept (S.state s.new) }
    ensures later { S.goes_on s.old s.new }
{
    assumed.reserve(1)?;
    found.reserve(1)?;
    let selector = s.exclude(&values)?;
    assumed.push_reserved(selector);
    found.push_reserved(values);
    Ok(())
}

/// Finds up to `n` models and tells whether they are all. The selectors of their exclusions are left
/// in force, and are added to what is assumed.
fn gather<S: Grow>(
    s: &mut S,
    n: u32,
    assumed: &mut Vec<Lit>,
    found: &mut Vec<Values>,
    budget: &mut Budget,
) -> Result<bool, Halt>
    requires literals { AreLitsOf (S.state s.old).problem.vars assumed.old.items }
    requires unretired { AreUnretired (S.state s.old).problem assumed.old.items }
    requires none { found.old.items ≡ [] }
    requires budget { IsBudgetOf (S.state s.old).learnt budget.old }
    requires kept { IsKept (S.state s.old) }
    ensures gathers { Gathers assumed.old.items n (S.state s.old) (S.state s.new) assumed.new.items found.new.items }
    ensures ends { IfOk result (Ends (S.state s.old).problem assumed.old.items n (S.state s.new).cores
        found.new.items) }
    ensures halt { IfErr result (HaltedAt budget.new) }
    ensures keeps { Keeps (S.state s.old) (S.state s.new) budget.old budget.new }
    ensures counts { CountsUpTo ((S.state s.old).free + n) (n + 1) (S.state s.old)
        (S.state s.new) budget.old budget.new }
    ensures decided { HasCoreWithin (S.state s.old).cores assumed.old.items
        → IsAllAtOnce (S.state s.old) (S.state s.new) found.new.items result }
    ensures kept { IsKept (S.state s.new) }
    ensures later { S.goes_on s.old s.new }
{
    for _number in 0..n {
        match model_of(s, assumed.as_slice(), budget) {
            Ok(Some(values)) => match exclude(s, assumed, found, values) {
                Ok(()) => {}
                Err(_) => return Err(Halt::Memory),
            },
            Ok(None) => return Ok(true),
            Err(halt) => return Err(halt),
        }
    }
    match model_of(s, assumed.as_slice(), budget) {
        Ok(Some(_)) => Ok(false),
        Ok(None) => Ok(true),
        Err(halt) => Err(halt),
    }
}

/// At most `n` models where the problem and what is assumed hold, no two with the same ground atoms,
/// and whether there is no other. Each search but the first stands under exclusions of the models
/// found before; their selectors are retired in the end, also where the call halts.
pub fn several<S: Grow>(
    alloc: Global,
    s: &mut S,
    assume: &[Lit],
    n: u32,
    budget: &mut Budget,
) -> Result<Several, Halt>
    requires literals { AreLitsOf (S.state s.old).problem.vars assume.now }
    requires unretired { AreUnretired (S.state s.old).problem assume.now }
    requires budget { IsBudgetOf (S.state s.old).learnt budget.old }
    ensures finds { IfOk result (FindsSeveral (S.state s.old).problem assume.now n (S.state s.new).cores) }
    ensures excludes { IfOk result (λ several. Excludes several.found (S.state s.old) (S.state s.new)) }
    ensures halt { IfErr result (HaltedAt budget.new) }
    ensures adds { AddsExclusions assume.now n (S.state s.old) (S.state s.new) }
    ensures grows { GrowsByAdditions (S.state s.old).problem (S.state s.new).problem }
    ensures keeps { Keeps (S.state s.old) (S.state s.new) budget.old budget.new }
    ensures costs { Costs (n + 1) (S.state s.old) (S.state s.new) budget.old budget.new }
    ensures decided { HasCoreWithin (S.state s.old).cores assume.now → IsEmptyAtOnce (S.state s.old)
        (S.state s.new) result }
    ensures kept { IsKept (S.state s.new) }
    ensures later { S.goes_on s.old s.new }
{
    s.known();
    let Ok(mut assumed) = Vec::from_slice(alloc, assume) else {
        return Err(Halt::Memory);
    };
    let mut found = Vec::new(alloc);
    let told = gather(s, n, &mut assumed, &mut found, budget);
    let (_, selectors) = assumed.as_slice().split_at(assume.len());
    retire_each(s, selectors);
    match told {
        Ok(complete) => Ok(Several {
            found: ListOf::from_vec(found),
            complete,
        }),
        Err(halt) => Err(halt),
    }
}
