//! The types of variables by their argument positions, and by the other sides of comparisons.
//!
//! Two passes over the constraints, and no iteration to a fixpoint: the first settles variables by the positions at which
//! they stand, the second those that are still open by the other sides of their comparisons. The second reads types as
//! they were before it, since a type that came from a side gives no other variable its type; so the order of the
//! constraints does not matter.
ghost use Rattle.std.specs.Prelude.{◌≡◌, ◌+◌, ◌++◌, drop, length, map, replicate, take, IfOk, OnOk};
ghost use Rattle.stage_definitions.specs.Below.{HasNoCycle, type_parents};
ghost use Rattle.stage_definitions.specs.Demands as said;
ghost use Rattle.stage_definitions.specs.Typing as typing;
ghost use Rattle.type_constraints.specs.Gathering.{after, gathered_at, gathered_in, given, part_by, parts_by};
ghost use Rattle.type_constraints.specs.Gathering.{settled_from};
ghost use Rattle.type_constraints.specs.PartViews.{binding_view, demand_view, finding_view, kind_view, part_view};
ghost use Rattle.type_constraints.specs.PartViews.{parts_view};

use crate::candidates::{see_at, settle, type_found, type_in};
use crate::constraints::{Binding, Demand, Finding, Kind, Part, TermType};
use kb_logic::{Memory, TypeDecl};
use std::alloc::Global;

/// What gives a variable its type: which pass it is.
#[derive(Clone, Copy)]
pub enum Source {
    Places,
    Sides,
}

fn see_side(
    types: &[TypeDecl],
    scope: &[Option<u32>],
    findings: &mut Vec<Finding>,
    side: Kind,
    other: Kind,
)
    ensures { map finding_view findings.new.items ≡ after types.now (λ n. typing.side_given scope.now n (kind_view side)
        (kind_view other)) 0 (map finding_view findings.old.items) }
{
    match type_in(scope, other) {
        TermType::Declared(ty) => see_at(types, findings, side, ty),
        TermType::Int => {}
        TermType::Untyped => {}
    }
}

fn see_demand(
    types: &[TypeDecl],
    source: Source,
    scope: &[Option<u32>],
    findings: &mut Vec<Finding>,
    demand: Demand,
)
    ensures { map finding_view findings.new.items ≡ after types.now (λ n. given source scope.now n (demand_view demand))
        0 (map finding_view findings.old.items) }
{
    match source {
        Source::Places => match demand {
            Demand::Number(_, _) => {}
            Demand::Sides(_, _, _) => {}
            Demand::OfPredicate(_, kind, ty) => see_at(types, findings, kind, ty),
            Demand::OfFunction(_, _, kind, ty) => see_at(types, findings, kind, ty),
            Demand::OfHead(_, kind, ty) => see_at(types, findings, kind, ty),
        },
        Source::Sides => match demand {
            Demand::Number(_, _) => {}
            Demand::Sides(_, left, right) => {
                see_side(types, scope, findings, left, right);
                see_side(types, scope, findings, right, left);
            }
            Demand::OfPredicate(_, _, _) => {}
            Demand::OfFunction(_, _, _, _) => {}
            Demand::OfHead(_, _, _) => {}
        },
    }
}

fn enter(
    scope: &mut Vec<Option<u32>>,
    findings: &mut Vec<Finding>,
    bindings: &[Binding],
) -> Result<(), Memory>
    ensures scope { OnOk result (scope.new.items ≡ typing.within scope.old.items (map binding_view bindings.now)) }
    ensures findings { OnOk result (map finding_view findings.new.items ≡ map finding_view findings.old.items
        ++ replicate (length bindings.now) said.nothing) }
{
    for binding in bindings {
        scope.push(type_found(binding.finding))?;
        findings.push(Finding::Nothing)?;
    }
    Ok(())
}

fn settle_each(
    alloc: Global,
    bindings: &[Binding],
    found: &[Finding],
) -> Result<Vec<Binding>, Memory>
    requires { length bindings.now ≡ length found.now }
    ensures { IfOk result (λ bs. map binding_view bs.items ≡ settled_from (map binding_view bindings.now)
        (map finding_view found.now)) }
{
    let mut settled = Vec::new(alloc);
    for (i, binding) in bindings.iter().enumerate() {
        settled.push(settle(*binding, found[i]))?;
    }
    Ok(settled)
}

fn leave(
    alloc: Global,
    scope: &mut Vec<Option<u32>>,
    findings: &mut Vec<Finding>,
    outer: usize,
    bindings: &[Binding],
) -> Result<Vec<Binding>, Memory>
    requires { length findings.old.items ≡ outer + length bindings.now }
    ensures scope { OnOk result (scope.new.items ≡ take outer scope.old.items) }
    ensures findings { OnOk result (findings.new.items ≡ take outer findings.old.items) }
    ensures bindings { IfOk result (λ bs. map binding_view bs.items ≡ settled_from (map binding_view bindings.now)
        (map finding_view (drop outer findings.old.items))) }
{
    let (_, found) = findings.split_at(outer);
    let settled = settle_each(alloc, bindings, found)?;
    findings.truncate(outer);
    scope.truncate(outer);
    Ok(settled)
}

#[cycle(gather)]
fn part(
    alloc: Global,
    types: &[TypeDecl],
    source: Source,
    scope: &mut Vec<Option<u32>>,
    findings: &mut Vec<Finding>,
    listed: &Part,
) -> Result<Part, Memory>
    requires acyclic { HasNoCycle (type_parents types.now) }
    requires aligned { length scope.old.items ≡ length findings.old.items }
    ensures part { IfOk result (λ p. part_view p ≡ part_by source types.now scope.old.items (part_view listed.now)) }
    ensures scope { OnOk result (scope.new.items ≡ scope.old.items) }
    ensures findings { OnOk result (map finding_view findings.new.items ≡ after types.now
        (λ n. gathered_at source scope.old.items n (part_view listed.now)) 0 (map finding_view findings.old.items)) }
{
    match listed {
        Part::Demand(demand) => {
            see_demand(types, source, scope, findings, *demand);
            Ok(Part::Demand(*demand))
        }
        Part::Scope(bindings, inner) => {
            let outer = findings.len();
            enter(scope, findings, bindings)?;
            let inner = parts(alloc, types, source, scope, findings, inner)?;
            let bindings = leave(alloc, scope, findings, outer, bindings)?;
            Ok(Part::Scope(bindings, inner))
        }
    }
}

#[cycle(gather)]
fn parts(
    alloc: Global,
    types: &[TypeDecl],
    source: Source,
    scope: &mut Vec<Option<u32>>,
    findings: &mut Vec<Finding>,
    listed: &[Part],
) -> Result<Vec<Part>, Memory>
    requires acyclic { HasNoCycle (type_parents types.now) }
    requires aligned { length scope.old.items ≡ length findings.old.items }
    ensures parts { IfOk result (λ ps. parts_view ps.items ≡ parts_by source types.now scope.old.items
        (parts_view listed.now)) }
    ensures scope { OnOk result (scope.new.items ≡ scope.old.items) }
    ensures findings { OnOk result (map finding_view findings.new.items ≡ after types.now
        (λ n. gathered_in source scope.old.items n (parts_view listed.now)) 0 (map finding_view findings.old.items)) }
{
    let mut gathered = Vec::new(alloc);
    for item in listed {
        gathered.push(part(alloc, types, source, scope, findings, item)?)?;
    }
    Ok(gathered)
}

/// The parts with all that is found of their variables' types.
pub fn settle_all(alloc: Global, types: &[TypeDecl], listed: &[Part]) -> Result<Vec<Part>, Memory>
    requires acyclic { HasNoCycle (type_parents types.now) }
    ensures { IfOk result (λ ps. parts_view ps.items ≡ typing.all_settled types.now (parts_view listed.now)) }
{
    let mut scope = Vec::new(alloc);
    let mut findings = Vec::new(alloc);
    let placed = parts(
        alloc,
        types,
        Source::Places,
        &mut scope,
        &mut findings,
        listed,
    )?;
    let mut scope = Vec::new(alloc);
    let mut findings = Vec::new(alloc);
    let settled = parts(
        alloc,
        types,
        Source::Sides,
        &mut scope,
        &mut findings,
        &placed,
    )?;
    Ok(settled)
}
