//! The refusals of the stage of types, where all is found that is found of variables' types.
ghost use Rattle.std.specs.Prelude.{◌≡◌, ◌++◌, fold, map, OnOk};
ghost use Rattle.stage_definitions.specs.TypedTrees.{chosen};
ghost use Rattle.stage_definitions.specs.TypesStage as stage;
ghost use Rattle.stage_definitions.specs.TypesStage.{type_noted};
ghost use Rattle.stage_definitions.specs.Typing as typing;
ghost use Rattle.type_constraints.specs.ChosenTypes.{types_among, types_at};
ghost use Rattle.type_constraints.specs.PartViews.{binding_view, demand_view, finding_view, part_view, parts_view};
ghost use Rattle.type_constraints.specs.PartViews.{type_view};

use crate::candidates::{type_found, type_in};
use crate::constraints::{Binding, Demand, Finding, Part, TermType};
use crate::subtypes::{are_akin, is_number_type, is_under};
use kb_logic::{Memory, TypeDecl};
use kb_text::K;
use stage_definitions::Earliest;

fn is_no_number(types: &[TypeDecl], ty: TermType) -> bool
    ensures { result ≡ stage.is_no_number types.now (type_view ty) }
{
    match ty {
        TermType::Int => false,
        TermType::Declared(ty) => !is_number_type(types, ty),
        TermType::Untyped => false,
    }
}

fn are_apart(types: &[TypeDecl], left: TermType, right: TermType) -> bool
    ensures { result ≡ stage.are_apart types.now (type_view left) (type_view right) }
{
    match left {
        TermType::Untyped => false,
        TermType::Int => is_no_number(types, right),
        TermType::Declared(ty) => match right {
            TermType::Untyped => false,
            TermType::Int => !is_number_type(types, ty),
            TermType::Declared(other) => !are_akin(types, ty, other),
        },
    }
}

fn is_misplaced(types: &[TypeDecl], integer: bool, ty: TermType, position: u32) -> bool
    ensures { result ≡ stage.is_misplaced types.now integer (type_view ty) position }
{
    match ty {
        TermType::Untyped => false,
        TermType::Int => !(integer && is_number_type(types, position)),
        TermType::Declared(ty) => !is_under(types, ty, position),
    }
}

fn is_unmet(types: &[TypeDecl], scope: &[Option<u32>], demand: Demand) -> bool
    ensures { result ≡ stage.is_unmet types.now scope.now (demand_view demand) }
{
    match demand {
        Demand::Number(_, kind) => is_no_number(types, type_in(scope, kind)),
        Demand::Sides(_, left, right) => {
            are_apart(types, type_in(scope, left), type_in(scope, right))
        }
        Demand::OfPredicate(_, kind, ty) => {
            are_apart(types, type_in(scope, kind), TermType::Declared(ty))
        }
        Demand::OfFunction(_, integer, kind, ty) => {
            is_misplaced(types, integer, type_in(scope, kind), ty)
        }
        Demand::OfHead(_, _, _) => false,
    }
}

fn place_of(demand: Demand) -> usize
    ensures { result ≡ stage.place_of_demand (demand_view demand) }
{
    match demand {
        Demand::Number(place, _) => place,
        Demand::Sides(place, _, _) => place,
        Demand::OfPredicate(place, _, _) => place,
        Demand::OfFunction(place, _, _, _) => place,
        Demand::OfHead(place, _, _) => place,
    }
}

fn note_demand(types: &[TypeDecl], scope: &[Option<u32>], demand: Demand, earliest: &mut Earliest)
    ensures { earliest.new.first ≡ type_noted types.now earliest.old.first
        (stage.demanded scope.now (demand_view demand)) }
{
    let unmet = is_unmet(types, scope, demand);
    earliest.note_if(unmet, K::TypeClash, place_of(demand));
}

fn note_binding(types: &[TypeDecl], binding: Binding, earliest: &mut Earliest)
    ensures { earliest.new.first ≡ type_noted types.now earliest.old.first (stage.binding (binding_view binding)) }
{
    let _count = types.len();
    match binding.finding {
        Finding::Nothing => earliest.note(K::Untyped, binding.place),
        Finding::Found(_) => {}
        Finding::Ambiguous => earliest.note(K::TypeClash, binding.place),
    }
}

fn chosen_type(finding: Finding) -> u32
    ensures { result ≡ chosen (finding_view finding) }
{
    match finding {
        Finding::Found(ty) => ty,
        Finding::Nothing => 0,
        Finding::Ambiguous => 0,
    }
}

fn enter(
    types: &[TypeDecl],
    scope: &mut Vec<Option<u32>>,
    bindings: &[Binding],
    listed: &mut Vec<u32>,
    earliest: &mut Earliest,
) -> Result<(), Memory>
    ensures scope { OnOk result (scope.new.items ≡ typing.within scope.old.items (map binding_view bindings.now)) }
    ensures listed { OnOk result (listed.new.items ≡ listed.old.items ++ map (λ b. chosen b.finding)
        (map binding_view bindings.now)) }
    ensures noted { OnOk result (earliest.new.first ≡ fold (type_noted types.now) earliest.old.first
        (map stage.binding (map binding_view bindings.now))) }
{
    for binding in bindings {
        note_binding(types, *binding, earliest);
        scope.push(type_found(binding.finding))?;
        listed.push(chosen_type(binding.finding))?;
    }
    Ok(())
}

#[cycle(note)]
fn note_part(
    types: &[TypeDecl],
    scope: &mut Vec<Option<u32>>,
    part: &Part,
    listed: &mut Vec<u32>,
    earliest: &mut Earliest,
) -> Result<(), Memory>
    ensures scope { OnOk result (scope.new.items ≡ scope.old.items) }
    ensures listed { OnOk result (listed.new.items ≡ listed.old.items ++ types_at (part_view part.now)) }
    ensures noted { OnOk result (earliest.new.first ≡ fold (type_noted types.now) earliest.old.first
        (stage.uses_at scope.old.items (part_view part.now))) }
{
    match part {
        Part::Demand(demand) => {
            note_demand(types, scope, *demand, earliest);
            Ok(())
        }
        Part::Scope(bindings, inner) => {
            let outer = scope.len();
            enter(types, scope, bindings, listed, earliest)?;
            note_parts(types, scope, inner, listed, earliest)?;
            scope.truncate(outer);
            Ok(())
        }
    }
}

/// Notes what is refused, and lists the types of all variables in the order in which they are bound.
#[cycle(note)]
pub fn note_parts(
    types: &[TypeDecl],
    scope: &mut Vec<Option<u32>>,
    parts: &[Part],
    listed: &mut Vec<u32>,
    earliest: &mut Earliest,
) -> Result<(), Memory>
    ensures scope { OnOk result (scope.new.items ≡ scope.old.items) }
    ensures listed { OnOk result (listed.new.items ≡ listed.old.items ++ types_among (parts_view parts.now)) }
    ensures noted { OnOk result (earliest.new.first ≡ fold (type_noted types.now) earliest.old.first
        (stage.uses_among scope.old.items (parts_view parts.now))) }
{
    for part in parts {
        note_part(types, scope, part, listed, earliest)?;
    }
    Ok(())
}
