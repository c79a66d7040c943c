//! The walk from a type up its chain of `isa`.
ghost use Rattle.std.specs.Prelude.{◌≡◌};
ghost use Rattle.stage_definitions.specs.Below.{type_above};
ghost use Rattle.stage_definitions.specs.Kinship as kin;
ghost use Rattle.stage_definitions.specs.DataDomains as domain;

use kb_logic::{Parent, TypeDecl};

/// The type that a type is declared under, where that is a type of the vocabulary.
pub fn type_above(parent: Parent) -> Option<usize>
    ensures { result ≡ type_above parent }
{
    match parent {
        Parent::Of(above) => Some(above as usize),
        Parent::Root => None,
        Parent::Int => None,
        Parent::Nat => None,
    }
}

/// The type above the type with this number.
pub fn parent_of(types: &[TypeDecl], ty: usize) -> Option<usize>
    ensures { result ≡ domain.parent_of_type types.now ty }
{
    match types.get(ty) {
        Some(decl) => type_above(decl.parent),
        None => None,
    }
}

/// The type at the end of a type's chain.
pub fn top_of(types: &[TypeDecl], ty: usize) -> usize
    ensures { result ≡ kin.top_of types.now ty }
{
    let mut at = ty;
    for _step in 0..types.len() {
        let Some(parent) = parent_of(types, at) else {
            return at;
        };
        at = parent;
    }
    at
}

fn is_number(parent: Parent) -> bool
    ensures { result ≡ kin.is_number_parent parent }
{
    match parent {
        Parent::Int => true,
        Parent::Nat => true,
        Parent::Root => false,
        Parent::Of(_) => false,
    }
}

/// Whether the type's chain ends at `int` or `nat`.
pub fn is_number_type(types: &[TypeDecl], ty: usize) -> bool
    ensures { result ≡ kin.is_number_type types.now ty }
{
    match types.get(top_of(types, ty)) {
        Some(decl) => is_number(decl.parent),
        None => false,
    }
}
