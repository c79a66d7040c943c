//! Which types have natural numbers alone.
ghost use Rattle.std.specs.Prelude.{◌≡◌};
ghost use Rattle.stage_definitions.specs.DataDomains as domain;

use kb_logic::{Parent, TypeDecl};
use stage_definitions::top_of;

fn is_nat(parent: Parent) -> bool
    ensures { result ≡ domain.is_nat parent }
{
    match parent {
        Parent::Nat => true,
        Parent::Int => false,
        Parent::Root => false,
        Parent::Of(_) => false,
    }
}

/// Whether the type's chain ends at `nat`.
pub fn is_natural_type(types: &[TypeDecl], ty: usize) -> bool
    ensures { result ≡ domain.is_natural_type types.now ty }
{
    match types.get(top_of(types, ty)) {
        Some(decl) => is_nat(decl.parent),
        None => false,
    }
}
