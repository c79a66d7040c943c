//! Which type is below which, and which belong together.
ghost use Rattle.std.specs.Prelude.{◌≡◌};
ghost use Rattle.stage_definitions.specs.Kinship as kin;

use kb_logic::TypeDecl;
use stage_definitions::{parent_of, top_of};

/// Whether the type `lower` is `upper`, or reaches it by `isa`.
pub fn is_under(types: &[TypeDecl], lower: u32, upper: u32) -> bool
    ensures { result ≡ kin.is_under types.now lower upper }
{
    let upper = upper as usize;
    let mut at = lower as usize;
    for _step in 0..types.len() {
        if at == upper {
            return true;
        }
        let Some(parent) = parent_of(types, at) else {
            return false;
        };
        at = parent;
    }
    at == upper
}

/// Whether a type's chain ends at `int` or `nat`.
pub fn is_number_type(types: &[TypeDecl], ty: u32) -> bool
    ensures { result ≡ kin.is_number_type types.now ty }
{
    stage_definitions::is_number_type(types, ty as usize)
}

/// Whether both are number types, or their chains end in the same type.
pub fn are_akin(types: &[TypeDecl], left: u32, right: u32) -> bool
    ensures { result ≡ kin.are_akin types.now left right }
{
    (is_number_type(types, left) && is_number_type(types, right))
        || top_of(types, left as usize) == top_of(types, right as usize)
}
