//! The types of the variables in scope, the outermost first.
ghost use Rattle.std.specs.Prelude.{◌≡◌, ◌++◌, OnOk};
ghost use Rattle.kb_logic.specs.Bounds.{types_of};

use kb_logic::{Bound, Memory};

/// Puts the types of a binder's variables into the scope.
pub fn enter(scope: &mut Vec<u32>, bounds: &[Bound]) -> Result<(), Memory>
    ensures { OnOk result (scope.new.items ≡ scope.old.items ++ types_of bounds.now) }
{
    for bound in bounds {
        scope.push(bound.ty)?;
    }
    Ok(())
}
