//! What is found of the types of variables.
ghost use Rattle.std.specs.Prelude.{◌≡◌, map};
ghost use Rattle.stage_definitions.specs.Typing as typing;
ghost use Rattle.type_constraints.specs.Gathering.{after, if_variable, seen, settled_by};
ghost use Rattle.type_constraints.specs.PartViews.{binding_view, finding_view, kind_view, type_view};

use crate::constraints::{Binding, Finding, Kind, TermType};
use crate::subtypes::is_under;
use kb_logic::TypeDecl;

fn see(types: &[TypeDecl], before: Finding, ty: u32) -> Finding
    ensures { finding_view result ≡ seen types.now (finding_view before) ty }
{
    match before {
        Finding::Nothing => Finding::Found(ty),
        Finding::Found(least) => {
            if is_under(types, ty, least) {
                Finding::Found(ty)
            } else if is_under(types, least, ty) {
                Finding::Found(least)
            } else {
                Finding::Ambiguous
            }
        }
        Finding::Ambiguous => Finding::Ambiguous,
    }
}

/// One more type of the variable that is of this kind.
pub fn see_at(types: &[TypeDecl], findings: &mut Vec<Finding>, kind: Kind, ty: u32)
    ensures { map finding_view findings.new.items ≡ after types.now (if_variable (kind_view kind) ty) 0
        (map finding_view findings.old.items) }
{
    match kind {
        Kind::Variable(n) => {
            let n = n as usize;
            if n < findings.len() {
                findings[n] = see(types, findings[n], ty);
            }
        }
        Kind::ByItself(_) => {}
    }
}

/// The binding with what is found now, unless something was found before.
pub fn settle(binding: Binding, new: Finding) -> Binding
    ensures { binding_view result ≡ settled_by (binding_view binding) (finding_view new) }
{
    match binding.finding {
        Finding::Nothing => Binding {
            place: binding.place,
            finding: new,
        },
        Finding::Found(_) => binding,
        Finding::Ambiguous => binding,
    }
}

pub fn type_found(finding: Finding) -> Option<u32>
    ensures { result ≡ typing.type_found (finding_view finding) }
{
    match finding {
        Finding::Found(ty) => Some(ty),
        Finding::Nothing => None,
        Finding::Ambiguous => None,
    }
}

/// A term's type, where the variables in scope have these.
pub fn type_in(scope: &[Option<u32>], kind: Kind) -> TermType
    ensures { type_view result ≡ typing.type_in scope.now (kind_view kind) }
{
    match kind {
        Kind::ByItself(ty) => ty,
        Kind::Variable(n) => match scope.get(n as usize) {
            Some(Some(ty)) => TermType::Declared(*ty),
            Some(None) => TermType::Untyped,
            None => TermType::Untyped,
        },
    }
}
