//! Cycles of `isa`.
ghost use Rattle.std.specs.Prelude.{◌≡◌, Some, List, Bool, ℕ, fold, map, slice_get};
ghost use Rattle.kb_text.specs.declared.fault.K.TheVariants as k;
ghost use Rattle.stage_definitions.specs.Earliest.{noted_if};
ghost use Rattle.stage_definitions.specs.NamesStage.{begins_cycle, name_noted, stepped};
ghost use Rattle.stage_definitions.specs.NamesStage as stage;
ghost use Rattle.stage_definitions.specs.Names.{Names, place_of_name};
ghost use Rattle.grammar.specs.Trees.{Name};
ghost use Rattle.stage_definitions.specs.Uses.{climbing_uses};

use kb_text::K;
use stage_definitions::Earliest;

/// The parent of a type, where it is another type.
fn parent(parents: &[Option<usize>], ty: usize) -> Option<usize>
    ensures { (test : ℕ → Bool) → stepped (slice_get parents.now ty) test ≡ stepped (Some result) test }
{
    match parents.get(ty) {
        Some(above) => *above,
        None => None,
    }
}

/// Whether at most `steps` steps up from `from` lead to the type `ty`, by no type with a lesser number.
fn comes_back(parents: &[Option<usize>], steps: usize, ty: usize, from: usize) -> bool
    ensures { result ≡ stage.comes_back steps parents.now ty from }
{
    let mut at = from;
    for step in 0..steps {
        let Some(above) = parent(parents, at) else {
            return false;
        };
        if above == ty {
            return true;
        }
        if above < ty {
            return false;
        }
        at = above;
    }
    false
}

/// Notes a cycle of which a type is the first. It is not sought where another refusal would come before it. In a text
/// with too many types the one after the 256th is refused, and stands before all later ones, so that few are followed.
fn note_cycle(parents: &[Option<usize>], ty: usize, place: usize, earliest: &mut Earliest)
    ensures { earliest.new.first ≡ noted_if (begins_cycle parents.now ty) k.Redeclared place earliest.old.first }
{
    if earliest.would_be_first(K::Redeclared, place) {
        let begins = comes_back(parents, parents.len(), ty, ty);
        earliest.note_if(begins, K::Redeclared, place);
    }
}

/// Notes each cycle of `isa` at its first type. The types' parents and the places of their names are in the order of
/// the text.
pub fn note_cycles(parents: &[Option<usize>], places: &[usize], earliest: &mut Earliest)
    ensures { (names : Names) → (types : List Name) → map place_of_name types ≡ places.now
        → earliest.new.first ≡ fold (name_noted names) earliest.old.first (climbing_uses parents.now 0 types) }
{
    for (ty, place) in places.iter().enumerate() {
        note_cycle(parents, ty, *place, earliest);
    }
}
