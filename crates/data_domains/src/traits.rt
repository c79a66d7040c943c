//! What is known of a type beside a structure.
ghost use Rattle.std.specs.Prelude.{◌≡◌, ◌==◌, ◌&&◌, ◌<◌, ◌||◌, ℕ, false, get_or, length, map, IfOk};
ghost use Rattle.stage_definitions.specs.DataDomains as domain;
ghost use Rattle.structure_entries.specs.SaidViews.{said_view};

use kb_logic::Memory;
use std::alloc::Global;
use structure_entries::subjects::Subject;
use structure_entries::written::Entry;

/// Whether the type's elements are declared with it, whether it has a list, whether it has the elements that occur,
/// whether it has integers alone, and none below 0, and the type above it.
#[derive(Clone, Copy)]
pub struct Traits {
    pub constructed: bool,
    pub listed: bool,
    pub occurs: bool,
    pub number: bool,
    pub natural: bool,
    pub above: Option<usize>,
}

/// The type with this number, where the entry has the form of a list.
fn type_if(fits: bool, ty: usize) -> Option<usize>
    ensures { (t : ℕ) → domain.is_this t result ≡ ((ty == t) && fits) }
{
    if fits { Some(ty) } else { None }
}

/// The type of which the entry is a list.
pub fn list_type(entry: &Entry<'_>) -> Option<usize>
    ensures { (t : ℕ) → domain.is_this t result ≡ domain.is_list_of t (said_view entry.now) }
{
    match entry.subject {
        Subject::Nothing => None,
        Subject::OfElement => None,
        Subject::OfType(ty, _) => type_if(entry.fits, ty),
        Subject::OfSymbol(_, _) => None,
    }
}

/// Says of the type with this number that it has a list.
fn mark(listed: &mut Vec<bool>, at: Option<usize>)
    ensures count { length listed.new.items ≡ length listed.old.items }
    ensures listed { (t : ℕ) → t < length listed.old.items → get_or listed.new.items t false
        ≡ (get_or listed.old.items t false || domain.is_this t at) }
{
    let Some(ty) = at else {
        return;
    };
    if ty < listed.len() {
        listed[ty] = true;
    }
}

/// Which of so many types have a list.
pub fn listed_types(alloc: Global, count: usize, entries: &[Entry<'_>]) -> Result<Vec<bool>, Memory>
    ensures count { IfOk result (λ bs. length bs.items ≡ count) }
    ensures listed { IfOk result (λ bs. (t : ℕ) → t < count → get_or bs.items t false
        ≡ domain.is_listed (map said_view entries.now) t) }
{
    let mut listed = vec![in alloc; false; count]?;
    for entry in entries {
        mark(&mut listed, list_type(entry));
    }
    Ok(listed)
}
