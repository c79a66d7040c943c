//! The index of a tuple of values among all tuples over some types.
ghost use Rattle.std.specs.Prelude.{◌≡◌, List, length, map, option_map};
ghost use Rattle.kb_logic.specs.declared.elements.Elem.{Elem as Element};
ghost use Rattle.kb_logic.specs.Structures.{domain_at, tuples_of};
ghost use Rattle.kb_logic.specs.Values.{value_view};
ghost use Rattle.term_values.specs.DomainIndexes.{AreIndexesOf, elem_index};
ghost use Rattle.term_values.specs.GroundBases.{row_index};
ghost use Rattle.term_values.specs.RowValues.{row_value};
ghost use Rattle.term_values.specs.VariableTables.{capped};

use crate::domain_index::DomainIndex;
use crate::rows::RowValue;
use kb_logic::ElemList;
use kb_logic::values::{Value, domain_in};

/// The place of a value in the domain of a type.
pub(crate) fn elem_place(indexes: &[DomainIndex<'_>], ty: u32, value: Value<'_>) -> Option<usize>
    ensures { (domains : List (List Element)) → AreIndexesOf indexes.now domains
        → result ≡ elem_index (domain_at domains ty) (value_view value.entry) }
{
    match indexes.get(ty as usize) {
        None => None,
        Some(index) => index.find(value),
    }
}

// The index of a tuple is a number with a digit for each place, in the base of its domain's size.
/// The index of the values among all tuples over these types. It is `u64::MAX` where it is above that.
pub(crate) fn tuple_place(
    indexes: &[DomainIndex<'_>],
    domains: &[ElemList],
    types: &[u32],
    values: &[RowValue<'_>],
) -> Option<u64>
    requires { AreIndexesOf indexes.now domains.now }
    ensures { result ≡ option_map capped (row_index (tuples_of domains.now types.now) (map row_value values.now)) }
{
    if types.len() != values.len() {
        return None;
    }
    let mut place = 0u64;
    for i in 0..types.len() {
        match elem_place(indexes, types[i], values[i].value) {
            None => return None,
            Some(digit) => {
                let size = domain_in(domains, types[i]).len() as u64;
                place = place.saturating_mul(size).saturating_add(digit as u64);
            }
        }
    }
    Some(place)
}
