//! What is known of the atoms of an application, in a few hash steps an argument.
ghost use Rattle.std.specs.Prelude.{◌≡◌, List, Some, slice_get};
ghost use Rattle.std.specs.Option.{option_map};
ghost use Rattle.kb_logic.specs.Denotations.{Denotation};
ghost use Rattle.kb_logic.specs.Structures.{domain_at};
ghost use Rattle.partial_structures.specs.Applications.{applied_known, atom_certain, value_certain, result_typed};
ghost use Rattle.partial_structures.specs.Applications.{outside_value, stands_in};
ghost use Rattle.partial_structures.specs.Values.{value_view};
ghost use Rattle.partial_structures.specs.Known.{known_in, place_view, start_of, stepped, spot_of, is_whole};
ghost use Rattle.partial_structures.specs.Known.{is_function_of};

use crate::atoms::{denial, if_closed};
use crate::flags::flag;
use crate::known::Known;
use crate::spots::Place;
use kb_logic::values::Value;
use row_tries::Truth;

/// Whether the value is an element of the type.
fn is_element(s: Known<'_>, ty: u32, value: Value<'_>) -> bool
    ensures { result ≡ stands_in (domain_at s.entry.domains.now ty) (value_view value.entry) }
{
    s.elements.contains(ty, s.rows.value_label(value))
}

/// Before the first argument.
pub fn start<'a>(s: Known<'a>, symbol: u32) -> Place<'a>
    ensures { place_view result ≡ start_of s.entry symbol }
{
    let node = s.rows.root(symbol);
    match s.symbols.get(symbol as usize) {
        Some(declared) => Place {
            node,
            types: declared.args.as_slice(),
            typed: true,
        },
        None => Place {
            node,
            types: &[],
            typed: false,
        },
    }
}

/// One argument further.
pub fn next<'a>(s: Known<'a>, place: Place<'a>, value: Value<'_>) -> Place<'a>
    ensures { place_view result ≡ stepped s.entry (place_view place.entry) (value_view value.entry) }
{
    let node = s.rows.step_value(place.node, value);
    match place.types.split_first() {
        Some((ty, types)) => Place {
            node,
            types,
            typed: is_element(s, *ty, value) && place.typed,
        },
        None => Place {
            node,
            types: &[],
            typed: false,
        },
    }
}

fn is_complete(place: Place<'_>) -> bool
    ensures { result ≡ is_whole (place_view place.entry) }
{
    place.types.is_empty() && place.typed
}

/// Whether the value is of the function's value type.
fn is_result(s: Known<'_>, symbol: u32, value: Value<'_>) -> bool
    ensures { result ≡ result_typed (known_in s.entry) (slice_get s.entry.symbols.now symbol) (value_view value.entry) }
{
    match s.symbols.get(symbol as usize) {
        None => false,
        Some(declared) => match declared.value {
            None => false,
            Some(ty) => is_element(s, ty, value),
        },
    }
}

fn is_function(s: Known<'_>, symbol: u32) -> bool
    ensures { result ≡ is_function_of s.entry.symbols.now symbol }
{
    match s.symbols.get(symbol as usize) {
        None => false,
        Some(declared) => declared.value.is_some(),
    }
}

/// What is known of the function's having a value outside its value type.
fn outside(s: Known<'_>, symbol: u32) -> Truth
    ensures { result ≡ outside_value (slice_get s.entry.symbols.now symbol) }
{
    match s.symbols.get(symbol as usize) {
        None => Truth::Unknown,
        Some(declared) => if declared.value.is_some() {
            Truth::No
        } else {
            Truth::Unknown
        },
    }
}

/// The known value of the function where its arguments lead.
pub fn given_value<'a>(s: Known<'a>, symbol: u32, place: Place<'_>) -> Option<Value<'a>>
    ensures { (vs : List Denotation) → place_view place.entry ≡ spot_of s.entry symbol vs → option_map value_view result
        ≡ applied_known (known_in s.entry) symbol (Some vs) }
{
    if !is_complete(place) {
        return None;
    }
    match s.rows.mark(place.node).value {
        None => None,
        Some(label) => match s.rows.value_of(label) {
            None => None,
            Some(value) => if is_result(s, symbol, value) {
                Some(value)
            } else {
                None
            },
        },
    }
}

/// What is known of the predicate's atom where its arguments lead.
pub fn atom_truth(s: Known<'_>, symbol: u32, place: Place<'_>) -> Truth
    ensures { (vs : List Denotation) → place_view place.entry ≡ spot_of s.entry symbol vs
        → result ≡ atom_certain (known_in s.entry) symbol (Some vs) }
{
    if !is_complete(place) {
        return Truth::No;
    }
    if is_function(s, symbol) {
        return Truth::Unknown;
    }
    if_closed(flag(s.closed, symbol), s.rows.mark(place.node).known)
}

/// What is known of the function's having this value where its arguments lead.
pub fn value_truth(s: Known<'_>, symbol: u32, place: Place<'_>, value: Value<'_>) -> Truth
    ensures { (vs : List Denotation) → place_view place.entry ≡ spot_of s.entry symbol vs
        → result ≡ value_certain (known_in s.entry) symbol (Some vs) (Some (value_view value.entry)) }
{
    if !is_complete(place) {
        return Truth::Unknown;
    }
    if !is_result(s, symbol, value) {
        return outside(s, symbol);
    }
    match s.rows.mark(place.node).value {
        Some(label) => {
            if s.rows.value_label(value) == Some(label) {
                Truth::Yes
            } else {
                Truth::No
            }
        }
        None => {
            let node = s.rows.step_value(place.node, value);
            if_closed(flag(s.closed, symbol), denial(s.rows.mark(node).known))
        }
    }
}
