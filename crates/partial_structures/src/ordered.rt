//! What is known of all atoms of a symbol, in their order.
//!
//! The walk goes down the trie once a prefix. Below a prefix that stands in no row the same is known of all atoms, so
//! that they are counted, and none of them is looked up.
ghost use Rattle.std.specs.Prelude.{◌≡◌, ◌++◌, map, replicate, Bool, IfSome, List, None, OnOk, ℕ};
ghost use Rattle.partial_structures.specs.AtomRows.{settled};
ghost use Rattle.partial_structures.specs.Ordered.{beyond, ending, value_behind};
ghost use Rattle.row_tries.specs.Words.{words_in};
ghost use Rattle.row_tries.specs.declared.rows.Edge.{Edge};
ghost use Rattle.row_tries.specs.declared.rows.Mark.{Mark};
ghost use Rattle.row_tries.specs.declared.truths.Truth.TheVariants.{Unknown};

use crate::atoms::{if_closed, value_known};
use crate::known::Known;
use kb_logic::values::domain_in;
use kb_logic::{Elem, ElemList, Memory};
use row_tries::lent::lent;
use row_tries::{Rows, Truth};

/// Pushes what is known of a function's atoms with these values, where its arguments lead to the node.
fn push_each(
    rows: &Rows,
    closed: bool,
    node: Option<usize>,
    values: &[Elem],
    out: &mut Vec<Truth>,
) -> Result<(), Memory>
    ensures { OnOk result (out.new.items ≡ out.old.items ++
        map (value_behind (words_in rows.now.words) rows.now.nodes.entries closed node) values.now) }
{
    for value in values {
        out.push(value_known(rows, closed, node, lent(value)))?;
    }
    Ok(())
}

/// Pushes what is known of the atoms whose arguments lead to the node: of one, or of a function's with each value of
/// this type.
fn push_ending(
    s: Known<'_>,
    closed: bool,
    node: Option<usize>,
    value: Option<u32>,
    out: &mut Vec<Truth>,
) -> Result<(), Memory>
    ensures { OnOk result (out.new.items ≡ out.old.items ++
        ending (words_in s.entry.rows.now.words) s.entry.rows.now.nodes.entries closed s.entry.domains.now node value) }
{
    match value {
        None => {
            out.push(if_closed(closed, s.rows.mark(node).known))?;
            Ok(())
        }
        Some(ty) => push_each(s.rows, closed, node, domain_in(s.domains, ty), out),
    }
}

/// How many atoms there are whose arguments go on with elements of these types: one for each such tuple, or one for
/// each value of a function. None where they are too many to be listed.
fn atoms_beyond(domains: &[ElemList], types: &[u32], value: Option<u32>) -> Option<usize>
    ensures { IfSome result (λ n. (ws : List (List ℕ)) (es : List (Edge × Mark)) (closed : Bool)
        → beyond ws es closed domains.now None types.now value ≡ replicate n (settled closed Unknown)) }
{
    match types.split_first() {
        None => match value {
            None => Some(1),
            Some(ty) => Some(domain_in(domains, ty).len()),
        },
        Some((ty, rest)) => match atoms_beyond(domains, rest, value) {
            None => None,
            Some(count) => domain_in(domains, *ty).len().checked_mul(count),
        },
    }
}

/// Pushes the truth so many times.
fn push_times(count: usize, truth: Truth, out: &mut Vec<Truth>) -> Result<(), Memory>
    ensures { OnOk result (out.new.items ≡ out.old.items ++ replicate count truth) }
{
    let Some(len) = out.len().checked_add(count) else {
        return Err(Memory);
    };
    out.resize(len, truth)?;
    Ok(())
}

/// Pushes what is known of the atoms whose arguments have led to no node, and then have these types: the same of each.
fn push_rest(
    domains: &[ElemList],
    closed: bool,
    types: &[u32],
    value: Option<u32>,
    out: &mut Vec<Truth>,
) -> Result<(), Memory>
    ensures { OnOk result ((ws : List (List ℕ)) (es : List (Edge × Mark))
        → out.new.items ≡ out.old.items ++ beyond ws es closed domains.now None types.now value) }
{
    match atoms_beyond(domains, types, value) {
        None => Err(Memory),
        Some(count) => push_times(count, if_closed(closed, Truth::Unknown), out),
    }
}

/// Pushes what is known of the atoms whose arguments lead over the node, and then have these types.
pub(crate) fn push_beyond(
    s: Known<'_>,
    closed: bool,
    node: Option<usize>,
    types: &[u32],
    value: Option<u32>,
    out: &mut Vec<Truth>,
) -> Result<(), Memory>
    ensures { OnOk result (out.new.items ≡ out.old.items ++
        beyond (words_in s.entry.rows.now.words) s.entry.rows.now.nodes.entries closed s.entry.domains.now node
        types.now value) }
{
    match types.split_first() {
        None => push_ending(s, closed, node, value, out),
        Some((ty, rest)) => {
            // No row begins so: there is nothing to look up.
            if node.is_none() {
                return push_rest(s.domains, closed, types, value, out);
            }
            for elem in domain_in(s.domains, *ty) {
                let child = s.rows.step(node, elem);
                push_beyond(s, closed, child, rest, value, out)?;
            }
            Ok(())
        }
    }
}
