//! Literals under the last of some bounds.
ghost use Rattle.std.specs.Prelude.{◌≡◌, [], ◌∷◌, ◌++◌, not, IfOk, OnOk, true, false, filter, if◌then◌else◌};
ghost use Rattle.std.specs.List.{list_any};
ghost use Rattle.tightened_entries.specs.LastBounds.{is_over, is_over_with, last_of, literals_under};
ghost use Rattle.tightened_entries.specs.SelectorSets.{AreHashed};

use crate::selectors::Selectors;
use ground_core::{LitList, Memory};
use lit_core::{Lit, Var};
use std::alloc::Global;

/// Which signs selectors have among literals.
#[derive(Clone, Copy)]
struct Signs {
    positive: bool,
    negative: bool,
}

/// Appends the literals of no selector, and says which signs the others have.
fn sift(selectors: &Selectors, lits: &[Lit], list: &mut LitList) -> Result<Signs, Memory>
    requires { AreHashed selectors.now }
    ensures list { OnOk result (list.new
        ≡ list.old ++ filter (λ l. not (is_over selectors.now.list.items l)) lits.now) }
    ensures positive { IfOk result (λ signs. signs.positive
        ≡ list_any (is_over_with selectors.now.list.items true) lits.now) }
    ensures negative { IfOk result (λ signs. signs.negative
        ≡ list_any (is_over_with selectors.now.list.items false) lits.now) }
{
    let mut signs = Signs {
        positive: false,
        negative: false,
    };
    for lit in lits {
        if !selectors.has(*lit) {
            list.push(*lit)?;
            continue;
        }
        if lit.positive {
            signs.positive = true;
        } else {
            signs.negative = true;
        }
    }
    Ok(signs)
}

/// Appends the last selector's literal with this sign where it is wanted.
fn push_last(
    selectors: &Selectors,
    list: &mut LitList,
    positive: bool,
    wanted: bool,
) -> Result<(), Memory>
    ensures { OnOk result (list.new ≡ list.old ++ (if wanted then
        record { var = record { 0 = last_of selectors.now.list.items }; positive = positive } ∷ [] else [])) }
{
    if !wanted {
        return Ok(());
    }
    list.push(Lit {
        var: Var(selectors.last()),
        positive,
    })
}

/// The literals with the last selector in place of each.
pub fn literals_under(
    alloc: Global,
    selectors: &Selectors,
    lits: &LitList,
) -> Result<LitList, Memory>
    requires { AreHashed selectors.now }
    ensures { IfOk result (λ list. list ≡ literals_under selectors.now.list.items lits.now) }
{
    let mut list = LitList::new(alloc);
    let signs = sift(selectors, lits.as_slice(), &mut list)?;
    push_last(selectors, &mut list, true, signs.positive)?;
    push_last(selectors, &mut list, false, signs.negative)?;
    Ok(list)
}
