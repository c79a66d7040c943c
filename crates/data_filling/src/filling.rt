//! Partial structures from entries.
ghost use Rattle.std.specs.Prelude.{◌≡◌, map, IfOk};
ghost use Rattle.stage_definitions.specs.DataAnswer.{given_by};
ghost use Rattle.stage_definitions.specs.DataDomains.{domains_of};
ghost use Rattle.structure_entries.specs.SaidViews.{said_view};
ghost use Rattle.data_filling.specs.Filling.{AreAccepted};

use crate::closing::close_entries;
use crate::facts::add_entries;
use kb_logic::{DomainList, Memory, Vocabulary};
use partial_structures::Partial;
use std::alloc::Global;
use structure_entries::written::Entry;

/// What the entries of a structure make known, over the domains that they give. Nothing of the structure is refused.
pub fn fill(
    alloc: Global,
    vocab: &Vocabulary,
    domains: DomainList,
    entries: &[Entry<'_>],
) -> Result<Partial, Memory>
    requires domains { domains ≡ domains_of vocab.now.types (map said_view entries.now) }
    requires accepted { AreAccepted vocab.now (map said_view entries.now) }
    ensures { IfOk result (λ p. p ≡ given_by vocab.now (map said_view entries.now)) }
{
    let mut partial = Partial::new(alloc, vocab, domains)?;
    add_entries(alloc, entries, &mut partial)?;
    close_entries(entries, &mut partial)?;
    Ok(partial)
}
