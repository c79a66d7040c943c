//! What entries say of atoms, where it may clash.
ghost use Rattle.std.specs.Prelude.{◌≡◌, ◌++◌, ◌∷◌, [], List, fold, map, Option, IfOk, OnOk};
ghost use Rattle.kb_logic.specs.declared.vocabularies.TypeDecl.{TypeDecl as AType};
ghost use Rattle.kb_text.specs.declared.fault.KbFault.{KbFault as AFault};
ghost use Rattle.stage_definitions.specs.DataEntries as said;
ghost use Rattle.stage_definitions.specs.DataFacts.{facts_in};
ghost use Rattle.stage_definitions.specs.DataStage as stage;
ghost use Rattle.structure_entries.specs.EntryViews.{fact_view};
ghost use Rattle.structure_entries.specs.SaidViews.{said_view};
ghost use Rattle.data_clashes.specs.Signs.{opposable, AreSignsOf};

use crate::signs::Signs;
use kb_logic::Memory;
use std::alloc::Global;
use structure_entries::facts::{Fact, add_facts};
use structure_entries::written::Entry;

/// What an entry says of atoms, where it may clash.
fn add_opposable<'a>(
    alloc: Global,
    signs: &Signs,
    entry: &Entry<'a>,
    facts: &mut Vec<Fact<'a>>,
) -> Result<(), Memory>
    ensures { OnOk result ((all : List said.Said) → AreSignsOf all signs.now → map fact_view facts.new.items
        ≡ map fact_view facts.old.items ++ facts_in (opposable all (said_view entry.now ∷ []))) }
{
    if signs.has_both(entry.subject) {
        add_facts(alloc, entry, facts)
    } else {
        Ok(())
    }
}

/// What the entries say of atoms, in the order of the text; without what clashes with nothing, since all rows of its
/// predicate are true, or all are false.
fn opposable_facts<'a>(alloc: Global, entries: &[Entry<'a>]) -> Result<Vec<Fact<'a>>, Memory>
    ensures { IfOk result (λ facts. map fact_view facts.items
        ≡ facts_in (opposable (map said_view entries.now) (map said_view entries.now))) }
{
    let signs = Signs::of(alloc, entries)?;
    let mut facts = Vec::new(alloc);
    for entry in entries {
        add_opposable(alloc, &signs, entry, &mut facts)?;
    }
    Ok(facts)
}

/// What the entries say of atoms, as far as it matters: each clash among all that they say is noted.
pub fn clashing_facts<'a>(alloc: Global, entries: &[Entry<'a>]) -> Result<Vec<Fact<'a>>, Memory>
    ensures { IfOk result (λ facts. (all : List AType) (es : List said.Said) (first : Option AFault)
        → fold (stage.data_noted all es) first (stage.uses_of_facts [] (map fact_view facts.items))
        ≡ fold (stage.data_noted all es) first (stage.uses_of_facts [] (facts_in (map said_view entries.now)))) }
{
    let facts = opposable_facts(alloc, entries)?;
    Ok(facts)
}
