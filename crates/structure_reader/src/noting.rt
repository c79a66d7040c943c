//! All that the stage of data notes.
ghost use Rattle.std.specs.Prelude.{◌≡◌, fold, map, OnOk};
ghost use Rattle.stage_definitions.specs.DataStage as stage;
ghost use Rattle.structure_entries.specs.SaidViews.{said_view};
ghost use Rattle.data_domains.specs.TypeSets.{AreTypesOf};
ghost use Rattle.type_derivation.specs.TypedViews.{typed_view};

use data_clashes::facts::clashing_facts;
use data_clashes::notes::note_clashes;
use data_domains::types::TypeData;
use data_refusals::arguments::note_arguments;
use data_refusals::entries::note_entries;
use data_refusals::types::note_types;
use kb_logic::Memory;
use stage_definitions::Earliest;
use std::alloc::Global;
use structure_entries::written::Entry;
use type_derivation::TypedKb;

/// Notes what is refused of a structure and of the integers beside it.
pub fn note_all<'a>(
    alloc: Global,
    earliest: &mut Earliest,
    kb: &'a TypedKb,
    theory: usize,
    types: &[TypeData<'a>],
    entries: &[Entry<'a>],
) -> Result<(), Memory>
    requires { AreTypesOf kb.now.vocab.types (map said_view entries.now) types.now }
    ensures { OnOk result (earliest.new.first ≡ fold (stage.data_noted kb.now.vocab.types (map said_view entries.now))
        earliest.old.first (stage.data_uses (typed_view kb.now) theory (map said_view entries.now))) }
{
    let decls = kb.vocab.types.as_slice();
    note_types(earliest, decls, types, kb.places.types.as_slice());
    note_entries(alloc, earliest, types, entries)?;
    let facts = clashing_facts(alloc, entries)?;
    note_clashes(alloc, earliest, &facts)?;
    note_arguments(alloc, earliest, types, kb, theory)?;
    Ok(())
}
