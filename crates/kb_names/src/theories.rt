//! Theories and term blocks with numbers for words.
ghost use Rattle.std.specs.Prelude.{◌≡◌, ◌++◌, fold, map, OnOk, IfOk};
ghost use Rattle.std.specs.List.{flat_map};
ghost use Rattle.stage_definitions.specs.FileView.{part_in, term_in, theory_in};
ghost use Rattle.stage_definitions.specs.NamesStage.{name_noted};
ghost use Rattle.stage_definitions.specs.Numbering as number;
ghost use Rattle.stage_definitions.specs.Uses as use_of;
ghost use Rattle.formula_names.specs.Meanings.{names_in};
ghost use Rattle.stage_definitions.specs.FileViews.{theory_view, block_view};
ghost use Rattle.stage_definitions.specs.NamedViews.{definition_view, formula_view};

use formula_names::formulas::{block_term, sentence};
use formula_names::tables::Table;
use grammar::{RawTerm, RawTheory, RawTheoryItem};
use kb_logic::{Memory, Name};
use rule_names::definition;
use sqlite_items::Items;
use stage_definitions::{Earliest, NamedDefinition, NamedFormula, NamedTermBlock, NamedTheory};
use std::alloc::Global;

/// What was read of a theory so far.
#[derive(Drop)]
struct Parts {
    sentences: Vec<NamedFormula>,
    definitions: Vec<NamedDefinition>,
}

fn item<'a>(
    alloc: Global,
    table: &Table<'a>,
    raw: &'a RawTheoryItem,
    parts: &mut Parts,
    earliest: &mut Earliest,
) -> Result<(), Memory>
    ensures sentences { OnOk result (map formula_view parts.new.sentences.items ≡ map formula_view
        parts.old.sentences.items ++ number.sentences_in (names_in table.now) (part_in raw.now)) }
    ensures definitions { OnOk result (map definition_view parts.new.definitions.items ≡ map definition_view
        parts.old.definitions.items ++ number.definitions_in (names_in table.now) (part_in raw.now)) }
    ensures noted { OnOk result (earliest.new.first ≡ fold (name_noted (names_in table.now)) earliest.old.first
        (use_of.uses_in_part (names_in table.now) (part_in raw.now))) }
{
    match raw {
        RawTheoryItem::Sentence(raw) => {
            let named = sentence(alloc, table, &raw.formula, earliest)?;
            parts.sentences.push(named)?;
            Ok(())
        }
        RawTheoryItem::Definition(raw) => {
            let named = definition(alloc, table, raw, earliest)?;
            parts.definitions.push(named)?;
            Ok(())
        }
    }
}

/// A theory with numbers for words.
pub fn theory<'a>(
    alloc: Global,
    table: &Table<'a>,
    raw: &'a RawTheory,
    earliest: &mut Earliest,
) -> Result<NamedTheory, Memory>
    ensures theory { IfOk result (λ t. theory_view t ≡ number.named_theory (names_in table.now) (theory_in raw.now)) }
    ensures noted { OnOk result (earliest.new.first ≡ fold (name_noted (names_in table.now)) earliest.old.first
        (use_of.uses_in_theory (names_in table.now) (theory_in raw.now))) }
{
    let mut parts = Parts {
        sentences: Vec::new(alloc),
        definitions: Vec::new(alloc),
    };
    let items = raw.items.as_slice();
    for raw in items {
        item(alloc, table, raw, &mut parts, earliest)?;
    }
    Ok(NamedTheory {
        name: Name::new(alloc, raw.header.name.text.as_slice())?,
        place: raw.header.place,
        sentences: Items::from_vec(parts.sentences),
        definitions: Items::from_vec(parts.definitions),
    })
}

/// A term block with numbers for words.
pub fn block<'a>(
    alloc: Global,
    table: &Table<'a>,
    raw: &'a RawTerm,
    earliest: &mut Earliest,
) -> Result<NamedTermBlock, Memory>
    ensures block { IfOk result (λ t. block_view t ≡ number.named_block (names_in table.now) (term_in raw.now)) }
    ensures noted { OnOk result (earliest.new.first ≡ fold (name_noted (names_in table.now)) earliest.old.first
        (use_of.uses_in_block (term_in raw.now))) }
{
    let named = block_term(alloc, table, &raw.term, earliest)?;
    Ok(NamedTermBlock {
        name: Name::new(alloc, raw.header.name.text.as_slice())?,
        term: named,
    })
}
