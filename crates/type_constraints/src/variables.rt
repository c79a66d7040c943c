//! The types of the variables of sentences and of term blocks.
ghost use Rattle.std.specs.Prelude.{◌≡◌, [], fold, OnOk, IfOk};
ghost use Rattle.stage_definitions.specs.Below.{HasNoCycle, type_parents};
ghost use Rattle.stage_definitions.specs.NamedViews.{formula_view, term_view};
ghost use Rattle.stage_definitions.specs.TypesStage as stage;
ghost use Rattle.stage_definitions.specs.TypesStage.{type_noted};
ghost use Rattle.stage_definitions.specs.Typing.{all_settled};
ghost use Rattle.type_constraints.specs.ChosenTypes.{types_among};
ghost use Rattle.type_constraints.specs.PartViews.{parts_view};

use crate::collect;
use crate::constraints::Part;
use crate::infer::settle_all;
use crate::report::note_parts;
use crate::term_kinds::demand_number;
use kb_logic::{Memory, TypeDecl, Vocabulary};
use stage_definitions::{Earliest, NamedFormula, NamedTerm};
use std::alloc::Global;

/// The types of all variables in these parts, and what is refused of them.
pub fn types_of(
    alloc: Global,
    types: &[TypeDecl],
    listed: &[Part],
    earliest: &mut Earliest,
) -> Result<Vec<u32>, Memory>
    requires acyclic { HasNoCycle (type_parents types.now) }
    ensures types { IfOk result (λ ts. ts.items ≡ types_among (all_settled types.now (parts_view listed.now))) }
    ensures noted { OnOk result (earliest.new.first ≡ fold (type_noted types.now) earliest.old.first
        (stage.uses_among [] (all_settled types.now (parts_view listed.now)))) }
{
    let parts = settle_all(alloc, types, listed)?;
    let mut scope = Vec::new(alloc);
    let mut chosen = Vec::new(alloc);
    note_parts(types, &mut scope, &parts, &mut chosen, earliest)?;
    Ok(chosen)
}

/// The types of a sentence's variables, in the order in which they are bound. Notes what is refused of them.
pub fn sentence_types(
    alloc: Global,
    vocab: &Vocabulary,
    named: &NamedFormula,
    earliest: &mut Earliest,
) -> Result<Vec<u32>, Memory>
    requires acyclic { HasNoCycle (type_parents vocab.now.types) }
    ensures types { IfOk result (λ ts. ts.items ≡ types_among (stage.sentence_settled vocab.now
        (formula_view named.now))) }
    ensures noted { OnOk result (earliest.new.first ≡ fold (type_noted vocab.now.types) earliest.old.first
        (stage.uses_among [] (stage.sentence_settled vocab.now (formula_view named.now)))) }
{
    let mut listed = Vec::new(alloc);
    collect::formula(alloc, vocab.symbols.as_slice(), named, &mut listed)?;
    types_of(alloc, vocab.types.as_slice(), &listed, earliest)
}

/// The types of the variables in the term of a term block, in the order in which they are bound. Notes what is refused
/// of them, and of the term, which has to be a number.
pub fn block_term_types(
    alloc: Global,
    vocab: &Vocabulary,
    named: &NamedTerm,
    earliest: &mut Earliest,
) -> Result<Vec<u32>, Memory>
    requires acyclic { HasNoCycle (type_parents vocab.now.types) }
    ensures types { IfOk result (λ ts. ts.items ≡ types_among (stage.block_settled vocab.now
        (term_view named.now))) }
    ensures noted { OnOk result (earliest.new.first ≡ fold (type_noted vocab.now.types) earliest.old.first
        (stage.uses_among [] (stage.block_settled vocab.now (term_view named.now)))) }
{
    let symbols = vocab.symbols.as_slice();
    let mut listed = Vec::new(alloc);
    demand_number(symbols, named, &mut listed)?;
    collect::term(alloc, symbols, named, &mut listed)?;
    types_of(alloc, vocab.types.as_slice(), &listed, earliest)
}
