//! What the data leave open of the heaviest parts.
ghost use Rattle.std.specs.Prelude.{[], map};
ghost use Rattle.kb_logic.specs.Views.{theory_view};
ghost use Rattle.open_sizes.specs.Fits.{WeighingFits};
ghost use Rattle.stage_definitions.specs.FileBases.{theory_at};
ghost use Rattle.type_derivation.specs.TypedViews.{named_term_view, typed_view};

use crate::choice::heaviest;
use crate::parts::{Part, Piece, weighed};
use crate::reading::TypedFile;
use kb_logic::Theory;
use open_sizes::{open_in_asked, open_in_definition, open_in_sentence};
use partial_structures::Partial;
use std::alloc::{AllocError as Memory, Global};

/// Of so many parts at most it is weighed what is open.
const MOST_WEIGHED: u64 = 6;

/// The open occurrences in a piece of the theory or in a term; none in a declaration.
fn open_in(alloc: Global, file: &TypedFile, theory: &Theory, known: &Partial, piece: Piece) -> u64
    requires { WeighingFits known.now (theory_view theory.now) (map (λ t. t.term) (map named_term_view
        file.now.kb.terms)) }
{
    let vocabulary = &file.kb.vocab;
    match piece {
        Piece::Declaration => 0,
        Piece::Sentence(number) => match theory.sentences.get(number) {
            Some(sentence) => open_in_sentence(alloc, vocabulary, known, sentence),
            None => 0,
        },
        Piece::Definition(number) => match theory.definitions.get(number) {
            Some(definition) => open_in_definition(alloc, vocabulary, known, definition),
            None => 0,
        },
        Piece::Term(number) => match file.kb.terms.get(number) {
            Some(term) => open_in_asked(vocabulary, known, &term.value),
            None => 0,
        },
    }
}

/// The heaviest of these parts, each with what is open of it.
fn open_of(
    alloc: Global,
    file: &TypedFile,
    theory: &Theory,
    known: &Partial,
    parts: &[Part],
) -> Result<Vec<Part>, Memory>
    requires { WeighingFits known.now (theory_view theory.now) (map (λ t. t.term) (map named_term_view
        file.now.kb.terms)) }
{
    let mut open = Vec::new(alloc);
    let mut passed = Vec::new(alloc);
    for _ in 0..MOST_WEIGHED {
        let Some(part) = heaviest(parts, &passed) else {
            return Ok(open);
        };
        let occurrences = open_in(alloc, file, theory, known, part.piece);
        open.push(weighed(part.piece, part.place, occurrences))?;
        passed.push(part.place)?;
    }
    Ok(open)
}

/// The heaviest of these parts of the chosen theory and the terms, each with what the data leave open of it.
pub fn open_parts(
    alloc: Global,
    file: &TypedFile,
    known: &Partial,
    parts: &[Part],
) -> Result<Vec<Part>, Memory>
    requires { WeighingFits known.now (theory_at (typed_view file.now.kb) file.now.picked.theory)
        (map (λ t. t.term) (map named_term_view file.now.kb.terms)) }
{
    match file.kb.theories.get(file.picked.theory) {
        Some(named) => open_of(alloc, file, &named.value, known, parts),
        None => Ok(Vec::new(alloc)),
    }
}
