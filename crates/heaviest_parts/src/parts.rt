//! The parts of a file, each with its place and what it counts.
use crate::reading::TypedFile;
use grammar::{RawTheory, RawTheoryItem};
use kb_logic::Theory;
use size_stage::domains::Domains;
use size_stage::occurrences::{asked, formula_occurrences};
use size_stage::weights::{atoms_of, rules, weight};
use std::alloc::{AllocError as Memory, Global};
use type_derivation::TypedKb;

/// What a part of a file is, with its number among its kind.
#[derive(Clone, Copy)]
pub enum Piece {
    Declaration,
    Sentence(usize),
    Definition(usize),
    Term(usize),
}

/// A part of a file: where it stands, and its ground atoms or its weight.
#[derive(Clone, Copy)]
pub struct Part {
    pub piece: Piece,
    pub place: usize,
    pub count: u64,
}

/// How often an occurrence weighs more than a ground atom.
const WEIGHT_OF_OCCURRENCE: u64 = 4;

/// A part with its weight by its occurrences.
pub fn weighed(piece: Piece, place: usize, occurrences: u64) -> Part {
    Part {
        piece,
        place,
        count: occurrences.saturating_mul(WEIGHT_OF_OCCURRENCE),
    }
}

/// The declared symbols with their ground atoms.
pub fn atoms_in(
    alloc: Global,
    file: &TypedFile,
    domains: &Domains<'_, '_>,
) -> Result<Vec<Part>, Memory> {
    let mut parts = Vec::new(alloc);
    let places = file.kb.places.symbols.as_slice();
    let symbols = file.kb.vocab.symbols.as_slice();
    for number in 0..symbols.len() {
        if let Some(place) = places.get(number) {
            parts.push(Part {
                piece: Piece::Declaration,
                place: *place,
                count: atoms_of(domains, &symbols[number]),
            })?;
        }
    }
    Ok(parts)
}

/// The sentence of this number, which ends at this place.
fn sentence_at(
    kb: &TypedKb,
    theory: &Theory,
    domains: &Domains<'_, '_>,
    number: usize,
    place: usize,
) -> Option<Part> {
    let sentence = theory.sentences.get(number)?;
    let occurrences = formula_occurrences(&kb.vocab, domains, sentence);
    Some(weighed(Piece::Sentence(number), place, occurrences))
}

/// The definition of this number, which ends at this place.
fn definition_at(
    kb: &TypedKb,
    theory: &Theory,
    domains: &Domains<'_, '_>,
    number: usize,
    place: usize,
) -> Option<Part> {
    let definition = theory.definitions.get(number)?;
    let occurrences = rules(&kb.vocab, domains, definition.rules.as_slice());
    Some(weighed(Piece::Definition(number), place, occurrences))
}

/// Adds the sentences and the definitions of a theory, each where its end stands, with their weights.
fn add_theory(
    kb: &TypedKb,
    raw: &RawTheory,
    theory: &Theory,
    domains: &Domains<'_, '_>,
    parts: &mut Vec<Part>,
) -> Result<(), Memory> {
    let mut sentences = 0usize;
    let mut definitions = 0usize;
    for item in raw.items.as_slice() {
        let part = match item {
            RawTheoryItem::Sentence(sentence) => {
                sentences = sentences.saturating_add(1);
                sentence_at(kb, theory, domains, sentences - 1, sentence.dot)
            }
            RawTheoryItem::Definition(definition) => {
                definitions = definitions.saturating_add(1);
                definition_at(kb, theory, domains, definitions - 1, definition.close)
            }
        };
        if let Some(part) = part {
            parts.push(part)?;
        }
    }
    Ok(())
}

/// Adds the terms that may be asked for, with their weights.
fn add_terms(
    file: &TypedFile,
    domains: &Domains<'_, '_>,
    parts: &mut Vec<Part>,
) -> Result<(), Memory> {
    let raws = file.raw.terms.as_slice();
    let terms = file.kb.terms.as_slice();
    for number in 0..terms.len() {
        if let Some(raw) = raws.get(number) {
            let occurrences = asked(&file.kb.vocab, domains, &terms[number].value);
            parts.push(weighed(Piece::Term(number), raw.close, occurrences))?;
        }
    }
    Ok(())
}

/// The sentences and definitions of the chosen theory and the terms, with their weights.
pub fn weights_in(
    alloc: Global,
    file: &TypedFile,
    domains: &Domains<'_, '_>,
) -> Result<Vec<Part>, Memory> {
    let mut parts = Vec::new(alloc);
    let theory = file.picked.theory;
    if let (Some(raw), Some(named)) = (
        file.raw.theories.as_slice().get(theory),
        file.kb.theories.get(theory),
    ) {
        add_theory(&file.kb, raw, &named.value, domains, &mut parts)?;
    }
    add_terms(file, domains, &mut parts)?;
    Ok(parts)
}

/// What the chosen theory weighs with all terms.
pub fn whole_weight(file: &TypedFile, domains: &Domains<'_, '_>) -> u64 {
    match file.kb.theories.get(file.picked.theory) {
        Some(named) => weight(
            &file.kb.vocab,
            domains,
            &named.value,
            file.kb.terms.as_slice(),
        ),
        None => 0,
    }
}
