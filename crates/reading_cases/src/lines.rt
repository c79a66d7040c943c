//! The line that is printed of one text.
ghost use Rattle.std.specs.Prelude.{◌≡◌, IfOk, length};
ghost use Rattle.std.specs.String.{string_bytes};
ghost use Rattle.kb_text.specs.Tokens.{lexeme_of, lexemes};
ghost use Rattle.block_choice.specs.Choices.{word_given};
ghost use Rattle.grammar.specs.BlockView.{structure_view};
ghost use Rattle.stage_definitions.specs.FileView.{file_in};
ghost use Rattle.type_derivation.specs.TypedViews.{typed_view};
ghost use Rattle.reading_cases.specs.Lines.{letter_of, word_of, words_of, counts_text, fault_text, picked_text};
ghost use Rattle.reading_cases.specs.Lines.{sizes_text, IsChosenLine, IsCountLine, IsDataLine, IsFileLine};
ghost use Rattle.reading_cases.specs.Lines.{IsFormulaLine, IsLine, IsMeasuredLine, IsNamesLine, IsPickLine, IsTermLine};
ghost use Rattle.reading_cases.specs.Lines.{IsTokensLine, IsTypesLine};

use crate::calls::{Call, call_of, cut};
use fo_reader::{KbError, RawKb, read_formula, read_kb, read_term};
use grammar::RawStructure;
use kb_names::{Picked, pick, resolve};
use kb_text::{KbFault, Kind, LexError, Token, tokens};
use std::alloc::{AllocError, Global};
use structure_reader::{Measure, read_data};
use type_derivation::{TypedKb, derive};

fn letter(kind: Kind) -> &'static str
    ensures { result.now ≡ letter_of kind }
{
    match kind {
        Kind::Word => "W",
        Kind::Int => "I",
        Kind::Sign => "S",
        Kind::Procedure => "P",
    }
}

// The kind's first letter and the span.
fn word(alloc: Global, token: &Token) -> Result<String, AllocError>
    ensures { IfOk result (λ word. string_bytes word ≡ word_of (lexeme_of token.now)) }
{
    let kind = letter(token.kind);
    let start = token.start;
    let end = token.end;
    format!(in alloc; " {kind}{start}..{end}")
}

fn words(alloc: Global, list: &[Token]) -> Result<String, AllocError>
    ensures { IfOk result (λ words. string_bytes words ≡ words_of (lexemes list.now)) }
{
    let mut words = String::new(alloc);
    for token in list {
        words.push_str(word(alloc, token)?.as_str())?;
    }
    words.push_str("\n")?;
    Ok(words)
}

fn fault_line(alloc: Global, fault: KbFault) -> Result<String, AllocError>
    ensures { IfOk result (λ line. string_bytes line ≡ fault_text fault) }
{
    let cause = fault.cause;
    let place = fault.place;
    format!(in alloc; "{cause} at {place}\n")
}

fn tokens_line(alloc: Global, text: &[u8]) -> Result<String, AllocError>
    ensures { IfOk result (λ line. IsTokensLine text.now (string_bytes line)) }
{
    match tokens(alloc, text) {
        Ok(list) => words(alloc, &list),
        Err(LexError::Refused(fault)) => fault_line(alloc, fault),
        Err(LexError::Memory) => Err(AllocError),
    }
}

fn count_line(alloc: Global, text: &[u8]) -> Result<String, AllocError>
    ensures { IfOk result (λ line. IsCountLine text.now (string_bytes line)) }
{
    match tokens(alloc, text) {
        Ok(list) => {
            let count = list.len();
            format!(in alloc; "{count} tokens\n")
        }
        Err(LexError::Refused(fault)) => fault_line(alloc, fault),
        Err(LexError::Memory) => Err(AllocError),
    }
}

fn formula_line(alloc: Global, text: &[u8]) -> Result<String, AllocError>
    ensures { IfOk result (λ line. IsFormulaLine text.now (string_bytes line)) }
{
    match read_formula(alloc, text) {
        Ok(_formula) => String::from_str(alloc, "read\n"),
        Err(KbError::Refused(fault)) => fault_line(alloc, fault),
        Err(KbError::Memory) => Err(AllocError),
    }
}

fn term_line(alloc: Global, text: &[u8]) -> Result<String, AllocError>
    ensures { IfOk result (λ line. IsTermLine text.now (string_bytes line)) }
{
    match read_term(alloc, text) {
        Ok(_term) => String::from_str(alloc, "read\n"),
        Err(KbError::Refused(fault)) => fault_line(alloc, fault),
        Err(KbError::Memory) => Err(AllocError),
    }
}

// How many blocks there are of each kind, and where the text ends.
fn counts(alloc: Global, kb: &RawKb) -> Result<String, AllocError>
    ensures { IfOk result (λ line. string_bytes line ≡ counts_text (length kb.now.vocabularies) (length kb.now.theories)
        (length kb.now.structures) (length kb.now.terms) kb.now.end) }
{
    let vocabularies = kb.vocabularies.len();
    let theories = kb.theories.len();
    let structures = kb.structures.len();
    let terms = kb.terms.len();
    let end = kb.end;
    format!(in alloc; "{vocabularies} {theories} {structures} {terms}, end {end}\n")
}

fn file_line(alloc: Global, text: &[u8]) -> Result<String, AllocError>
    ensures { IfOk result (λ line. IsFileLine text.now (string_bytes line)) }
{
    match read_kb(alloc, text) {
        Ok(kb) => counts(alloc, &kb),
        Err(KbError::Refused(fault)) => fault_line(alloc, fault),
        Err(KbError::Memory) => Err(AllocError),
    }
}

fn picked_line(alloc: Global, picked: Picked) -> Result<String, AllocError>
    ensures { IfOk result (λ line. string_bytes line ≡ picked_text picked.theory picked.structure) }
{
    let theory = picked.theory;
    let structure = picked.structure;
    format!(in alloc; "theory {theory} structure {structure}\n")
}

fn pick_line(alloc: Global, theory: Option<&str>, text: &[u8]) -> Result<String, AllocError>
    ensures { IfOk result (λ line. IsPickLine (word_given theory.entry) text.now (string_bytes line)) }
{
    let raw = match read_kb(alloc, text) {
        Ok(raw) => raw,
        Err(KbError::Refused(fault)) => return fault_line(alloc, fault),
        Err(KbError::Memory) => return Err(AllocError),
    };
    match pick(alloc, &raw, theory, None) {
        Ok(picked) => picked_line(alloc, picked),
        Err(KbError::Refused(fault)) => fault_line(alloc, fault),
        Err(KbError::Memory) => Err(AllocError),
    }
}

fn names_line(alloc: Global, text: &[u8]) -> Result<String, AllocError>
    ensures { IfOk result (λ line. IsNamesLine text.now (string_bytes line)) }
{
    let raw = match read_kb(alloc, text) {
        Ok(raw) => raw,
        Err(KbError::Refused(fault)) => return fault_line(alloc, fault),
        Err(KbError::Memory) => return Err(AllocError),
    };
    match resolve(alloc, &raw) {
        Ok(_named) => String::from_str(alloc, "named\n"),
        Err(KbError::Refused(fault)) => fault_line(alloc, fault),
        Err(KbError::Memory) => Err(AllocError),
    }
}

fn types_line(alloc: Global, text: &[u8]) -> Result<String, AllocError>
    ensures { IfOk result (λ line. IsTypesLine text.now (string_bytes line)) }
{
    let raw = match read_kb(alloc, text) {
        Ok(raw) => raw,
        Err(KbError::Refused(fault)) => return fault_line(alloc, fault),
        Err(KbError::Memory) => return Err(AllocError),
    };
    let named = match resolve(alloc, &raw) {
        Ok(named) => named,
        Err(KbError::Refused(fault)) => return fault_line(alloc, fault),
        Err(KbError::Memory) => return Err(AllocError),
    };
    match derive(alloc, named) {
        Ok(_typed) => String::from_str(alloc, "typed\n"),
        Err(KbError::Refused(fault)) => fault_line(alloc, fault),
        Err(KbError::Memory) => Err(AllocError),
    }
}

fn sizes_line(alloc: Global, sizes: Measure) -> Result<String, AllocError>
    ensures { IfOk result (λ line. string_bytes line ≡ sizes_text sizes.atoms sizes.weight) }
{
    let atoms = sizes.atoms;
    let weight = sizes.weight;
    format!(in alloc; "atoms {atoms} weight {weight}\n")
}

// The sizes over the structure beside the theory with this number.
fn measured_line(
    alloc: Global,
    kb: &TypedKb,
    theory: usize,
    structure: &RawStructure,
) -> Result<String, AllocError>
    ensures { IfOk result (λ line. IsMeasuredLine (typed_view kb.now) theory (structure_view structure.now)
        (string_bytes line)) }
{
    match read_data(alloc, kb, theory, structure) {
        Ok((_partial, sizes)) => sizes_line(alloc, sizes),
        Err(KbError::Refused(fault)) => fault_line(alloc, fault),
        Err(KbError::Memory) => Err(AllocError),
    }
}

// The same for the theory with this number, in the file.
fn chosen_line(
    alloc: Global,
    raw: &RawKb,
    theory: usize,
    structure: &RawStructure,
) -> Result<String, AllocError>
    ensures { IfOk result (λ line. IsChosenLine (file_in raw.now) theory (structure_view structure.now)
        (string_bytes line)) }
{
    let named = match resolve(alloc, raw) {
        Ok(named) => named,
        Err(KbError::Refused(fault)) => return fault_line(alloc, fault),
        Err(KbError::Memory) => return Err(AllocError),
    };
    match derive(alloc, named) {
        Ok(kb) => measured_line(alloc, &kb, theory, structure),
        Err(KbError::Refused(fault)) => fault_line(alloc, fault),
        Err(KbError::Memory) => Err(AllocError),
    }
}

fn data_line(alloc: Global, text: &[u8]) -> Result<String, AllocError>
    ensures { IfOk result (λ line. IsDataLine text.now (string_bytes line)) }
{
    let raw = match read_kb(alloc, text) {
        Ok(raw) => raw,
        Err(KbError::Refused(fault)) => return fault_line(alloc, fault),
        Err(KbError::Memory) => return Err(AllocError),
    };
    let picked = match pick(alloc, &raw, None, None) {
        Ok(picked) => picked,
        Err(KbError::Refused(fault)) => return fault_line(alloc, fault),
        Err(KbError::Memory) => return Err(AllocError),
    };
    // The structure that was picked is one of the file's.
    let Some(structure) = raw.structures.get(picked.structure) else {
        return Err(AllocError);
    };
    chosen_line(alloc, &raw, picked.theory, structure)
}

/// The line of one case.
pub fn line(alloc: Global, case: &[u8]) -> Result<String, AllocError>
    ensures { IfOk result (λ line. IsLine case.now (string_bytes line)) }
{
    let (word, text) = cut(case);
    let Some(call) = call_of(word) else {
        return String::from_str(alloc, "no such call\n");
    };
    match call {
        Call::Tokens => tokens_line(alloc, text),
        Call::Count => count_line(alloc, text),
        Call::Formula => formula_line(alloc, text),
        Call::Term => term_line(alloc, text),
        Call::File => file_line(alloc, text),
        Call::Pick => pick_line(alloc, None, text),
        Call::PickT => pick_line(alloc, Some("T"), text),
        Call::PickU => pick_line(alloc, Some("U"), text),
        Call::Names => names_line(alloc, text),
        Call::Types => types_line(alloc, text),
        Call::Data => data_line(alloc, text),
    }
}
