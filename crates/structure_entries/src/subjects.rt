//! What the words of entries name.
ghost use Rattle.std.specs.Prelude.{◌≡◌, ◌++◌, ◌&&◌, ◌==◌, List, not, is_some, length, map, slice_get, IfOk, OnOk};
ghost use Rattle.std.specs.Prelude.{if◌then◌else◌};
ghost use Rattle.std.specs.List.{enumerate_from, flat_map};
ghost use Rattle.std.specs.Option.{option_map};
ghost use Rattle.std.specs.Str.{bytes_eq};
ghost use Rattle.stage_definitions.specs.Scopes.{Text};
ghost use Rattle.stage_definitions.specs.DataEntries as said;
ghost use Rattle.stage_definitions.specs.DataStage as stage;
ghost use Rattle.structure_entries.specs.EntryViews.{found_in, subject_view, subjects_in};
ghost use Rattle.structure_entries.specs.Naming.{AreSubjectsOf};

use indexmap::IndexMap;
use kb_logic::{Memory, Name, Symbol, TypeDecl, Vocabulary};
use std::alloc::Global;

/// What a word names: nothing, the name of a constructed type's element, or a type or a symbol with its number.
#[derive(Clone, Copy)]
pub enum Subject<'a> {
    Nothing,
    OfElement,
    OfType(usize, &'a TypeDecl),
    OfSymbol(usize, &'a Symbol),
}

/// The names of a vocabulary with what they name.
#[derive(Drop)]
pub struct Subjects<'a> {
    pub table: IndexMap<&'a [u8], Subject<'a>>,
}

impl<'a> Subjects<'a> {
    /// What the words of the vocabulary name.
    pub fn of(alloc: Global, vocab: &'a Vocabulary) -> Result<Subjects<'a>, Memory>
        ensures { IfOk result (AreSubjectsOf vocab.now) }
    {
        let mut subjects = Subjects {
            table: IndexMap::new(alloc),
        };
        subjects.add_types(vocab.types.as_slice())?;
        subjects.add_symbols(vocab.symbols.as_slice())?;
        subjects.add_elements(vocab.types.as_slice())?;
        Ok(subjects)
    }

    pub fn find(&self, word: &'a [u8]) -> Subject<'a>
        ensures { subject_view result ≡ found_in word.now (subjects_in self.now) said.nothing_named }
    {
        match self.table.get(word) {
            Some(subject) => *subject,
            None => Subject::Nothing,
        }
    }

    /// One more name; one that is there already names what it did.
    fn add(&mut self, word: &'a [u8], subject: Subject<'a>) -> Result<(), Memory>
        ensures { OnOk result ((w : Text) (other : said.Subject) → found_in w (subjects_in self.new) other ≡ found_in w
            (subjects_in self.old) (if bytes_eq w word.now then subject_view subject.entry else other)) }
    {
        if !self.table.contains_key(word) {
            self.table.insert(word, subject)?;
        }
        Ok(())
    }

    fn add_types(&mut self, types: &'a [TypeDecl]) -> Result<(), Memory>
        ensures { OnOk result ((w : Text) (other : said.Subject) → found_in w (subjects_in self.new) other ≡ found_in w
            (subjects_in self.old) (said.named_in_types w (enumerate_from 0 types.now) other)) }
    {
        for t in 0..types.len() {
            self.add(types[t].name.text(), Subject::OfType(t, &types[t]))?;
        }
        Ok(())
    }

    fn add_symbols(&mut self, symbols: &'a [Symbol]) -> Result<(), Memory>
        ensures { OnOk result ((w : Text) (other : said.Subject) → found_in w (subjects_in self.new) other ≡ found_in w
            (subjects_in self.old) (said.named_in_symbols w (enumerate_from 0 symbols.now) other)) }
    {
        for s in 0..symbols.len() {
            self.add(symbols[s].name.text(), Subject::OfSymbol(s, &symbols[s]))?;
        }
        Ok(())
    }

    /// The names of one type's elements, before others.
    fn add_names(&mut self, names: &'a [Name]) -> Result<(), Memory>
        ensures { OnOk result ((w : Text) (more : List Text) → found_in w (subjects_in self.new)
            (said.named_in_elements w more) ≡ found_in w (subjects_in self.old)
            (said.named_in_elements w (names.now ++ more))) }
    {
        for name in names {
            self.add(name.text(), Subject::OfElement)?;
        }
        Ok(())
    }

    fn add_elements(&mut self, types: &'a [TypeDecl]) -> Result<(), Memory>
        ensures { OnOk result ((w : Text) → found_in w (subjects_in self.new) said.nothing_named ≡ found_in w
            (subjects_in self.old) (said.named_in_elements w (flat_map (λ d. d.made) types.now))) }
    {
        for decl in types {
            self.add_names(decl.made.as_slice())?;
        }
        Ok(())
    }
}

impl<'a> Subject<'a> {
    pub fn is_nothing(self) -> bool
        ensures { result ≡ stage.is_nothing (subject_view self.entry) }
    {
        match self {
            Subject::Nothing => true,
            Subject::OfElement => false,
            Subject::OfType(_, _) => false,
            Subject::OfSymbol(_, _) => false,
        }
    }

    pub fn is_a_type(self) -> bool
        ensures { result ≡ said.is_a_type (subject_view self.entry) }
    {
        match self {
            Subject::Nothing => false,
            Subject::OfElement => false,
            Subject::OfType(_, _) => true,
            Subject::OfSymbol(_, _) => false,
        }
    }

    /// How many arguments a row has.
    pub fn argument_count(self) -> usize
        ensures { result ≡ length (said.argument_types (subject_view self.entry)) }
    {
        match self {
            Subject::Nothing => 0,
            Subject::OfElement => 0,
            Subject::OfType(_, _) => 1,
            Subject::OfSymbol(_, symbol) => symbol.args.len(),
        }
    }

    /// The type of the argument with this number.
    pub fn argument_type(self, i: usize) -> Option<usize>
        ensures { result ≡ slice_get (said.argument_types (subject_view self.entry)) i }
    {
        match self {
            Subject::Nothing => None,
            Subject::OfElement => None,
            Subject::OfType(ty, _) => { if i == 0 { Some(ty) } else { None } }
            Subject::OfSymbol(_, symbol) => match symbol.args.get(i) {
                Some(ty) => Some(*ty as usize),
                None => None,
            },
        }
    }

    /// The type of a row's value.
    pub fn value_type(self) -> Option<usize>
        ensures { result ≡ said.value_type (subject_view self.entry) }
    {
        match self {
            Subject::Nothing => None,
            Subject::OfElement => None,
            Subject::OfType(_, _) => None,
            Subject::OfSymbol(_, symbol) => match symbol.value {
                Some(ty) => Some(ty as usize),
                None => None,
            },
        }
    }

    /// Whether rows have one argument and no value.
    pub fn is_plain_list(self) -> bool
        ensures { result ≡ said.is_plain_list (subject_view self.entry) }
    {
        self.argument_count() == 1 && self.value_type().is_none()
    }
}
