//! What a partial structure knows of a symbol, as rows of text.
ghost use Rattle.std.specs.Prelude.{◌≡◌, [], ◌∷◌, Some, None, OnOk, IfOk, Contains, slice_get};
ghost use Rattle.kb_logic.specs.Models.{IsAtomOver, atom_of};
ghost use Rattle.kb_logic.specs.Structures.{tuples_of};
ghost use Rattle.printed_texts.specs.Entries.{atoms_at, function_atoms, is_some_row, rows_where};
ghost use Rattle.fo_printer.specs.Gathering.{AreAtomsOver, HasMore, HasNotedAtoms, IsGathered};

use crate::rows::RowText;
use kb_logic::tuples::all_tuples;
use kb_logic::values::domain_in;
use kb_logic::{Elem, ElemList, Literal, Memory, Symbol};
use partial_structures::{Partial, Truth};
use std::alloc::Global;

/// The rows of a symbol that are certainly true, those that are certainly false and that no value of a function
/// implies, and whether all is known of the symbol.
#[derive(Drop)]
pub(crate) struct SymbolText {
    pub whole: bool,
    pub trues: RowText,
    pub falses: RowText,
}

/// What is known of the symbol with this number.
pub(crate) fn gather(
    alloc: Global,
    s: &Partial,
    number: u32,
    symbol: &Symbol,
) -> Result<SymbolText, Memory>
    requires { slice_get s.now.symbols number ≡ Some symbol.now }
    ensures { IfOk result (λ t. IsGathered s.now (number, symbol.now) t) }
{
    let tuples = all_tuples(alloc, s.domains().as_slice(), symbol.args.as_slice())?;
    let mut text = SymbolText {
        whole: true,
        trues: RowText::new(alloc),
        falses: RowText::new(alloc),
    };
    for args in tuples {
        text.note(alloc, s, number, symbol, args)?;
    }
    Ok(text)
}

impl SymbolText {
    /// Notes what is known of the symbol with this number for these arguments.
    fn note(
        &mut self,
        alloc: Global,
        s: &Partial,
        number: u32,
        symbol: &Symbol,
        args: ElemList,
    ) -> Result<(), Memory>
        requires declared { slice_get s.now.symbols number ≡ Some symbol.now }
        requires tuple { Contains (tuples_of s.now.domains symbol.now.args) args }
        ensures { OnOk result (HasNotedAtoms s.now symbol.now.value
            (atoms_at s.now.domains number symbol.now.value args) self.old self.new) }
    {
        let mut atom = Literal {
            positive: true,
            symbol: number,
            args,
            value: None,
        };
        match symbol.value {
            None => self.note_atom(s, &atom),
            Some(ty) => {
                self.note_values(alloc, s, &mut atom, domain_in(s.domains().as_slice(), ty))
            }
        }
    }

    /// Notes what is known of an atom of a predicate.
    fn note_atom(&mut self, s: &Partial, atom: &Literal) -> Result<(), Memory>
        requires { IsAtomOver s.now.symbols s.now.domains (atom_of atom.now) }
        ensures { OnOk result (HasNotedAtoms s.now None (atom_of atom.now ∷ []) self.old self.new) }
    {
        match s.value(atom) {
            Truth::Yes => self.trues.add(atom),
            Truth::No => self.falses.add(atom),
            Truth::Unknown => {
                self.whole = false;
                Ok(())
            }
        }
    }

    /// Notes which of these values a function has, and where it has none, which ones it has not.
    fn note_values(
        &mut self,
        alloc: Global,
        s: &Partial,
        atom: &mut Literal,
        values: &[Elem],
    ) -> Result<(), Memory>
        requires { AreAtomsOver s.now atom.old.symbol atom.old.args values.now }
        ensures { OnOk result (HasNotedAtoms s.now (Some 0)
            (function_atoms atom.old.symbol atom.old.args values.now) self.old self.new) }
    {
        let has_value = add_values(alloc, &mut self.trues, s, atom, values, true)?;
        if has_value {
            return Ok(());
        }
        self.whole = false;
        add_values(alloc, &mut self.falses, s, atom, values, false)?;
        Ok(())
    }
}

/// Adds the rows of a function's atoms with these values that are certainly true, or certainly false, and returns
/// whether there are any.
fn add_values(
    alloc: Global,
    rows: &mut RowText,
    s: &Partial,
    atom: &mut Literal,
    values: &[Elem],
    holds: bool,
) -> Result<bool, Memory>
    requires { AreAtomsOver s.now atom.old.symbol atom.old.args values.now }
    ensures rows { OnOk result (HasMore rows.old rows.new
        (rows_where holds s.now (function_atoms atom.old.symbol atom.old.args values.now))) }
    ensures some { IfOk result (λ some. some ≡ is_some_row
        (rows_where holds s.now (function_atoms atom.old.symbol atom.old.args values.now))) }
    ensures symbol { atom.new.symbol ≡ atom.old.symbol }
    ensures args { atom.new.args ≡ atom.old.args }
{
    let mut some = false;
    for x in values {
        atom.value = Some(x.copy(alloc)?);
        if add_if(rows, s, atom, holds)? {
            some = true;
        }
    }
    Ok(some)
}

/// Adds the row of an atom that is certainly true, or certainly false, and returns whether it is.
fn add_if(rows: &mut RowText, s: &Partial, atom: &Literal, holds: bool) -> Result<bool, Memory>
    requires { IsAtomOver s.now.symbols s.now.domains (atom_of atom.now) }
    ensures rows { OnOk result (HasMore rows.old rows.new (rows_where holds s.now (atom_of atom.now ∷ []))) }
    ensures some { IfOk result (λ some. some ≡ is_some_row (rows_where holds s.now (atom_of atom.now ∷ []))) }
{
    let known = match s.value(atom) {
        Truth::Yes => holds,
        Truth::No => !holds,
        Truth::Unknown => false,
    };
    if known {
        rows.add(atom)?;
    }
    Ok(known)
}
