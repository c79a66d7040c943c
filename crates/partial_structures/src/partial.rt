//! Partial structures.
ghost use Rattle.std.specs.Prelude.{◌≡◌, ◌↔◌, ◌<◌, ◌++◌, length, map, Contains, IfOk, IsTrue, MatchBool};
ghost use Rattle.std.specs.Prelude.{OnOk, OnErr, IsErrOf};
ghost use Rattle.std.specs.List.{AllByRecursion};
ghost use Rattle.kb_logic.specs.Structures.{IsDistinct, domain_at};
ghost use Rattle.partial_structures.specs.Known.{known_in};
ghost use Rattle.partial_structures.specs.KnownAtoms.{IsAtomOver, atom_of, atoms_of, nothing_known, value_at};
ghost use Rattle.partial_structures.specs.KnownAtoms.{with_closed, with_false, with_true};
ghost use Rattle.partial_structures.specs.Consistency.{IsConsistent, IsListed};
ghost use Rattle.partial_structures.specs.Lent.{lent_atom};
ghost use Rattle.partial_structures.specs.Extension.{ExtendsData, IsStructureOver};
ghost use Rattle.row_tries.specs.declared.truths.Truth.TheVariants.{Yes, No};
ghost use Rattle.partial_structures.specs.declared.errors.SetError.TheVariants.{DataClash};

use crate::atoms::{make_false, make_lent_false, make_lent_true, make_true, status};
use crate::elements::Elements;
use crate::errors::SetError;
use crate::extension::{are_same_domains, left_over};
use crate::flags::flag;
use crate::known::Known;
use crate::ordered::push_beyond;
use kb_logic::{DomainList, Elem, Literal, Memory, Structure, SymbolList, Vocabulary};
use row_tries::{LentElem, Rows, Truth, Words};
use std::alloc::Global;
use std::marker::Model;

/// What is certainly true and what is certainly false among the atoms over some domains.
#[derive(Drop)]
pub struct Partial {
    symbols: SymbolList,
    domains: DomainList,
    // For each symbol whether every atom that no row speaks of is false.
    closed: Vec<bool>,
    rows: Rows,
    elements: Elements,
    // How many atoms are certainly true.
    count: u64,
}

impl Model for Partial {
    ghost use Rattle.partial_structures.specs.KnownAtoms.{KnownAtoms};

    ghost Value = { KnownAtoms };

    ghost use Rattle.partial_structures.specs.Status.{known_atoms, IsSound};

    ghost view = { known_atoms };

    ghost invariant = { IsSound };
}

impl Partial {
    /// Nothing is known of the atoms of the vocabulary over the domains, of which there is one for each type.
    pub fn new(alloc: Global, vocab: &Vocabulary, domains: DomainList) -> Result<Partial, Memory>
        requires types { length domains ≡ length vocab.now.types }
        requires distinct { AllByRecursion IsDistinct domains }
        ensures { IfOk result (λ p. p ≡ nothing_known vocab.now.symbols domains) }
    {
        let words = Words::of(alloc, &domains)?;
        let symbols = vocab.symbols.copy(alloc)?;
        let closed = vec![in alloc; false; symbols.len()]?;
        let rows = Rows::new(alloc, words);
        let elements = Elements::of(alloc, &rows, domains.as_slice())?;
        Ok(Partial {
            symbols,
            domains,
            closed,
            rows,
            elements,
            count: 0,
        })
    }

    pub fn copy(&self, alloc: Global) -> Result<Partial, Memory>
        ensures { IfOk result (λ p. p ≡ self.now) }
    {
        let domains = self.domains.copy(alloc)?;
        let words = Words::of(alloc, &domains)?;
        let rows = self.rows.with_words(words)?;
        let elements = Elements::of(alloc, &rows, domains.as_slice())?;
        Ok(Partial {
            symbols: self.symbols.copy(alloc)?,
            domains,
            closed: Vec::from_slice(alloc, &self.closed)?,
            rows,
            elements,
            count: self.count,
        })
    }

    pub fn symbols(&self) -> &SymbolList
        ensures { result.now ≡ self.now.symbols }
    {
        &self.symbols
    }

    pub fn domains(&self) -> &DomainList
        ensures domains { result.now ≡ self.now.domains }
        ensures distinct { AllByRecursion IsDistinct self.now.domains }
    {
        &self.domains
    }

    /// Whether the element is one of the type's. It takes no more time than the element is long.
    pub fn has_element(&self, ty: u32, elem: &Elem) -> bool
        ensures { MatchBool result (Contains (domain_at self.now.domains ty) elem.now)
            (Contains (domain_at self.now.domains ty) elem.now → ⊥) }
    {
        self.elements.contains(ty, self.rows.label(elem))
    }

    /// What is known is consistent: no function has two values at the same arguments, and no atom is both
    /// true and false. It is listed in the order of all atoms, and a function's other values are false where
    /// one is true. It does nothing.
    pub fn consistency(&self)
        ensures consistent { IsConsistent self.now }
        ensures listed { IsListed self.now }
    {
        // Brings the invariant of the type into scope.
        let _count = self.count;
    }

    /// What is known of an atom over the domains, whether the literal affirms or denies it.
    pub fn value(&self, atom: &Literal) -> Truth
        requires { IsAtomOver self.now.symbols self.now.domains (atom_of atom.now) }
        ensures { result ≡ value_at self.now (atom_of atom.now) }
    {
        status(&self.rows, flag(&self.closed, atom.symbol), atom)
    }

    /// Pushes what is known of each atom of the symbol, in their order; nothing where there is no such symbol.
    pub fn push_values(&self, symbol: u32, out: &mut Vec<Truth>) -> Result<(), Memory>
        ensures { OnOk result (out.new.items ≡ out.old.items ++ map (value_at self.now) (atoms_of self.now symbol)) }
    {
        let s = self.lent();
        match self.symbols.get(symbol as usize) {
            None => Ok(()),
            Some(declared) => push_beyond(
                s,
                flag(s.closed, symbol),
                s.rows.root(symbol),
                declared.args.as_slice(),
                declared.value,
                out,
            ),
        }
    }

    /// Makes an atom over the domains certainly true, whether the literal affirms or denies it.
    pub fn set_true(&mut self, atom: &Literal) -> Result<(), SetError>
        requires { IsAtomOver self.old.symbols self.old.domains (atom_of atom.now) }
        ensures ok { OnOk result (self.new ≡ with_true self.old (atom_of atom.now)) }
        ensures clash { IsErrOf result DataClash ↔ (value_at self.old (atom_of atom.now) ≡ No) }
        ensures err { OnErr result (self.new ≡ self.old) }
    {
        let closed = flag(&self.closed, atom.symbol);
        match make_true(&mut self.rows, closed, self.count, atom) {
            Ok(count) => {
                self.count = count;
                Ok(())
            }
            Err(error) => Err(error),
        }
    }

    /// Makes an atom over the domains certainly false, whether the literal affirms or denies it.
    pub fn set_false(&mut self, atom: &Literal) -> Result<(), SetError>
        requires { IsAtomOver self.old.symbols self.old.domains (atom_of atom.now) }
        ensures ok { OnOk result (self.new ≡ with_false self.old (atom_of atom.now)) }
        ensures clash { IsErrOf result DataClash ↔ (value_at self.old (atom_of atom.now) ≡ Yes) }
        ensures err { OnErr result (self.new ≡ self.old) }
    {
        match status(&self.rows, flag(&self.closed, atom.symbol), atom) {
            Truth::Yes => Err(SetError::DataClash),
            _ => match make_false(&mut self.rows, atom) {
                Ok(()) => Ok(()),
                Err(_) => Err(SetError::Memory),
            },
        }
    }

    /// Makes the atom of these elements over the domains, which is not false, certainly true. No name is copied.
    pub fn affirm(
        &mut self,
        symbol: u32,
        args: &[LentElem<'_>],
        value: Option<LentElem<'_>>,
    ) -> Result<(), Memory>
        requires over { IsAtomOver self.old.symbols self.old.domains (lent_atom symbol args.now value) }
        requires free { value_at self.old (lent_atom symbol args.now value) ≡ No → ⊥ }
        ensures ok { OnOk result (self.new ≡ with_true self.old (lent_atom symbol args.now value.entry)) }
        ensures err { OnErr result (self.new ≡ self.old) }
    {
        let closed = flag(&self.closed, symbol);
        match make_lent_true(&mut self.rows, closed, self.count, symbol, args, value) {
            Ok(count) => {
                self.count = count;
                Ok(())
            }
            Err(error) => Err(error),
        }
    }

    /// Makes the atom of these elements over the domains, which is not true, certainly false. No name is copied.
    pub fn deny(
        &mut self,
        symbol: u32,
        args: &[LentElem<'_>],
        value: Option<LentElem<'_>>,
    ) -> Result<(), Memory>
        requires over { IsAtomOver self.old.symbols self.old.domains (lent_atom symbol args.now value) }
        requires free { value_at self.old (lent_atom symbol args.now value) ≡ Yes → ⊥ }
        ensures ok { OnOk result (self.new ≡ with_false self.old (lent_atom symbol args.now value.entry)) }
        ensures err { OnErr result (self.new ≡ self.old) }
    {
        make_lent_false(&mut self.rows, symbol, args, value)
    }

    /// As `extends`.
    fn is_extended_by(&self, m: &Structure) -> bool
        requires { IsStructureOver self.now.symbols m.now }
        ensures { IsTrue result ↔ ExtendsData m.now self.now }
    {
        if !are_same_domains(m.domains.as_slice(), self.domains.as_slice()) {
            return false;
        }
        let relations = m.relations.as_slice();
        match left_over(&self.rows, &self.closed, false, relations, self.count) {
            None => false,
            Some(left) => {
                let functions = m.functions.as_slice();
                left_over(&self.rows, &self.closed, true, functions, left) == Some(0)
            }
        }
    }

    /// What is known, as an evaluator takes it.
    pub fn lent(&self) -> Known<'_>
        ensures { known_in result ≡ self.now }
    {
        Known {
            symbols: self.symbols.as_slice(),
            domains: self.domains.as_slice(),
            closed: &self.closed,
            rows: &self.rows,
            elements: &self.elements,
        }
    }

    /// Makes every atom of the symbol that is unknown certainly false, which takes no memory.
    pub fn close(&mut self, symbol: u32)
        requires { symbol < length self.old.symbols }
        ensures { self.new ≡ with_closed self.old symbol }
    {
        self.closed[symbol as usize] = true;
    }
}

/// Whether the structure, which is one over the partial structure's symbols, extends it.
pub fn extends(m: &Structure, s: &Partial) -> bool
    requires { IsStructureOver s.now.symbols m.now }
    ensures { IsTrue result ↔ ExtendsData m.now s.now }
{
    s.is_extended_by(m)
}
