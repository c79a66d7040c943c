//! The variables of the ground atoms over a vocabulary and domains.
ghost use Rattle.std.specs.Prelude.{◌≡◌, ◌≤◌, ◌<◌, ◌^◌, length, IfOk, MatchOption, None};
ghost use Rattle.kb_logic.specs.Models.{IsAtomOver, atom_of};
ghost use Rattle.kb_logic.specs.KnownAtoms.{atoms_over};
ghost use Rattle.kb_logic.specs.declared.structures.Literal.{Literal as ALiteral};
ghost use Rattle.lit_core.specs.Literals.{valuation};
ghost use Rattle.ground_core.specs.Problems.{IsLitOf};
ghost use Rattle.term_values.specs.GroundBases.{structure_of};
ghost use Rattle.term_values.specs.KnownBases.{IsGroundBase};
ghost use Rattle.atom_numbers.specs.Numbers.{HasNumber, IsApplication, bare_base, AreNumbered};

use crate::found::FoundStructure;
use crate::places::{application_at, atom_count, literal_at, symbol_of, variable_of};
use crate::tables::{functions, relations};
use kb_logic::{DomainList, ElemList, Literal, Memory, Symbol, Vocabulary};
use lit_core::{Lit, Values, Var};
use std::alloc::Global;
use std::marker::Model;
use std::rc::Rc;

/// The ground atoms over a vocabulary and domains, numbered from 1 on in their order: the symbols as
/// declared, the arguments of each in domain order, then the values of a function in domain order.
#[derive(Drop)]
pub struct AtomNumbers {
    vocabulary: Vocabulary,
    // Shared with each structure that is found.
    domains: Rc<DomainList>,
    // The variable of each symbol's first atom.
    firsts: Vec<u64>,
}

impl Model for AtomNumbers {
    ghost use Rattle.term_values.specs.GroundBases.{GroundBase};

    ghost Value = { GroundBase };

    ghost use Rattle.atom_numbers.specs.NumberFields.{base_in, IsNumbered};

    ghost view = { base_in };

    ghost invariant = { IsNumbered };
}

/// The variable of each symbol's first atom. More atoms than a `u64` counts are answered as out of memory.
fn first_vars(alloc: Global, domains: &[ElemList], symbols: &[Symbol]) -> Result<Vec<u64>, Memory>
    requires { length symbols.now ≤ 2 ^ 32 }
    ensures { IfOk result (λ firsts. AreNumbered domains.now symbols.now firsts.items) }
{
    let mut firsts = Vec::new(alloc);
    let mut next = 1u64;
    for symbol in symbols {
        firsts.push(next)?;
        let Some(count) = atom_count(domains, symbol) else {
            return Err(Memory);
        };
        let Some(sum) = next.checked_add(count) else {
            return Err(Memory);
        };
        next = sum;
    }
    Ok(firsts)
}

/// A copy that is to be shared.
fn shared(alloc: Global, domains: &DomainList) -> Result<Rc<DomainList>, Memory>
    ensures { IfOk result (λ copy. copy.value ≡ domains.now) }
{
    match Rc::new(alloc, domains.copy(alloc)?) {
        Ok(copy) => Ok(copy),
        Err(_) => Err(Memory),
    }
}

/// The domains that are shared.
fn lists(domains: &Rc<DomainList>) -> &[ElemList]
    ensures { result.now ≡ domains.now.value }
{
    domains.as_slice()
}

impl AtomNumbers {
    /// The numbers of the atoms over these domains, of which the value has copies. It takes time and
    /// memory linear in the elements and symbols. More atoms than a `u64` counts are answered as out of memory.
    pub fn of(
        alloc: Global,
        vocabulary: &Vocabulary,
        domains: &DomainList,
    ) -> Result<AtomNumbers, Memory>
        requires fine { IsGroundBase (bare_base vocabulary.now domains.now) }
        requires few { length vocabulary.now.symbols ≤ 2 ^ 32 }
        ensures { IfOk result (λ n. n ≡ bare_base vocabulary.now domains.now) }
    {
        let vocabulary = vocabulary.copy(alloc)?;
        let firsts = first_vars(alloc, domains.as_slice(), vocabulary.symbols.as_slice())?;
        let domains = shared(alloc, domains)?;
        Ok(AtomNumbers {
            vocabulary,
            domains,
            firsts,
        })
    }

    /// The literal of the variable that the literal's atom has. It takes time linear in the atom's arguments where
    /// their domains are runs of integers, and else in these domains.
    pub fn lit_of(&self, literal: &Literal) -> Lit
        requires { IsAtomOver self.now.vocabulary.symbols self.now.domains (atom_of literal.now) }
        ensures { HasNumber self.now literal.now result }
    {
        let symbols = self.vocabulary.symbols.as_slice();
        let domains = lists(&self.domains);
        Lit {
            var: Var(variable_of(domains, symbols, self.firsts.as_slice(), literal)),
            positive: literal.positive,
        }
    }

    /// The literal of the atom that has the literal's variable. It takes time linear in the number of symbols and of
    /// the symbol's arguments.
    pub fn literal_of(&self, alloc: Global, lit: Lit) -> Result<Literal, Memory>
        requires { IsLitOf (length (atoms_over self.now.vocabulary.symbols self.now.domains)) lit }
        ensures { IfOk result (λ l. HasNumber self.now l lit × IsAtomOver self.now.vocabulary.symbols self.now.domains
            (atom_of l)) }
    {
        let symbols = self.vocabulary.symbols.as_slice();
        let domains = lists(&self.domains);
        let firsts = self.firsts.as_slice();
        let number = symbol_of(domains, symbols, firsts, lit);
        let place = lit.var.0 - firsts[number];
        let symbol = &symbols[number];
        literal_at(alloc, domains, symbol, number as u32, place, lit.positive)
    }

    /// The variable of the first atom that gives the same function a value at the same arguments as the literal's atom
    /// does, and None where that is a predicate's. It takes time linear in the number of symbols.
    pub fn application_of(&self, lit: Lit) -> Option<u64>
        requires { IsLitOf (length (atoms_over self.now.vocabulary.symbols self.now.domains)) lit }
        ensures { (l : ALiteral) → HasNumber self.now l lit
            → MatchOption result (l.value ≡ None) (IsApplication self.now l) }
    {
        let symbols = self.vocabulary.symbols.as_slice();
        let domains = lists(&self.domains);
        let firsts = self.firsts.as_slice();
        let number = symbol_of(domains, symbols, firsts, lit);
        let place = lit.var.0 - firsts[number];
        application_at(domains, &symbols[number], place, lit.var.0)
    }

    /// The structure in which the atoms with true variables hold. It takes time linear in the number
    /// of atoms.
    pub fn structure_of(&self, alloc: Global, values: &Values) -> Result<FoundStructure, Memory>
        ensures { IfOk result (λ m. m ≡ structure_of self.now (valuation values.now)) }
    {
        let symbols = self.vocabulary.symbols.as_slice();
        let firsts = self.firsts.as_slice();
        let domains = lists(&self.domains);
        let relations = relations(alloc, domains, symbols, firsts, values)?;
        let functions = functions(alloc, domains, symbols, firsts, values)?;
        FoundStructure::over(alloc, &self.domains, relations, functions)
    }
}
