//! What a ground problem is made over, with what is known of each of its atoms.
ghost use Rattle.std.specs.Prelude.{◌≡◌, ◌<◌, ◌≤◌, ◌+◌, ◌*◌, ◌^◌, ◌∷◌, [], length, map, IfOk, IfSome, IsNone};
ghost use Rattle.std.specs.Prelude.{option_map};
ghost use Rattle.kb_logic.specs.Bounds.{value_type_of};
ghost use Rattle.plain_evaluation.specs.Environments.{env_view};
ghost use Rattle.kb_logic.specs.Trees.{terms_of};
ghost use Rattle.kb_logic.specs.Values.{value_view};
ghost use Rattle.kb_logic.specs.Views.{term_view};
ghost use Rattle.term_values.specs.DomainIndexes.{elem_index};
ghost use Rattle.term_values.specs.GroundBases.{known_of, first_var as first_variable, row_index, tuples_at, values_at};
ghost use Rattle.term_values.specs.KnownBases.{AreDataOf, base_of_data};
ghost use Rattle.term_values.specs.RowArithmetic.{RowsFit, TupleRowsFit};
ghost use Rattle.term_values.specs.RowValues.{row_value};
ghost use Rattle.term_values.specs.VariableTables.{capped};
ghost use Rattle.term_values.specs.Rows.{rows_of_term, rows_of_terms};

use crate::counts::{all_first_vars, count_tuples};
use crate::domain_index::{DomainIndex, indexes_of};
use crate::known_atoms::all_known;
use crate::plain_terms::plain_value;
use crate::rows::{RowValue, Rows, TupleRows};
use crate::term_rows::{push_term, put_terms};
use crate::tuple_places::{elem_place, tuple_place};
use kb_logic::values::{Value, domain_in};
use kb_logic::{Elem, ElemList, Memory, Term, Vocabulary};
use partial_structures::Partial;
use plain_evaluation::environments::Env;
use std::alloc::Global;
use std::marker::Model;

/// A vocabulary, domains, and what is known of each ground atom, as a ground problem is made over them.
#[derive(Drop)]
pub struct GroundData<'a> {
    vocabulary: &'a Vocabulary,
    domains: &'a [ElemList],
    // What is known of each atom, in the order of all atoms.
    known: Vec<Option<bool>>,
    // The variable of each symbol's first atom.
    firsts: Vec<u64>,
    // The places of the elements of each type.
    indexes: Vec<DomainIndex<'a>>,
}

impl<'a> Model for GroundData<'a> {
    ghost use Rattle.term_values.specs.GroundBases.{GroundBase};

    ghost Value = { GroundBase };

    ghost use Rattle.term_values.specs.GroundDataFields.{base_in, IsSoundData};

    ghost view = { base_in };

    ghost invariant = { IsSoundData };
}

impl<'a> GroundData<'a> {
    /// What the data make known of each ground atom over their domains. Out of memory, too, where there are 2^63 atoms
    /// and more, or 2^32 symbols.
    pub fn new(
        alloc: Global,
        vocabulary: &'a Vocabulary,
        partial: &'a Partial,
    ) -> Result<GroundData<'a>, Memory>
        requires { AreDataOf vocabulary.now partial.now }
        ensures { IfOk result (λ b. b ≡ base_of_data vocabulary.now partial.now) }
    {
        let domains = partial.domains().as_slice();
        let firsts = all_first_vars(alloc, domains, vocabulary.symbols.as_slice())?;
        let indexes = indexes_of(alloc, domains)?;
        let known = all_known(alloc, partial)?;
        Ok(GroundData {
            vocabulary,
            domains,
            known,
            firsts,
            indexes,
        })
    }

    /// The vocabulary.
    pub fn vocabulary(&self) -> &'a Vocabulary
        ensures { result.now ≡ self.now.vocabulary }
    {
        self.vocabulary
    }

    /// The domains of the types.
    pub fn domains(&self) -> &'a [ElemList]
        ensures { result.now ≡ self.now.domains }
    {
        self.domains
    }

    /// How many ground atoms there are, which is the number of the last one's variable.
    pub fn atoms(&self) -> u64
        ensures atoms { result ≡ length self.now.known }
        ensures few { length self.now.known < 2 ^ 63 }
    {
        self.known.len() as u64
    }

    /// What is known of the ground atom that has this variable.
    pub fn known(&self, var: u64) -> Option<bool>
        ensures { result ≡ known_of self.now var }
    {
        if var == 0 {
            return None;
        }
        match self.known.get((var - 1) as usize) {
            Some(known) => *known,
            None => None,
        }
    }

    /// The variable of a symbol's first atom.
    pub fn first_var(&self, symbol: u32) -> u64
        requires { symbol < length self.now.vocabulary.symbols }
        ensures { result ≡ first_variable self.now symbol }
    {
        self.firsts.as_slice()[symbol as usize]
    }

    /// The values that a function may have, in domain order; none for a predicate.
    pub fn values(&self, symbol: u32) -> &'a [Elem]
        ensures { result.now ≡ values_at self.now symbol }
    {
        match self.vocabulary.symbols.get(symbol as usize) {
            None => &[],
            Some(declared) => match declared.value {
                None => &[],
                Some(ty) => domain_in(self.domains, ty),
            },
        }
    }

    /// The place of a value among those that a function may have; None where it is not one of them.
    pub fn place_of_value(&self, symbol: u32, value: Value<'_>) -> Option<usize>
        ensures { result ≡ elem_index (values_at self.now symbol) (value_view value.entry) }
    {
        match self.vocabulary.symbols.get(symbol as usize) {
            None => None,
            Some(declared) => match declared.value {
                None => None,
                Some(ty) => elem_place(&self.indexes, ty, value),
            },
        }
    }

    /// How many tuples of arguments a symbol has; `u64::MAX` where they are more.
    pub fn tuple_count(&self, symbol: u32) -> u64
        ensures { result ≡ capped (length (tuples_at self.now symbol)) }
    {
        match self.vocabulary.symbols.get(symbol as usize) {
            None => 0,
            Some(declared) => count_tuples(self.domains, declared.args.as_slice()),
        }
    }

    /// The index of a tuple of arguments, in domain order; None where they are outside their types. It is `u64::MAX`
    /// where it is above that.
    pub fn place_of(&self, symbol: u32, values: &[RowValue<'_>]) -> Option<u64>
        ensures { result ≡ option_map capped (row_index (tuples_at self.now symbol) (map row_value values.now)) }
    {
        match self.vocabulary.symbols.get(symbol as usize) {
            None => None,
            Some(declared) => {
                tuple_place(
                    &self.indexes,
                    self.domains,
                    declared.args.as_slice(),
                    values,
                )
            }
        }
    }

    /// The variable of a predicate's atom with these arguments; None where they are outside their types.
    pub fn variable_at(&self, symbol: u32, values: &[RowValue<'_>]) -> Option<u64>
        requires { IsNone (value_type_of self.now.vocabulary symbol) }
        ensures { result ≡ option_map (λ i. first_variable self.now symbol + i)
            (row_index (tuples_at self.now symbol) (map row_value values.now)) }
    {
        // Brings the invariant of the type into scope.
        let _known = &self.known;
        match self.place_of(symbol, values) {
            None => None,
            Some(place) => Some(self.first_var(symbol) + place),
        }
    }

    /// The variable of a function's first value at these arguments; None where they are outside their types.
    pub(crate) fn value_variable_at(&self, symbol: u32, args: &[RowValue<'_>]) -> Option<u64>
        requires { 0 < length (values_at self.now symbol) }
        ensures var { result ≡ option_map (λ i. first_variable self.now symbol + i * length (values_at self.now symbol))
            (row_index (tuples_at self.now symbol) (map row_value args.now)) }
        ensures few { IfSome result (λ n. n + length (values_at self.now symbol) ≤ 2 ^ 63) }
    {
        // Brings the invariant of the type into scope.
        let _known = &self.known;
        let count = self.values(symbol).len() as u64;
        match self.place_of(symbol, args) {
            None => None,
            Some(place) => Some(self.first_var(symbol) + place * count),
        }
    }

    /// The value of a variable, a number, a made element, or a sum of these: such a term has one row, without guards.
    pub fn plain_value(&self, term: &Term, env: &Env<'a>) -> Option<Value<'a>>
        ensures { IfSome result (λ x. rows_of_term self.now (term_view term.now) (env_view env.now)
            ≡ ([], value_view x) ∷ []) }
    {
        plain_value(self, term, env)
    }

    // No more than a few dozen, since of the values of a large type most may be known to be false.
    /// For how many rows it is worth while to make room at once: those of a function's values.
    fn room_for(&self, term: &Term) -> usize {
        match term {
            Term::Apply(symbol, _) => self.values(*symbol).len().min(32),
            _ => 0,
        }
    }

    /// The rows of a term, whose free variables have the elements of `env`. An aggregate counts as 0.
    pub fn rows(&self, alloc: Global, term: &Term, env: &Env<'a>) -> Result<Rows<'a>, Memory>
        requires { RowsFit self.now (term_view term.now) (env_view env.now) }
        ensures { IfOk result (λ r. r ≡ rows_of_term self.now (term_view term.now) (env_view env.now)) }
    {
        let mut rows = Rows::with_room(alloc, self.room_for(term))?;
        push_term(alloc, self, term, env, &mut rows)?;
        Ok(rows)
    }

    /// The rows of a list of terms, in the same way.
    pub fn tuple_rows(
        &self,
        alloc: Global,
        terms: &[Term],
        env: &Env<'a>,
    ) -> Result<TupleRows<'a>, Memory>
        requires { TupleRowsFit self.now (terms_of (map term_view terms.now)) (env_view env.now) }
        ensures { IfOk result (λ r. r ≡ rows_of_terms self.now (terms_of (map term_view terms.now))
            (env_view env.now)) }
    {
        let mut rows = TupleRows::new(alloc);
        put_terms(alloc, self, terms, env, &mut rows)?;
        Ok(rows)
    }
}
