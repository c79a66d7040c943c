//! The last found models, as values of variables.
ghost use Rattle.std.specs.Prelude.{◌≡◌, ◌≤◌, ◌<◌, ◌+◌, ◌++◌, ◌∷◌, ◌^◌, [], All, length, take, vec_capacity};
ghost use Rattle.std.specs.Prelude.{IfOk, OnOk, OnErr, MatchOption};
ghost use Rattle.found_models.specs.Found.{makes_all, those_under, last_of, with_newest, IsLastOf};

use lit_core::{Lit, Memory, Values, Var};
use std::alloc::Global;
use std::marker::Model;

/// So many are kept at most.
const MOST: usize = 64;

/// The last found models of a knowledge base, each as the values of its ground atoms' variables.
#[derive(Drop)]
pub struct FoundModels {
    /// The variables up to this one are kept.
    last: u64,
    /// The newest is the last.
    models: Vec<Values>,
}

impl Model for FoundModels {
    ghost use Rattle.found_models.specs.Found.{FoundState, AreFew};

    ghost Value = { FoundState };

    ghost view = { λ f. record { last = f.last; models = f.models.items } };

    ghost invariant = { λ f. AreFew f.models.items };
}

/// Whether the values make all of the literals true.
fn make_all(values: &Values, lits: &[Lit]) -> bool
    requires { All (λ l. l.var.0 < length values.now) lits.now }
    ensures { result ≡ makes_all lits.now values.now }
{
    for lit in lits {
        if !values.holds(*lit) {
            return false;
        }
    }
    true
}

/// The values of the variables up to this one.
fn values_up_to(alloc: Global, values: &Values, last: u64) -> Result<Values, Memory>
    ensures values { IfOk result (λ some. some ≡ take (last + 1) values.now) }
    ensures short { IfOk result (λ some. length values.now < 2 ^ 64) }
{
    let all = values.len() as u64;
    let count = if last < all { last + 1 } else { all };
    let mut some = Vec::with_capacity(alloc, count as usize)?;
    for var in 0..count {
        some.push(values.holds(Lit {
            var: Var(var),
            positive: true,
        }))?;
    }
    Ok(Values::from_vec(some))
}

/// Adds the values at the end, in place of the first where there would be too many.
fn push_newest(models: &mut Vec<Values>, values: Values)
    requires few { length models.old.items ≤ 64 }
    requires room { length models.old.items < vec_capacity models.old }
    ensures { models.new.items ≡ last_of 64 (models.old.items ++ values ∷ []) }
{
    if models.len() == MOST {
        let _oldest = models.remove(0);
    }
    models.push_reserved(values);
}

impl FoundModels {
    /// None yet, of which the values of the variables up to this one will be kept.
    pub fn new(alloc: Global, last: u64) -> FoundModels
        ensures { result ≡ record { last = last; models = [] } }
    {
        FoundModels {
            last,
            models: Vec::new(alloc),
        }
    }

    /// The newest that makes all of the literals true.
    pub fn newest(&self, lits: &[Lit]) -> Option<&Values>
        requires { All (λ values. All (λ l. l.var.0 < length values) lits.now) self.now.models }
        ensures { MatchOption result (those_under lits.now self.now.models ≡ [])
            (λ values. IsLastOf values.now (those_under lits.now self.now.models)) }
    {
        let mut left = self.models.len();
        while left > 0 {
            left -= 1;
            let values = &self.models[left];
            if make_all(values, lits) {
                return Some(values);
            }
        }
        None
    }

    /// Copies of those that make all of the literals true, the newest last.
    pub fn all_under(&self, alloc: Global, lits: &[Lit]) -> Result<Vec<Values>, Memory>
        requires { All (λ values. All (λ l. l.var.0 < length values) lits.now) self.now.models }
        ensures { IfOk result (λ some. some.items ≡ those_under lits.now self.now.models) }
    {
        let mut some = Vec::new(alloc);
        for values in &self.models {
            if !make_all(values, lits) {
                continue;
            }
            some.push(values.copy(alloc)?)?;
        }
        Ok(some)
    }

    /// Keeps one more, in place of the oldest where there would be more than 64.
    pub fn keep(&mut self, alloc: Global, values: &Values) -> Result<(), Memory>
        ensures kept { OnOk result (self.new ≡ with_newest self.old values.now) }
        ensures same { OnErr result (self.new ≡ self.old) }
        ensures short { OnOk result (length values.now < 2 ^ 64) }
    {
        self.models.reserve(1)?;
        let newest = values_up_to(alloc, values, self.last)?;
        push_newest(&mut self.models, newest);
        Ok(())
    }

    /// Gives all of them up.
    pub fn clear(&mut self)
        ensures { self.new ≡ record self.old { models = [] } }
    {
        self.models.clear();
    }
}
