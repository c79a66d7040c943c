//! Valuations, which give each variable a truth value, and assignments, which give one to some of them.
ghost use Rattle.std.specs.Prelude.{◌≡◌, ◌<◌, ◌-◌, ◌↔◌, ◌++◌, [], length, replicate, slice_set, None, Some, Option};
ghost use Rattle.std.specs.Prelude.{IsTrue, IfOk, OnOk, OnErr, All};
ghost use Rattle.lit_core.specs.Literals.{literal_value, valuation, value_in};
ghost use Rattle.lit_core.specs.Truth.{IsSatisfied};

use crate::clauses::Clause;
use crate::literals::{Lit, Var};
use std::alloc::{AllocError as Memory, Global};
use std::marker::Model;

/// One truth value for each variable.
#[derive(Debug, Drop)]
pub struct Values {
    values: Vec<bool>,
}

impl Model for Values {
    ghost use Rattle.std.specs.Prelude.{List, Bool};

    ghost Value = { List Bool };

    ghost view = { λ v. v.values.items };
}

impl Values {
    /// The values of the variables from 0 on.
    pub fn from_vec(values: Vec<bool>) -> Values
        ensures { result ≡ values.items }
    {
        Values { values }
    }

    /// The number of variables, from 0 on.
    pub fn len(&self) -> usize
        ensures { result ≡ length self.now }
    {
        self.values.len()
    }

    /// Whether there is no variable.
    pub fn is_empty(&self) -> bool
        ensures { IsTrue result ↔ (length self.now ≡ 0) }
    {
        self.values.is_empty()
    }

    /// Whether the literal is true.
    pub fn holds(&self, lit: Lit) -> bool
        requires { lit.var.0 < length self.now }
        ensures { result ≡ literal_value (valuation self.now) lit }
    {
        let value = self.values[lit.var.0 as usize];
        if lit.positive { value } else { !value }
    }

    /// The same values once more.
    pub fn copy(&self, alloc: Global) -> Result<Values, Memory>
        ensures { IfOk result (λ v. v ≡ self.now) }
    {
        Ok(Values {
            values: Vec::from_slice(alloc, self.values.as_slice())?,
        })
    }
}

/// Whether some literal of the clause is true.
pub fn satisfies(v: &Values, c: &Clause) -> bool
    requires { All (λ l. l.var.0 < length v.now) c.now }
    ensures { IsTrue result ↔ IsSatisfied (valuation v.now) c.now }
{
    c.as_slice().iter().any(|lit| v.holds(*lit))
}

/// For each variable whether it is true, false or unassigned.
#[derive(Debug, Drop)]
pub struct Assignment {
    values: Vec<Option<bool>>,
}

impl Model for Assignment {
    ghost use Rattle.std.specs.Prelude.{List, Bool, Option};

    ghost Value = { List (Option Bool) };

    ghost view = { λ a. a.values.items };
}

impl Assignment {
    /// No variable.
    pub fn new(alloc: Global) -> Assignment
        ensures { result ≡ [] }
    {
        Assignment {
            values: Vec::new(alloc),
        }
    }

    /// Adds unassigned variables, so that there are at least `len`.
    pub fn grow(&mut self, len: usize) -> Result<(), Memory>
        ensures ok { OnOk result (self.new ≡ self.old ++ replicate (len - length self.old) None) }
        ensures err { OnErr result (self.new ≡ self.old) }
    {
        if self.values.len() < len {
            self.values.resize(len, None)?;
        }
        Ok(())
    }

    /// The number of variables, from 0 on.
    pub fn len(&self) -> usize
        ensures { result ≡ length self.now }
    {
        self.values.len()
    }

    /// Whether there is no variable.
    pub fn is_empty(&self) -> bool
        ensures { IsTrue result ↔ (length self.now ≡ 0) }
    {
        self.values.is_empty()
    }

    /// The literal's value, or None where its variable is unassigned.
    pub fn value(&self, lit: Lit) -> Option<bool>
        requires { lit.var.0 < length self.now }
        ensures { result ≡ value_in self.now lit }
    {
        match self.values[lit.var.0 as usize] {
            Some(value) => Some(if lit.positive { value } else { !value }),
            None => None,
        }
    }

    /// Makes the literal true.
    pub fn set(&mut self, lit: Lit)
        requires { lit.var.0 < length self.old }
        ensures { self.new ≡ slice_set self.old lit.var.0 (Some lit.positive) }
    {
        self.values[lit.var.0 as usize] = Some(lit.positive);
    }

    /// Makes the variable unassigned.
    pub fn unset(&mut self, var: Var)
        requires { var.0 < length self.old }
        ensures { self.new ≡ slice_set self.old var.0 None }
    {
        self.values[var.0 as usize] = None;
    }

    /// The same values once more.
    pub fn copy(&self, alloc: Global) -> Result<Assignment, Memory>
        ensures { IfOk result (λ a. a ≡ self.now) }
    {
        Ok(Assignment {
            values: Vec::from_slice(alloc, self.values.as_slice())?,
        })
    }
}
