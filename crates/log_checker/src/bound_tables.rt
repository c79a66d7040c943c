//! The bounds of a log, found by their selectors.
ghost use Rattle.std.specs.Prelude.{◌≡◌, [], ◌∷◌, ◌++◌, take, OnOk, OnErr, MatchOption, IsTrue};
ghost use Rattle.ground_core.specs.declared.parts.TermBound.{TermBound};
ghost use Rattle.log_checker.specs.BoundOrder.{IsFound, IsNotFound, IsAfter, Ascend};

use ground_core::{Memory, TermBound};
use lit_core::Var;
use std::alloc::Global;
use std::marker::Model;

/// Bounds, whose selectors' variables ascend: each selector is a new variable. So a bound is found by halving, and a
/// claim of a minimum costs the logarithm of the number of bounds for each literal of the clause that it cites.
#[derive(Drop)]
pub struct BoundTable {
    list: Vec<TermBound>,
}

impl Model for BoundTable {
    ghost use Rattle.std.specs.Prelude.{List};
    ghost use Rattle.ground_core.specs.declared.parts.TermBound.{TermBound};
    ghost use Rattle.log_checker.specs.BoundOrder.{Ascend};

    ghost Value = { List TermBound };

    ghost view = { λ t. t.list.items };

    ghost invariant = { λ t. Ascend t.list.items };
}

/// Whether the bound may be added at the end.
fn is_after(list: &[TermBound], b: TermBound) -> bool
    ensures { IsTrue result → IsAfter list.now b }
{
    match list.last() {
        Some(last) => last.out.var.0 < b.out.var.0,
        None => true,
    }
}

/// The bound with this selector's variable.
fn find_in(list: &[TermBound], var: u64) -> Option<TermBound>
    requires { Ascend list.now }
    ensures { MatchOption result (IsNotFound list.now var) (λ b. IsFound list.now var b) }
{
    let mut low = 0;
    let mut high = list.len();
    while low < high {
        let middle = low + (high - low) / 2;
        let b = list[middle];
        if b.out.var.0 == var {
            return Some(b);
        }
        if b.out.var.0 < var {
            low = middle + 1;
        } else {
            high = middle;
        }
    }
    None
}

impl BoundTable {
    /// No bound.
    pub fn new(alloc: Global) -> BoundTable
        ensures { result ≡ [] }
    {
        BoundTable {
            list: Vec::new(alloc),
        }
    }

    /// The bounds in order.
    pub fn as_slice(&self) -> &[TermBound]
        ensures { result.now ≡ self.now }
    {
        self.list.as_slice()
    }

    /// Adds a bound, whose selector comes after the others: each is a new variable. One that does not is refused as
    /// out of memory.
    pub fn push(&mut self, b: TermBound) -> Result<(), Memory>
        ensures ok { OnOk result (self.new ≡ self.old ++ b ∷ []) }
        ensures err { OnErr result (self.new ≡ self.old) }
    {
        if !is_after(self.list.as_slice(), b) {
            return Err(Memory);
        }
        self.list.push(b)?;
        Ok(())
    }

    /// Keeps the first `len` bounds.
    pub fn truncate(&mut self, len: usize)
        ensures { self.new ≡ take len self.old }
    {
        self.list.truncate(len);
    }

    /// The bound with this selector, if there is one.
    pub fn find(&self, var: Var) -> Option<TermBound>
        ensures { MatchOption result (IsNotFound self.now var.0) (λ b. IsFound self.now var.0 b) }
    {
        find_in(self.list.as_slice(), var.0)
    }
}
