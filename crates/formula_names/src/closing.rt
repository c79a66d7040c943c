//! Nodes made of what was read inside them, after which the variables that they bind are out of scope again. They stand
//! outside the cycle of `formulas`, so that its functions give up fewer trees where memory runs out.
ghost use Rattle.std.specs.Prelude.{◌≡◌, [], map, take, true, IfOk};
ghost use Rattle.grammar.specs.View as raw;
ghost use Rattle.stage_definitions.specs.NamedTrees as tree;
ghost use Rattle.stage_definitions.specs.Numbering as numbers;
ghost use Rattle.stage_definitions.specs.NamedViews.{formula_view, term_view, var_view};
ghost use Rattle.formula_names.specs.Steps.{IsStep};

use crate::nodes::{signed, summed};
use crate::resolver::Resolver;
use crate::words::{aggregated, quantified};
use grammar::RawNumber;
use kb_logic::{AggKind, Memory};
use sqlite_items::Items;
use stage_definitions::{NamedFormula, NamedTerm, NamedVar};
use std::alloc::Global;

pub fn negation(alloc: Global, inner: NamedFormula) -> Result<NamedFormula, Memory>
    ensures { IfOk result (λ f. formula_view f ≡ tree.negation (formula_view inner)) }
{
    Ok(NamedFormula::Not(Box::new(alloc, inner)?))
}

/// `- t` is a sum of one.
pub fn opposite(alloc: Global, place: usize, term: NamedTerm) -> Result<NamedTerm, Memory>
    ensures { IfOk result (λ t. term_view t ≡ tree.at place (tree.summation
        (tree.more_summands true (term_view term) tree.no_summands))) }
{
    let mut operands = Vec::new(alloc);
    operands.push(signed(true, term))?;
    Ok(summed(place, operands))
}

impl<'r, 'a> Resolver<'r, 'a> {
    /// `!`, after which the scope has its `outer` outermost variables.
    pub fn universal(
        &mut self,
        outer: usize,
        vars: Items<NamedVar>,
        inner: NamedFormula,
    ) -> Result<NamedFormula, Memory>
        ensures { IfOk result (λ f. IsStep self.old self.new (formula_view f)
            (tree.universal (map var_view vars) (formula_view inner)) (take outer self.old.scope) []) }
    {
        self.scope.leave(outer)?;
        Ok(NamedFormula::All(vars, Box::new(self.alloc, inner)?))
    }

    /// `?` with this number of instances.
    pub fn existential(
        &mut self,
        outer: usize,
        number: &RawNumber,
        vars: Items<NamedVar>,
        inner: NamedFormula,
    ) -> Result<NamedFormula, Memory>
        ensures { IfOk result (λ f. IsStep self.old self.new (formula_view f)
            (numbers.counted_by (raw.number_view number.now) (map var_view vars) (formula_view inner))
            (take outer self.old.scope) []) }
    {
        self.scope.leave(outer)?;
        quantified(self.alloc, number, vars, inner)
    }

    /// An aggregate, after which the scope has its `outer` outermost variables.
    pub fn gathered(
        &mut self,
        outer: usize,
        place: usize,
        kind: AggKind,
        vars: Items<NamedVar>,
        condition: NamedFormula,
        weight: NamedTerm,
    ) -> Result<NamedTerm, Memory>
        ensures { IfOk result (λ t. IsStep self.old self.new (term_view t)
            (tree.at place (tree.aggregate kind (map var_view vars) (formula_view condition) (term_view weight)))
            (take outer self.old.scope) []) }
    {
        self.scope.leave(outer)?;
        aggregated(self.alloc, place, kind, vars, condition, weight)
    }
}
