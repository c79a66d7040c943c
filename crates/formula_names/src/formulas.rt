//! Formulas and terms with numbers for words.
ghost use Rattle.std.specs.Prelude.{◌≡◌, [], ◌∷◌, ◌++◌, fold, map, IfOk, OnOk};
ghost use Rattle.grammar.specs.View as seen;
ghost use Rattle.stage_definitions.specs.NamesStage.{name_noted};
ghost use Rattle.stage_definitions.specs.declared.standings.Standing.TheVariants.{Side};
ghost use Rattle.stage_definitions.specs.NamedTrees.{terms_of};
ghost use Rattle.stage_definitions.specs.NamedViews.{formula_view, term_view, var_view};
ghost use Rattle.stage_definitions.specs.Numbering.{named_formula, named_or, named_and, named_unary, named_prim};
ghost use Rattle.stage_definitions.specs.Numbering.{named_term, named_product, named_factor, named_arguments, named_vars};
ghost use Rattle.stage_definitions.specs.Uses.{an_aggregate, in_scope, inside, uses_in, uses_in_or, uses_in_and};
ghost use Rattle.stage_definitions.specs.Uses.{uses_in_unary, uses_in_prim, uses_in_term, uses_in_product};
ghost use Rattle.stage_definitions.specs.Uses.{uses_in_factor, uses_in_arguments, uses_of_vars, vars_in, within};
ghost use Rattle.formula_names.specs.LaterLinks.{later_operands, later_uses};
ghost use Rattle.formula_names.specs.Meanings.{names_in};
ghost use Rattle.formula_names.specs.Steps.{context_of, names_known, IsStep, Resolves, ResolvesFormula};
ghost use Rattle.formula_names.specs.Steps.{ResolvesTerm};

use crate::arrows::grouped;
use crate::closing::{negation, opposite};
use crate::nodes::{all_of, any_of, multiplied, place_of, placed, signed, summed};
use crate::resolver::{Known, Resolver};
use crate::scopes::Scope;
use crate::standings::{facing, factors_stand, kind_of, operands_stand, scaled};
use crate::tables::Table;
use crate::words::{app_count, app_name, application, comparison_of, is_minus, note_aggregate};
use grammar::{
    RawAnd, RawApp, RawFactor, RawFormula, RawOpening, RawOr, RawPrim, RawProduct, RawTermTree,
    RawUnary,
};
use kb_logic::{AggKind, Memory};
use sqlite_items::Items;
use stage_definitions::{Earliest, NamedFormula, NamedNode, NamedTerm, NamedVar, Standing};
use std::alloc::Global;

/// A formula in no variable's scope, with numbers for words.
pub fn sentence<'a>(
    alloc: Global,
    table: &Table<'a>,
    raw: &'a RawFormula,
    earliest: &mut Earliest,
) -> Result<NamedFormula, Memory>
    ensures tree { IfOk result (λ f. formula_view f ≡ named_formula (names_in table.now) []
        (seen.formula_view raw.now)) }
    ensures noted { OnOk result (earliest.new.first ≡ fold (name_noted (names_in table.now)) earliest.old.first
        (uses_in (in_scope []) (seen.formula_view raw.now))) }
{
    let defined = Scope::new(alloc);
    let known = Known {
        table,
        defined: &defined,
    };
    let mut walk = Resolver::begin(alloc, known, earliest);
    let named = walk.formula(raw);
    earliest.first = walk.earliest.first;
    named
}

/// The term of a term block, with numbers for words.
pub fn block_term<'a>(
    alloc: Global,
    table: &Table<'a>,
    raw: &'a RawTermTree,
    earliest: &mut Earliest,
) -> Result<NamedTerm, Memory>
    ensures tree { IfOk result (λ t. term_view t ≡ named_term (names_in table.now) [] (seen.term_view raw.now)) }
    ensures noted { OnOk result (earliest.new.first ≡ fold (name_noted (names_in table.now)) earliest.old.first
        (uses_in_term Side (in_scope []) (seen.term_view raw.now))) }
{
    let defined = Scope::new(alloc);
    let known = Known {
        table,
        defined: &defined,
    };
    let mut walk = Resolver::begin(alloc, known, earliest);
    let named = walk.term(Standing::Side, raw);
    earliest.first = walk.earliest.first;
    named
}

impl<'r, 'a> Resolver<'r, 'a> {
    /// A formula with numbers for words.
    #[cycle(resolve)]
    pub fn formula(&mut self, raw: &'a RawFormula) -> Result<NamedFormula, Memory>
        ensures { ResolvesFormula self.old self.new (seen.formula_view raw.now) named_formula uses_in result }
    {
        match raw {
            RawFormula::Alone(or) => self.disjunction(or),
            RawFormula::Linked(arrow, first, _, _) => {
                let first = self.disjunction(first)?;
                let mut more = Vec::new(self.alloc);
                self.add_links(raw, &mut more)?;
                grouped(self.alloc, *arrow, first, more)
            }
        }
    }

    /// Adds the operands after an arrow. The list is lent, so that no way out of the loop has to give it up.
    #[cycle(resolve)]
    fn add_links(&mut self, raw: &'a RawFormula, more: &mut Vec<NamedFormula>) -> Result<(), Memory>
        ensures { OnOk result (IsStep self.old self.new (map formula_view more.new.items)
            (map formula_view more.old.items ++ later_operands (names_known self.old) self.old.scope
            (seen.formula_view raw.now))
            self.old.scope (later_uses (context_of self.old) (seen.formula_view raw.now))) }
    {
        let RawFormula::Linked(_, _, next, links) = raw else {
            return Ok(());
        };
        more.push(self.disjunction(&next.operand)?)?;
        let links = links.as_slice();
        for link in links {
            more.push(self.disjunction(&link.operand)?)?;
        }
        Ok(())
    }

    #[cycle(resolve)]
    fn disjunction(&mut self, raw: &'a RawOr) -> Result<NamedFormula, Memory>
        ensures { ResolvesFormula self.old self.new (seen.or_view raw.now) named_or uses_in_or result }
    {
        let first = self.conjunction(&raw.first)?;
        let more = raw.more.as_slice();
        if more.is_empty() {
            return Ok(first);
        }
        let mut operands = Vec::new(self.alloc);
        operands.push(first)?;
        for tail in more {
            operands.push(self.conjunction(&tail.operand)?)?;
        }
        Ok(any_of(operands))
    }

    #[cycle(resolve)]
    fn conjunction(&mut self, raw: &'a RawAnd) -> Result<NamedFormula, Memory>
        ensures { ResolvesFormula self.old self.new (seen.and_view raw.now) named_and uses_in_and result }
    {
        let first = self.unary(&raw.first)?;
        let more = raw.more.as_slice();
        if more.is_empty() {
            return Ok(first);
        }
        let mut operands = Vec::new(self.alloc);
        operands.push(first)?;
        for tail in more {
            operands.push(self.unary(&tail.operand)?)?;
        }
        Ok(all_of(operands))
    }

    #[cycle(resolve)]
    fn unary(&mut self, raw: &'a RawUnary) -> Result<NamedFormula, Memory>
        ensures { ResolvesFormula self.old self.new (seen.unary_view raw.now) named_unary uses_in_unary result }
    {
        match raw {
            RawUnary::Not(_, inner) => {
                let inner = self.unary(inner.get())?;
                negation(self.alloc, inner)
            }
            RawUnary::Every(_, vars, _, inner) => {
                let outer = self.scope.len();
                let vars = self.binders(vars.get())?;
                let inner = self.formula(inner.get())?;
                self.universal(outer, vars, inner)
            }
            RawUnary::Some(_, number, vars, _, inner) => {
                let outer = self.scope.len();
                let vars = self.binders(vars.get())?;
                let inner = self.formula(inner.get())?;
                self.existential(outer, number, vars, inner)
            }
            RawUnary::Prim(inner) => self.prim(inner),
        }
    }

    #[cycle(resolve)]
    fn prim(&mut self, raw: &'a RawPrim) -> Result<NamedFormula, Memory>
        ensures { ResolvesFormula self.old self.new (seen.prim_view raw.now) named_prim uses_in_prim result }
    {
        match raw {
            RawPrim::Group(_, inner, _) => self.formula(inner.get()),
            RawPrim::Truth(value, _) => Ok(NamedFormula::Truth(*value)),
            RawPrim::Atom(app) => {
                let predicate = self.formula_word(app_name(app), app_count(app));
                let args = self.arguments(app)?;
                Ok(NamedFormula::Atom(predicate, args))
            }
            RawPrim::Compare(left, sign, _, right) => {
                let (left, right) = (left.get(), right.get());
                let (from_left, from_right) = (facing(left), facing(right));
                let left = self.term(from_right, left)?;
                let right = self.term(from_left, right)?;
                Ok(NamedFormula::Compare(comparison_of(*sign), left, right))
            }
        }
    }

    /// A term that stands so, with numbers for words.
    #[cycle(resolve)]
    pub fn term(&mut self, standing: Standing, raw: &'a RawTermTree) -> Result<NamedTerm, Memory>
        ensures { ResolvesTerm self.old self.new (seen.term_view raw.now) named_term (uses_in_term standing) result }
    {
        let inner = operands_stand(standing, raw);
        let first = self.product(inner, &raw.first)?;
        let more = raw.more.as_slice();
        if more.is_empty() {
            return Ok(first);
        }
        let place = place_of(&first);
        let mut operands = Vec::new(self.alloc);
        operands.push(signed(false, first))?;
        for tail in more {
            let term = self.product(inner, &tail.operand)?;
            operands.push(signed(is_minus(tail.sign), term))?;
        }
        Ok(summed(place, operands))
    }

    #[cycle(resolve)]
    fn product(&mut self, standing: Standing, raw: &'a RawProduct) -> Result<NamedTerm, Memory>
        ensures { ResolvesTerm self.old self.new (seen.product_view raw.now) named_product (uses_in_product standing)
            result }
    {
        let inner = factors_stand(standing, raw);
        let first = self.factor(inner, &raw.first)?;
        let more = raw.more.as_slice();
        if more.is_empty() {
            return Ok(first);
        }
        let place = place_of(&first);
        let mut operands = Vec::new(self.alloc);
        operands.push(first)?;
        for tail in more {
            operands.push(self.factor(inner, &tail.operand)?)?;
        }
        Ok(multiplied(place, operands))
    }

    #[cycle(resolve)]
    fn factor(&mut self, standing: Standing, raw: &'a RawFactor) -> Result<NamedTerm, Memory>
        ensures { ResolvesTerm self.old self.new (seen.factor_view raw.now) named_factor (uses_in_factor standing)
            result }
    {
        match raw {
            RawFactor::Integer(integer) => {
                Ok(placed(integer.place, NamedNode::Int(integer.value)))
            }
            RawFactor::Value(app) => {
                let name = app_name(app);
                let meaning = self.term_word(name, app_count(app));
                let args = self.arguments(app)?;
                Ok(placed(name.place, application(meaning, args)))
            }
            RawFactor::Brackets(place, inner, _) => {
                let inner = self.term(standing, inner.get())?;
                Ok(placed(*place, inner.node))
            }
            RawFactor::Negative(place, inner) => {
                let inner = self.factor(scaled(standing), inner.get())?;
                opposite(self.alloc, *place, inner)
            }
            RawFactor::Count(opening, inner, _) => {
                let outer = self.scope.len();
                let (vars, inner) = self.opened(standing, AggKind::Count, opening, inner.get())?;
                let one = placed(opening.place, NamedNode::Int(1));
                self.gathered(outer, opening.place, AggKind::Count, vars, inner, one)
            }
            RawFactor::Aggregate(how, opening, inner, _, weight, _) => {
                let outer = self.scope.len();
                let kind = kind_of(*how);
                let (vars, inner) = self.opened(standing, kind, opening, inner.get())?;
                let weight = self.term(Standing::Elsewhere, weight.get())?;
                self.gathered(outer, opening.place, kind, vars, inner, weight)
            }
        }
    }

    /// What an aggregate ranges over: its variables, which are in scope from then on, and its condition.
    #[cycle(resolve)]
    fn opened(
        &mut self,
        standing: Standing,
        kind: AggKind,
        opening: &'a RawOpening,
        condition: &'a RawFormula,
    ) -> Result<(Items<NamedVar>, NamedFormula), Memory>
        ensures vars { IfOk result (λ o. map var_view o.0 ≡ named_vars (names_known self.old)
            (seen.vars_view opening.now.vars)) }
        ensures condition { IfOk result (λ o. IsStep self.old self.new (formula_view o.1)
            (named_formula (names_known self.old) (within self.old.scope (seen.vars_view opening.now.vars))
            (seen.formula_view condition.now))
            (within self.old.scope (seen.vars_view opening.now.vars)) (an_aggregate standing kind
            opening.now.place ∷ (uses_of_vars [] (vars_in (seen.vars_view opening.now.vars)) ++ uses_in
            (inside (context_of self.old) (seen.vars_view opening.now.vars)) (seen.formula_view condition.now)))) }
    {
        note_aggregate(standing, kind, opening.place, &mut self.earliest);
        let vars = self.binders(opening.vars.get())?;
        let condition = self.formula(condition)?;
        Ok((vars, condition))
    }

    #[cycle(resolve)]
    fn arguments(&mut self, raw: &'a RawApp) -> Result<Vec<NamedTerm>, Memory>
        ensures { IfOk result (Resolves self.old self.new (λ ts. terms_of (map term_view ts.items))
            (seen.app_view raw.now) named_arguments uses_in_arguments) }
    {
        let mut args = Vec::new(self.alloc);
        let RawApp::Apply(_, _, terms, _) = raw else {
            return Ok(args);
        };
        let terms = terms.get();
        args.push(self.term(Standing::Elsewhere, &terms.first)?)?;
        let more = terms.more.as_slice();
        for tail in more {
            args.push(self.term(Standing::Elsewhere, &tail.operand)?)?;
        }
        Ok(args)
    }
}
