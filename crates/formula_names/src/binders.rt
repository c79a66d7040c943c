//! Lists of variables.
ghost use Rattle.std.specs.Prelude.{◌≤◌, [], ◌∷◌, ◌++◌, drop, length, map, IfOk, OnOk};
ghost use Rattle.grammar.specs.View as raw;
ghost use Rattle.stage_definitions.specs.NamedViews.{var_view};
ghost use Rattle.stage_definitions.specs.Numbering.{named_var, named_vars};
ghost use Rattle.stage_definitions.specs.Uses.{bound, position_uses, uses_of_vars, vars_in, var_name, var_text, var_type};
ghost use Rattle.stage_definitions.specs.Uses.{within};
ghost use Rattle.formula_names.specs.Steps.{IsStep, names_known};
ghost use Rattle.formula_names.specs.Tails.{tail_var};

use crate::resolver::Resolver;
use crate::scopes::is_bound_from;
use crate::uses::position;
use grammar::{RawVar, RawVarTail, RawVars};
use kb_logic::{Memory, Name};
use kb_text::K;
use sqlite_items::Items;
use stage_definitions::NamedVar;

impl<'r, 'a> Resolver<'r, 'a> {
    fn type_of(&mut self, var: &'a RawVar) -> Option<u32>
        ensures { IsStep self.old self.new result (named_var (names_known self.old) (raw.var_view var.now)).ty
            self.old.scope (position_uses (var_type (raw.var_view var.now))) }
    {
        match &var.of {
            Some(of) => Some(position(self.known.table, &of.name, &mut self.earliest)),
            None => None,
        }
    }

    fn bind(&mut self, outer: usize, var: &'a RawVar) -> Result<NamedVar, Memory>
        ensures { IfOk result (λ v. IsStep self.old self.new (var_view v)
            (named_var (names_known self.old) (raw.var_view var.now))
            (self.old.scope ++ var_text (raw.var_view var.now) ∷ [])
            (bound (drop outer self.old.scope) (var_name (raw.var_view var.now)) ∷ position_uses
            (var_type (raw.var_view var.now)))) }
    {
        let text = var.name.text.as_slice();
        let place = var.name.place;
        self.earliest.note_if(
            is_bound_from(&self.scope, outer, text),
            K::Redeclared,
            place,
        );
        self.scope.enter(text)?;
        let ty = self.type_of(var);
        let name = Name::new(self.alloc, text)?;
        Ok(NamedVar { name, place, ty })
    }

    fn bind_more(
        &mut self,
        outer: usize,
        more: &'a [RawVarTail],
        vars: &mut Vec<NamedVar>,
    ) -> Result<(), Memory>
        requires { outer ≤ length self.old.scope }
        ensures { OnOk result (IsStep self.old self.new (map var_view vars.new.items)
            (map var_view vars.old.items ++ map (named_var (names_known self.old)) (map tail_var more.now))
            (self.old.scope ++ map var_text (map tail_var more.now))
            (uses_of_vars (drop outer self.old.scope) (map tail_var more.now))) }
    {
        for tail in more {
            vars.push(self.bind(outer, &tail.var)?)?;
        }
        Ok(())
    }

    /// Adds the variables of a list, which are in scope from then on.
    pub fn add_binders(
        &mut self,
        vars: &'a RawVars,
        named: &mut Vec<NamedVar>,
    ) -> Result<(), Memory>
        ensures { OnOk result (IsStep self.old self.new (map var_view named.new.items)
            (map var_view named.old.items ++ named_vars (names_known self.old) (raw.vars_view vars.now))
            (within self.old.scope (raw.vars_view vars.now)) (uses_of_vars [] (vars_in (raw.vars_view vars.now)))) }
    {
        let outer = self.scope.len();
        named.push(self.bind(outer, &vars.first)?)?;
        let more = vars.more.as_slice();
        self.bind_more(outer, more, named)?;
        Ok(())
    }

    /// The variables of a quantifier or an aggregate, which are in scope from then on.
    pub fn binders(&mut self, vars: &'a RawVars) -> Result<Items<NamedVar>, Memory>
        ensures { IfOk result (λ vs. IsStep self.old self.new (map var_view vs)
            (named_vars (names_known self.old) (raw.vars_view vars.now))
            (within self.old.scope (raw.vars_view vars.now)) (uses_of_vars [] (vars_in (raw.vars_view vars.now)))) }
    {
        let mut named = Vec::new(self.alloc);
        self.add_binders(vars, &mut named)?;
        Ok(Items::from_vec(named))
    }
}
