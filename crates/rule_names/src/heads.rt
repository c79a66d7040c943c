//! Heads of rules with numbers for words.
ghost use Rattle.std.specs.Prelude.{◌≡◌, [], ◌∷◌, ◌++◌, map, IfOk, OnOk};
ghost use Rattle.std.specs.List.{flat_map};
ghost use Rattle.grammar.specs.BlockView as block;
ghost use Rattle.grammar.specs.View as seen;
ghost use Rattle.stage_definitions.specs.NamedViews.{term_view, var_view};
ghost use Rattle.stage_definitions.specs.Numbering.{head_arguments, named_term};
ghost use Rattle.stage_definitions.specs.Uses as use_of;
ghost use Rattle.stage_definitions.specs.Uses.{arguments_in, in_scope, rule_scope};
ghost use Rattle.formula_names.specs.Steps.{IsStep, ResolvesTerm, context_of, names_known};
ghost use Rattle.rule_names.specs.Heads.{argument_uses, head_view, named_head, named_lists, symbol_at, uses_in_head};
ghost use Rattle.rule_names.specs.Heads.{uses_of_lists};

use crate::simple::{is_simple, term_place};
use formula_names::resolver::Resolver;
use formula_names::words::{app_count, app_name};
use grammar::{RawApp, RawBinder, RawHead, RawRule, RawTermTree};
use kb_logic::Memory;
use kb_text::K;
use stage_definitions::{NamedTerm, NamedVar, Standing};

/// A head: the rule's variables, the number of its symbol, and its arguments.
#[derive(Drop)]
pub struct RuleHead {
    pub vars: Vec<NamedVar>,
    pub symbol: u32,
    pub args: Vec<NamedTerm>,
}

/// The word of a head with its arguments.
pub fn head_app(head: &RawHead) -> &RawApp
    ensures { seen.app_view result.now ≡ use_of.head_app (block.head_view head.now) }
{
    match head {
        RawHead::Atom(app) => app,
        RawHead::Value(app, _, _) => app,
    }
}

/// Adds the variables of all lists before a head, which are in scope from then on.
fn bind_lists<'r, 'a>(
    walk: &mut Resolver<'r, 'a>,
    binders: &'a [RawBinder],
    vars: &mut Vec<NamedVar>,
) -> Result<(), Memory>
    ensures { OnOk result (IsStep walk.old walk.new (map var_view vars.new.items)
        (map var_view vars.old.items ++ named_lists (names_known walk.old) (map block.binding_view binders.now))
        (walk.old.scope ++ rule_scope (map block.binding_view binders.now))
        (uses_of_lists (map block.binding_view binders.now))) }
{
    for binder in binders {
        walk.add_binders(binder.vars.get(), vars)?;
    }
    Ok(())
}

/// The number of a head's symbol.
fn symbol<'r, 'a>(walk: &mut Resolver<'r, 'a>, head: &'a RawHead) -> u32
    requires outside { walk.old.known.defined.now ≡ [] }
    ensures { IsStep walk.old walk.new result (symbol_at (names_known walk.old) walk.old.scope
        (block.head_view head.now)) walk.old.scope (use_of.head_use walk.old.scope (block.head_view head.now) ∷ []) }
{
    match head {
        RawHead::Atom(app) => walk.formula_word(app_name(app), app_count(app)),
        RawHead::Value(app, _, _) => walk.function_word(app_name(app), app_count(app)),
    }
}

/// An argument of a head.
fn argument<'r, 'a>(walk: &mut Resolver<'r, 'a>, raw: &'a RawTermTree) -> Result<NamedTerm, Memory>
    ensures { ResolvesTerm walk.old walk.new (seen.term_view raw.now) named_term argument_uses result }
{
    let simple = is_simple(walk.known.table, &walk.scope, raw);
    walk.earliest.note_if(!simple, K::BadHead, term_place(raw));
    walk.term(Standing::Elsewhere, raw)
}

/// The arguments of a head.
fn arguments<'r, 'a>(walk: &mut Resolver<'r, 'a>, raw: &'a RawApp) -> Result<Vec<NamedTerm>, Memory>
    ensures { IfOk result (λ ts. IsStep walk.old walk.new (map term_view ts.items)
        (head_arguments (names_known walk.old) walk.old.scope (seen.app_view raw.now)) walk.old.scope
        (flat_map (argument_uses (context_of walk.old)) (arguments_in (seen.app_view raw.now)))) }
{
    let mut args = Vec::new(walk.alloc);
    let RawApp::Apply(_, _, terms, _) = raw else {
        return Ok(args);
    };
    let terms = terms.get();
    args.push(argument(walk, &terms.first)?)?;
    let more = terms.more.as_slice();
    for tail in more {
        args.push(argument(walk, &tail.operand)?)?;
    }
    Ok(args)
}

/// The head of a rule, whose variables are in scope from then on.
pub fn head<'r, 'a>(walk: &mut Resolver<'r, 'a>, raw: &'a RawRule) -> Result<RuleHead, Memory>
    requires outside { walk.old.known.defined.now ≡ [] }
    requires alone { walk.old.scope ≡ [] }
    ensures { IfOk result (λ h. IsStep walk.old walk.new (head_view h) (named_head (names_known walk.old)
        (map block.binding_view raw.now.binders) (block.head_view raw.now.head))
        (rule_scope (map block.binding_view raw.now.binders)) (uses_of_lists (map block.binding_view raw.now.binders)
        ++ uses_in_head (in_scope (rule_scope (map block.binding_view raw.now.binders)))
        (block.head_view raw.now.head))) }
{
    let mut vars = Vec::new(walk.alloc);
    bind_lists(walk, raw.binders.as_slice(), &mut vars)?;
    let symbol = symbol(walk, &raw.head);
    let args = arguments(walk, head_app(&raw.head))?;
    Ok(RuleHead { vars, symbol, args })
}
