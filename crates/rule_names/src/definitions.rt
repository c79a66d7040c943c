//! Definitions with numbers for words.
ghost use Rattle.std.specs.Prelude.{◌≡◌, [], fold, map, IfOk, OnOk};
ghost use Rattle.std.specs.List.{flat_map};
ghost use Rattle.grammar.specs.BlockView as block;
ghost use Rattle.stage_definitions.specs.NamedViews.{definition_view, rule_view};
ghost use Rattle.stage_definitions.specs.NamesStage.{name_noted};
ghost use Rattle.stage_definitions.specs.Numbering.{named_rule};
ghost use Rattle.stage_definitions.specs.Uses.{head_word, uses_in_rule};
ghost use Rattle.formula_names.specs.Meanings.{names_in};
ghost use Rattle.formula_names.specs.Steps.{names_known};
ghost use Rattle.rule_names.specs.Bodies.{IsRuled};

use crate::bodies::{plain_rule, value_rule};
use crate::heads::{head, head_app};
use formula_names::resolver::{Known, Resolver};
use formula_names::scopes::Scope;
use formula_names::tables::Table;
use formula_names::words::app_name;
use grammar::{RawDefinition, RawHead, RawRule};
use kb_logic::Memory;
use sqlite_items::Items;
use stage_definitions::{Earliest, NamedDefinition, NamedRule};
use std::alloc::Global;

/// The name that a rule defines.
fn word_of(rule: &RawRule) -> &[u8]
    ensures { result.now ≡ head_word (block.rule_view rule.now) }
{
    app_name(head_app(&rule.head)).text.as_slice()
}

/// The names that rules define.
fn defined_names<'a>(alloc: Global, rules: &'a [RawRule]) -> Result<Scope<'a>, Memory>
    ensures { IfOk result (λ s. s ≡ map head_word (map block.rule_view rules.now)) }
{
    let mut defined = Scope::new(alloc);
    for rule in rules {
        defined.enter(word_of(rule))?;
    }
    Ok(defined)
}

/// A rule of a definition that defines these names.
fn rule<'r, 'a>(
    walk: &mut Resolver<'r, 'a>,
    raw: &'a RawRule,
    defined: &'r Scope<'a>,
) -> Result<NamedRule, Memory>
    requires outside { walk.old.known.defined.now ≡ [] }
    requires alone { walk.old.scope ≡ [] }
    ensures { IfOk result (λ r. IsRuled walk.old walk.new (rule_view r)
        (named_rule (names_known walk.old) (block.rule_view raw.now))
        (uses_in_rule (names_known walk.old) defined.now (block.rule_view raw.now))) }
{
    let head = head(walk, raw)?;
    walk.known.defined = defined;
    match &raw.head {
        RawHead::Atom(_) => plain_rule(walk, head, &raw.body),
        RawHead::Value(app, _, value) => value_rule(walk, head, app_name(app), value, &raw.body),
    }
}

/// What is known round the rules of a definition: the names that are declared, and those that it defines. In heads
/// none counts as defined.
// One struct, so that all three references are at one lifetime.
#[derive(Drop)]
struct Around<'r, 'a> {
    table: &'r Table<'a>,
    nothing: &'r Scope<'a>,
    defined: &'r Scope<'a>,
}

/// The same, in no variable's scope.
fn lone_rule<'r, 'a>(
    alloc: Global,
    around: &Around<'r, 'a>,
    raw: &'a RawRule,
    earliest: &mut Earliest,
) -> Result<NamedRule, Memory>
    requires outside { around.now.nothing.now ≡ [] }
    ensures tree { IfOk result (λ r. rule_view r ≡ named_rule (names_in around.now.table.now)
        (block.rule_view raw.now)) }
    ensures noted { OnOk result (earliest.new.first ≡ fold (name_noted (names_in around.now.table.now))
        earliest.old.first (uses_in_rule (names_in around.now.table.now) around.now.defined.now
        (block.rule_view raw.now))) }
{
    let known = Known {
        table: around.table,
        defined: around.nothing,
    };
    let mut walk = Resolver::begin(alloc, known, earliest);
    let named = rule(&mut walk, raw, around.defined);
    earliest.first = walk.earliest.first;
    named
}

/// Rules of a definition.
fn rules<'r, 'a>(
    alloc: Global,
    around: &Around<'r, 'a>,
    raw: &'a [RawRule],
    earliest: &mut Earliest,
) -> Result<Items<NamedRule>, Memory>
    requires outside { around.now.nothing.now ≡ [] }
    ensures rules { IfOk result (λ rs. map rule_view rs ≡ map (named_rule (names_in around.now.table.now))
        (map block.rule_view raw.now)) }
    ensures noted { OnOk result (earliest.new.first ≡ fold (name_noted (names_in around.now.table.now))
        earliest.old.first (flat_map (uses_in_rule (names_in around.now.table.now) around.now.defined.now)
        (map block.rule_view raw.now))) }
{
    let mut named = Vec::new(alloc);
    for one in raw {
        named.push(lone_rule(alloc, around, one, earliest)?)?;
    }
    Ok(Items::from_vec(named))
}

/// A definition with numbers for words.
pub fn definition<'a>(
    alloc: Global,
    table: &Table<'a>,
    raw: &'a RawDefinition,
    earliest: &mut Earliest,
) -> Result<NamedDefinition, Memory>
    ensures definition { IfOk result (λ d. definition_view d ≡ map (named_rule (names_in table.now))
        (map block.rule_view raw.now.rules)) }
    ensures noted { OnOk result (earliest.new.first ≡ fold (name_noted (names_in table.now)) earliest.old.first
        (flat_map (uses_in_rule (names_in table.now) (map head_word (map block.rule_view raw.now.rules)))
        (map block.rule_view raw.now.rules))) }
{
    let all = raw.rules.as_slice();
    let nothing = Scope::new(alloc);
    let defined = defined_names(alloc, all)?;
    let around = Around {
        table,
        nothing: &nothing,
        defined: &defined,
    };
    let rules = rules(alloc, &around, all, earliest)?;
    Ok(NamedDefinition { rules })
}
