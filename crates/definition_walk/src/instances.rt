//! The instances of rules: the variable of each head, and what its body comes to.
ghost use Rattle.std.specs.Prelude.{◌≡◌, ◌++◌, [], All, List, map, fold, OnOk};
ghost use Rattle.std.specs.List.{AllByRecursion};
ghost use Rattle.kb_logic.specs.Structures.{choices};
ghost use Rattle.kb_logic.specs.Views.{formula_view, rule_view};
ghost use Rattle.plain_evaluation.specs.Environments.{env_view};
ghost use Rattle.term_values.specs.KnownBases.{IsGroundBase};
ghost use Rattle.def_ground.specs.Definitions.{Instances, instance_step, rule_instances};
ghost use Rattle.ground_walk.specs.Groundable.{HasVars, IsGroundable, KnowsAtoms};
ghost use Rattle.definition_walk.specs.Steps.{Stands, BodiesGrow, HasLists, IsPlainHead, CanBeGround};

use crate::bodies::{Bodies, add_body};
use crate::heads::head_var;
use ground_core::{Memory, Problem};
use ground_walk::{Scope, form};
use kb_logic::{Bound, Rule};
use plain_evaluation::environments::{Env, extend, split_in};
use std::alloc::Global;
use term_values::GroundData;

/// A rule whose instances are grounded, over what is known of the ground atoms.
#[derive(Drop)]
pub(crate) struct RuleWalk<'a> {
    pub base: &'a GroundData<'a>,
    pub rule: &'a Rule,
}

// Where the head is no atom, the body is not grounded.
/// Adds the body of one instance to the list of its head.
fn push_instance<'a>(
    alloc: Global,
    walk: &'a RuleWalk<'a>,
    env: &'a Env<'a>,
    bodies: &mut Bodies,
    problem: &mut Problem,
) -> Result<(), Memory>
    requires given { IsGroundBase walk.now.base.now }
    requires known { KnowsAtoms walk.now.base.now }
    requires room { HasVars walk.now.base.now problem.old }
    requires head { IsPlainHead walk.now.base.now (rule_view walk.now.rule.now) }
    requires fits { IsGroundable walk.now.base.now (formula_view walk.now.rule.now.body) (env_view env.now) }
    requires lists { HasLists walk.now.base.now walk.now.rule.now.symbol bodies.old }
    ensures made { OnOk result ((st : Instances) → Stands st bodies.old problem.old
        → Stands (instance_step walk.now.base.now (rule_view walk.now.rule.now) st (env_view env.now)) bodies.new
        problem.new) }
    ensures grows { OnOk result (BodiesGrow bodies.old bodies.new problem.old problem.new) }
{
    match head_var(alloc, walk.base, walk.rule, env)? {
        None => Ok(()),
        Some(var) => {
            let base = walk.base;
            let body = form(Scope { alloc, base, env }, &walk.rule.body, problem)?;
            add_body(&mut bodies.lists, (var - bodies.first) as usize, body)
        }
    }
}

// No list of assignments is in memory: those of the first variables are numbers, and the others come by recursion.
/// Adds the bodies of the instances under all assignments of these variables.
fn push_instances<'a>(
    alloc: Global,
    walk: &'a RuleWalk<'a>,
    bounds: &'a [Bound],
    env: &'a Env<'a>,
    bodies: &mut Bodies,
    problem: &mut Problem,
) -> Result<(), Memory>
    requires given { IsGroundBase walk.now.base.now }
    requires known { KnowsAtoms walk.now.base.now }
    requires room { HasVars walk.now.base.now problem.old }
    requires head { IsPlainHead walk.now.base.now (rule_view walk.now.rule.now) }
    requires fits { AllByRecursion
        (λ a. IsGroundable walk.now.base.now (formula_view walk.now.rule.now.body) (env_view env.now ++ a))
        (choices walk.now.base.now.domains bounds.now) }
    requires lists { HasLists walk.now.base.now walk.now.rule.now.symbol bodies.old }
    ensures made { OnOk result ((st : Instances) → Stands st bodies.old problem.old
        → Stands (fold (λ t a. instance_step walk.now.base.now (rule_view walk.now.rule.now) t (env_view env.now ++ a))
        st (choices walk.now.base.now.domains bounds.now)) bodies.new problem.new) }
    ensures grows { OnOk result (BodiesGrow bodies.old bodies.new problem.old problem.new) }
{
    if bounds.is_empty() {
        return push_instance(alloc, walk, env, bodies, problem);
    }
    let (block, others) = split_in(walk.base.domains(), bounds);
    for number in 0..block.count {
        let inner = extend(env, block, number);
        push_instances(alloc, &*walk, others, &inner, bodies, problem)?;
    }
    Ok(())
}

/// Adds the bodies of all instances of the rule. No variable is in scope around it.
fn push_rule<'a>(
    alloc: Global,
    walk: &'a RuleWalk<'a>,
    outer: &'a Env<'a>,
    bodies: &mut Bodies,
    problem: &mut Problem,
) -> Result<(), Memory>
    requires outer { env_view outer.now ≡ [] }
    requires given { IsGroundBase walk.now.base.now }
    requires known { KnowsAtoms walk.now.base.now }
    requires room { HasVars walk.now.base.now problem.old }
    requires rule { CanBeGround walk.now.base.now (rule_view walk.now.rule.now) }
    requires lists { HasLists walk.now.base.now walk.now.rule.now.symbol bodies.old }
    ensures made { OnOk result ((st : Instances) → Stands st bodies.old problem.old
        → Stands (rule_instances walk.now.base.now st (rule_view walk.now.rule.now)) bodies.new problem.new) }
    ensures grows { OnOk result (BodiesGrow bodies.old bodies.new problem.old problem.new) }
{
    push_instances(
        alloc,
        walk,
        walk.rule.vars.as_slice(),
        outer,
        bodies,
        problem,
    )
}

/// Adds the bodies of all instances of the rules.
pub fn push_rules<'a>(
    alloc: Global,
    base: &'a GroundData<'a>,
    rules: &'a [Rule],
    bodies: &mut Bodies,
    problem: &mut Problem,
) -> Result<(), Memory>
    requires given { IsGroundBase base.now }
    requires known { KnowsAtoms base.now }
    requires room { HasVars base.now problem.old }
    requires rules { AllByRecursion (CanBeGround base.now) (map rule_view rules.now) }
    requires lists { All (λ r. HasLists base.now r.symbol bodies.old) rules.now }
    ensures made { OnOk result ((st : Instances) → Stands st bodies.old problem.old
        → Stands (fold (rule_instances base.now) st (map rule_view rules.now)) bodies.new problem.new) }
    ensures grows { OnOk result (BodiesGrow bodies.old bodies.new problem.old problem.new) }
{
    for place in 0..rules.len() {
        let walk = RuleWalk {
            base,
            rule: &rules[place],
        };
        push_rule(alloc, &walk, &Env::Given(&[]), bodies, problem)?;
    }
    Ok(())
}
