//! What a theory alone fixes, by passes until nothing changes.
//!
//! A pass that changes nothing is the proof that what is known is closed. What follows from a change within a pass has
//! only to be sound.
ghost use Rattle.std.specs.Prelude.{◌≡◌, ◌≤◌, ◌^◌, [], true, map, length, IfOk, IsErrOf, OnOk};
ghost use Rattle.std.specs.List.{AllByRecursion};
ghost use Rattle.kb_logic.specs.Views.{formula_view, theory_view};
ghost use Rattle.bound_laws.specs.Closures.{Obeys, IsNarrowed, IsContradictory};
ghost use Rattle.quantifier_bounds.specs.Fits.{Fits, TheoryFits};
ghost use Rattle.refinement.specs.Passes.{ObeysRest, ObeysTheory, IsReached};
ghost use Rattle.quantifier_bounds.specs.Steps.{Narrows, IsImpossible};
ghost use Rattle.quantifier_bounds.specs.declared.fault.BoundFault.TheVariants.{Contradiction};

use crate::facts::Work;
use crate::following::Course;
use crate::occurrences::{Occurrence, occurrences};
use crate::walk::{fuel, sentences_walked};
use kb_logic::{Formula, Theory};
use partial_structures::Partial;
use quantifier_bounds::{BoundFault, Setting, definitions_must, either, functions_must};
use std::alloc::Global;

/// Each sentence must be true.
fn sentences_must<'a, 'b>(
    known: &mut Partial,
    setting: Setting<'a>,
    sentences: &'a [Formula],
    occurrences: &'b [Vec<Occurrence>],
) -> Result<bool, BoundFault>
    requires symbols { setting.symbols.now ≡ known.old.symbols }
    requires domains { setting.domains.now ≡ known.old.domains }
    requires fits { AllByRecursion (λ f. Fits known.old.symbols known.old.domains f [])
        (map formula_view sentences.now) }
    ensures { Narrows known.old known.new result
        (λ q. AllByRecursion (λ f. Obeys q true f []) (map formula_view sentences.now)) }
{
    let course = Course {
        setting,
        sentences,
        occurrences,
    };
    let mut work = Work::new(setting.alloc, fuel(setting.domains, sentences));
    sentences_walked(known, course, &mut work)
}

/// The definitions and the functions must be obeyed.
fn rest_must<'a>(
    known: &mut Partial,
    setting: Setting<'a>,
    theory: &'a Theory,
) -> Result<bool, BoundFault>
    requires symbols { setting.symbols.now ≡ known.old.symbols }
    requires domains { setting.domains.now ≡ known.old.domains }
    requires few { length known.old.symbols ≤ 2 ^ 32 }
    requires fits { TheoryFits known.old.symbols known.old.domains (theory_view theory.now) }
    ensures { Narrows known.old known.new result (ObeysRest (theory_view theory.now)) }
{
    let first = definitions_must(known, setting, theory.definitions.as_slice())?;
    let second = functions_must(known, setting)?;
    Ok(either(first, second))
}

/// One pass over the theory. Whether it made anything known.
fn pass<'a, 'b>(
    known: &mut Partial,
    setting: Setting<'a>,
    theory: &'a Theory,
    occurrences: &'b [Vec<Occurrence>],
) -> Result<bool, BoundFault>
    requires symbols { setting.symbols.now ≡ known.old.symbols }
    requires domains { setting.domains.now ≡ known.old.domains }
    requires few { length known.old.symbols ≤ 2 ^ 32 }
    requires fits { TheoryFits known.old.symbols known.old.domains (theory_view theory.now) }
    ensures { Narrows known.old known.new result (ObeysTheory (theory_view theory.now)) }
{
    let first = sentences_must(known, setting, theory.sentences.as_slice(), occurrences)?;
    let second = rest_must(known, setting, theory)?;
    Ok(either(first, second))
}

/// The other way round.
fn turned<'a>(setting: Setting<'a>) -> Setting<'a>
    ensures symbols { result.symbols.now ≡ setting.entry.symbols.now }
    ensures domains { result.domains.now ≡ setting.entry.domains.now }
{
    Setting {
        falling: !setting.falling,
        ..setting
    }
}

/// Passes until one changes nothing, up and down in turn.
fn narrow<'a, 'b>(
    known: &mut Partial,
    setting: Setting<'a>,
    theory: &'a Theory,
    occurrences: &'b [Vec<Occurrence>],
) -> Result<(), BoundFault>
    requires symbols { setting.symbols.now ≡ known.old.symbols }
    requires domains { setting.domains.now ≡ known.old.domains }
    requires few { length known.old.symbols ≤ 2 ^ 32 }
    requires fits { TheoryFits known.old.symbols known.old.domains (theory_view theory.now) }
    ensures ok { OnOk result (IsReached (theory_view theory.now) known.old known.new) }
    ensures contradiction { IsErrOf result Contradiction → IsImpossible known.old (ObeysTheory (theory_view
        theory.now)) }
{
    let mut setting = setting;
    'passes: loop {
        let changed = pass(known, setting, theory, occurrences)?;
        if !changed {
            return Ok(());
        }
        setting = turned(setting);
    }
}

/// The narrowed structure: the least that knows what `s` does and is closed under what the theory fixes.
/// `Contradiction` exactly where nothing is closed.
pub fn refine(alloc: Global, t: &Theory, s: &Partial) -> Result<Partial, BoundFault>
    requires few { length s.now.symbols ≤ 2 ^ 32 }
    requires fits { TheoryFits s.now.symbols s.now.domains (theory_view t.now) }
    ensures ok { IfOk result (λ k. IsNarrowed (theory_view t.now) s.now k) }
    ensures contradiction { IsErrOf result Contradiction → IsContradictory (theory_view t.now) s.now }
{
    let mut known = s.copy(alloc)?;
    let occurrences = occurrences(alloc, s.symbols().len(), t.sentences.as_slice())?;
    let setting = Setting {
        alloc,
        symbols: s.symbols().as_slice(),
        domains: s.domains().as_slice(),
        falling: false,
    };
    narrow(&mut known, setting, t, &occurrences)?;
    known.consistency();
    Ok(known)
}
