//! The tables of Kleene's strong logic.
ghost use Rattle.std.specs.Prelude.{◌≡◌, true};
ghost use Rattle.certain_truth.specs.Certainty.{alike_certain, not_certain, truth_if};
ghost use Rattle.certain_truth.specs.Evaluation.{joined};
ghost use Rattle.partial_structures.specs.declared.truths.Truth.TheVariants.{No};
ghost use Rattle.quantifier_bounds.specs.Steps.{is_unknown};
ghost use Rattle.open_sizes.specs.Weighings.{is_all, is_over};

use partial_structures::Truth;

/// How parts or instances are joined.
#[derive(Clone, Copy)]
pub(crate) enum Joining {
    /// As a conjunction, up to a false one.
    Conjunction,
    /// As a disjunction, up to a true one.
    Disjunction,
    /// As a disjunction, but whatever some are, all are looked at.
    Survey,
}

pub(crate) fn is_all(joining: Joining) -> bool
    ensures { result ≡ is_all joining }
{
    match joining {
        Joining::Conjunction => true,
        Joining::Disjunction => false,
        Joining::Survey => false,
    }
}

/// Whether no more of them are looked at after what is certain of some.
pub(crate) fn is_over(joining: Joining, truth: Truth) -> bool
    ensures { result ≡ is_over joining truth }
{
    match (joining, truth) {
        (Joining::Conjunction, Truth::No) => true,
        (Joining::Disjunction, Truth::Yes) => true,
        _ => false,
    }
}

pub(crate) fn is_open(truth: Truth) -> bool
    ensures { result ≡ is_unknown truth }
{
    match truth {
        Truth::Unknown => true,
        _ => false,
    }
}

pub(crate) fn is_false(truth: Truth) -> bool
    ensures { result ≡ true → truth ≡ No }
{
    match truth {
        Truth::No => true,
        _ => false,
    }
}

pub(crate) fn truth_of(answer: bool) -> Truth
    ensures { result ≡ truth_if answer }
{
    if answer { Truth::Yes } else { Truth::No }
}

pub(crate) fn negate(truth: Truth) -> Truth
    ensures { result ≡ not_certain truth }
{
    match truth {
        Truth::Yes => Truth::No,
        Truth::No => Truth::Yes,
        Truth::Unknown => Truth::Unknown,
    }
}

/// The conjunction where `all`, and else the disjunction.
pub(crate) fn join(all: bool, a: Truth, b: Truth) -> Truth
    ensures { result ≡ joined all a b }
{
    match (all, a, b) {
        (true, Truth::Yes, _) => b,
        (true, Truth::No, _) => Truth::No,
        (true, Truth::Unknown, Truth::No) => Truth::No,
        (true, Truth::Unknown, _) => Truth::Unknown,
        (false, Truth::Yes, _) => Truth::Yes,
        (false, Truth::No, _) => b,
        (false, Truth::Unknown, Truth::Yes) => Truth::Yes,
        (false, Truth::Unknown, _) => Truth::Unknown,
    }
}

/// Whether both are alike.
pub(crate) fn alike(a: Truth, b: Truth) -> Truth
    ensures { result ≡ alike_certain a b }
{
    match a {
        Truth::Yes => b,
        Truth::No => negate(b),
        Truth::Unknown => Truth::Unknown,
    }
}
