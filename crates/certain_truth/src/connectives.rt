//! The tables of Kleene's strong logic.
ghost use Rattle.std.specs.Prelude.{◌≡◌};
ghost use Rattle.certain_truth.specs.Certainty.{truth_if, not_certain, alike_certain};
ghost use Rattle.certain_truth.specs.Evaluation.{joined, settles};

use partial_structures::Truth;

pub(crate) fn truth_of(answer: bool) -> Truth
    ensures { result ≡ truth_if answer }
{
    if answer { Truth::Yes } else { Truth::No }
}

pub(crate) fn negate(known: Truth) -> Truth
    ensures { result ≡ not_certain known }
{
    match known {
        Truth::Yes => Truth::No,
        Truth::No => Truth::Yes,
        Truth::Unknown => Truth::Unknown,
    }
}

/// The conjunction where `all`, and else the disjunction.
pub(crate) fn join(all: bool, a: Truth, b: Truth) -> Truth
    ensures { result ≡ joined all a b }
{
    match (all, a, b) {
        (true, Truth::Yes, _) => b,
        (true, Truth::No, _) => Truth::No,
        (true, Truth::Unknown, Truth::No) => Truth::No,
        (true, Truth::Unknown, _) => Truth::Unknown,
        (false, Truth::Yes, _) => Truth::Yes,
        (false, Truth::No, _) => b,
        (false, Truth::Unknown, Truth::Yes) => Truth::Yes,
        (false, Truth::Unknown, _) => Truth::Unknown,
    }
}

/// Whether both are alike.
pub(crate) fn alike(a: Truth, b: Truth) -> Truth
    ensures { result ≡ alike_certain a b }
{
    match a {
        Truth::Yes => b,
        Truth::No => negate(b),
        Truth::Unknown => Truth::Unknown,
    }
}

/// Whether no further part changes the conjunction where `all`, or else the disjunction.
pub(crate) fn is_final(all: bool, known: Truth) -> bool
    ensures { result ≡ settles all known }
{
    match known {
        Truth::Yes => !all,
        Truth::No => all,
        Truth::Unknown => false,
    }
}
