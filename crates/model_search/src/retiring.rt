//! Giving up selectors.
ghost use Rattle.std.specs.Prelude.{◌≡◌, All};
ghost use Rattle.ground_core.specs.Growing.{IsSelector};
ghost use Rattle.ground_core.specs.Solving.{IsKept};
ghost use Rattle.model_search.specs.Retirements.{AreNew, retired_all};

use ground_core::Grow;
use lit_core::Lit;

/// Retires the selectors, of which none is retired yet.
pub fn retire_each<S: Grow>(s: &mut S, selectors: &[Lit])
    requires selectors { All (IsSelector (S.state s.old).problem) selectors.now }
    requires new { AreNew (S.state s.old).problem.retired selectors.now }
    requires kept { IsKept (S.state s.old) }
    ensures retired { S.state s.new ≡ retired_all (S.state s.old) selectors.now }
    ensures kept { IsKept (S.state s.new) }
    ensures later { S.goes_on s.old s.new }
{
    let (_, mut rest) = selectors.split_at(0);
    while let Some((selector, others)) = rest.split_first() {
        s.retire(*selector);
        rest = others;
    }
}
