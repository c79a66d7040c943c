//! Rules that choose one of several scores.
ghost use Rattle.std.specs.Prelude.{◌≡◌, ℕ, ◌<◌, List, true, length};
ghost use Rattle.chooser.specs.Choosing.{DoNotRise, IsFirstGreatest};

/// Something that chooses one of several scores.
pub trait Choose {
    // of these scores the one at this place may be chosen
    ghost chooses: { Self → List ℕ → ℕ → Type 0 };

    /// The place of one of the scores.
    fn choose(&self, scores: &[u64]) -> usize
        requires some { 0 < length scores.now }
        ensures within { result < length scores.now }
        ensures chosen { chooses self.now scores.now result };

    /// Whether the first score is chosen wherever no score is greater than one before it.
    ///
    /// Who has the scores in falling order then need not list them.
    fn takes_first_of_falling(&self) -> bool
        ensures { result ≡ true → (scores : List ℕ) (place : ℕ) → DoNotRise scores → chooses self.now scores place
            → place ≡ 0 }
    {
        false
    }
}

/// Chooses the first of the greatest scores.
#[derive(Clone, Copy)]
pub struct FirstGreatest;

/// The place of the first of the greatest scores.
pub fn first_greatest(scores: &[u64]) -> usize
    requires some { 0 < length scores.now }
    ensures { IsFirstGreatest scores.now result }
{
    let mut best = 0;
    for place in 1..scores.len() {
        if scores[best] < scores[place] {
            best = place;
        }
    }
    best
}

impl Choose for FirstGreatest {
    ghost chooses = { λ rule scores place. IsFirstGreatest scores place };

    fn choose(&self, scores: &[u64]) -> usize {
        first_greatest(scores)
    }

    fn takes_first_of_falling(&self) -> bool {
        true
    }
}
