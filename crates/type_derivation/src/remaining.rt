//! Types that variables take one after another.
ghost use Rattle.std.specs.Prelude.{◌≡◌, List, ℕ, drop};
ghost use Rattle.stage_definitions.specs.Demands.{later_types};
ghost use Rattle.type_derivation.specs.ListedTrees.{first_type};

use std::marker::Model;

/// The types that are left, which contracts see as a list.
#[derive(Drop)]
pub struct Remaining {
    items: Vec<u32>,
    taken: usize,
}

impl Model for Remaining {
    ghost Value = { List ℕ };

    ghost view = { λ r. drop r.taken r.items.items };
}

impl Remaining {
    pub fn new(items: Vec<u32>) -> Remaining
        ensures { result ≡ items.items }
    {
        Remaining { items, taken: 0 }
    }

    /// Takes the first type, or 0 where none is left.
    pub fn next(&mut self) -> u32
        ensures first { result ≡ first_type self.old }
        ensures later { self.new ≡ later_types self.old }
    {
        match self.items.get(self.taken) {
            Some(ty) => {
                let ty = *ty;
                self.taken += 1;
                ty
            }
            None => 0,
        }
    }
}
