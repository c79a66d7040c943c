//! The level of a conflict.
ghost use Rattle.clause_store.specs.StoreState.{IsConflict, IsStore};
ghost use Rattle.search_engine.specs.Searching.{IsLevelOf};

use clause_store::Store;

/// The greatest level at which a literal of the false clause became false.
pub fn conflict_level(store: &Store, conflict: u64) -> u64
    requires laws { IsStore store.now }
    requires conflict { IsConflict store.now conflict }
    ensures { IsLevelOf store.now conflict result }
{
    let mut level = 0;
    let lits = store.lend(conflict);
    for lit in lits {
        level = level.max(store.level_of(lit.lit().var));
    }
    level
}
