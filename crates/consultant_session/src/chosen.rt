//! The choices, and beside them the literals of their variables, which are hashed.
ghost use Rattle.std.specs.Prelude.{◌≡◌, ◌≢◌, ◌↔◌, ◌⊎◌, ◌++◌, ◌∷◌, [], Contains, IsTrue, OnErr, OnOk};
ghost use Rattle.lit_core.specs.declared.literals.Lit.{Lit as ALit};

use indexmap::IndexSet;
use kb_logic::{Literal, LiteralList, Memory};
use lit_core::Lit;

/// Whether the literal is one of these.
pub(crate) fn has_lit(lits: &IndexSet<Lit>, lit: Lit) -> bool
    ensures { IsTrue result ↔ Contains lits.now.keys lit }
{
    lits.contains(&lit)
}

/// Takes the literal from these.
pub(crate) fn lose_lit(lits: &mut IndexSet<Lit>, lit: Lit)
    ensures { (other : ALit) → Contains lits.new.keys other ↔ (Contains lits.old.keys other × (other ≢ lit)) }
{
    let _was_there = lits.swap_remove(&lit);
}

// Room is made first, so that where there is memory for the choice the literal is added too.
/// Makes this the last choice, and its variable's literal one of these.
pub(crate) fn add_choice(
    choices: &mut LiteralList,
    lits: &mut IndexSet<Lit>,
    choice: Literal,
    lit: Lit,
) -> Result<(), Memory>
    ensures last { OnOk result (choices.new ≡ choices.old ++ choice ∷ []) }
    ensures added { OnOk result ((other : ALit)
        → Contains lits.new.keys other ↔ (Contains lits.old.keys other ⊎ (other ≡ lit))) }
    ensures same { OnErr result (choices.new ≡ choices.old) }
    ensures kept { OnErr result (lits.new.keys ≡ lits.old.keys) }
{
    lits.reserve(1)?;
    choices.push(choice)?;
    match lits.insert_full(lit) {
        Ok(_) => Ok(()),
        Err(_) => Err(Memory),
    }
}
