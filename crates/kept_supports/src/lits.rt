//! Literals of variables.
ghost use Rattle.std.specs.Prelude.{◌≡◌, IfOk};
ghost use Rattle.consequences.specs.Indexed.{IsIndexed};
ghost use Rattle.kept_supports.specs.Supports.{has_lit, same_lit};

use consequences::Kept;
use indexmap::IndexSet;
use kb_logic::Memory;
use lit_core::Lit;
use std::alloc::Global;

fn is_same(a: Lit, b: Lit) -> bool
    ensures { result ≡ same_lit a b }
{
    a.var.0 == b.var.0 && a.positive == b.positive
}

/// Whether the literal is one of these.
pub(crate) fn has_lit(lits: &[Lit], lit: Lit) -> bool
    ensures { result ≡ has_lit lit lits.now }
{
    lits.iter().any(|other| is_same(lit, *other))
}

/// The literals that are kept, hashed.
pub(crate) fn index_of(alloc: Global, kept: &[Kept]) -> Result<IndexSet<Lit>, Memory>
    ensures { IfOk result (λ lits. IsIndexed lits.keys kept.now) }
{
    let mut lits = IndexSet::new(alloc);
    for one in kept {
        lits.insert_full(one.lit)?;
    }
    Ok(lits)
}
