//! Kept literals with their supports.
ghost use Rattle.std.specs.Prelude.{◌≡◌, ◌++◌, [], IfOk, List, OnOk, OnErr};
ghost use Rattle.consequences.specs.declared.kept.Kept.{Kept as AKept};
ghost use Rattle.consequences.specs.Indexed.{IsIndexed};
ghost use Rattle.kept_supports.specs.Supports.{is_decided, is_kept, kept_of, undecided, unsupported, without_support};

use crate::lits::{has_lit, index_of};
use consequences::{Kept, KeptList};
use ground_core::LitList;
use indexmap::IndexSet;
use kb_logic::Memory;
use lit_core::Lit;
use std::alloc::Global;
use std::marker::Model;

// A question goes through all unknown atoms in any case: the kept literals are hashed for it anew, so that giving some
// up takes no memory.
/// Literals that were found to be forced, each with some choices that alone force it, in the order in which they were
/// found.
#[derive(Drop)]
pub struct KeptSupports {
    kept: Vec<Kept>,
}

impl Model for KeptSupports {
    ghost use Rattle.std.specs.Prelude.{List};
    ghost use Rattle.consequences.specs.declared.kept.Kept.{Kept};

    ghost Value = { List Kept };

    ghost view = { λ s. s.kept.items };
}

/// Whether the literal is one of the hashed ones, which are those that are kept.
fn is_among(index: &IndexSet<Lit>, lit: Lit) -> bool
    ensures { (ks : List AKept) → IsIndexed index.now.keys ks → result ≡ is_kept ks lit }
{
    index.contains(&lit)
}

/// Whether it or its negation is one of them.
fn decides(index: &IndexSet<Lit>, lit: Lit) -> bool
    ensures { (ks : List AKept) → IsIndexed index.now.keys ks → result ≡ is_decided ks lit }
{
    is_among(index, lit) || is_among(index, lit.negated())
}

/// Those of the literals of which neither they nor their negations are among the hashed ones.
fn undecided_by(alloc: Global, index: &IndexSet<Lit>, lits: &[Lit]) -> Result<Vec<Lit>, Memory>
    ensures { IfOk result (λ some. (ks : List AKept) → IsIndexed index.now.keys ks
        → some.items ≡ undecided ks lits.now) }
{
    let mut some = Vec::new(alloc);
    for lit in lits {
        if decides(index, *lit) {
            continue;
        }
        some.push(*lit)?;
    }
    Ok(some)
}

/// Those of the literals that are among the hashed ones.
fn kept_by(alloc: Global, index: &IndexSet<Lit>, lits: &[Lit]) -> Result<LitList, Memory>
    ensures { IfOk result (λ some. (ks : List AKept) → IsIndexed index.now.keys ks → some ≡ kept_of ks lits.now) }
{
    let mut some = LitList::new(alloc);
    for lit in lits {
        if !is_among(index, *lit) {
            continue;
        }
        some.push(*lit)?;
    }
    Ok(some)
}

impl KeptSupports {
    /// None.
    pub fn new(alloc: Global) -> KeptSupports
        ensures { result ≡ [] }
    {
        KeptSupports {
            kept: Vec::new(alloc),
        }
    }

    /// Those of the literals of which neither they nor their negations are kept, in their order.
    pub fn undecided(&self, alloc: Global, lits: &[Lit]) -> Result<Vec<Lit>, Memory>
        ensures { IfOk result (λ some. some.items ≡ undecided self.now lits.now) }
    {
        let index = index_of(alloc, self.kept.as_slice())?;
        undecided_by(alloc, &index, lits)
    }

    /// Those of the literals that are kept, in their order.
    pub fn kept_of(&self, alloc: Global, lits: &[Lit]) -> Result<LitList, Memory>
        ensures { IfOk result (λ some. some ≡ kept_of self.now lits.now) }
    {
        let index = index_of(alloc, self.kept.as_slice())?;
        kept_by(alloc, &index, lits)
    }

    /// Keeps more, behind the others.
    pub fn keep(&mut self, more: KeptList) -> Result<(), Memory>
        ensures kept { OnOk result (self.new ≡ self.old ++ more) }
        ensures same { OnErr result (self.new ≡ self.old) }
    {
        let mut more = more.into_vec();
        self.kept.append(&mut more)?;
        Ok(())
    }

    /// Gives up those whose support has the literal.
    pub fn lose(&mut self, lit: Lit)
        ensures { self.new ≡ without_support lit self.old }
    {
        self.kept
            .retain(|one| !has_lit(one.support.as_slice(), lit));
    }

    /// Gives up those that have a support.
    pub fn lose_supported(&mut self)
        ensures { self.new ≡ unsupported self.old }
    {
        self.kept.retain(|one| one.support.is_empty());
    }

    /// Gives all of them up.
    pub fn clear(&mut self)
        ensures { self.new ≡ [] }
    {
        self.kept.clear();
    }
}
