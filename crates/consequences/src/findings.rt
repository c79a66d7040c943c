//! What was found of literals, and whether it tells of one more without a search.
ghost use Rattle.std.specs.Prelude.{◌≡◌, ◌↔◌, ◌<◌, ◌⊎◌, ◌++◌, ◌∷◌, [], length, All, Any, IfOk, OnOk, IsTrue, false};
ghost use Rattle.std.specs.Prelude.{Contains, IfErr};
ghost use Rattle.ground_core.specs.declared.solving.Halt.TheVariants as halt;
ghost use Rattle.consequences.specs.Forced.{IsFalseInAny, IsFalseInSeen, IsSettled, IsOpen};
ghost use Rattle.consequences.specs.Indexed.{IsIndexed, IsSetOf, AreHashed};
ghost use Rattle.consequences.specs.declared.kept.Kept.{Kept as AKept};

use crate::asking::Question;
use crate::kept::{Kept, KeptList};
use ground_core::{Halt, LitList, Memory};
use indexmap::IndexSet;
use kb_logic::ListOf;
use lit_core::{Lit, Values};
use std::alloc::Global;

// The kept literals are hashed as well, so that each literal is looked up once, however many are kept. So are the
// assumed ones.
/// What the searches so far have found.
#[derive(Drop)]
pub struct Findings {
    pub kept: KeptList,
    /// The literals that are kept.
    pub lits: IndexSet<Lit>,
    /// The literals that are assumed.
    pub assumed: IndexSet<Lit>,
    /// Valuations that are left. Each makes the literals false for which it was found.
    pub found: ListOf<Values>,
}

/// Whether one of these valuations makes the literal false.
fn is_false_in_any(found: &[Values], lit: Lit) -> bool
    requires { All (λ values. lit.var.0 < length values) found.now }
    ensures { IsTrue result ↔ IsFalseInAny found.now lit }
{
    found.iter().any(|values| !values.holds(lit))
}

/// Whether it is a literal of an atom that one of these valuations makes false.
fn is_false_in_seen(seen: &[Values], atoms: u64, lit: Lit) -> bool
    requires { All (λ values. atoms < length values) seen.now }
    ensures { IsTrue result ↔ IsFalseInSeen atoms seen.now lit }
{
    lit.var.0 <= atoms && is_false_in_any(seen, lit)
}

/// The literals, each once.
fn set_of(alloc: Global, lits: &[Lit]) -> Result<IndexSet<Lit>, Memory>
    ensures { IfOk result (λ set. IsSetOf set.keys lits.now) }
{
    let mut set = IndexSet::new(alloc);
    for lit in lits {
        set.insert_full(*lit)?;
    }
    Ok(set)
}

impl Findings {
    /// A first valuation, and what is assumed.
    pub fn begin(alloc: Global, first: Values, assume: &[Lit]) -> Result<Findings, Memory>
        ensures kept { IfOk result (λ f. f.kept ≡ []) }
        ensures found { IfOk result (λ f. f.found ≡ first ∷ []) }
        ensures hashed { IfOk result (λ f. AreHashed f assume.now) }
    {
        let mut found = ListOf::new(alloc);
        found.push(first)?;
        Ok(Findings {
            kept: ListOf::new(alloc),
            lits: IndexSet::new(alloc),
            assumed: set_of(alloc, assume)?,
            found,
        })
    }

    /// Keeps a literal.
    pub fn keep(&mut self, forced: Kept) -> Result<(), Memory>
        requires { IsIndexed self.old.lits.keys self.old.kept }
        ensures kept { OnOk result (self.new.kept ≡ self.old.kept ++ forced ∷ []) }
        ensures found { OnOk result (self.new.found ≡ self.old.found) }
        ensures indexed { OnOk result (IsIndexed self.new.lits.keys self.new.kept) }
        ensures assumed { OnOk result (self.new.assumed ≡ self.old.assumed) }
    {
        self.lits.insert_full(forced.lit)?;
        self.kept.push(forced)?;
        Ok(())
    }

    /// Keeps a literal that is forced by itself.
    pub fn keep_itself(&mut self, alloc: Global, lit: Lit) -> Result<(), Halt>
        requires { IsIndexed self.old.lits.keys self.old.kept }
        ensures kept { OnOk result ((k : AKept) × (self.new.kept ≡ self.old.kept ++ k ∷ []) × (k.lit ≡ lit)
            × (k.support ≡ lit ∷ [])) }
        ensures found { OnOk result (self.new.found ≡ self.old.found) }
        ensures indexed { OnOk result (IsIndexed self.new.lits.keys self.new.kept) }
        ensures assumed { OnOk result (self.new.assumed ≡ self.old.assumed) }
        ensures halt { IfErr result (λ h. h ≡ halt.Memory) }
    {
        let mut support = LitList::new(alloc);
        if support.push(lit).is_err() {
            return Err(Halt::Memory);
        }
        match self.keep(Kept { lit, support }) {
            Ok(()) => Ok(()),
            Err(_) => Err(Halt::Memory),
        }
    }

    /// Whether the literal is assumed.
    pub fn is_assumed(&self, lit: Lit) -> bool
        ensures { IsTrue result ↔ Contains self.now.assumed.keys lit }
    {
        self.assumed.contains(&lit)
    }

    /// Whether the literal is kept.
    fn is_kept(&self, lit: Lit) -> bool
        requires { IsIndexed self.now.lits.keys self.now.kept }
        ensures { IsTrue result ↔ Any (λ k. k.lit ≡ lit) self.now.kept }
    {
        self.lits.contains(&lit)
    }

    /// Whether the literal is kept, or was found false.
    fn is_settled(&self, lit: Lit) -> bool
        requires indexed { IsIndexed self.now.lits.keys self.now.kept }
        requires found { All (λ values. lit.var.0 < length values) self.now.found }
        ensures { IsTrue result ↔ IsSettled self.now.kept self.now.found lit }
    {
        self.is_kept(lit) || is_false_in_any(self.found.as_slice(), lit)
    }

    /// Whether only a search tells.
    pub fn leave_open(&self, question: &Question<'_>, lit: Lit) -> bool
        requires indexed { IsIndexed self.now.lits.keys self.now.kept }
        requires found { All (λ values. lit.var.0 < length values) self.now.found }
        requires seen { All (λ values. question.now.atoms < length values) question.now.seen.now }
        ensures open { IsTrue result → IsOpen self.now.kept self.now.found question.now.atoms question.now.seen.now
            lit }
        ensures known { result ≡ false → IsSettled self.now.kept self.now.found lit ⊎ IsFalseInSeen
            question.now.atoms question.now.seen.now lit }
    {
        !self.is_settled(lit) && !is_false_in_seen(question.seen, question.atoms, lit)
    }
}
