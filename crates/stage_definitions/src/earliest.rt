//! The earliest refusal of a stage.
ghost use Rattle.std.specs.Prelude.{◌≡◌, Bool, IsTrue, None};
ghost use Rattle.kb_text.specs.declared.fault.K.{K as AK};
ghost use Rattle.stage_definitions.specs.Earliest.{earlier, refusal, comes_before, comes_first, noted_if, stands_before};

use kb_text::{K, KbFault};

/// The earliest of the refusals that were noted so far.
#[derive(Drop)]
pub struct Earliest {
    pub first: Option<KbFault>,
}

fn is_before(a: KbFault, b: KbFault) -> bool
    ensures { result ≡ comes_before a b }
{
    a.place < b.place || (a.place == b.place && a.cause.number() < b.cause.number())
}

impl Earliest {
    pub fn new() -> Earliest
        ensures { result.first ≡ None }
    {
        Earliest { first: None }
    }

    pub fn note(&mut self, cause: K, place: usize)
        ensures { self.new.first ≡ earlier self.old.first (refusal cause place) }
    {
        let new = KbFault { cause, place };
        match self.first {
            None => self.first = Some(new),
            Some(first) => {
                if is_before(new, first) {
                    self.first = Some(new);
                }
            }
        }
    }

    /// Whether a refusal comes before all that were noted so far.
    pub fn would_be_first(&self, cause: K, place: usize) -> bool
        ensures { result ≡ comes_first self.now.first (refusal cause place) }
    {
        match self.first {
            None => true,
            Some(first) => is_before(KbFault { cause, place }, first),
        }
    }

    /// Whether what was noted stands before this place, so that nothing noted there counts.
    pub fn stands_before(&self, place: usize) -> bool
        ensures answered { result ≡ stands_before self.now.first place }
        ensures settled { IsTrue result → (holds : Bool) (cause : AK) → noted_if holds cause place self.now.first
            ≡ self.now.first }
    {
        match self.first {
            None => false,
            Some(first) => first.place < place,
        }
    }

    pub fn note_if(&mut self, holds: bool, cause: K, place: usize)
        ensures { self.new.first ≡ noted_if holds cause place self.old.first }
    {
        if holds {
            self.note(cause, place);
        }
    }
}
