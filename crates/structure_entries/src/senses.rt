//! What the rows of an entry say.
ghost use Rattle.std.specs.Prelude.{◌≡◌};
ghost use Rattle.std.specs.Option.{option_map};
ghost use Rattle.grammar.specs.View.{name_view};
ghost use Rattle.grammar.specs.BlockView.{mark_view};
ghost use Rattle.stage_definitions.specs.DataEntries as said;
ghost use Rattle.structure_entries.specs.EntryViews.{sense_view};

use grammar::{RawMark, RawName};

/// All that is true, what is certainly true, what is certainly false, or nothing that is understood.
#[derive(Clone, Copy)]
pub enum Sense {
    Everything,
    CertainlyTrue,
    CertainlyFalse,
    Unread,
}

/// The word between `<` and `>`.
pub fn mark_name(raw: &RawMark) -> &RawName
    ensures { name_view result.now ≡ said.mark_name (mark_view raw.now) }
{
    &raw.name
}

/// The mark `ct` says what is certainly true, `cf` what is certainly false.
pub fn sense_of(mark: Option<&RawName>) -> Sense
    ensures { sense_view result ≡ said.sense_of (option_map (λ m. name_view m.now) mark.entry) }
{
    match mark {
        None => Sense::Everything,
        Some(name) => {
            if name.text.as_slice() == b"ct".as_slice() {
                Sense::CertainlyTrue
            } else if name.text.as_slice() == b"cf".as_slice() {
                Sense::CertainlyFalse
            } else {
                Sense::Unread
            }
        }
    }
}

impl Sense {
    pub fn is_certainly_false(self) -> bool
        ensures { result ≡ said.is_certainly_false (sense_view self) }
    {
        match self {
            Sense::Everything => false,
            Sense::CertainlyTrue => false,
            Sense::CertainlyFalse => true,
            Sense::Unread => false,
        }
    }
}
