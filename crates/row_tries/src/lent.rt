//! Elements whose names stand elsewhere, as those of a text: none is copied to be looked up.
ghost use Rattle.std.specs.Prelude.{◌≡◌, option_map};
ghost use Rattle.row_tries.specs.Lent.{lent_view};

use kb_logic::Elem;

/// An element, with its name as it stands elsewhere.
#[derive(Clone, Copy)]
pub enum LentElem<'a> {
    Named(&'a [u8]),
    Num(i64),
}

pub fn lent(elem: &Elem) -> LentElem<'_>
    ensures { lent_view result ≡ elem.now }
{
    match elem {
        Elem::Named(name) => LentElem::Named(name.text()),
        Elem::Num(n) => LentElem::Num(*n),
    }
}

pub fn lent_value(value: &Option<Elem>) -> Option<LentElem<'_>>
    ensures { option_map lent_view result ≡ value.now }
{
    match value {
        None => None,
        Some(elem) => Some(lent(elem)),
    }
}
