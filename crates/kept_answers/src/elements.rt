//! Elements and rows.
ghost use Rattle.std.specs.Prelude.{◌≡◌};
ghost use Rattle.consult_text.specs.States.{same_elem, same_row};

use kb_logic::Elem;

pub(crate) fn are_same(a: &Elem, b: &Elem) -> bool
    ensures { result ≡ same_elem a.now b.now }
{
    match (a, b) {
        (Elem::Named(x), Elem::Named(y)) => x.text() == y.text(),
        (Elem::Num(x), Elem::Num(y)) => x == y,
        _ => false,
    }
}

pub(crate) fn are_same_rows(a: &[Elem], b: &[Elem]) -> bool
    ensures { result ≡ same_row a.now b.now }
{
    if a.len() != b.len() {
        return false;
    }
    for i in 0..a.len() {
        if !are_same(&a[i], &b[i]) {
            return false;
        }
    }
    true
}
