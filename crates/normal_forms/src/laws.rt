//! What the definitions say. The functions are empty: their contracts are laws.
ghost use Rattle.normal_forms.specs.Laws.{NormalFormIsTrue, NormalFormIsNormal};

/// A formula and its negation normal form have one truth in every structure.
pub fn normal_form_is_true()
    ensures { NormalFormIsTrue }
{}

/// In a negation normal form a negation stands only before an atom, a comparison or a number quantifier.
pub fn normal_form_is_normal()
    ensures { NormalFormIsNormal }
{}
