//! What becomes of kept literals as choices come and go. Each law is the contract of a function that does nothing.
ghost use Rattle.kept_supports.specs.Laws.{ChoicesMayGo, ChoicesMayGrow, SameLitIsEquality};

/// The test of two literals tells exactly whether they are equal.
pub fn same_lit_is_equality()
    ensures { SameLitIsEquality }
{}

/// One choice more leaves each kept literal supported.
pub fn choices_may_grow()
    ensures { ChoicesMayGrow }
{}

/// What needs no support stays supported where there are no choices left.
pub fn choices_may_go()
    ensures { ChoicesMayGo }
{}
