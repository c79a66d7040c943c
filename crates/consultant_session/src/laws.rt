//! What the definitions of states say, in the subject's own words. The functions are empty: their contracts are laws.
ghost use Rattle.consultant_session.specs.Laws.{SameLiteralIsEquality, ChosenIsMembership, WithoutRemovesOne};
ghost use Rattle.consultant_session.specs.Laws.{ChoicesStayDistinct, BudgetStays, OppositeChoicesHaveNoModel};

/// The test of two literals tells exactly whether they are equal.
pub fn same_literal_is_equality()
    ensures { SameLiteralIsEquality }
{}

/// A literal is chosen exactly where it stands among the choices.
pub fn chosen_is_membership()
    ensures { ChosenIsMembership }
{}

/// A retracted literal stands no longer among the choices, and every other one stands there as before.
pub fn without_removes_one()
    ensures { WithoutRemovesOne }
{}

/// No command makes a literal a choice twice.
pub fn choices_stay_distinct()
    ensures { ChoicesStayDistinct }
{}

/// No command but `budget` changes the budget.
pub fn budget_stays()
    ensures { BudgetStays }
{}

/// There is no model where a literal and its opposite are choices.
pub fn opposite_choices_have_no_model()
    ensures { OppositeChoicesHaveNoModel }
{}
