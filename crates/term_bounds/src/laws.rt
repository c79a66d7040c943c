//! Laws of the definitions in `specs/`: each is the contract of a function that does nothing.
ghost use Rattle.term_bounds.specs.Laws.{BoundsByTotals, LeastIsLeast};

/// Whether a term is below a bound is a question on one sum, for each of the four kinds.
pub fn bounds_by_totals()
    ensures { BoundsByTotals }
{}

/// The least that parts may count is no more than they count in any valuation that extends the assignment.
pub fn least_is_least()
    ensures { LeastIsLeast }
{}
