//! What is kept of answers. Each law is the contract of a function that does nothing.
ghost use Rattle.kept_answers.specs.Laws.{KeptIsThere, LastIsKept, SameQueryIsEquality};

/// The test of two commands tells exactly whether they are equal queries.
pub fn same_query_is_equality()
    ensures { SameQueryIsEquality }
{}

/// The answer that was kept last is the one that is kept of its query.
pub fn last_is_kept()
    ensures { LastIsKept }
{}

/// What is kept of a query is one of the answers.
pub fn kept_is_there()
    ensures { KeptIsThere }
{}
