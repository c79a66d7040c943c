//! Worked examples of what is open.
ghost use Rattle.open_sizes.specs.Examples.{OpenIsWorkedOut};

/// Maps, numbers, quantifiers, applications, aggregates, rules and terms that may be asked for.
pub fn open_is_worked_out()
    ensures { OpenIsWorkedOut }
{}
