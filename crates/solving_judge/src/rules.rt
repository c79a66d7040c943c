//! The rules by which a search chooses what it decides.
ghost use Rattle.solving_judge.specs.Rules.{IsChosen};

use chooser::{Choose, first_greatest};

/// Which of several scores is chosen.
#[derive(Clone, Copy)]
pub enum Rule {
    /// The first of the greatest.
    Greatest,
    First,
    Last,
}

impl Choose for Rule {
    ghost chooses = { IsChosen };

    fn choose(&self, scores: &[u64]) -> usize {
        match self {
            Rule::Greatest => first_greatest(scores),
            Rule::First => 0,
            Rule::Last => scores.len() - 1,
        }
    }

    fn takes_first_of_falling(&self) -> bool {
        match self {
            Rule::Greatest => true,
            Rule::First => false,
            Rule::Last => false,
        }
    }
}

/// The rule of this name.
pub fn rule_of(name: &str) -> Option<Rule> {
    match name {
        "greatest" => Some(Rule::Greatest),
        "first" => Some(Rule::First),
        "last" => Some(Rule::Last),
        _ => None,
    }
}
