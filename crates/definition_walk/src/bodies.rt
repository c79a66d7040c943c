//! The bodies of a definition's instances, a list for the variable of each head. So an atom finds its own without a
//! search, and all instances take time that is linear in their number.
ghost use Rattle.std.specs.Prelude.{◌≡◌, ◌≤◌, ◌<◌, ◌+◌, ◌++◌, ◌∷◌, [], ℕ, List, length, OnOk, IfOk};
ghost use Rattle.def_ground.specs.declared.answers.Answer.{Answer as AnswerOf};
ghost use Rattle.def_ground.specs.Answers.{AnswerWithin};
ghost use Rattle.definition_walk.specs.Lists.{lists_of, HaveBodies, AllWithin};

use def_ground::Answer;
use ground_core::Memory;
use std::alloc::Global;

/// What the bodies of instances come to: a list for each variable from `first` on.
#[derive(Drop)]
pub struct Bodies {
    pub first: u64,
    pub lists: Vec<Vec<Answer>>,
}

/// Empty lists for so many variables.
pub fn empty_lists(alloc: Global, count: usize) -> Result<Vec<Vec<Answer>>, Memory>
    ensures { IfOk result (λ lists. (length lists.items ≡ count)
        × ((first : ℕ) → HaveBodies [] first (lists_of lists))) }
{
    let mut lists = Vec::with_capacity(alloc, count)?;
    for _list in 0..count {
        lists.push(Vec::new(alloc))?;
    }
    Ok(lists)
}

/// Adds a body to the list at this place.
pub fn add_body(lists: &mut Vec<Vec<Answer>>, place: usize, body: Answer) -> Result<(), Memory>
    requires { place < length lists.old.items }
    ensures more { OnOk result ((told : List (ℕ × AnswerOf)) (first : ℕ) → HaveBodies told first (lists_of lists.old)
        → HaveBodies (told ++ (first + place, body) ∷ []) first (lists_of lists.new)) }
    ensures len { length lists.new.items ≡ length lists.old.items }
    ensures within { OnOk result ((n : ℕ) → AnswerWithin n body → AllWithin n (lists_of lists.old)
        → AllWithin n (lists_of lists.new)) }
{
    lists[place].push(body)?;
    Ok(())
}
