//! Entries.
use ground_core::LitList;
use kb_logic::{ExtInt, ListOf};
use lit_core::{Lit, Var};

/// Numbers, which contracts see as a list.
pub type NumberList = ListOf<u64>;

/// A line of the log. Clauses, constraints and terms are numbered from 1 on; clause number 0 stands for literals that
/// are there with their negations.
#[derive(Drop)]
pub enum Entry {
    /// `q N`: a command was read at line N.
    Mark(u64),
    /// `l CLAUSE 0 HINTS 0`: the clause follows in order from the clauses of these numbers.
    Learnt(LitList, NumberList),
    /// `c N CLAUSE 0`: the constraint of number N alone implies the clause.
    Sum(u64, LitList),
    /// `b S T K`: the new variable S is true where term T is below K.
    Bound(Var, u32, ExtInt),
    /// `n S CLAUSE 0`: where the new variable S is true, the clause is.
    Exclude(Var, LitList),
    /// `i LITERALS 0 C`: nothing makes the literals true, as the clause of number C says.
    Inconsistent(LitList, u64),
    /// `f L LITERALS 0 C`: L is true wherever the literals are.
    Forced(Lit, LitList, u64),
    /// `m T K LITERALS 0 C`: term T is not below K wherever the literals are true.
    Least(u32, ExtInt, LitList, u64),
}
