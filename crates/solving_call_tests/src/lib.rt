//! Tests of calls on clauses, the clause store, ground problems and normal forms that no list of cases can state. This
//! library is empty without them.
#![tactic(auto)]

#[cfg(test)]
mod agreement;
#[cfg(test)]
mod clauses;
#[cfg(test)]
mod plain;
#[cfg(test)]
mod problems;
#[cfg(test)]
mod random;
#[cfg(test)]
mod stories;
#[cfg(test)]
mod story;
#[cfg(test)]
mod use_of_store;
