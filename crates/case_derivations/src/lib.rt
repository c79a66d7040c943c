//! Clauses derived by cases: a plain refutation, which no search has to be trusted for.
#![tactic(auto)]

mod adding;
mod closing;
mod derivations;
mod each_once;
mod looking;
mod open_cases;
#[cfg(test)]
mod tests;
mod walking;

pub use derivations::derive;
