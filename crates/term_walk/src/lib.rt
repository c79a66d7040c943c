//! Terms that may be asked for as ground terms: the problem that names them is the public definition
//! of `def_ground`.
#![tactic(auto)]

mod laws;
mod terms;

pub use laws::bounded_are_askable;
pub use terms::push_term;
