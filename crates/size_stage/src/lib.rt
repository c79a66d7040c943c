//! The stage of sizes: how many ground atoms a knowledge base has, how much its theory weighs, and how large its terms
//! may become.
#![tactic(auto)]

pub mod applications;
mod bounds;
pub mod capped;
pub mod counts;
mod domain_integers;
pub mod domains;
mod intervals;
mod measures;
mod measuring;
mod notes;
pub mod occurrences;
mod over_lists;
mod ranges;
mod scopes;
mod setting;
mod sources;
mod theory_bounds;
mod type_sizes;
pub mod weights;

pub use measures::Measure;
pub use measuring::{measure, measure_types};
pub use over_lists::{atoms, weight};
