//! What the definitions of meaning say: laws, and examples worked out by hand.
#![tactic(auto)]

pub mod laws;
