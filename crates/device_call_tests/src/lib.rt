//! Tests of calls on devices that fail as scripted, and of the names of refusals that no text meets.
#![tactic(auto)]

#[cfg(test)]
mod devices;
#[cfg(test)]
mod lines;
#[cfg(test)]
mod refusals;
#[cfg(test)]
mod sources;
