//! Tests of calls on formulas, structures and partial structures that no list of cases can state: lists and trees that
//! no text makes, and binders too long for a text.
#![tactic(auto)]

#[cfg(test)]
mod certainties;
#[cfg(test)]
mod conditions;
#[cfg(test)]
mod copies;
#[cfg(test)]
mod fixtures;
#[cfg(test)]
mod stories;
#[cfg(test)]
mod truths;
