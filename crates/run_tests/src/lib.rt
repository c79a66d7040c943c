//! Tests of `run` over scripted devices in memory.
#![tactic(auto)]

#[cfg(test)]
mod long_files;
#[cfg(test)]
mod tests;
