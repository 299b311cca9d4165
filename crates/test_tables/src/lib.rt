//! Tests of tables, by their public functions alone.
#![tactic(auto)]

#[cfg(test)]
mod asked;
#[cfg(test)]
mod memory_tests;
#[cfg(test)]
mod state_tests;
#[cfg(test)]
mod step_tests;
#[cfg(test)]
mod tables;
