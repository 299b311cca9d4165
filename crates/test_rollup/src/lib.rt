//! Tests of commands on saved states over files in memory, of which calls fail.
#![tactic(auto)]

#[cfg(test)]
mod asked;
#[cfg(test)]
mod fault_tests;
#[cfg(test)]
mod memory_tests;
