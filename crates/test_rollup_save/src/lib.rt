//! Tests of files that are saved.
#![tactic(auto)]

#[cfg(test)]
mod asked;
#[cfg(test)]
mod fault_tests;
#[cfg(test)]
mod memory_tests;
