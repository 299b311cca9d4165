//! Tests of states that are saved.
#![tactic(auto)]

#[cfg(test)]
mod asked;
#[cfg(test)]
mod memory_tests;
