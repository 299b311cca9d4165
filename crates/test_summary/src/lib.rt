//! Tests of summaries.
#![tactic(auto)]

#[cfg(test)]
mod add_tests;
#[cfg(test)]
mod asked;
#[cfg(test)]
mod lives;
#[cfg(test)]
mod memory_tests;
#[cfg(test)]
mod steps;
#[cfg(test)]
mod store_tests;
