//! Tests of answers over texts in memory.
#![tactic(auto)]

#[cfg(test)]
mod memory_tests;
