//! Tests of a store that keeps its frames as a log in a file.
#![tactic(auto)]

#[cfg(test)]
mod log_tests;
