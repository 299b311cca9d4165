//! Tests of files that tell states, rolled up.
#![tactic(auto)]

mod asked;
mod memory_tests;
mod roll_tests;
