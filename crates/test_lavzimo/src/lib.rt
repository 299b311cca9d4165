//! Tests of `run_lavzimo` over files, outputs and stores in memory: what no case of the built program can
//! say.
#![tactic(auto)]

#[cfg(test)]
mod asked;
#[cfg(test)]
mod call_tests;
#[cfg(test)]
mod memory_tests;
#[cfg(test)]
mod outputs;
#[cfg(test)]
mod questions;
#[cfg(test)]
mod store_tests;
#[cfg(test)]
mod stores;
