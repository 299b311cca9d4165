//! Tests of saved states that are regrouped, and merged.
#![tactic(auto)]

#[cfg(test)]
mod asked;
#[cfg(test)]
mod asks;
#[cfg(test)]
mod memory_tests;
#[cfg(test)]
mod regrouped;
#[cfg(test)]
mod states;
