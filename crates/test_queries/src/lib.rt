//! Tests of expressions, aggregates and queries, by their public functions alone.
#![tactic(auto)]

#[cfg(test)]
mod doubled;
#[cfg(test)]
mod made;
#[cfg(test)]
mod memory_tests;
#[cfg(test)]
mod narrowed;
