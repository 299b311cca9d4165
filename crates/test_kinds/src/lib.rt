//! Tests of the states of groups, by their public functions alone.
#![tactic(auto)]

#[cfg(test)]
mod counts;
