//! Runs over the columns that a query names alone.
#![tactic(auto)]

mod laws;
