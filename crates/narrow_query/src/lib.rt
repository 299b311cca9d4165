//! A query over the columns that it names alone.
#![tactic(auto)]

mod laws;
mod narrowing;

pub use narrowing::{Narrowed, narrow};
