//! Tests of calls that read the words of `lavzimo` where memory is wanting, and where it is there.
#![tactic(auto)]

#[cfg(test)]
mod memory_tests;
#[cfg(test)]
mod words;
