//! Tests of runs by their public functions alone: threads, rounds and refusals.
#![tactic(auto)]

#[cfg(test)]
mod asked;
#[cfg(test)]
mod refusal_tests;
#[cfg(test)]
mod round_tests;
#[cfg(test)]
mod runs;
#[cfg(test)]
mod thread_tests;
