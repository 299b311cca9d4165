//! Trials of runs over stores of which each call fails in turn, and over frames of which each byte comes
//! back changed; runs that end with a text; how a refusal is shown.
#![tactic(auto)]

#[cfg(test)]
mod asked;
#[cfg(test)]
mod changed_store;
#[cfg(test)]
mod damage_tests;
#[cfg(test)]
mod memory_tests;
#[cfg(test)]
mod refusal_tests;
#[cfg(test)]
mod runs;
#[cfg(test)]
mod store_tests;
#[cfg(test)]
mod texts;
