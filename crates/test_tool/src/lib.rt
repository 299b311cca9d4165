//! Tests of the program's library, by its public functions alone: what no case of the built program can
//! say.
#![tactic(auto)]

#[cfg(test)]
mod call_tests;
#[cfg(test)]
mod folder_stores;
#[cfg(test)]
mod gate_tests;
#[cfg(test)]
mod hold;
#[cfg(test)]
mod runs;
#[cfg(test)]
mod small;
#[cfg(test)]
mod store_tests;
