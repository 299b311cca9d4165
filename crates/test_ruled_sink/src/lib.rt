//! Tests of a sink whose channel is proved, by its public functions alone.
#![tactic(auto)]

#[cfg(test)]
mod alone_tests;
#[cfg(test)]
mod beside_tests;
#[cfg(test)]
mod fault_tests;
#[cfg(test)]
mod made;
#[cfg(test)]
mod pair_tests;
#[cfg(test)]
mod pairs;
#[cfg(test)]
mod sinks;
