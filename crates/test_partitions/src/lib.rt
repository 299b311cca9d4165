//! Tests of partitions, by their public functions alone.
#![tactic(auto)]

#[cfg(test)]
mod asked;
#[cfg(test)]
mod calls;
#[cfg(test)]
mod damage_tests;
#[cfg(test)]
mod finish;
#[cfg(test)]
mod finish_tests;
#[cfg(test)]
mod memory_tests;
#[cfg(test)]
mod plan_tests;
#[cfg(test)]
mod planned;
