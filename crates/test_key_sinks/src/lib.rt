//! Trials of the sinks for one key beside the plain program, by kinds of keys, orders and turns.
#![tactic(auto)]

#[cfg(test)]
mod asked;
#[cfg(test)]
mod cases;
#[cfg(test)]
mod compared;
#[cfg(test)]
mod key_column;
#[cfg(test)]
mod kind_tests;
#[cfg(test)]
mod memory_tests;
#[cfg(test)]
mod turn_sink;
