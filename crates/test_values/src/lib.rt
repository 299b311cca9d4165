//! Tests of values, of aggregates over them and of the plain program, by their public functions alone.
#![tactic(auto)]

#[cfg(test)]
mod made;
#[cfg(test)]
mod native;
#[cfg(test)]
mod plain;
#[cfg(test)]
mod running;
