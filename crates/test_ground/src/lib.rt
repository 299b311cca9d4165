//! Tests of values, frames, chains and threads, by their public functions alone.
#![tactic(auto)]

#[cfg(test)]
mod chains;
#[cfg(test)]
mod columns;
#[cfg(test)]
mod texts;
#[cfg(test)]
mod threads;
#[cfg(test)]
mod traits;
