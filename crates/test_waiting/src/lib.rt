//! Tests of rows that wait as bytes, by their public functions alone.
#![tactic(auto)]

#[cfg(test)]
mod chunk_rows;
#[cfg(test)]
mod kept_rows;
#[cfg(test)]
mod memory_tests;
#[cfg(test)]
mod mixed_rows;
#[cfg(test)]
mod store_frames;
