//! Tests of key codes, of frames of spilled rows and of their stores, by their public functions alone.
#![tactic(auto)]

#[cfg(test)]
mod frames;
#[cfg(test)]
mod hold;
#[cfg(test)]
mod keys;
#[cfg(test)]
mod memory_tests;
#[cfg(test)]
mod short_files;
#[cfg(test)]
mod stores;
