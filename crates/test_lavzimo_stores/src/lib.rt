//! Tests of the stores of `lavzimo` over real folders, by the public functions of `lavzimo_stores` alone.
#![tactic(auto)]

#[cfg(test)]
mod faulty_files;
#[cfg(test)]
mod folder_tests;
#[cfg(test)]
mod frames;
#[cfg(test)]
mod memory_tests;
