//! Tests of readers and sources of the chunks of files, by their public functions alone.
#![tactic(auto)]

#[cfg(test)]
mod hinted;
#[cfg(test)]
mod hold;
#[cfg(test)]
mod long_tests;
#[cfg(test)]
mod long_texts;
#[cfg(test)]
mod made;
#[cfg(test)]
mod memory_tests;
#[cfg(test)]
mod read;
#[cfg(test)]
mod reader_tests;
#[cfg(test)]
mod real_tests;
#[cfg(test)]
mod source_tests;
