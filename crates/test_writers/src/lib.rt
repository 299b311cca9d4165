//! Tests of writers of frames and of sinks of files, by their public functions alone.
#![tactic(auto)]

#[cfg(test)]
mod byte_tests;
#[cfg(test)]
mod fed;
#[cfg(test)]
mod hold;
#[cfg(test)]
mod json_tests;
#[cfg(test)]
mod kept_tests;
#[cfg(test)]
mod made;
#[cfg(test)]
mod memory_tests;
#[cfg(test)]
mod order_tests;
#[cfg(test)]
mod outputs;
#[cfg(test)]
mod piece_tests;
#[cfg(test)]
mod sink_tests;
#[cfg(test)]
mod text_tests;
#[cfg(test)]
mod thread_tests;
