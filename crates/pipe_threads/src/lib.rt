//! Threads that one thread makes.
#![tactic(auto)]

mod beside;

pub use beside::for_each_beside;
