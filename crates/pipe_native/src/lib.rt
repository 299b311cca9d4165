//! The number types that running aggregates keep numbers in.
#![tactic(auto)]

mod native;
mod signed;
mod unsigned;
mod worked;

pub use native::NumericNative;
