//! Chains of entries by a lead, and hashes of bytes to lead them with.
#![tactic(auto)]

mod chains;
mod hash;
mod heads;
mod link;
mod secret;
mod widen;

pub use chains::Chains;
pub use hash::hash_bytes;
pub use secret::{secret_hash, secret_hasher};
