//! A hash of bytes.

ghost use Rattle.std.specs.Prelude.{◌≡◌};
ghost use Rattle.pipe_chains.specs.Hash.{hash_of};

use std::hash::{FoldHasher, Hasher};

/// A hash of some bytes, to mark entries with. It takes no memory.
#[inline]
pub fn hash_bytes(bytes: &[u8]) -> u64
    ensures { result ≡ hash_of bytes.now }
{
    let mut hasher = FoldHasher::default();
    hasher.write(bytes);
    hasher.finish()
}
