//! A hash of bytes that no one can tell who doesn't have its keys.

ghost use Rattle.std.specs.Prelude.{◌≡◌};
ghost use Rattle.pipe_chains.specs.Hash.{secret_hash_of, secret_start};

use std::hash::{BuildHasher, DefaultHasher, Hasher, RandomState};

/// The hasher as it begins: under the keys, or under fixed ones, so that a run can be repeated.
pub fn secret_hasher(keys: Option<RandomState>) -> DefaultHasher
    ensures { result ≡ secret_start keys }
{
    match keys {
        Some(keys) => keys.build_hasher(),
        None => DefaultHasher::new(),
    }
}

/// The hash of some bytes under keys.
pub fn secret_hash(keys: Option<RandomState>, bytes: &[u8]) -> u64
    ensures { result ≡ secret_hash_of keys bytes.now }
{
    let mut hasher = secret_hasher(keys);
    hasher.write(bytes);
    hasher.finish()
}
