//! How the codes of kept tuples are hashed.

use pipe_chains::secret_hasher;
use std::hash::{BuildHasher, DefaultHasher, RandomState};

/// A hasher as it begins, which is copied for each code.
#[derive(Clone, Copy)]
pub struct CodeHasher {
    start: DefaultHasher,
}

impl CodeHasher {
    /// One that begins under keys, so that no one who doesn't have them can choose codes of one hash,
    /// or under fixed ones.
    pub(crate) fn new(keys: Option<RandomState>) -> CodeHasher {
        CodeHasher {
            start: secret_hasher(keys),
        }
    }
}

impl BuildHasher for CodeHasher {
    type Hasher = DefaultHasher;

    ghost build_hasher = { λ s. s.start };

    fn build_hasher(&self) -> DefaultHasher {
        self.start
    }
}
