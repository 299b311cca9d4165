//! The bytes of a key.

ghost use Rattle.std.specs.Prelude.{◌≡◌, ◌≤◌, IfOk, length};

use std::alloc::{AllocError, Global};
use std::marker::Model;

/// A key of no more bytes stands in its row and takes no memory of its own.
const MOST_SHORT: usize = 30;

/// Where the bytes of a key stand.
#[derive(Debug, Drop)]
enum Bytes {
    Short { len: u8, bytes: [u8; MOST_SHORT] },
    Long(Vec<u8>),
}

/// The bytes of a key, which are the code of a tuple. Contracts see it as the list of them.
#[derive(Debug, Drop)]
pub struct KeyBytes {
    bytes: Bytes,
}

impl Model for KeyBytes {
    ghost use Rattle.std.specs.Prelude.{List, ℕ};
    ghost use Rattle.pipe_spill.specs.KeyBytes.{AreWithin, bytes_of};

    ghost Value = { List ℕ };

    ghost view = { λ a. bytes_of a.bytes };

    ghost invariant = { λ a. AreWithin a.bytes };
}

impl KeyBytes {
    /// The key of these bytes. It takes no memory.
    pub fn new(items: Vec<u8>) -> KeyBytes
        ensures { result ≡ items.items }
    {
        KeyBytes {
            bytes: Bytes::Long(items),
        }
    }

    /// The key of a copy of bytes. Only where they are more than a few it takes memory.
    #[inline(always)]
    pub fn from_slice(alloc: Global, items: &[u8]) -> Result<KeyBytes, AllocError>
        ensures { IfOk result (λ key. key ≡ items.now) }
    {
        let len = items.len();
        if len > MOST_SHORT {
            return Ok(KeyBytes::new(Vec::from_slice(alloc, items)?));
        }
        let mut bytes = [0; MOST_SHORT];
        bytes[..len].copy_from_slice(items);
        Ok(KeyBytes {
            bytes: Bytes::Short {
                len: len as u8,
                bytes,
            },
        })
    }

    /// The bytes, lent. It takes no memory.
    #[inline(always)]
    pub fn as_slice(&self) -> &[u8]
        ensures { result.now ≡ self.now }
    {
        match &self.bytes {
            Bytes::Short { len, bytes } => &bytes[..usize::from(*len)],
            Bytes::Long(items) => items,
        }
    }
}
