//! Memory that a program takes first.

use std::alloc::{AllocError, Global};

/// The bytes of a block that is taken and given back before anything else.
const FIRST_BLOCK: usize = 1 << 20;

/// A large block. The C library keeps freed memory for what is taken next, up to twice the size of
/// the largest block that was given back to it, and returns more to the system; so after this one
/// the memory of each chunk isn't taken from the system anew.
#[inline(never)]
pub fn first_block(alloc: Global) -> Result<Vec<u8>, AllocError> {
    Vec::with_capacity(alloc, FIRST_BLOCK)
}
