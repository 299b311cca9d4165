//! The partition of a key.

ghost use Rattle.std.specs.Prelude.{◌≡◌, ◌<◌, ◌%◌};
ghost use Rattle.pipe_columns.specs.Key.{fold_bytes};

/// The number of some bytes, modulo 2^64. It takes no memory.
pub fn fold(bytes: &[u8]) -> u64
    ensures { result ≡ fold_bytes bytes.now }
{
    bytes.iter().fold(0u64, |number, byte| {
        number.wrapping_mul(31).wrapping_add(*byte as u64)
    })
}

/// The partition in which a key lies, out of so many. It takes no memory.
pub fn partition_of(key: &[u8], partitions: usize) -> usize
    requires { 0 < partitions }
    ensures { result ≡ fold_bytes key.now % partitions }
{
    fold(key) as usize % partitions
}
