//! Pieces of a file that are read straight to their places.

ghost use Rattle.std.specs.Prelude.{◌≡◌, ◌<◌, ◌≤◌, ◌^◌, ◌+◌, IfOk, IsErrOf, OnOk, drop, length, take, true, vec_len};
ghost use Rattle.std.specs.Io.KnownBytes.{Consumes, IsAtEnd};
ghost use Rattle.pipe_columns.specs.Causes.{HasCause};
ghost use Rattle.pipe_io.specs.declared.input.InputError.TheVariants as input_error;

use crate::input::{InputError, InputFiles};
use std::alloc::AllocError;

/// Room for so many bytes is made at once.
const PIECE_BYTES: usize = 1 << 16;

/// Makes room behind the bytes that came, where none is. What memory there is already is taken first.
pub(crate) fn make_room(bytes: &mut Vec<u8>, filled: usize) -> Result<(), AllocError>
    requires within { filled ≤ vec_len bytes.old }
    requires small { filled < 2 ^ 62 }
    ensures within { filled ≤ vec_len bytes.new }
    ensures room { OnOk result (filled < vec_len bytes.new) }
    ensures front { take filled bytes.new.items ≡ take filled bytes.old.items }
{
    if filled < bytes.len() {
        return Ok(());
    }
    let spare = bytes.capacity() - filled;
    let more = if spare > 0 {
        spare.min(PIECE_BYTES)
    } else {
        PIECE_BYTES
    };
    bytes.resize(filled + more, 0)
}

/// Reads on into the room behind the bytes that came.
pub(crate) fn read_behind<I: InputFiles>(
    input: &mut I,
    bytes: &mut [u8],
    filled: usize,
) -> Result<usize, InputError>
    requires started { I.begun input.old ≡ true }
    requires room { filled < length bytes.old }
    ensures told { I.told input.new ≡ I.told input.old }
    ensures begun { I.begun input.new ≡ true }
    ensures front { take filled bytes.new ≡ take filled bytes.old }
    ensures fits { IfOk result (λ n. filled + n ≤ length bytes.new) }
    ensures bytes { IfOk result (λ n. Consumes (I.left input.old) (I.left input.new)
        (take n (drop filled bytes.new))) }
    ensures end { IfOk result (λ n. n ≡ 0 → IsAtEnd (I.left input.new)) }
    ensures found { IsErrOf result input_error.NoFile → ⊥ }
    ensures tried { I.tried input.new ≡ I.tried input.old }
    ensures cause { HasCause (I.faults input.old) (I.faults input.new)
        (IsErrOf result input_error.Failed) }
{
    input.read(&mut bytes[filled..])
}
