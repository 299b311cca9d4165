//! Room for a text, which threads take from the system side by side, and into which they read it.

ghost use Rattle.std.specs.Prelude.{◌≡◌, ◌<◌, ◌≤◌, [], IfOk, IsErrOf, take, true, vec_len};
ghost use Rattle.pipe_columns.specs.Causes.{HasCause};
ghost use Rattle.pipe_io.specs.Files.{IsRead};
ghost use Rattle.pipe_io.specs.declared.input.InputError.TheVariants as input_error;

use pipe_columns::Text;
use pipe_io::{InputError, InputFiles};
use pipe_threads::for_each_beside;
use std::alloc::{AllocError, Global};
use std::thread::Threads;

/// How many bytes a piece has.
const PIECE_BYTES: usize = 1 << 20;

/// The C library takes blocks from the system one by one until a larger one was given back to it;
/// smaller ones it then cuts from memory of its own.
const FIRST_BLOCK: usize = 1 << 24;

/// A block behind all pieces. Were the end of its memory free, the C library would give it up.
const LAST_BLOCK: usize = 1 << 16;

/// Empty pieces, with room for so many bytes in all.
fn empty_pieces(alloc: Global, bytes: usize) -> Result<Vec<Vec<u8>>, AllocError> {
    let count = bytes / PIECE_BYTES + 1;
    let mut pieces = Vec::with_capacity(alloc, count)?;
    for _piece in 0..count {
        pieces.push(Vec::with_capacity(alloc, PIECE_BYTES)?)?;
    }
    Ok(pieces)
}

/// Writes to all the memory of a piece.
fn fill_piece(_place: usize, piece: &mut Vec<u8>) {
    let _filled = piece.resize(PIECE_BYTES, 0);
}

/// Room for so many bytes. The system gives the memory of a block page by page, where it is first
/// written to, which takes one thread longer than to read a file into it. So threads write to pieces,
/// and the C library makes the room of these once they are given back. Where it takes the room from
/// the system anew, only time is lost.
fn room_beside<H: Threads + Sync>(
    rt: &H,
    alloc: Global,
    bytes: usize,
    threads: usize,
) -> Result<Vec<u8>, AllocError> {
    drop(Vec::<u8>::with_capacity(alloc, FIRST_BLOCK)?);
    let mut pieces = empty_pieces(alloc, bytes)?;
    let last: Vec<u8> = Vec::with_capacity(alloc, LAST_BLOCK)?;
    for_each_beside(rt, pieces.as_mut_slice(), threads, &fill_piece);
    drop(pieces);
    let room = Vec::with_capacity(alloc, bytes)?;
    drop(last);
    Ok(room)
}

/// Room for so many bytes of the begun file, which is that of a name, and how many of its bytes were
/// read to the front of it, in parts side by side. Where no room can be had, none are.
pub(crate) fn read_front_beside<I: InputFiles, H: Threads + Sync>(
    rt: &H,
    alloc: Global,
    input: &mut I,
    name: &Text,
    bytes: usize,
    threads: usize,
) -> Result<(Vec<u8>, usize), InputError>
    requires started { I.begun input.old ≡ true }
    requires at_start { IsRead (I.told input.old) name.now (I.left input.old) [] }
    requires some { 0 < bytes }
    ensures told { I.told input.new ≡ I.told input.old }
    ensures begun { I.begun input.new ≡ true }
    ensures within { IfOk result (λ r. r.1 ≤ vec_len r.0) }
    ensures read { IfOk result (λ r.
        IsRead (I.told input.old) name.now (I.left input.new) (take r.1 r.0.items)) }
    ensures found { IsErrOf result input_error.NoFile → ⊥ }
    ensures tried { I.tried input.new ≡ I.tried input.old }
    ensures cause { HasCause (I.faults input.old) (I.faults input.new)
        (IsErrOf result input_error.Failed) }
{
    let Ok(mut room) = room_beside(rt, alloc, bytes, threads) else {
        return Ok((Vec::new(alloc), 0));
    };
    if room.resize(bytes, 0).is_err() {
        return Ok((Vec::new(alloc), 0));
    }
    match input.read_beside(rt, threads, room.as_mut_slice()) {
        Ok(count) => Ok((room, count)),
        Err(error) => Err(error),
    }
}
