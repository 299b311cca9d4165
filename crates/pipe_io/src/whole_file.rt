//! A file, read whole.

ghost use Rattle.std.specs.Prelude.{◌≡◌, ◌<◌, ◌≤◌, ◌^◌, ◌+◌, ◌++◌, ◌∷◌, [], List, ℕ, length, IfOk, IsErrOf, Some, take, true, vec_len};
ghost use Rattle.pipe_columns.specs.Causes.{HasCause};
ghost use Rattle.pipe_io.specs.Files.{HasNoFile, IsLarger, IsRead, IsWhole};
ghost use Rattle.pipe_io.specs.declared.whole_file.FileEnd.TheVariants as file_end;

use crate::input::{InputError, InputFiles};
use crate::piece::{make_room, read_behind};
use pipe_columns::Text;
use std::alloc::Global;

/// The most bytes that a file may have.
pub const MOST_FILE_BYTES: usize = 1 << 30;

/// Why a file was not read whole.
#[derive(Debug, Drop, PartialEq, Eq)]
pub enum FileEnd {
    /// No file has the name.
    Missing,
    /// The input failed.
    Failed,
    /// The file has more bytes than `MOST_FILE_BYTES`.
    TooLarge,
    /// Memory ran out.
    Memory,
}

/// The end that an error of the input makes.
pub fn end_of(error: InputError) -> FileEnd
    ensures missing { result ≡ file_end.Missing → error ≡ InputError.NoFile }
    ensures failed { result ≡ file_end.Failed → error ≡ InputError.Failed }
    ensures large { result ≡ file_end.TooLarge → ⊥ }
{
    match error {
        InputError::NoFile => FileEnd::Missing,
        InputError::Failed => FileEnd::Failed,
        InputError::Memory => FileEnd::Memory,
    }
}

/// All the bytes of the file of a name, in pieces of 64 KiB, each of which is read straight to its
/// place. Of a larger file than is read, no more than the piece that passes the bound is taken.
pub fn read_file<I: InputFiles>(
    alloc: Global,
    input: &mut I,
    name: &Text,
) -> Result<Vec<u8>, FileEnd>
    ensures told { I.told input.new ≡ I.told input.old }
    ensures bytes { IfOk result (λ v. IsWhole (I.told input.old) name.now v.items) }
    ensures small { IfOk result (λ v. length v.items ≤ MOST_FILE_BYTES) }
    ensures missing { IsErrOf result file_end.Missing → HasNoFile (I.told input.old) name.now }
    ensures no_fault { IsErrOf result file_end.Missing → I.faults input.new ≡ I.faults input.old }
    ensures large { IsErrOf result file_end.TooLarge
        → IsLarger (I.told input.old) name.now MOST_FILE_BYTES }
    ensures tried { I.tried input.new ≡ I.tried input.old ++ name.now ∷ [] }
    ensures cause { HasCause (I.faults input.old) (I.faults input.new)
        (IsErrOf result file_end.Failed) }
{
    if let Err(error) = input.begin(name) {
        return Err(end_of(error));
    }
    read_begun(input, name, Vec::new(alloc), 0)
}

/// All the bytes of the begun file, which is that of a name, where so many of them were read into the
/// front of a vector. The others take the room that it has, whatever stands there, and then more, in
/// pieces of 64 KiB.
pub fn read_begun<I: InputFiles>(
    input: &mut I,
    name: &Text,
    room: Vec<u8>,
    front: usize,
) -> Result<Vec<u8>, FileEnd>
    requires started { I.begun input.old ≡ true }
    requires within { front ≤ vec_len room }
    requires read { IsRead (I.told input.old) name.now (I.left input.old) (take front room.items) }
    ensures told { I.told input.new ≡ I.told input.old }
    ensures bytes { IfOk result (λ v. IsWhole (I.told input.old) name.now v.items) }
    ensures small { IfOk result (λ v. length v.items ≤ MOST_FILE_BYTES) }
    ensures missing { IsErrOf result file_end.Missing → ⊥ }
    ensures large { IsErrOf result file_end.TooLarge
        → IsLarger (I.told input.old) name.now MOST_FILE_BYTES }
    ensures tried { I.tried input.new ≡ I.tried input.old }
    ensures cause { HasCause (I.faults input.old) (I.faults input.new)
        (IsErrOf result file_end.Failed) }
{
    let mut bytes = room;
    let mut filled = front;
    for _turn in 0..MOST_FILE_BYTES + 1 {
        if filled > MOST_FILE_BYTES {
            return Err(FileEnd::TooLarge);
        }
        if make_room(&mut bytes, filled).is_err() {
            return Err(FileEnd::Memory);
        }
        match read_behind(input, bytes.as_mut_slice(), filled) {
            Ok(0) => {
                bytes.truncate(filled);
                return Ok(bytes);
            }
            Ok(count) => filled += count,
            Err(error) => return Err(end_of(error)),
        }
    }
    Err(FileEnd::TooLarge)
}
