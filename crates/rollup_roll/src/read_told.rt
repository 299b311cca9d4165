//! The state that a file tells.

ghost use Rattle.std.specs.Prelude.{◌≡◌, ◌≤◌, ◌++◌, ◌∷◌, [], IfErr, IfOk, IsErrOf, length};
ghost use Rattle.pipe_aggs.specs.QueryTrees.{query_tree};
ghost use Rattle.pipe_columns.specs.Causes.{HasCause};
ghost use Rattle.pipe_io.specs.Files.{HasNoFile, IsLarger, IsWhole};
ghost use Rattle.pipe_io.specs.declared.whole_file.FileEnd.TheVariants as file_end;
ghost use Rattle.rollup_roll.specs.declared.roll_error.RollError.TheVariants as fault;
ghost use Rattle.rollup_roll.specs.Reading.{IsUnread};
ghost use Rattle.rollup_roll.specs.Told.{TellsState};

use crate::roll_error::RollError;
use pipe_aggs::CheckedQuery;
use pipe_columns::Text;
use pipe_io::{FileEnd, InputFiles, MOST_FILE_BYTES, end_of, read_begun};
use pipe_states::{StateError, StateFile, read_state};
use std::alloc::Global;

/// Where a file has fewer bytes than this, or their number isn't known, there is room for so many.
const PIECE_BYTES: usize = 1 << 16;

/// Reads the file of a name whole, into room for about as many bytes as it has, and for one more,
/// by which its end is seen.
fn read_bytes<I: InputFiles>(alloc: Global, input: &mut I, name: &Text) -> Result<Vec<u8>, FileEnd>
    ensures told { I.told input.new ≡ I.told input.old }
    ensures bytes { IfOk result (λ v. IsWhole (I.told input.old) name.now v.items) }
    ensures small { IfOk result (λ v. length v.items ≤ MOST_FILE_BYTES) }
    ensures missing { IsErrOf result file_end.Missing → HasNoFile (I.told input.old) name.now }
    ensures large { IsErrOf result file_end.TooLarge
        → IsLarger (I.told input.old) name.now MOST_FILE_BYTES }
    ensures tried { I.tried input.new ≡ I.tried input.old ++ name.now ∷ [] }
    ensures cause { HasCause (I.faults input.old) (I.faults input.new)
        (IsErrOf result file_end.Failed) }
{
    if let Err(error) = input.begin(name) {
        return Err(end_of(error));
    }
    let about = input.size_hint().max(PIECE_BYTES).min(MOST_FILE_BYTES);
    match Vec::with_capacity(alloc, about + 1) {
        Ok(room) => read_begun(input, name, room, 0),
        Err(_) => Err(FileEnd::Memory),
    }
}

/// The state that the file of a name tells. Its number is that of an error.
pub(crate) fn read_told<I: InputFiles>(
    alloc: Global,
    query: &CheckedQuery<'_>,
    input: &mut I,
    name: &Text,
    file: usize,
) -> Result<StateFile, RollError>
    ensures told { I.told input.new ≡ I.told input.old }
    ensures tells { IfOk result (TellsState (query_tree query.now) (I.told input.old) name.now) }
    ensures unread { IfErr result
        (λ e. IsUnread e (query_tree query.now) (I.told input.old) name.now file) }
    ensures tried { I.tried input.new ≡ I.tried input.old ++ name.now ∷ [] }
    ensures cause { HasCause (I.faults input.old) (I.faults input.new)
        (IsErrOf result fault.Input) }
{
    let bytes = match read_bytes(alloc, input, name) {
        Ok(bytes) => bytes,
        Err(FileEnd::Missing) => return Err(RollError::Missing { file }),
        Err(FileEnd::Failed) => return Err(RollError::Input),
        Err(FileEnd::TooLarge) => return Err(RollError::TooLarge),
        Err(FileEnd::Memory) => return Err(RollError::Memory),
    };
    match read_state(alloc, query, &bytes) {
        Ok(state) => Ok(state),
        Err(StateError::NotAState) => Err(RollError::NotAState { file }),
        Err(StateError::Memory) => Err(RollError::Memory),
    }
}
