//! The next chunk of a reader, for which there is room.

ghost use Rattle.std.specs.Prelude.{◌≡◌, ◌<◌, ◌^◌, IfErr, IfOk, IfSome, IsErrOf, List};
ghost use Rattle.pipe_columns.specs.declared.data_chunk.DataChunk.{DataChunk};
ghost use Rattle.pipe_columns.specs.Causes.{HasCause};
ghost use Rattle.pipe_columns.specs.Frame.{FitsSchema};
ghost use Rattle.pipe_csv.specs.declared.csv_error.CsvError.TheVariants as csv_error;
ghost use Rattle.pipe_source.specs.CsvChunks.{chunks_then};
ghost use Rattle.pipe_source.specs.Reader.{chunks_left, given_fields, Gives};
ghost use Rattle.memory_runs.specs.Counts.{AreCounted, HasRoom};
ghost use Rattle.memory_runs.specs.Left.{Tells};
ghost use Rattle.memory_runs.specs.TextRuns.{end_of};

use crate::counted::Counted;
use pipe_columns::DataChunk;
use pipe_csv::CsvError;
use pipe_io::InputFiles;
use pipe_source::ChunkReader;
use std::alloc::Global;

/// The next chunk that a reader has left, for which there is room behind those that were taken.
pub(crate) fn next_fitting<I: InputFiles>(
    alloc: Global,
    counted: Counted,
    input: &mut I,
    reader: &mut ChunkReader,
) -> Result<Option<DataChunk>, CsvError>
    requires rows { counted.rows < 2 ^ 32 }
    ensures given { IfOk result (λ o. IfSome (I.told input.old)
        (λ files. Gives o (chunks_left files reader.old) (chunks_left files reader.new))) }
    ensures room { IfOk result (λ o. IfSome o (HasRoom counted)) }
    ensures fits { IfOk result (λ o. IfSome o (λ c. FitsSchema (given_fields reader.old) c.frame)) }
    ensures ends { (taken : List DataChunk) → AreCounted counted taken
        → IfErr result (λ e. IfSome (I.told input.old) (λ files.
        Tells e (end_of (chunks_then taken (chunks_left files reader.old))))) }
    ensures told { I.told input.new ≡ I.told input.old }
    ensures cause { HasCause (I.faults input.old) (I.faults input.new)
        (IsErrOf result csv_error.Input) }
    ensures fields { given_fields reader.new ≡ given_fields reader.old }
{
    let next = match reader.next_chunk(alloc, input) {
        Ok(next) => next,
        Err(error) => return Err(error),
    };
    let Some(chunk) = next else {
        return Ok(None);
    };
    if counted.has_room(&chunk) {
        Ok(Some(chunk))
    } else {
        Err(CsvError::TooLarge)
    }
}
