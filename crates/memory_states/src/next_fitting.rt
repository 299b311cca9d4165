//! The next chunk of a reader, for which there is room.

ghost use Rattle.std.specs.Prelude.{◌≡◌, ◌∷◌, ◌++◌, [], IfErr, IfOk, IfSome, IsErrOf};
ghost use Rattle.pipe_columns.specs.Causes.{HasCause};
ghost use Rattle.pipe_columns.specs.Frame.{FitsSchema};
ghost use Rattle.pipe_csv.specs.declared.csv_error.CsvError.TheVariants as csv_error;
ghost use Rattle.pipe_saving.specs.Refusals.{AreFew};
ghost use Rattle.pipe_source.specs.CsvChunks.{chunks_then};
ghost use Rattle.pipe_source.specs.Reader.{chunks_left, given_fields, Gives};
ghost use Rattle.rollup_save.specs.Saves.{end_of, Tells};

use pipe_columns::DataChunk;
use pipe_csv::CsvError;
use pipe_io::InputFiles;
use pipe_saving::Saving;
use pipe_source::ChunkReader;
use std::alloc::Global;

/// The next chunk that a reader has left, for which there is room behind those that were taken.
pub(crate) fn next_fitting<I: InputFiles>(
    alloc: Global,
    saving: &Saving<'_>,
    input: &mut I,
    reader: &mut ChunkReader,
) -> Result<Option<DataChunk>, CsvError>
    requires few { AreFew saving.now.first saving.now.taken }
    ensures given { IfOk result (λ o. IfSome (I.told input.old)
        (λ files. Gives o (chunks_left files reader.old) (chunks_left files reader.new))) }
    ensures room { IfOk result (λ o. IfSome o
        (λ c. AreFew saving.now.first (saving.now.taken ++ c ∷ []))) }
    ensures fits { IfOk result (λ o. IfSome o (λ c. FitsSchema (given_fields reader.old) c.frame)) }
    ensures ends { IfErr result (λ e. IfSome (I.told input.old) (λ files. Tells e
        (end_of saving.now.first (chunks_then saving.now.taken (chunks_left files reader.old))))) }
    ensures told { I.told input.new ≡ I.told input.old }
    ensures cause { HasCause (I.faults input.old) (I.faults input.new)
        (IsErrOf result csv_error.Input) }
    ensures fields { given_fields reader.new ≡ given_fields reader.old }
{
    let next = match reader.next_chunk(alloc, input) {
        Ok(next) => next,
        Err(error) => return Err(error),
    };
    let Some(chunk) = next else {
        return Ok(None);
    };
    if saving.has_room(&chunk) {
        Ok(Some(chunk))
    } else {
        Err(CsvError::TooLarge)
    }
}
