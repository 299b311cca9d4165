//! The chunks of one round, for which there is room.

ghost use Rattle.std.specs.Prelude.{◌≡◌, ◌++◌, ◌<◌, ◌≤◌, ℕ, IfErr, IfOk, IfSome, IsErrOf, length};
ghost use Rattle.pipe_columns.specs.Causes.{HasCause};
ghost use Rattle.pipe_csv.specs.declared.csv_error.CsvError.TheVariants as csv_error;
ghost use Rattle.pipe_io.specs.Tried.{AreTried, TriedFront};
ghost use Rattle.pipe_saving.specs.Refusals.{AllFit};
ghost use Rattle.pipe_source.specs.CsvChunks.{chunks_then, CsvChunks, no_more};
ghost use Rattle.pipe_source.specs.Reader.{chunks_left, given_fields};
ghost use Rattle.pipe_source.specs.Rounds.{StopsWithin};
ghost use Rattle.pipe_summary.specs.Additions.{AreFewBehind};
ghost use Rattle.rollup_save.specs.Saves.{Tells};
ghost use Rattle.rollup_save.specs.Taken.{WereTaken};
ghost use Rattle.summary_add.specs.Adds.{end_behind};

use pipe_columns::DataChunk;
use pipe_csv::CsvError;
use pipe_io::InputFiles;
use pipe_source::ChunkReader;
use pipe_summary::Adding;
use std::alloc::Global;
use std::thread::Threads;

/// Why adding ends where the reading was refused behind some chunks more: there may be no room for these.
fn ending_behind(adding: &Adding<'_>, error: CsvError, chunks: &[DataChunk]) -> CsvError
    ensures ends { (left : CsvChunks) (most : ℕ) → StopsWithin most error chunks.now left
        → Tells result (end_behind adding.now.rows adding.now.first
        (chunks_then adding.now.taken left)) }
    ensures failed { result ≡ csv_error.Input → error ≡ csv_error.Input }
{
    if adding.has_room_for(chunks) {
        return error;
    }
    match error {
        CsvError::Input => CsvError::Input,
        CsvError::Memory => CsvError::Memory,
        _ => CsvError::TooLarge,
    }
}

/// The next chunks that a reader has left, at most so many, for which there is room behind those that
/// were taken, read in so many threads. There are fewer only where none is left. Where the files stop,
/// the chunks before the stop tell whether too many come.
pub(crate) fn next_round<I: InputFiles, H: Threads + Sync>(
    rt: &H,
    alloc: Global,
    adding: &Adding<'_>,
    input: &mut I,
    reader: &mut ChunkReader,
    most: usize,
    threads: usize,
) -> Result<Vec<DataChunk>, CsvError>
    requires threads { 0 < threads }
    ensures taken { IfOk result
        (λ v. WereTaken (I.told input.old) reader.old v.items reader.new) }
    ensures few { IfOk result (λ v. AreFewBehind adding.now.rows adding.now.first
        (adding.now.taken ++ v.items)) }
    ensures over { IfOk result (λ v. length v.items < most → IfSome (I.told input.old)
        (λ files. chunks_left files reader.new ≡ no_more)) }
    ensures fit { IfOk result (λ v. AllFit (given_fields reader.old) v.items) }
    ensures ends { IfErr result (λ e. IfSome (I.told input.old) (λ files. Tells e
        (end_behind adding.now.rows adding.now.first
        (chunks_then adding.now.taken (chunks_left files reader.old))))) }
    ensures tried { TriedFront (I.tried input.old) (I.tried input.new) reader.old.names }
    ensures gone { IfOk result (λ v. most ≤ length v.items
        → AreTried (I.tried input.old) (I.tried input.new) reader.old.names reader.new.names) }
    ensures cause { HasCause (I.faults input.old) (I.faults input.new)
        (IsErrOf result csv_error.Input) }
    ensures told { I.told input.new ≡ I.told input.old }
    ensures fields { given_fields reader.new ≡ given_fields reader.old }
{
    let chunks = match reader.get_round(rt, alloc, input, most, threads) {
        Ok(chunks) => chunks,
        Err((error, chunks)) => return Err(ending_behind(adding, error, &chunks)),
    };
    if adding.has_room_for(&chunks) {
        Ok(chunks)
    } else {
        Err(CsvError::TooLarge)
    }
}
