//! The chunks of one round.

ghost use Rattle.std.specs.Prelude.{◌≡◌, ◌+◌, ◌<◌, ◌≤◌, ◌^◌, ℕ, All, false, IfErr, IfNone, IfOk, IfSome, IsErrOf, length, true};
ghost use Rattle.pipe_columns.specs.Causes.{HasCause};
ghost use Rattle.pipe_columns.specs.Frame.{FitsSchema};
ghost use Rattle.pipe_csv.specs.declared.csv_error.CsvError.TheVariants as csv_error;
ghost use Rattle.pipe_io.specs.Tried.{AreTried, TriedFront};
ghost use Rattle.pipe_model.specs.Rows.{total_height};
ghost use Rattle.pipe_source.specs.CsvChunks.{CsvChunks};
ghost use Rattle.pipe_source.specs.Reader.{given_fields};
ghost use Rattle.pipe_source.specs.Rounds.{StopsWithin};
ghost use Rattle.tool_run.specs.Rounds.{WereTaken, EndsBehind, EndsWith, HasNoneLeft, are_few_behind};

use crate::counted::Counted;
use pipe_columns::DataChunk;
use pipe_csv::CsvError;
use pipe_io::InputFiles;
use pipe_source::ChunkReader;
use std::alloc::Global;
use std::thread::Threads;

/// Rows, and chunks, have fewer numbers than this.
pub(crate) const MOST: usize = 1 << 32;

/// How many chunks and rows there are with some more, where either stays below 2^32.
fn counted_behind(before: Counted, chunks: &[DataChunk]) -> Option<Counted>
    requires few { (before.chunks < 2 ^ 32) × (before.rows < 2 ^ 32) }
    ensures chunks { IfSome result (λ c. c.chunks ≡ before.chunks + length chunks.now) }
    ensures rows { IfSome result (λ c. c.rows ≡ before.rows + total_height chunks.now) }
    ensures few { IfSome result (λ c. (c.chunks < 2 ^ 32) × (c.rows < 2 ^ 32)) }
    ensures fewer { IfSome result (λ _. are_few_behind before chunks.now ≡ true) }
    ensures many { IfNone result (are_few_behind before chunks.now ≡ false) }
{
    let mut counted = before;
    for chunk in chunks {
        let height = chunk.frame.height();
        if height >= MOST - counted.rows || counted.chunks + 1 == MOST {
            return None;
        }
        counted.chunks += 1;
        counted.rows += height;
    }
    Some(counted)
}

/// Why the reading ends behind others, where it was refused behind some chunks more: too many may
/// come before where the files stop.
fn ending_behind(before: Counted, error: CsvError, chunks: &[DataChunk]) -> CsvError
    requires few { (before.chunks < 2 ^ 32) × (before.rows < 2 ^ 32) }
    ensures ends { (left : CsvChunks) (most : ℕ) → StopsWithin most error chunks.now left
        → EndsWith before left result }
    ensures failed { result ≡ csv_error.Input → error ≡ csv_error.Input }
{
    if counted_behind(before, chunks).is_some() {
        return error;
    }
    match error {
        CsvError::Input => CsvError::Input,
        CsvError::Memory => CsvError::Memory,
        _ => CsvError::TooLarge,
    }
}

/// The next chunks that a reader has left, at most so many, behind those that were read, in so many
/// threads. There are fewer only where none is left. No file is begun twice: where the files stop, the
/// chunks before the stop tell whether too many come.
pub(crate) fn read_round<I: InputFiles, H: Threads + Sync>(
    rt: &H,
    alloc: Global,
    input: &mut I,
    reader: &mut ChunkReader,
    most: usize,
    threads: usize,
    before: Counted,
) -> Result<(Vec<DataChunk>, Counted), CsvError>
    requires few { (before.chunks < 2 ^ 32) × (before.rows < 2 ^ 32) }
    requires threads { 0 < threads }
    ensures taken { IfOk result
        (λ r. WereTaken (I.told input.old) reader.old r.0.items reader.new) }
    ensures chunks { IfOk result (λ r. r.1.chunks ≡ before.chunks + length r.0.items) }
    ensures rows { IfOk result (λ r. r.1.rows ≡ before.rows + total_height r.0.items) }
    ensures few { IfOk result (λ r. (r.1.chunks < 2 ^ 32) × (r.1.rows < 2 ^ 32)) }
    ensures over { IfOk result
        (λ r. length r.0.items < most → HasNoneLeft (I.told input.old) reader.new) }
    ensures fit { IfOk result (λ r.
        All (λ c. FitsSchema (given_fields reader.old) c.frame) r.0.items) }
    ensures ends { IfErr result (λ e. EndsBehind before (I.told input.old) reader.old e) }
    ensures tried { TriedFront (I.tried input.old) (I.tried input.new) reader.old.names }
    ensures gone { IfOk result (λ r. most ≤ length r.0.items
        → AreTried (I.tried input.old) (I.tried input.new) reader.old.names reader.new.names) }
    ensures cause { HasCause (I.faults input.old) (I.faults input.new)
        (IsErrOf result csv_error.Input) }
    ensures told { I.told input.new ≡ I.told input.old }
    ensures fields { given_fields reader.new ≡ given_fields reader.old }
{
    let chunks = match reader.get_round(rt, alloc, input, most, threads) {
        Ok(chunks) => chunks,
        Err((error, chunks)) => return Err(ending_behind(before, error, &chunks)),
    };
    match counted_behind(before, &chunks) {
        Some(counted) => Ok((chunks, counted)),
        None => Err(CsvError::TooLarge),
    }
}
