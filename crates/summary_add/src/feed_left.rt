//! Chunks that are read in rounds, and fed to an addition.

ghost use Rattle.std.specs.Prelude.{◌≡◌, ◌<◌, [], IfErr, IfOk, IfSome, IsErrOf, None};
ghost use Rattle.pipe_columns.specs.Causes.{Rose};
ghost use Rattle.pipe_csv.specs.declared.csv_error.CsvError.TheVariants as csv_error;
ghost use Rattle.pipe_io.specs.Tried.{TriedFront};
ghost use Rattle.pipe_saving.specs.Refusals.{AllFit};
ghost use Rattle.pipe_source.specs.Reader.{chunks_left, given_fields};
ghost use Rattle.pipe_summary.specs.Additions.{AreFewBehind};
ghost use Rattle.rollup_save.specs.Saves.{Tells};
ghost use Rattle.summary_add.specs.Adds.{end_behind};

use crate::next_round::next_round;
use pipe_csv::CsvError;
use pipe_io::InputFiles;
use pipe_source::ChunkReader;
use pipe_summary::Adding;
use std::alloc::Global;
use std::thread::Threads;

/// Chunks have fewer positions than this.
const MOST: usize = 1 << 32;

/// Feeds all chunks that a reader has left to an addition that has taken none, so many at a time, which
/// are read in so many threads. The chunks of a round are read into the memory of those of the one
/// before.
pub(crate) fn feed_left<'a, I: InputFiles, H: Threads + Sync>(
    rt: &H,
    alloc: Global,
    adding: Adding<'a>,
    input: &mut I,
    reader: &mut ChunkReader,
    most: usize,
    threads: usize,
) -> Result<Adding<'a>, CsvError>
    requires most { 0 < most }
    requires threads { 0 < threads }
    requires none { adding.taken ≡ [] }
    requires few { AreFewBehind adding.rows adding.first [] }
    requires fits { given_fields reader.old ≡ adding.query.schema }
    ensures query { IfOk result (λ a. a.query ≡ adding.entry.query) }
    ensures rows { IfOk result (λ a. a.rows ≡ adding.entry.rows) }
    ensures first { IfOk result (λ a. a.first ≡ adding.entry.first) }
    ensures all { IfOk result (λ a. IfSome (I.told input.old)
        (λ files. chunks_left files reader.old ≡ record { chunks = a.taken; stop = None })) }
    ensures cause { IfErr result (λ e. IfSome (I.told input.old)
        (λ files. Tells e (end_behind adding.entry.rows adding.entry.first
        (chunks_left files reader.old)))) }
    ensures failed { IsErrOf result csv_error.Input → Rose (I.faults input.old) (I.faults input.new) }
    ensures tried { TriedFront (I.tried input.old) (I.tried input.new) reader.old.names }
{
    let mut adding = adding;
    for _ in 0..MOST {
        let chunks = match next_round(rt, alloc, &adding, input, reader, most, threads) {
            Ok(chunks) => chunks,
            Err(error) => {
                drop(adding);
                return Err(error);
            }
        };
        adding = adding.feed_all(&chunks)?;
        if chunks.len() < most {
            return Ok(adding);
        }
        reader.take_back(chunks);
    }
    unreachable!()
}
