//! Chunks that are read in rounds, and fed to a state in the making.

ghost use Rattle.std.specs.Prelude.{◌≡◌, ◌<◌, ◌≤◌, [], IfErr, IfOk, IfSome, IsErrOf, None};
ghost use Rattle.pipe_columns.specs.Causes.{Rose};
ghost use Rattle.pipe_csv.specs.declared.csv_error.CsvError.TheVariants as csv_error;
ghost use Rattle.pipe_io.specs.Tried.{TriedFront};
ghost use Rattle.pipe_saving.specs.Refusals.{AllFit, AreFew};
ghost use Rattle.pipe_source.specs.Reader.{chunks_left, given_fields};
ghost use Rattle.rollup_save.specs.Saves.{end_of, Tells};

use crate::next_round::next_round;
use pipe_csv::CsvError;
use pipe_io::InputFiles;
use pipe_saving::Saving;
use pipe_source::ChunkReader;
use std::alloc::Global;
use std::thread::Threads;

/// Chunks have fewer positions than this.
const MOST: usize = 1 << 32;

/// Feeds all chunks that a reader has left to a state in the making that has taken none, so many at
/// a time, which are read in so many threads. The chunks of a round are read into the memory of
/// those of the one before.
pub(crate) fn feed_left<'a, I: InputFiles, H: Threads + Sync>(
    rt: &H,
    alloc: Global,
    saving: Saving<'a>,
    input: &mut I,
    reader: &mut ChunkReader,
    most: usize,
    threads: usize,
) -> Result<Saving<'a>, CsvError>
    requires most { 0 < most }
    requires threads { 0 < threads }
    requires none { saving.taken ≡ [] }
    requires few { AreFew saving.first [] }
    requires fits { given_fields reader.old ≡ saving.query.schema }
    ensures query { IfOk result (λ s. s.query ≡ saving.entry.query) }
    ensures first { IfOk result (λ s. s.first ≡ saving.entry.first) }
    ensures all { IfOk result (λ s. IfSome (I.told input.old)
        (λ files. chunks_left files reader.old ≡ record { chunks = s.taken; stop = None })) }
    ensures fit { IfOk result (λ s. AllFit saving.entry.query.schema s.taken) }
    ensures few { IfOk result (λ s. AreFew saving.entry.first s.taken) }
    ensures cause { IfErr result (λ e. IfSome (I.told input.old)
        (λ files. Tells e (end_of saving.entry.first (chunks_left files reader.old)))) }
    ensures failed { IsErrOf result csv_error.Input
        → Rose (I.faults input.old) (I.faults input.new) }
    ensures tried { TriedFront (I.tried input.old) (I.tried input.new) reader.old.names }
    ensures told { I.told input.new ≡ I.told input.old }
    ensures later { I.faults input.old ≤ I.faults input.new }
{
    let mut saving = saving;
    for _ in 0..MOST {
        let chunks = match next_round(rt, alloc, &saving, input, reader, most, threads) {
            Ok(chunks) => chunks,
            Err(error) => {
                drop(saving);
                return Err(error);
            }
        };
        saving = saving.feed_all(alloc, &chunks)?;
        if chunks.len() < most {
            return Ok(saving);
        }
        reader.take_back(chunks);
    }
    unreachable!()
}
