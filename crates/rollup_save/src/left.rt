//! The state of the chunks that a reader has left.

ghost use Rattle.std.specs.Prelude.{◌≡◌, ◌<◌, ◌≤◌, IfErr, IfOk, IfSome, IsErrOf};
ghost use Rattle.pipe_aggs.specs.QueryTrees.{query_tree};
ghost use Rattle.pipe_columns.specs.Causes.{Rose};
ghost use Rattle.pipe_csv.specs.declared.csv_error.CsvError.TheVariants as csv_error;
ghost use Rattle.pipe_io.specs.Tried.{TriedFront};
ghost use Rattle.pipe_source.specs.Reader.{chunks_left, given_fields};
ghost use Rattle.pipe_states.specs.Fair.{IsStateOf};
ghost use Rattle.rollup_save.specs.Saves.{end_of, IsSavedOf, Tells};

use crate::feed_left::feed_left;
use pipe_aggs::CheckedQuery;
use pipe_csv::CsvError;
use pipe_io::InputFiles;
use pipe_saving::Saving;
use pipe_source::ChunkReader;
use pipe_states::StateFile;
use std::alloc::Global;
use std::thread::Threads;

/// The state of all chunks that a reader has left, of which the first has a position. They are read
/// so many at a time in so many threads. The query's slice and its order aren't read.
pub fn save_left<'a, I: InputFiles, H: Threads + Sync>(
    rt: &H,
    alloc: Global,
    query: &'a CheckedQuery<'a>,
    first: u32,
    input: &mut I,
    reader: &mut ChunkReader,
    most: usize,
    threads: usize,
) -> Result<StateFile, CsvError>
    requires most { 0 < most }
    requires threads { 0 < threads }
    requires fits { given_fields reader.old ≡ query.now.schema }
    ensures state { IfOk result (λ f. IsSavedOf (query_tree query.now) first (I.told input.old)
        reader.old f) }
    ensures of_query { IfOk result (IsStateOf (query_tree query.now)) }
    ensures cause { IfErr result (λ e. IfSome (I.told input.old)
        (λ files. Tells e (end_of first (chunks_left files reader.old)))) }
    ensures failed { IsErrOf result csv_error.Input
        → Rose (I.faults input.old) (I.faults input.new) }
    ensures tried { TriedFront (I.tried input.old) (I.tried input.new) reader.old.names }
    ensures told { I.told input.new ≡ I.told input.old }
    ensures later { I.faults input.old ≤ I.faults input.new }
{
    let saving = Saving::new(alloc, query, first)?;
    let saving = feed_left(rt, alloc, saving, input, reader, most, threads)?;
    Ok(saving.finish(alloc)?)
}
