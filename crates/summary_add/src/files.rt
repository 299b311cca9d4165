//! Files that are added in one addition.

ghost use Rattle.std.specs.Prelude.{◌≡◌, ◌<◌, Err, IfErr, IfOk, IfSome, IsErrOf, OnErr, OnOk};
ghost use Rattle.pipe_aggs.specs.QueryTrees.{query_tree};
ghost use Rattle.pipe_columns.specs.Causes.{HasCause, Rose};
ghost use Rattle.pipe_csv.specs.declared.csv_error.CsvError.TheVariants as csv_error;
ghost use Rattle.pipe_io.specs.Files.{Files};
ghost use Rattle.pipe_io.specs.Tried.{TriedFront};
ghost use Rattle.pipe_source.specs.CsvChunks.{csv_chunks};
ghost use Rattle.pipe_source.specs.Reader.{chunks_left, given_fields};
ghost use Rattle.pipe_states.specs.Regrouped.{end_of};
ghost use Rattle.pipe_states.specs.Together.{total_rows};
ghost use Rattle.rollup_save.specs.Saves.{save_options};
ghost use Rattle.summary_add.specs.Adds.{AreAdded, end_behind, end_of_adding, FilesAdded, TellsFault};
ghost use Rattle.summary_add.specs.declared.add_fault.AddFault.TheVariants as add_fault;

use crate::add_fault::{AddFault, finish_fault};
use crate::feed_left::feed_left;
use pipe_columns::{Schema, Text};
use pipe_csv::CsvError;
use pipe_io::InputFiles;
use pipe_source::{ChunkReader, CsvReadOptions};
use pipe_spill::SpillStore;
use pipe_summary::Summary;
use rollup_save::CHUNK_ROWS;
use std::alloc::Global;
use std::thread::Threads;

/// How many chunks are read by each thread before they are fed.
const CHUNKS_OF_THREAD: usize = 4;

/// What reads the files of some names, whose columns a schema has.
fn reader_of(alloc: Global, names: Vec<Text>, schema: Schema) -> ChunkReader
    ensures left { (files : Files) → chunks_left files result
        ≡ csv_chunks files names.items schema save_options }
    ensures names { result.names ≡ names.items }
    ensures fields { given_fields result ≡ schema }
{
    let options = CsvReadOptions {
        chunk_size: CHUNK_ROWS,
        n_rows: None,
        row_index: None,
        include_file_path: None,
    };
    ChunkReader::new(alloc, names, schema, options)
}

/// Adds all chunks that a reader has left to a summary, in one addition.
fn add_left<'a, S: SpillStore + Drop, I: InputFiles, H: Threads + Sync>(
    rt: &H,
    alloc: Global,
    threads: usize,
    summary: &mut Summary<'a, S>,
    input: &mut I,
    reader: &mut ChunkReader,
) -> Result<(), AddFault>
    requires threads { 0 < threads }
    requires fits { given_fields reader.old ≡ summary.old.query.schema }
    ensures added { OnOk result (AreAdded (query_tree summary.old.query)
        (λ files. chunks_left files reader.old) (I.told input.old) summary.old.states
        (S.told summary.old.store) (S.told summary.new.store)) }
    ensures ends { IfErr result (λ e. IfSome (I.told input.old) (λ files. TellsFault e
        (end_behind (total_rows summary.old.states) (end_of summary.old.states)
        (chunks_left files reader.old)))) }
    ensures failed { result ≡ Err (add_fault.Read csv_error.Input)
        → Rose (I.faults input.old) (I.faults input.new) }
    ensures cause { HasCause (S.faults summary.old.store) (S.faults summary.new.store)
        (IsErrOf result add_fault.Store) }
    ensures refused { OnErr result (S.told summary.new.store ≡ S.told summary.old.store) }
    ensures sure { S.sure summary.new.store ≡ S.sure summary.old.store }
    ensures path { S.path summary.new.store ≡ S.path summary.old.store }
    ensures tried { TriedFront (I.tried input.old) (I.tried input.new) reader.old.names }
{
    let Ok(adding) = summary.begin() else {
        return Err(AddFault::Read(CsvError::Memory));
    };
    let most = threads.saturating_mul(CHUNKS_OF_THREAD);
    let adding = match feed_left(rt, alloc, adding, input, reader, most, threads) {
        Ok(adding) => adding,
        Err(error) => return Err(AddFault::Read(error)),
    };
    match summary.finish(adding) {
        Ok(()) => Ok(()),
        Err(error) => Err(finish_fault(error)),
    }
}

/// Adds the files of some names to a summary, in one addition. Chunks have 50,000 rows at most; they are
/// read in rounds, in so many threads. A refusal leaves the summary as it was.
pub fn add_files<'a, S: SpillStore + Drop, I: InputFiles, H: Threads + Sync>(
    rt: &H,
    alloc: Global,
    threads: usize,
    summary: &mut Summary<'a, S>,
    schema: Schema,
    input: &mut I,
    names: Vec<Text>,
) -> Result<(), AddFault>
    requires threads { 0 < threads }
    requires schema { schema ≡ summary.old.query.schema }

    // All chunks of the files are added behind those held.
    ensures added { OnOk result (FilesAdded (query_tree summary.old.query) names.items
        (I.told input.old) summary.old.states (S.told summary.old.store) (S.told summary.new.store)) }

    // It ends early exactly where the files don't fit, or before that too many rows or chunks come with
    // those held, and tells which of these comes first; or a fault raised its count, or memory ran out.
    ensures ends { IfErr result (λ e. IfSome (I.told input.old) (λ files. TellsFault e
        (end_of_adding summary.old.states files names.items (query_tree summary.old.query)))) }
    ensures failed { result ≡ Err (add_fault.Read csv_error.Input)
        → Rose (I.faults input.old) (I.faults input.new) }
    ensures cause { HasCause (S.faults summary.old.store) (S.faults summary.new.store)
        (IsErrOf result add_fault.Store) }
    ensures refused { OnErr result (S.told summary.new.store ≡ S.told summary.old.store) }
    ensures sure { S.sure summary.new.store ≡ S.sure summary.old.store }
    ensures path { S.path summary.new.store ≡ S.path summary.old.store }

    // Files are begun in the order of their names, each once at most for each time that it is named.
    ensures tried { TriedFront (I.tried input.old) (I.tried input.new) names.items }
{
    let mut reader = reader_of(alloc, names, schema);
    add_left(rt, alloc, threads, summary, input, &mut reader)
}
