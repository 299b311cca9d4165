//! The text of the state of files.

ghost use Rattle.std.specs.Prelude.{◌≡◌, ◌<◌, ◌≤◌, IfErr, IfOk, IfSome, IsErrOf, None, OnOk};
ghost use Rattle.pipe_aggs.specs.Faults.{first_fault};
ghost use Rattle.pipe_aggs.specs.QueryTrees.{query_tree};
ghost use Rattle.pipe_columns.specs.Causes.{Rose};
ghost use Rattle.pipe_csv.specs.declared.csv_error.CsvError.TheVariants as csv_error;
ghost use Rattle.pipe_io.specs.Tried.{TriedFront};
ghost use Rattle.rollup_save.specs.Saves.{end_of_files, IsSavedText, Tells, text_of_files};

use crate::reader::reader_of;
use crate::text::text_by;
use narrow_query::{Narrowed, narrow};
use pipe_aggs::Query;
use pipe_columns::Text;
use pipe_csv::CsvError;
use pipe_io::InputFiles;
use std::alloc::Global;
use std::hash::RandomState;
use std::thread::Threads;

/// The most rows of a chunk.
pub const CHUNK_ROWS: usize = 50_000;

/// The text of the state of the files of some names, by a query, of whose columns those alone are
/// read that it names. Chunks have 50,000 rows at most and are numbered over all files, the first
/// by `first`. They are read in rounds, in so many threads. Tables hash under keys. The query's
/// slice and its order aren't read.
pub fn save_files<I: InputFiles, H: Threads + Sync>(
    rt: &H,
    alloc: Global,
    threads: usize,
    hash_keys: Option<RandomState>,
    query: Query,
    first: u32,
    input: &mut I,
    names: Vec<Text>,
) -> Result<Vec<u8>, CsvError>
    requires threads { 0 < threads }
    requires faultless { first_fault query ≡ None }

    // Where the input tells, exactly the text of the state of the rows of its files.
    ensures text { IfOk result (λ text. IfSome (I.told input.old)
        (λ files. text.items ≡ text_of_files files names.items (query_tree query) first)) }

    // In any case the text of a state of some chunks that can be saved.
    ensures saved { IfOk result (λ text. IsSavedText (query_tree query) first text.items) }

    // It ends early exactly where the files don't fit, or before that too many rows or chunks come,
    // and tells which of these comes first; or a fault of the input raised its count, or memory ran
    // out.
    ensures whole { OnOk result (IfSome (I.told input.old)
        (λ files. end_of_files files names.items (query_tree query) first ≡ None)) }
    ensures cause { IfErr result (λ e. IfSome (I.told input.old)
        (λ files. Tells e (end_of_files files names.items (query_tree query) first))) }
    ensures failed { IsErrOf result csv_error.Input
        → Rose (I.faults input.old) (I.faults input.new) }

    // Files are begun in the order of their names, each once at most for each time that it is
    // named.
    ensures tried { TriedFront (I.tried input.old) (I.tried input.new) names.items }

    // What the input tells stays, and its faults don't fall: so what is saved next is of the same
    // files.
    ensures told { I.told input.new ≡ I.told input.old }
    ensures later { I.faults input.old ≤ I.faults input.new }
{
    let Narrowed {
        schema,
        wanted,
        query,
    } = narrow(alloc, query)?;
    let mut reader = match reader_of(alloc, names, schema, wanted) {
        Ok(reader) => reader,
        Err(error) => {
            drop(query);
            return Err(error.into());
        }
    };
    text_by(
        rt,
        alloc,
        threads,
        hash_keys,
        &query,
        first,
        input,
        &mut reader,
    )
}
