//! The text of the state of the chunks that a reader has left.

ghost use Rattle.std.specs.Prelude.{◌≡◌, ◌<◌, ◌≤◌, IfErr, IfOk, IfSome, IsErrOf, None};
ghost use Rattle.pipe_aggs.specs.Faults.{first_fault};
ghost use Rattle.pipe_aggs.specs.QueryTrees.{query_tree};
ghost use Rattle.pipe_columns.specs.Causes.{Rose};
ghost use Rattle.pipe_csv.specs.declared.csv_error.CsvError.TheVariants as csv_error;
ghost use Rattle.pipe_io.specs.Tried.{TriedFront};
ghost use Rattle.pipe_source.specs.Reader.{chunks_left, given_fields};
ghost use Rattle.rollup_save.specs.Saves.{end_of, Tells};
ghost use Rattle.rollup_save.specs.Taken.{IsTextOf};

use crate::left::save_left;
use pipe_aggs::{CheckError, CheckedQuery, Query};
use pipe_csv::CsvError;
use pipe_io::InputFiles;
use pipe_source::ChunkReader;
use pipe_states::write_state;
use std::alloc::{AllocError, Global};
use std::hash::RandomState;
use std::thread::Threads;

/// How many chunks are read by each thread before they are fed.
const CHUNKS_OF_THREAD: usize = 4;

/// A query without fault, checked.
fn checked_of<'a>(alloc: Global, query: &'a Query) -> Result<CheckedQuery<'a>, AllocError>
    requires { first_fault query.now ≡ None }
    ensures { IfOk result (λ c. c ≡ query.now) }
{
    match query.check(alloc) {
        Ok(checked) => Ok(checked),
        Err(CheckError::Memory) => Err(AllocError),
        Err(CheckError::Fault(_)) => unreachable!(),
    }
}

/// The text of the state of all chunks that a reader has left, by a checked query.
fn text_left<'a, I: InputFiles, H: Threads + Sync>(
    rt: &H,
    alloc: Global,
    threads: usize,
    query: &'a CheckedQuery<'a>,
    first: u32,
    input: &mut I,
    reader: &mut ChunkReader,
) -> Result<Vec<u8>, CsvError>
    requires threads { 0 < threads }
    requires fits { given_fields reader.old ≡ query.now.schema }
    ensures text { IfOk result (λ text. IsTextOf (query_tree query.now) first (I.told input.old)
        reader.old text.items) }
    ensures cause { IfErr result (λ e. IfSome (I.told input.old)
        (λ files. Tells e (end_of first (chunks_left files reader.old)))) }
    ensures failed { IsErrOf result csv_error.Input
        → Rose (I.faults input.old) (I.faults input.new) }
    ensures tried { TriedFront (I.tried input.old) (I.tried input.new) reader.old.names }
    ensures told { I.told input.new ≡ I.told input.old }
    ensures later { I.faults input.old ≤ I.faults input.new }
{
    let most = threads.saturating_mul(CHUNKS_OF_THREAD);
    let file = save_left(rt, alloc, query, first, input, reader, most, threads)?;
    Ok(write_state(alloc, query, &file)?)
}

/// The same by a query without fault, with tables that hash under keys.
pub(crate) fn text_by<I: InputFiles, H: Threads + Sync>(
    rt: &H,
    alloc: Global,
    threads: usize,
    hash_keys: Option<RandomState>,
    query: &Query,
    first: u32,
    input: &mut I,
    reader: &mut ChunkReader,
) -> Result<Vec<u8>, CsvError>
    requires threads { 0 < threads }
    requires faultless { first_fault query.now ≡ None }
    requires fits { given_fields reader.old ≡ query.now.schema }
    ensures text { IfOk result (λ text. IsTextOf (query_tree query.now) first (I.told input.old)
        reader.old text.items) }
    ensures cause { IfErr result (λ e. IfSome (I.told input.old)
        (λ files. Tells e (end_of first (chunks_left files reader.old)))) }
    ensures failed { IsErrOf result csv_error.Input
        → Rose (I.faults input.old) (I.faults input.new) }
    ensures tried { TriedFront (I.tried input.old) (I.tried input.new) reader.old.names }
    ensures told { I.told input.new ≡ I.told input.old }
    ensures later { I.faults input.old ≤ I.faults input.new }
{
    let mut checked = checked_of(alloc, query)?;
    checked.hash_under(hash_keys);
    text_left(rt, alloc, threads, &checked, first, input, reader)
}
