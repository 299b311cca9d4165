//! The groups of all chunks that workers' sinks took.

ghost use Rattle.std.specs.Prelude.{◌≡◌, ◌<◌, IfOk, map, vec_len};
ghost use Rattle.std.specs.List.{flat_map, range_with_len};
ghost use Rattle.pipe_aggs.specs.QueryTrees.{query_tree};
ghost use Rattle.pipe_model.specs.Answer.{answer};
ghost use Rattle.pipe_model.specs.Rows.{AreChunksOf};
ghost use Rattle.pipe_group_by.specs.Positions.{turns_of};
ghost use Rattle.pipe_group_by.specs.Taken.{HaveTaken};

use pipe_aggs::CheckedQuery;
use pipe_columns::{DataChunk, DataFrame};
use pipe_sinks::{PausedSink, SinkRun};
use std::alloc::AllocError;
use std::snapshot::Snapshot;

/// One sink with the chunks of all workers' sinks.
fn combined<'a>(
    query: &'a CheckedQuery<'a>,
    partitions: usize,
    chunks: &[Snapshot<DataChunk>],
    sinks: Vec<PausedSink>,
) -> Result<SinkRun<'a>, AllocError>
    requires some { 0 < vec_len sinks }
    requires asked { AreChunksOf (query_tree query.now) (map (λ c. c.value) chunks.now) }
    requires taken { HaveTaken query.now partitions (vec_len sinks)
        (map (λ c. c.value) chunks.now) sinks.items }
    ensures { IfOk result (λ r. r ≡ record {
      query = query.now;
      partitions = partitions;
      taken = flat_map (λ w. turns_of (vec_len sinks) w (map (λ c. c.value) chunks.now))
          (range_with_len 0 (vec_len sinks));
    }) }
{
    let workers = sinks.len();
    let mut waiting = sinks.into_iter();
    let Some(first) = waiting.next() else {
        unreachable!()
    };
    let mut all = first.resume(query);
    for _worker in 1..workers {
        let Some(next) = waiting.next() else {
            unreachable!()
        };
        let mut next = next.resume(query);
        match all.combine(&mut next) {
            Ok(()) => drop(next),
            Err(AllocError) => {
                drop(next);
                drop(all);
                return Err(AllocError);
            }
        }
    }
    Ok(all)
}

/// The groups of all chunks that workers' sinks took.
pub(crate) fn groups_of(
    query: &CheckedQuery<'_>,
    partitions: usize,
    chunks: &[Snapshot<DataChunk>],
    sinks: Vec<PausedSink>,
) -> Result<DataFrame, AllocError>
    requires some { 0 < vec_len sinks }
    requires asked { AreChunksOf (query_tree query.now) (map (λ c. c.value) chunks.now) }
    requires taken { HaveTaken query.now partitions (vec_len sinks)
        (map (λ c. c.value) chunks.now) sinks.items }
    ensures { IfOk result
        (λ f. f ≡ answer (map (λ c. c.value) chunks.now) (query_tree query.now) partitions) }
{
    let mut all = combined(query, partitions, chunks, sinks)?;
    let frame = all.finish();
    drop(all);
    frame
}
