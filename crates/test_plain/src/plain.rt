//! The plain program: groups in a sorted list.

ghost use Rattle.std.specs.Prelude.{◌≡◌, ◌<◌, IfOk};
ghost use Rattle.pipe_aggs.specs.QueryTrees.{query_tree};
ghost use Rattle.pipe_model.specs.Rows.{AreChunksOf};
ghost use Rattle.pipe_model.specs.Answer.{answer};

use crate::table::PlainGroups;
use pipe_aggs::CheckedQuery;
use pipe_columns::{DataChunk, DataFrame};
use std::alloc::{AllocError, Global};

/// The answer of a query over chunks, with so many partitions. The error is want of memory.
pub fn plain_answer(
    alloc: Global,
    chunks: &[DataChunk],
    query: &CheckedQuery<'_>,
    partitions: usize,
) -> Result<DataFrame, AllocError>
    requires some { 0 < partitions }
    requires chunks { AreChunksOf (query_tree query.now) chunks.now }
    ensures { IfOk result (λ f. f ≡ answer chunks.now (query_tree query.now) partitions) }
{
    let mut groups = PlainGroups::new(alloc, query)?;
    for chunk in chunks {
        groups = groups.add(alloc, chunk)?;
    }
    groups.finish(alloc, partitions)
}
