//! The groups of closed partitions that are asked one after another, as one whole.

ghost use Rattle.std.specs.Prelude.{◌≡◌, ◌<◌, ◌+◌, IfErr, IfOk, List, OnOk, false, length};
ghost use Rattle.pipe_aggs.specs.QueryTrees.{query_tree};
ghost use Rattle.pipe_columns.specs.Row.{Row};
ghost use Rattle.pipe_model.specs.Output.{output_schema};
ghost use Rattle.pipe_asked.specs.Given.{HasRows, IsSource, KeepsSource};
ghost use Rattle.pipe_asked.specs.Left.{CountOn};
ghost use Rattle.pipe_asked.specs.Sources.{IsGiveCause, KeepsAsked, LeavesOthers};
ghost use Rattle.pipe_asked.specs.Stacking.{alone, HasGivenWhole, IsWholeOfChunks};

use crate::asked::AskedPartitions;
use crate::form::Form;
use pipe_aggs::CheckedQuery;
use pipe_global::BatchError;
use pipe_spill::SpillStore;
use std::alloc::{AllocError, Global};

/// The whole of the groups of the next partition, under what is left of the slice. Where memory is wanting
/// for it, the partition has given its groups nevertheless.
fn next_whole<F: Form, S: SpillStore + Drop>(
    alloc: Global,
    form: &F,
    query: &CheckedQuery<'_>,
    asked: &mut AskedPartitions<'_, S>,
) -> Result<F::Whole, BatchError>
    requires query { asked.old.query ≡ query.now }
    requires takes { F.takes form.now (output_schema (query_tree query.now)) }
    requires left { asked.old.given < length asked.old.partitions }
    requires source { IsSource asked.old }
    ensures whole { IfOk result (HasGivenWhole (F.is form.now) asked.old asked.new) }
    ensures given { OnOk result (KeepsSource asked.old asked.new (asked.old.given + 1)) }
    ensures stands { OnOk result ((rs : List Row) → HasRows rs asked.old → HasRows rs asked.new) }
    ensures kept { KeepsAsked asked.old asked.new }
    ensures others { OnOk result (LeavesOthers asked.old asked.new) }
    ensures cause { IfErr result (λ e. IsGiveCause asked.old asked.new e) }
{
    let mut pieces = match asked.next_pieces() {
        Ok(pieces) => pieces,
        Err(error) => return Err(error),
    };
    let whole = form.of_pieces(alloc, query.output_schema(), &mut pieces);
    drop(pieces);
    match whole {
        Ok(whole) => Ok(whole),
        Err(AllocError) => Err(BatchError::Memory),
    }
}

/// The whole of the groups of all partitions that are left, below one another.
pub(crate) fn joined_wholes<F: Form, S: SpillStore + Drop>(
    alloc: Global,
    form: &F,
    query: &CheckedQuery<'_>,
    asked: &mut AskedPartitions<'_, S>,
) -> Result<F::Whole, BatchError>
    requires query { asked.old.query ≡ query.now }
    requires takes { F.takes form.now (output_schema (query_tree query.now)) }
    requires order { (query_tree query.now).keeps_order ≡ false }
    ensures whole { IfOk result (IsWholeOfChunks (F.is form.now) (alone asked.old)) }
    ensures kept { KeepsAsked asked.old asked.new }
    ensures calm { OnOk result (CountOn asked.old.partitions asked.new.partitions) }
    ensures cause { IfErr result (λ e. IsGiveCause asked.old asked.new e) }
{
    let Ok(mut whole) = form.none(alloc, query.output_schema()) else {
        return Err(BatchError::Memory);
    };
    'parts: while !asked.is_done() {
        let more = match next_whole(alloc, form, query, asked) {
            Ok(more) => more,
            Err(error) => return Err(error),
        };
        match form.put_below(&mut whole, more) {
            Ok(()) => {}
            Err(AllocError) => return Err(BatchError::Memory),
        }
    }
    Ok(whole)
}
