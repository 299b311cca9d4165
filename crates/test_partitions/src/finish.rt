//! Closed partitions that are asked for their groups, beside a table of no row.

ghost use Rattle.std.specs.Prelude.{◌≡◌, [], All, IfOk, vec_len};
ghost use Rattle.pipe_plan.specs.WorkedRuns.{sum_by_number};
ghost use Rattle.pipe_groups.specs.Shape.{shape_of};
ghost use Rattle.pipe_global.specs.Finishing.{CanFinish};
ghost use Rattle.test_partitions.specs.PlannedRuns.{HasEnded};

use crate::asked::query_of;
use crate::planned::driven;
use pipe_columns::{AnyValue, DataFrame};
use pipe_global::ClosedPartition;
use pipe_spill::SpillStore;
use pipe_tables::AggHashTable;
use std::alloc::Global;
use std::sync::Wait;
use std::test::Fail;

/// How a closed partition is asked.
pub(crate) trait Asks<S: SpillStore + Drop> {
    /// Whether it gives what is wanted.
    fn gives(
        &self,
        alloc: Global,
        closed: &mut ClosedPartition<S>,
        local: &mut AggHashTable,
    ) -> bool
        requires { CanFinish closed.old local.old };
}

/// A table of no row for the query.
fn empty_local(alloc: Global) -> Result<AggHashTable, Fail>
    ensures shape { IfOk result (λ t. t.shape ≡ shape_of sum_by_number) }
    ensures groups { IfOk result (λ t. t.groups ≡ []) }
{
    let query = query_of(alloc)?;
    let Ok(checked) = query.check(alloc) else {
        return Err("Query::check wants memory".into());
    };
    let local = AggHashTable::new(alloc, &checked, None)?;
    Ok(local)
}

/// A partition that has ended can give its groups beside a table of no row.
fn recall_finish<S: SpillStore + Drop>(closed: &ClosedPartition<S>, local: &AggHashTable)
    requires ended { HasEnded closed.now }
    requires shape { local.now.shape ≡ shape_of sum_by_number }
    requires groups { local.now.groups ≡ [] }
    ensures { CanFinish closed.now local.now }
{
    // Called for what its clauses say.
    let _events = closed.journal();
}

/// Whether the partition that ended over stores without a frame gives what is wanted.
pub(crate) fn gives<S: SpillStore + Drop, A: Asks<S>, H: Wait>(
    rt: &H,
    alloc: Global,
    stores: Vec<S>,
    asks: &A,
) -> Result<bool, Fail>
    requires count { vec_len stores ≡ 2 }
    requires empty { All (λ s. S.held s ≡ 0) stores.items }
{
    let mut local = empty_local(alloc)?;
    let mut closed = driven(rt, alloc, stores)?;
    recall_finish(&closed, &local);
    Ok(asks.gives(alloc, &mut closed, &mut local))
}

/// Whether a frame is of the group of both rows.
pub(crate) fn is_sum(frame: &DataFrame) -> bool {
    let columns = frame.columns();
    columns.len() == 2
        && columns[0].values() == [AnyValue::Int(2)].as_slice()
        && columns[1].values() == [AnyValue::Int(13)].as_slice()
}

/// Whether a partition gives the group of both rows.
pub(crate) fn gives_sum<S: SpillStore + Drop>(
    alloc: Global,
    closed: &mut ClosedPartition<S>,
    local: &mut AggHashTable,
) -> bool
    requires { CanFinish closed.old local.old }
{
    match closed.finish(alloc, local, &mut None) {
        Ok(frame) => is_sum(&frame),
        Err(_) => false,
    }
}
