//! The second of two workers makes the calls of its plan in the second of two partitions.

ghost use Rattle.std.specs.Prelude.{◌≡◌, All, IfOk, vec_len};
ghost use Rattle.pipe_aggs.specs.QueryTrees.{query_tree};
ghost use Rattle.pipe_plan.specs.Stores.{stores_seen};
ghost use Rattle.pipe_plan.specs.WorkedRuns.{sum_by_number};
ghost use Rattle.test_partitions.specs.PlannedRuns.{HasEnded, payload_at, second_shares, second_spills};

use crate::asked::{blanks, query_of, row};
use crate::calls::{arrive, dump_refused};
use pipe_aggs::CheckedQuery;
use pipe_global::{Blanks, ClosedPartition, GlobalTable, Naming, Shares};
use pipe_spill::{SpillPayload, SpillStore};
use std::alloc::{AllocError, Global};
use std::marker::Brand;
use std::sync::Wait;
use std::test::Fail;

/// The rows 1 1 and 1 2 of the key 2, with the inputs 6 and 7: what the plan dumps as one frame.
pub(crate) const FRAME: [u8; 76] = [
    0, 0, 0, 0, 0, 0, 0, 2, //
    0, 0, 0, 1, 0, 0, 0, 1, 0, 0, 0, 0, 0, 0, 0, 9, //
    1, 128, 0, 0, 0, 0, 0, 0, 2, 1, 128, 0, 0, 0, 0, 0, 0, 6, //
    0, 0, 0, 1, 0, 0, 0, 2, 0, 0, 0, 0, 0, 0, 0, 9, //
    1, 128, 0, 0, 0, 0, 0, 0, 2, 1, 128, 0, 0, 0, 0, 0, 0, 7, //
];

/// The payload of a row of the second chunk.
fn payload(alloc: Global, number: u32, input: u8) -> Result<SpillPayload, AllocError>
    ensures { IfOk result (λ p. p ≡ payload_at number input) }
{
    Ok(SpillPayload {
        rows: vec![in alloc; row(alloc, 1, number, input)?]?,
    })
}

/// The worker makes the events of its plan.
fn work<S: SpillStore + Drop, R: Naming, H: Wait>(
    rt: &H,
    alloc: Global,
    table: &GlobalTable<S, R>,
    shares: &mut Shares<R>,
) -> Result<(), Fail>
    requires run { R.run ≡ second_spills R.run.stores }
    requires shares { shares.old ≡ second_shares 0 }
{
    arrive(rt, table, shares, 1, payload(alloc, 1, 6)?)?;
    arrive(rt, table, shares, 1, payload(alloc, 2, 7)?)?;
    dump_refused(rt, alloc, table, shares)
}

/// The second partition once the table is closed.
fn drive<S: SpillStore + Drop, R: Naming, H: Wait>(
    rt: &H,
    alloc: Global,
    blanks: Blanks,
    query: &CheckedQuery<'_>,
    stores: Vec<S>,
) -> Result<ClosedPartition<S>, Fail>
    requires partitions { (blanks.partitions.name ≡ R.partition_ledger)
        × (blanks.partitions.parts ≡ 2) }
    requires workers { (blanks.workers.name ≡ R.worker_ledger) × (blanks.workers.parts ≡ 2) }
    requires refusals { (blanks.refusals.name ≡ R.refusal_ledger)
        × (blanks.refusals.parts ≡ 2) }
    requires faults { (blanks.faults.name ≡ R.fault_ledger) × (blanks.faults.parts ≡ 2) }
    requires query { query_tree query.now ≡ sum_by_number }
    requires run { R.run ≡ second_spills
        (stores_seen S.held S.told S.faults S.sure S.path stores.items) }
    requires count { vec_len stores ≡ 2 }
    requires empty { All (λ s. S.held s ≡ 0) stores.items }
    ensures { IfOk result (λ c. HasEnded c) }
{
    let made = GlobalTable::<S, R>::new(alloc, blanks, query, stores, 2, 0);
    let Ok((table, mut shares)) = made else {
        return Err("GlobalTable::new wants memory".into());
    };
    work(rt, alloc, &table, &mut shares[1])?;
    let mut closed = table.into_partitions(rt, shares);
    match closed.pop() {
        Some(partition) => Ok(partition),
        None => Err("no partition".into()),
    }
}

/// The second partition of a run that ended, over stores of no frame.
pub(crate) fn driven<S: SpillStore + Drop, H: Wait>(
    rt: &H,
    alloc: Global,
    stores: Vec<S>,
) -> Result<ClosedPartition<S>, Fail>
    requires count { vec_len stores ≡ 2 }
    requires empty { All (λ s. S.held s ≡ 0) stores.items }
    ensures { IfOk result (λ c. HasEnded c) }
{
    let query = query_of(alloc)?;
    let Ok(query) = query.check(alloc) else {
        return Err("Query::check wants memory".into());
    };
    drive::<S, Brand, H>(rt, alloc, blanks(2), &query, stores)
}
