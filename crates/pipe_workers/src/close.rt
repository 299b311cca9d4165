//! A worker closes.

ghost use Rattle.std.specs.Prelude.{◌≡◌, ◌+◌, ◌<◌, false, length, OnErr, OnOk};
ghost use Rattle.pipe_workers.specs.Steps.{IsClosing};
ghost use Rattle.pipe_workers.specs.Turns.{AreSharesAtStop, HasClosed, HasStopped, IsReady};
ghost use Rattle.pipe_workers.specs.declared.stop.WorkerStop.TheVariants as stop;

use crate::groupby::GenericGroupby2;
use crate::shared::Shared;
use pipe_global::{Gate, Naming, Shares};
use pipe_local::WorkerTable;
use pipe_spill::SpillStore;
use std::alloc::AllocError;
use std::sync::Wait;

/// Sends what waits in a partition, if anything does.
fn send_rest<S: SpillStore + Drop, R: Naming, G: Gate, H: Wait>(
    rt: &H,
    shared: &Shared<'_, S, R, G>,
    table: &mut WorkerTable,
    shares: &mut Shares<R>,
    partition: usize,
) -> Result<(), AllocError>
    requires exists { partition < R.run.limits.partitions }
    requires closed_run { R.run.is_open ≡ false }
    requires closing { IsClosing R.run shares.old.worker partition table.old shares.old }
    ensures ok { OnOk result
        (IsClosing R.run shares.old.worker (partition + 1) table.new shares.new) }
    ensures err { OnErr result
        (AreSharesAtStop R.run shares.old.worker stop.Memory shares.new) }
    ensures table { table.new.table ≡ table.old.table }
{
    // Called for what its clauses say.
    let _query = shared.query();
    let _worker = shares.worker();
    let left = table.rest(partition)?;
    let Some(payload) = left else {
        return Ok(());
    };
    let global = shared.global;
    let Ok(()) = global.spill_waiting(rt, shared.gate, shares, partition, payload) else {
        return Err(AllocError);
    };
    Ok(())
}

/// Sends what waits in each partition, in order.
fn send_rests<S: SpillStore + Drop, R: Naming, G: Gate, H: Wait>(
    rt: &H,
    shared: &Shared<'_, S, R, G>,
    table: &mut WorkerTable,
    shares: &mut Shares<R>,
) -> Result<(), AllocError>
    requires closed_run { R.run.is_open ≡ false }
    requires closing { IsClosing R.run shares.old.worker 0 table.old shares.old }
    ensures ok { OnOk result (IsClosing R.run shares.old.worker R.run.limits.partitions
        table.new shares.new) }
    ensures err { OnErr result
        (AreSharesAtStop R.run shares.old.worker stop.Memory shares.new) }
    ensures table { table.new.table ≡ table.old.table }
{
    let global = shared.global;
    for partition in 0..global.len() {
        send_rest(rt, shared, table, shares, partition)?;
    }
    Ok(())
}

impl<'a, S: SpillStore + Drop, R: Naming, G: Gate> GenericGroupby2<'a, S, R, G> {
    /// Sends what waits, once the worker has taken all its turns of a run and no chunk may follow.
    /// Where it is refused the worker has stopped: nothing but `finalize` may follow.
    pub fn close<H: Wait>(&mut self, rt: &H) -> Result<(), AllocError>
        requires closed_run { R.run.is_open ≡ false }
        requires ready { IsReady R.run self.old.shares.worker (length R.run.chunks) self.old }
        ensures closed { OnOk result (HasClosed R.run self.old.shares.worker self.new) }
        ensures stopped { OnErr result
            (HasStopped R.run self.old.shares.worker stop.Memory self.new) }
        ensures turns { self.new.turns ≡ self.old.turns }
    {
        // Called for what its clauses say.
        let _query = self.shared.query();
        match send_rests(rt, &self.shared, &mut self.table, &mut self.shares) {
            Ok(()) => {
                self.closed = true;
                Ok(())
            }
            Err(error) => {
                self.stopped = true;
                Err(error)
            }
        }
    }
}
