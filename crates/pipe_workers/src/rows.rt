//! The rows of a turn.

ghost use Rattle.std.specs.Prelude.{◌≡◌, ◌+◌, ◌<◌, length, OnErr, OnOk};
ghost use Rattle.pipe_columns.specs.Key.{code};
ghost use Rattle.pipe_inputs.specs.ChunkRows.{row_at};
ghost use Rattle.pipe_workers.specs.Steps.{AreRowsOfTurn, IsInTurn, taken_with};
ghost use Rattle.pipe_workers.specs.Turns.{AreSharesAtStop};
ghost use Rattle.pipe_workers.specs.declared.stop.WorkerStop.TheVariants as stop;

use crate::shared::Shared;
use pipe_global::{Gate, Naming, Shares};
use pipe_inputs::ChunkRows;
use pipe_local::{WorkerEnd, WorkerTable};
use pipe_spill::SpillStore;
use std::alloc::AllocError;
use std::sync::Wait;

/// The rows of a turn, and the position of its chunk.
#[derive(Drop)]
pub(crate) struct TurnRows<'a> {
    pub(crate) position: usize,
    pub(crate) rows: ChunkRows<'a>,
}

/// Takes a row of a turn, whose key's code is `key`: it is held, or waits, or leaves with those that waited before it.
pub(crate) fn take_row<S: SpillStore + Drop, R: Naming, G: Gate, H: Wait>(
    rt: &H,
    shared: &Shared<'_, S, R, G>,
    table: &mut WorkerTable,
    shares: &mut Shares<R>,
    key: &[u8],
    turn: &TurnRows<'_>,
    row: usize,
) -> Result<(), AllocError>
    requires turn { AreRowsOfTurn R.run shares.old.worker turn.now.position turn.now.rows }
    requires there { row < length turn.now.rows }
    requires code { key.now ≡ code table.old.table.shape.key_types
        (row_at turn.now.rows row).key }
    requires within { IsInTurn R.run shares.old.worker turn.now.position
        (taken_with R.run shares.old.worker turn.now.position turn.now.rows row)
        table.old shares.old }
    ensures ok { OnOk result (IsInTurn R.run shares.old.worker turn.now.position
        (taken_with R.run shares.old.worker turn.now.position turn.now.rows (row + 1))
        table.new shares.new) }
    ensures err { OnErr result
        (AreSharesAtStop R.run shares.old.worker stop.Memory shares.new) }
{
    // Called for what its clauses say.
    let _query = shared.query();
    // Called for what its clauses say.
    let _worker = shares.worker();
    let rows = &turn.rows;
    match table.insert_lent(key, rows, row) {
        WorkerEnd::Done => Ok(()),
        WorkerEnd::Memory => Err(AllocError),
        WorkerEnd::Payload(partition, payload) => {
            let global = shared.global;
            let Ok(()) = global.spill_waiting(rt, shared.gate, shares, partition, payload) else {
                return Err(AllocError);
            };
            Ok(())
        }
    }
}
