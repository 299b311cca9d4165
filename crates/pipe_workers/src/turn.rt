//! A turn.

ghost use Rattle.std.specs.Prelude.{◌≡◌, ◌+◌, ◌<◌, All, length, IfErr, OnErr, OnOk};
ghost use Rattle.pipe_columns.specs.Key.{code};
ghost use Rattle.pipe_aggs.specs.QueryTrees.{query_tree};
ghost use Rattle.pipe_inputs.specs.ChunkRows.{row_at};
ghost use Rattle.pipe_model.specs.Output.{key_types};
ghost use Rattle.pipe_plan.specs.Plan.{action_at};
ghost use Rattle.pipe_plan.specs.Progress.{rows_before};
ghost use Rattle.pipe_spill.specs.KeyTypes.{AreOfTypes};
ghost use Rattle.pipe_workers.specs.Steps.{AreRowsOfTurn, IsAtTurn, IsInTurn};
ghost use Rattle.pipe_workers.specs.Turns.{AreSharesAtStop, IsAfterTurns};
ghost use Rattle.pipe_workers.specs.declared.stop.WorkerStop.TheVariants as stop;

use crate::pick::pick;
use crate::rows::{TurnRows, take_row};
use crate::shared::Shared;
use crate::stop::WorkerStop;
use pipe_columns::{DataChunk, DataType};
use pipe_global::{Gate, Naming, Shares};
use pipe_groups::encode_row;
use pipe_inputs::ChunkRows;
use pipe_local::WorkerTable;
use pipe_plan::SpillAction;
use pipe_spill::SpillStore;
use std::alloc::AllocError;
use std::mem;
use std::sync::Wait;

/// Writes the code of a row's key ahead of its turn, where there is such a row.
#[inline(always)]
fn encode_ahead(
    key: &mut Vec<u8>,
    rows: &ChunkRows<'_>,
    row: usize,
    types: &[DataType],
) -> Result<(), AllocError>
    requires { All (λ r. AreOfTypes types.now r.key) rows.now }
    ensures { OnOk result (row < length rows.now
        → key.new.items ≡ code types.now (row_at rows.now row).key) }
{
    if row < rows.len() {
        encode_row(key, rows, row, types)?;
    }
    Ok(())
}

/// Takes the rows of a turn, in order. The code of a key is written a row ahead of its use: a processor
/// waits where it reads what it has just written.
fn take_all<S: SpillStore + Drop, R: Naming, G: Gate, H: Wait>(
    rt: &H,
    shared: &Shared<'_, S, R, G>,
    table: &mut WorkerTable,
    shares: &mut Shares<R>,
    key: &mut Vec<u8>,
    turn: &TurnRows<'_>,
) -> Result<(), AllocError>
    requires typed { All (λ r. AreOfTypes (key_types (query_tree shared.now)) r.key)
        turn.now.rows }
    requires turn { AreRowsOfTurn R.run shares.old.worker turn.now.position turn.now.rows }
    requires begun { IsInTurn R.run shares.old.worker turn.now.position
        (rows_before R.run shares.old.worker turn.now.position) table.old shares.old }
    ensures ok { OnOk result (IsInTurn R.run shares.old.worker turn.now.position
        (rows_before R.run shares.old.worker (turn.now.position + 1)) table.new shares.new) }
    ensures err { OnErr result
        (AreSharesAtStop R.run shares.old.worker stop.Memory shares.new) }
{
    let types = shared.query().key_types();
    let rows = &turn.rows;
    let mut next = Vec::new(shared.alloc);
    encode_ahead(&mut next, rows, 0, types)?;
    for row in 0..rows.len() {
        mem::swap(key, &mut next);
        encode_ahead(&mut next, rows, row + 1, types)?;
        table.look_ahead(types, rows, row);
        take_row(rt, shared, table, shares, key, turn, row)?;
    }
    Ok(())
}

/// Takes the rows of the chunk at a position, in order.
fn take_rows<S: SpillStore + Drop, R: Naming, G: Gate, H: Wait>(
    rt: &H,
    shared: &Shared<'_, S, R, G>,
    table: &mut WorkerTable,
    shares: &mut Shares<R>,
    key: &mut Vec<u8>,
    position: usize,
    chunk: &DataChunk,
) -> Result<(), AllocError>
    requires turn { IsAtTurn R.run shares.old.worker position chunk.now table.old shares.old }
    ensures ok { OnOk result (IsInTurn R.run shares.old.worker position
        (rows_before R.run shares.old.worker (position + 1)) table.new shares.new) }
    ensures err { OnErr result
        (AreSharesAtStop R.run shares.old.worker stop.Memory shares.new) }
{
    let query = shared.query();
    let rows = ChunkRows::new(shared.alloc, query, position as u32, chunk)?;
    let turn = TurnRows { position, rows };
    take_all(rt, shared, table, shares, key, &turn)
}

/// Takes the chunk at a position, and then, where it has rows, the turn's action.
pub(crate) fn take_turn<S: SpillStore + Drop, R: Naming, G: Gate, H: Wait>(
    rt: &H,
    shared: &Shared<'_, S, R, G>,
    table: &mut WorkerTable,
    shares: &mut Shares<R>,
    key: &mut Vec<u8>,
    position: usize,
    chunk: &DataChunk,
    action: SpillAction,
) -> Result<(), WorkerStop>
    requires turn { IsAtTurn R.run shares.old.worker position chunk.now table.old shares.old }
    requires action { action ≡ action_at R.run position }
    ensures ok { OnOk result (IsAfterTurns R.run shares.old.worker (position + 1)
        table.new shares.new) }
    ensures err { IfErr result
        (λ end. AreSharesAtStop R.run shares.old.worker end shares.new) }
{
    // Called for what its clauses say.
    let _query = shared.query();
    let _worker = shares.worker();
    if chunk.frame.height() == 0 {
        return Ok(());
    }
    let Ok(()) = take_rows(rt, shared, table, shares, key, position, chunk) else {
        return Err(WorkerStop::Memory);
    };
    // Called for what its clauses say.
    let _worker = shares.worker();
    pick(rt, shared, shares, action)
}
