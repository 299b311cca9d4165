//! A worker of a run.

ghost use Rattle.std.specs.Prelude.{◌≡◌, false, length, IfErr, IfOk, Some};
ghost use Rattle.pipe_aggs.specs.QueryTrees.{query_tree};
ghost use Rattle.pipe_groups.specs.Shape.{shape_of};
ghost use Rattle.pipe_global.specs.Opening.{no_shares};
ghost use Rattle.pipe_workers.specs.Turns.{IsReady};
ghost use Rattle.pipe_workers.specs.Workers.{TakesTurns};

use crate::paused::PausedWorker;
use crate::shared::Shared;
use pipe_aggs::CheckedQuery;
use pipe_global::{Gate, GlobalTable, Naming, Shares};
use pipe_local::WorkerTable;
use pipe_plan::Limits;
use pipe_spill::SpillStore;
use std::alloc::{AllocError, Global};
use std::marker::Model;

/// A worker of a run. It takes the chunks that are its turns, one by one, keeps the rows of the first
/// keys, and sends all others to the partitions, payload by payload. Contracts see its local table,
/// its shares, how many turns it has taken, and whether it closed or stopped.
#[derive(Drop)]
pub struct GenericGroupby2<'a, S: SpillStore + Drop, R: Naming, G: Gate> {
    pub(crate) shared: Shared<'a, S, R, G>,
    pub(crate) table: WorkerTable,
    pub(crate) shares: Shares<R>,
    pub(crate) turns: usize,
    pub(crate) key: Vec<u8>,
    pub(crate) closed: bool,
    pub(crate) stopped: bool,
}

impl<'a, S: SpillStore + Drop, R: Naming, G: Gate> Model for GenericGroupby2<'a, S, R, G> {
    ghost use Rattle.pipe_workers.specs.Workers.{WorkerSeen};

    ghost Value = { WorkerSeen };

    ghost view = { λ w. record {
      table = w.table;
      shares = w.shares;
      turns = w.turns;
      closed = w.closed;
      stopped = w.stopped;
    } };
}

impl<'a, S: SpillStore + Drop, R: Naming, G: Gate> GenericGroupby2<'a, S, R, G> {
    /// A worker before its first turn. A refusal, for want of memory, hands the shares back.
    pub fn new(
        alloc: Global,
        query: &'a CheckedQuery<'a>,
        limits: &Limits,
        global: &'a GlobalTable<S, R>,
        gate: &'a G,
        shares: Shares<R>,
    ) -> Result<GenericGroupby2<'a, S, R, G>, (AllocError, Shares<R>)>
        requires run { TakesTurns R.run }
        requires query { R.run.query ≡ query_tree query.now }
        requires limits { R.run.limits ≡ limits.now }
        requires unused { shares ≡ no_shares R.run.limits.partitions shares.worker }
        ensures ready { IfOk result (λ w. IsReady R.run shares.worker 0 w) }
        ensures back { IfErr result (λ e. e.1 ≡ shares) }
    {
        let made = WorkerTable::new(
            alloc,
            query,
            limits.partitions,
            limits.spill_size,
            limits.buffer_size,
        );
        let Ok(table) = made else {
            return Err((AllocError, shares));
        };
        let shared = Shared {
            alloc,
            query,
            global,
            gate,
            workers: limits.workers,
        };
        Ok(GenericGroupby2 {
            shared,
            table,
            shares,
            turns: 0,
            key: Vec::new(alloc),
            closed: false,
            stopped: false,
        })
    }

    /// Another worker of the same run before its first turn. A refusal hands the shares back.
    pub fn split(
        &self,
        shares: Shares<R>,
    ) -> Result<GenericGroupby2<'a, S, R, G>, (AllocError, Shares<R>)>
        requires unused { shares ≡ no_shares R.run.limits.partitions shares.worker }
        requires limit { self.now.table.table.limit ≡ Some R.run.limits.spill_size }
        requires shape { self.now.table.table.shape ≡ shape_of R.run.query }
        requires size { self.now.table.buffers.size ≡ R.run.limits.buffer_size }
        requires buffers { length self.now.table.buffers.rows ≡ R.run.limits.partitions }
        ensures ready { IfOk result (λ w. IsReady R.run shares.worker 0 w) }
        ensures back { IfErr result (λ e. e.1 ≡ shares) }
    {
        // Called for what its clauses say.
        let _workers = self.shared.workers();
        let Ok(table) = self.table.split() else {
            return Err((AllocError, shares));
        };
        Ok(GenericGroupby2 {
            shared: self.shared.again(),
            table,
            shares,
            turns: 0,
            key: Vec::new(self.shared.alloc),
            closed: false,
            stopped: false,
        })
    }

    /// A worker that goes on where it was paused, in a run over more chunks. It takes no memory.
    pub fn resume(
        alloc: Global,
        query: &'a CheckedQuery<'a>,
        limits: &Limits,
        global: &'a GlobalTable<S, R>,
        gate: &'a G,
        paused: PausedWorker,
        shares: Shares<R>,
    ) -> GenericGroupby2<'a, S, R, G>
        requires run { TakesTurns R.run }
        requires query { R.run.query ≡ query_tree query.now }
        requires limits { R.run.limits ≡ limits.now }
        ensures { result ≡ record {
          table = paused.table;
          shares = shares;
          turns = paused.turns;
          closed = false;
          stopped = false;
        } }
    {
        let PausedWorker {
            table,
            turns,
            picks: _,
        } = paused;
        GenericGroupby2 {
            shared: Shared {
                alloc,
                query,
                global,
                gate,
                workers: limits.workers,
            },
            table,
            shares,
            turns,
            key: Vec::new(alloc),
            closed: false,
            stopped: false,
        }
    }
}
