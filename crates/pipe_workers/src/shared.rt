//! What the workers of a run have in common.

ghost use Rattle.std.specs.Prelude.{◌≡◌};
ghost use Rattle.pipe_aggs.specs.QueryTrees.{query_tree};
ghost use Rattle.pipe_workers.specs.Workers.{TakesTurns};

use pipe_aggs::CheckedQuery;
use pipe_global::{Gate, GlobalTable, Naming};
use pipe_spill::SpillStore;
use std::alloc::Global;
use std::marker::Model;

/// What the workers of a run have in common. Contracts see the query.
#[derive(Drop)]
pub(crate) struct Shared<'a, S: SpillStore + Drop, R: Naming, G: Gate> {
    pub(crate) alloc: Global,
    pub(crate) query: &'a CheckedQuery<'a>,
    pub(crate) global: &'a GlobalTable<S, R>,
    pub(crate) gate: &'a G,
    pub(crate) workers: usize,
}

impl<'a, S: SpillStore + Drop, R: Naming, G: Gate> Model for Shared<'a, S, R, G> {
    ghost use Rattle.std.specs.Prelude.{◌≡◌};
    ghost use Rattle.pipe_aggs.specs.declared.query.Query.{Query};
    ghost use Rattle.pipe_aggs.specs.QueryTrees.{query_tree};
    ghost use Rattle.pipe_workers.specs.Workers.{TakesTurns};

    ghost Value = { Query };

    ghost view = { λ s. s.query.now };

    ghost invariant = { λ s. TakesTurns R.run
        × (R.run.query ≡ query_tree s.query.now)
        × (s.workers ≡ R.run.limits.workers) };
}

impl<'a, S: SpillStore + Drop, R: Naming, G: Gate> Shared<'a, S, R, G> {
    /// The same for another worker.
    pub(crate) fn again(&self) -> Shared<'a, S, R, G>
        ensures { result ≡ self.now }
    {
        Shared {
            alloc: self.alloc,
            query: self.query,
            global: self.global,
            gate: self.gate,
            workers: self.workers,
        }
    }

    /// The query of the run.
    pub(crate) fn query(&self) -> &'a CheckedQuery<'a>
        ensures is { result.now ≡ self.now }
        ensures run { R.run.query ≡ query_tree self.now }
        ensures takes_turns { TakesTurns R.run }
    {
        self.query
    }

    /// How many workers there are.
    pub(crate) fn workers(&self) -> usize
        ensures is { result ≡ R.run.limits.workers }
        ensures takes_turns { TakesTurns R.run }
    {
        self.workers
    }
}
