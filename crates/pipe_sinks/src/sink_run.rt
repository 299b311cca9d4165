//! What a sink of one key keeps of the chunks that it took.

ghost use Rattle.std.specs.Prelude.{◌≡◌, ◌<◌, ◌≤◌, ◌^◌, [], IfOk, OnOk};
ghost use Rattle.pipe_aggs.specs.QueryTrees.{query_tree};
ghost use Rattle.pipe_model.specs.Output.{key_types};
ghost use Rattle.pipe_sinks.specs.SoleKeys.{IsSole};
ghost use Rattle.pipe_sinks.specs.Runs.{with_taken};

use crate::key_table::KeyTable;
use pipe_aggs::CheckedQuery;
use pipe_columns::DataChunk;
use std::alloc::{AllocError, Global};
use std::marker::Model;
use std::snapshot::Snapshot;

/// The most partitions that there may be: each has a number of 32 bits.
const MOST: usize = 4294967296;

/// What a sink of one key does, of whatever type that is: its own type alone tells `KeySink`s apart.
/// Contracts see what it is made for and the chunks taken, though of each only a mark without bytes is
/// kept.
#[derive(Drop)]
pub struct SinkRun<'a> {
    pub(crate) query: &'a CheckedQuery<'a>,
    pub(crate) partitions: usize,
    pub(crate) table: KeyTable,
    pub(crate) key: Vec<u8>,
    pub(crate) taken: Vec<Snapshot<DataChunk>>,
}

impl<'a> Model for SinkRun<'a> {
    ghost use Rattle.std.specs.Prelude.{map};
    ghost use Rattle.pipe_aggs.specs.QueryTrees.{query_tree};
    ghost use Rattle.pipe_sinks.specs.RunLayout.{SinkHasTaken};
    ghost use Rattle.pipe_sinks.specs.Runs.{Run};

    ghost Value = { Run };

    ghost view = { λ a. record {
      query = a.query.now;
      partitions = a.partitions;
      taken = map (λ s. s.value) a.taken.items;
    } };

    ghost invariant = { λ a. SinkHasTaken (query_tree a.query.now) a.partitions
        (map (λ s. s.value) a.taken.items) a.table };
}

impl<'a> SinkRun<'a> {
    /// A sink for the one key of a query that took nothing. More than 2^32 partitions can't be had.
    pub fn new(
        alloc: Global,
        query: &'a CheckedQuery<'a>,
        partitions: usize,
    ) -> Result<SinkRun<'a>, AllocError>
        requires some { 0 < partitions }
        requires key { IsSole (key_types (query_tree query.now)) }
        ensures made { IfOk result
            (λ r. r ≡ record { query = query.now; partitions = partitions; taken = [] }) }
        ensures few { OnOk result (partitions ≤ 2 ^ 32) }
    {
        if partitions > MOST {
            return Err(AllocError);
        }
        let table = KeyTable::new(alloc, query)?;
        Ok(SinkRun {
            query,
            partitions,
            table,
            key: Vec::new(alloc),
            taken: Vec::new(alloc),
        })
    }

    /// A sink that took nothing, made for the same.
    pub fn split(&self) -> Result<SinkRun<'a>, AllocError>
        ensures { IfOk result (λ r. r ≡ with_taken [] self.now) }
    {
        let alloc = *self.taken.allocator();
        let table = self.table.split()?;
        Ok(SinkRun {
            query: self.query,
            partitions: self.partitions,
            table,
            key: Vec::new(alloc),
            taken: Vec::new(alloc),
        })
    }
}
