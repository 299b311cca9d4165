//! A sink between two rounds of a run.

ghost use Rattle.std.specs.Prelude.{◌≡◌};

use crate::key_table::KeyTable;
use crate::sink_run::SinkRun;
use pipe_aggs::{CheckedQuery, Query};
use pipe_columns::DataChunk;
use std::marker::Model;
use std::snapshot::Snapshot;

/// What a sink of one key keeps while it doesn't hold its query, of which there is a mark without bytes.
/// Contracts see what it is made for and the chunks taken.
#[derive(Drop)]
pub struct PausedSink {
    of: Snapshot<Query>,
    partitions: usize,
    table: KeyTable,
    key: Vec<u8>,
    taken: Vec<Snapshot<DataChunk>>,
}

impl Model for PausedSink {
    ghost use Rattle.std.specs.Prelude.{map};
    ghost use Rattle.pipe_aggs.specs.QueryTrees.{query_tree};
    ghost use Rattle.pipe_sinks.specs.RunLayout.{SinkHasTaken};
    ghost use Rattle.pipe_sinks.specs.Runs.{Run};

    ghost Value = { Run };

    ghost view = { λ a. record {
      query = a.of.value;
      partitions = a.partitions;
      taken = map (λ s. s.value) a.taken.items;
    } };

    ghost invariant = { λ a. SinkHasTaken (query_tree a.of.value) a.partitions
        (map (λ s. s.value) a.taken.items) a.table };
}

impl PausedSink {
    /// The sink, with its query again. It takes no memory.
    pub fn resume<'a>(self, query: &'a CheckedQuery<'a>) -> SinkRun<'a>
        requires { query.now ≡ self.query }
        ensures { result ≡ self }
    {
        let PausedSink {
            of: _,
            partitions,
            table,
            key,
            taken,
        } = self;
        SinkRun {
            query,
            partitions,
            table,
            key,
            taken,
        }
    }
}

impl<'a> SinkRun<'a> {
    /// The sink without its query. It takes no memory.
    pub fn pause(self) -> PausedSink
        ensures { result ≡ self.entry }
    {
        let SinkRun {
            query,
            partitions,
            table,
            key,
            taken,
        } = self;
        PausedSink {
            of: Snapshot::of(query.query()),
            partitions,
            table,
            key,
            taken,
        }
    }
}
