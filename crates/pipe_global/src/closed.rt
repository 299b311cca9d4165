//! Partitions out of their locks.

ghost use Rattle.std.specs.Prelude.{◌≡◌};
ghost use Rattle.pipe_spill.specs.Store.{HasHeld};

use crate::contents::Contents;
use crate::journal::Journal;
use pipe_spill::SpillStore;
use std::marker::Model;

/// A partition whose run has ended.
#[derive(Drop)]
pub struct ClosedPartition<S: SpillStore + Drop> {
    pub(crate) contents: Contents<S>,
}

impl<S: SpillStore + Drop> Model for ClosedPartition<S> {
    ghost use Rattle.pipe_global.specs.Partition.{PartitionSeen};

    ghost Value = { PartitionSeen };

    ghost view = { λ c. c.contents };
}

impl<S: SpillStore + Drop> ClosedPartition<S> {
    /// Its events.
    pub fn journal(&self) -> &Journal
        ensures is { result.now ≡ self.now.journal }
        ensures tells_all { HasHeld self.now.store.told self.now.store.held }
    {
        self.contents.journal()
    }

    /// How many rows arrived.
    pub fn arrived(&self) -> u64
        ensures { result ≡ self.now.arrived }
    {
        self.contents.arrived()
    }

    /// Whether its store refused a put in this run.
    pub fn failed(&self) -> bool
        ensures { result ≡ self.now.failed }
    {
        self.contents.failed()
    }

    /// Its journal and its store. It takes no memory.
    pub fn into_parts(self) -> (Journal, S)
        ensures journal { result.0 ≡ self.journal }
        ensures told { S.told result.1 ≡ self.store.told }
        ensures held { S.held result.1 ≡ self.store.held }
        ensures faults { S.faults result.1 ≡ self.store.faults }
        ensures sure { S.sure result.1 ≡ self.store.sure }
        ensures path { S.path result.1 ≡ self.store.path }
    {
        self.contents.into_parts()
    }
}
