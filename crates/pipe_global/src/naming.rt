//! Which run, and which ledgers, the objects of a global table are of.

ghost use Rattle.std.specs.Prelude.{ℕ, [], None, false};
ghost use Rattle.pipe_plan.specs.Run.{Run};
ghost use Rattle.pipe_plan.specs.declared.limits.SinkKind.TheVariants as sink_kind;

use std::marker::{Brand, PhantomData};
use std::sync::ledger::{Blank, Ledger};

/// A run, and the names of its four ledgers. Each call of a program picks them.
pub trait Naming {
    ghost run: { Run };

    ghost partition_ledger: { ℕ };

    ghost worker_ledger: { ℕ };

    ghost refusal_ledger: { ℕ };

    ghost fault_ledger: { ℕ };
}

impl Naming for Brand {
    ghost run = { record {
      chunks = [];
      query = record { schema = []; keys = []; aggs = []; slice = None; keeps_order = false };
      limits = record {
        sink = sink_kind.Generic;
        workers = 0;
        partitions = 0;
        spill_size = 0;
        buffer_size = 0;
        payload_limit = 0;
      };
      actions = [];
      rules = [];
      is_open = false;
      stores = [];
    } };

    ghost partition_ledger = { 0 };

    ghost worker_ledger = { 0 };

    ghost refusal_ledger = { 0 };

    ghost fault_ledger = { 0 };
}

/// The ledger of the events that partitions hold, one part for each partition.
pub struct OfPartitions<R: Naming> {
    of: PhantomData<R>,
}

impl<R: Naming> Ledger for OfPartitions<R> {
    ghost name = { R.partition_ledger };

    ghost parts = { R.run.limits.partitions };
}

/// The ledger of the events that workers made, one part for each worker.
pub struct OfWorkers<R: Naming> {
    of: PhantomData<R>,
}

impl<R: Naming> Ledger for OfWorkers<R> {
    ghost name = { R.worker_ledger };

    ghost parts = { R.run.limits.workers };
}

/// The ledger of the puts that stores refused, one part for each partition.
pub struct OfRefusals<R: Naming> {
    of: PhantomData<R>,
}

impl<R: Naming> Ledger for OfRefusals<R> {
    ghost name = { R.refusal_ledger };

    ghost parts = { R.run.limits.partitions };
}

/// The ledger of the puts that workers had refused, one part for each worker.
pub struct OfFaults<R: Naming> {
    of: PhantomData<R>,
}

impl<R: Naming> Ledger for OfFaults<R> {
    ghost name = { R.fault_ledger };

    ghost parts = { R.run.limits.workers };
}

/// Four ledgers that no run has yet. They take no bytes.
#[derive(Drop)]
pub struct Blanks {
    pub partitions: Blank,
    pub workers: Blank,
    pub refusals: Blank,
    pub faults: Blank,
}
