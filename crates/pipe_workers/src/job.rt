//! What a thread does in a round.

ghost use Rattle.std.specs.Prelude.{◌≡◌, None};

use crate::groupby::GenericGroupby2;
use crate::stop::WorkerStop;
use pipe_global::{Gate, Naming};
use pipe_spill::SpillStore;
use std::marker::Model;

/// A worker of a round, and why it stopped, if it did. Unused bytes on both sides keep its state on
/// other cache lines than its neighbours'.
#[derive(Drop)]
#[repr(C)]
pub struct Job<'a, S: SpillStore + Drop, R: Naming, G: Gate> {
    before: [u64; 8],
    pub(crate) worker: GenericGroupby2<'a, S, R, G>,
    pub(crate) end: Option<WorkerStop>,
    after: [u64; 8],
}

impl<'a, S: SpillStore + Drop, R: Naming, G: Gate> Model for Job<'a, S, R, G> {
    ghost use Rattle.pipe_workers.specs.Rounds.{JobSeen};

    ghost Value = { JobSeen };

    ghost view = { λ j. record { worker = j.worker; end = j.end } };
}

impl<'a, S: SpillStore + Drop, R: Naming, G: Gate> Job<'a, S, R, G> {
    /// A worker that hasn't stopped.
    pub fn new(worker: GenericGroupby2<'a, S, R, G>) -> Job<'a, S, R, G>
        ensures { result ≡ record { worker = worker.entry; end = None } }
    {
        Job {
            before: [0; 8],
            worker,
            end: None,
            after: [0; 8],
        }
    }

    /// The worker, and why it stopped, if it did.
    pub fn into_parts(self) -> (GenericGroupby2<'a, S, R, G>, Option<WorkerStop>)
        ensures worker { result.0 ≡ self.entry.worker }
        ensures end { result.1 ≡ self.entry.end }
    {
        let Job { worker, end, .. } = self;
        (worker, end)
    }
}
