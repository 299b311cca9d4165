//! The workers of a round, each in a thread.

ghost use Rattle.std.specs.Prelude.{◌≡◌, ◌+◌, ◌<◌, ℕ, false, length, IfErr, OnErr, OnOk, slice_index_or, vec_len};
ghost use Rattle.pipe_workers.specs.Rounds.{HasEnded, IsDone, IsRoundOf};
ghost use Rattle.pipe_workers.specs.Turns.{HasStopped, IsReady};

use crate::groupby::GenericGroupby2;
use crate::job::Job;
use crate::round::Round;
use crate::stop::WorkerStop;
use pipe_global::{Gate, Naming};
use pipe_spill::SpillStore;
use pipe_threads::for_each_beside;
use std::sync::Wait;
use std::thread::Threads;

impl<'a, S: SpillStore + Drop, R: Naming, G: Gate> GenericGroupby2<'a, S, R, G> {
    /// Takes a chunk of a round, by its number there, where it is the worker's.
    fn take_chunk<H: Wait>(
        &mut self,
        rt: &H,
        round: &Round<'_>,
        number: usize,
    ) -> Result<(), WorkerStop>
        requires round { IsRoundOf R.run round.now }
        requires there { number < length round.now.chunks }
        requires ready { IsReady R.run self.old.shares.worker (round.now.first + number)
            self.old }
        ensures ready { OnOk result (IsReady R.run self.old.shares.worker
            (round.now.first + (number + 1)) self.new) }
        ensures stopped { IfErr result
            (λ end. HasStopped R.run self.old.shares.worker end self.new) }
    {
        let workers = self.shared.workers();
        let worker = self.shares.worker();
        let position = round.first() + number;
        if position % workers != worker {
            return Ok(());
        }
        let action = round.action(worker, position / workers);
        self.sink(rt, &round.chunks()[number], action)?;
        Ok(())
    }

    /// Takes the worker's chunks of a round, in order.
    fn take_chunks<H: Wait>(&mut self, rt: &H, round: &Round<'_>) -> Result<(), WorkerStop>
        requires round { IsRoundOf R.run round.now }
        requires ready { IsReady R.run self.old.shares.worker round.now.first self.old }
        ensures ready { OnOk result (IsReady R.run self.old.shares.worker
            (length R.run.chunks) self.new) }
        ensures stopped { IfErr result
            (λ end. HasStopped R.run self.old.shares.worker end self.new) }
    {
        for number in 0..round.chunks().len() {
            self.take_chunk(rt, round, number)?;
        }
        Ok(())
    }

    /// Takes the worker's chunks of a round, and closes where no chunk may follow.
    fn take_round<H: Wait>(&mut self, rt: &H, round: &Round<'_>) -> Result<(), WorkerStop>
        requires round { IsRoundOf R.run round.now }
        requires ready { IsReady R.run self.old.shares.worker round.now.first self.old }
        ensures done { OnOk result (IsDone R.run self.old.shares.worker self.new) }
        ensures stopped { IfErr result
            (λ end. HasStopped R.run self.old.shares.worker end self.new) }
    {
        self.take_chunks(rt, round)?;
        if round.is_open() {
            return Ok(());
        }
        match self.close(rt) {
            Ok(()) => Ok(()),
            Err(_) => Err(WorkerStop::Memory),
        }
    }
}

impl<'a, S: SpillStore + Drop, R: Naming, G: Gate> Job<'a, S, R, G> {
    /// The worker takes its part of a round.
    fn work<H: Wait>(&mut self, rt: &H, round: &Round<'_>)
        requires round { IsRoundOf R.run round.now }
        requires ready { IsReady R.run self.old.worker.shares.worker round.now.first
            self.old.worker }
        ensures { HasEnded R.run self.old.worker.shares.worker self.new }
    {
        self.end = self.worker.take_round(rt, round).err();
    }
}

/// Each worker takes its turns of a round, in a thread of its own where one can be had, and closes
/// where no chunk may follow. One that stops leaves the others running.
pub fn work_round<
    'a,
    S: SpillStore + Drop + Send,
    R: Naming + Send + Sync,
    G: Gate + Sync,
    H: Threads + Wait + Sync,
>(rt: &H, mut jobs: Vec<Job<'a, S, R, G>>, round: &Round<'_>) -> Vec<Job<'a, S, R, G>>
    requires some { 0 < vec_len jobs }
    requires round { IsRoundOf R.run round.now }
    requires ready { (k : ℕ) (d : _) → k < vec_len jobs
        → IsReady R.run k round.now.first (slice_index_or jobs.items k d).worker }
    ensures len { vec_len result ≡ vec_len jobs.entry }
    ensures ended { (k : ℕ) (d : _) → k < vec_len result
        → HasEnded R.run k (slice_index_or result.items k d) }
{
    let threads = jobs.len();
    for_each_beside(
        rt,
        jobs.as_mut_slice(),
        threads,
        &|_, job| { job.work(rt, round) },
    );
    jobs
}
