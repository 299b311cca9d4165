//! A round of typed sinks, each in a thread.

ghost use Rattle.std.specs.Prelude.{◌≡◌, ◌<◌, ◌++◌, ℕ, All, IfOk, OnOk, false, length, map, slice_index_or, vec_len};
ghost use Rattle.pipe_aggs.specs.QueryTrees.{query_tree};
ghost use Rattle.pipe_model.specs.Rows.{AreChunksOf};
ghost use Rattle.pipe_sinks.specs.Runs.{with_taken};
ghost use Rattle.pipe_group_by.specs.Jobs.{sink_job, MayWork};
ghost use Rattle.pipe_group_by.specs.Positions.{numbered, turns_of};
ghost use Rattle.pipe_group_by.specs.Taken.{HaveTaken};

use crate::typed_job::TypedJob;
use pipe_aggs::CheckedQuery;
use pipe_columns::DataChunk;
use pipe_sinks::PausedSink;
use pipe_threads::for_each_beside;
use std::alloc::{AllocError, Global};
use std::snapshot::Snapshot;
use std::thread::Threads;

/// The sinks, each with its query again.
fn jobs_of<'a>(
    alloc: Global,
    query: &'a CheckedQuery<'a>,
    sinks: Vec<PausedSink>,
) -> Result<Vec<TypedJob<'a>>, AllocError>
    requires { All (λ s. query.now ≡ s.query) sinks.items }
    ensures { IfOk result (λ v. v.items ≡ map sink_job sinks.items) }
{
    let mut jobs = Vec::with_capacity(alloc, sinks.len())?;
    for sink in sinks {
        jobs.push(TypedJob::new(sink.resume(query)))?;
    }
    Ok(jobs)
}

/// Each sink takes its worker's turns of a round, in a thread of its own where one can be had. One that
/// is refused a chunk leaves the others running.
fn work_all<'a, H: Threads + Sync>(
    rt: &H,
    mut jobs: Vec<TypedJob<'a>>,
    before: &[Snapshot<DataChunk>],
    chunks: &[DataChunk],
) -> Vec<TypedJob<'a>>
    requires some { 0 < vec_len jobs }
    requires may { (k : ℕ) (d : _) → k < vec_len jobs → MayWork (vec_len jobs) k
        (map (λ c. c.value) before.now) chunks.now (slice_index_or jobs.items k d).sink }
    ensures len { vec_len result ≡ vec_len jobs.entry }
    ensures worked { (k : ℕ) (d : _) → k < vec_len result
        → (slice_index_or result.items k d).refused ≡ false
        → (slice_index_or result.items k d).sink ≡ with_taken
        (turns_of (vec_len jobs.entry) k (map (λ c. c.value) before.now ++ chunks.now))
        (slice_index_or jobs.entry.items k d).sink }
{
    let workers = jobs.len();
    for_each_beside(
        rt,
        jobs.as_mut_slice(),
        workers,
        &|worker, job| { job.work(worker, workers, before, chunks) },
    );
    jobs
}

/// The sinks at rest, unless one was refused a chunk.
fn gather(alloc: Global, jobs: Vec<TypedJob<'_>>) -> Result<Vec<PausedSink>, AllocError>
    ensures sinks { IfOk result (λ v. v.items ≡ map (λ j. j.sink) jobs.entry.items) }
    ensures gone_on { OnOk result (All (λ j. j.refused ≡ false) jobs.entry.items) }
{
    let mut sinks = Vec::with_capacity(alloc, jobs.len())?;
    for job in jobs {
        sinks.push(job.rest()?)?;
    }
    Ok(sinks)
}

/// The sinks of all workers take the chunks of a round, which follow those before.
pub(crate) fn typed_round<H: Threads + Sync>(
    rt: &H,
    alloc: Global,
    query: &CheckedQuery<'_>,
    partitions: usize,
    before: &[Snapshot<DataChunk>],
    chunks: &[DataChunk],
    sinks: Vec<PausedSink>,
) -> Result<Vec<PausedSink>, AllocError>
    requires some { 0 < vec_len sinks }
    requires positions { numbered (length before.now) chunks.now ≡ chunks.now }
    requires asked { AreChunksOf (query_tree query.now)
        (map (λ c. c.value) before.now ++ chunks.now) }
    requires ready { HaveTaken query.now partitions (vec_len sinks)
        (map (λ c. c.value) before.now) sinks.items }
    ensures { IfOk result (λ v. HaveTaken query.now partitions (vec_len sinks)
        (map (λ c. c.value) before.now ++ chunks.now) v.items) }
{
    let jobs = jobs_of(alloc, query, sinks)?;
    let jobs = work_all(rt, jobs, before, chunks);
    gather(alloc, jobs)
}
