//! The run of a job.

ghost use Rattle.std.specs.Prelude.{◌≡◌, All, IfErr, IfOk, None};
ghost use Rattle.pipe_aggs.specs.Faults.{first_fault};
ghost use Rattle.pipe_columns.specs.Causes.{Rose};
ghost use Rattle.pipe_csv.specs.declared.csv_error.CsvError.TheVariants as csv_error;
ghost use Rattle.pipe_io.specs.Tried.{TriedFront};
ghost use Rattle.pipe_plan.specs.Stores.{stores_seen};
ghost use Rattle.tool_run.specs.declared.error.FileRunError.TheVariants as error;
ghost use Rattle.lavzimo_run.specs.Jobs.{CanRun, job_seen};
ghost use Rattle.lavzimo_run.specs.Running.{HasRun, HasStopped, IsEnd};
ghost use Rattle.lavzimo_run.specs.Stores.{AreMade, IsSoundStore};

use crate::begin::begin_run;
use crate::job::Job;
use crate::plan::{CHUNK_ROWS, read_options};
use pipe_global::Gate;
use pipe_io::InputFiles;
use pipe_run::{GroupByOutput, PipeError};
use pipe_source::ChunkReader;
use pipe_spill::SpillStore;
use pipe_writers::copy_schema;
use std::alloc::Global;
use std::hash::RandomState;
use std::sync::Wait;
use std::thread::Threads;
use tool_run::{FileRunError, chunks_of_round, run_files_to_frame};

/// Runs a query over stores and over the files of its job, of which the query's columns are read, found
/// by their names, and fed in rounds. Tables hash under keys. It gives the frame of the groups. The
/// stores come back in order.
pub fn run_job<
    S: SpillStore + Drop + Send,
    I: InputFiles,
    G: Gate + Sync,
    H: Threads + Wait + Sync,
>(
    rt: &H,
    alloc: Global,
    gate: &G,
    hash_keys: Option<RandomState>,
    job: Job,
    stores: Vec<S>,
    input: &mut I,
) -> (Result<GroupByOutput, FileRunError>, Vec<S>)
    requires runs { CanRun (job_seen job) }
    requires faultless { first_fault job.query ≡ None }
    requires made { AreMade job.spill_dir job.partitions
        (stores_seen S.held S.told S.faults S.sure S.path stores.items) }
    ensures answered { IfOk result.0 (λ out. HasRun (job_seen job) (I.told input.old) out
        (stores_seen S.held S.told S.faults S.sure S.path result.1.items)) }
    ensures cause { IfErr result.0 (λ e. IsEnd e (job_seen job) (I.told input.old)
        (stores_seen S.held S.told S.faults S.sure S.path result.1.items)) }
    ensures failed { IfErr result.0 (λ e. e ≡ error.Read csv_error.Input
        → Rose (I.faults input.old) (I.faults input.new)) }
    ensures tried { TriedFront (I.tried input.old) (I.tried input.new) job.files.items }
    ensures stopped { IfErr result.0 (λ _. HasStopped (job_seen job) (I.told input.old)
        (stores_seen S.held S.told S.faults S.sure S.path result.1.items)) }
    ensures in_memory { job.spill_dir ≡ None
        → All IsSoundStore (stores_seen S.held S.told S.faults S.sure S.path result.1.items) }
{
    let Job {
        query,
        files,
        workers,
        partitions,
        spill_dir,
    } = job;
    let spills = spill_dir.is_some();
    drop(spill_dir);
    let Ok(schema) = copy_schema(alloc, &query.schema) else {
        return (Err(FileRunError::Run(PipeError::Memory)), stores);
    };
    let run = match begin_run(
        rt, alloc, hash_keys, &query, workers, partitions, spills, stores,
    ) {
        Ok(run) => run,
        Err(stores) => return (Err(FileRunError::Run(PipeError::Memory)), stores),
    };
    let mut reader = ChunkReader::by_name(alloc, files, schema, read_options());
    let most = chunks_of_round(workers, CHUNK_ROWS);
    run_files_to_frame(rt, alloc, gate, run, input, &mut reader, most, workers)
}
