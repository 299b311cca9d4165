//! A run over the chunks of files.

ghost use Rattle.std.specs.Prelude.{◌≡◌, ◌<◌, [], IfErr, IfOk};
ghost use Rattle.pipe_columns.specs.Causes.{Rose};
ghost use Rattle.pipe_plan.specs.Stores.{stores_seen};
ghost use Rattle.pipe_io.specs.Tried.{TriedFront};
ghost use Rattle.pipe_aggs.specs.QueryTrees.{query_tree};
ghost use Rattle.pipe_csv.specs.declared.csv_error.CsvError.TheVariants as csv_error;
ghost use Rattle.pipe_model.specs.Output.{output_schema};
ghost use Rattle.pipe_source.specs.Reader.{given_fields};
ghost use Rattle.tool_run.specs.Answering.{AreFedOf, HaveFront, IsAnsweredFrom, IsFrameFrom, IsRunEnd};
ghost use Rattle.tool_run.specs.declared.error.FileRunError.TheVariants as error;

use crate::error::FileRunError;
use crate::feed_files::feed_files;
use pipe_global::Gate;
use pipe_group_by::GroupByRun;
use pipe_io::InputFiles;
use pipe_lines::Lines;
use pipe_run::{GroupByOutput, TextOutput};
use pipe_source::ChunkReader;
use pipe_spill::SpillStore;
use std::alloc::Global;
use std::sync::Wait;
use std::thread::Threads;

/// Feeds all chunks that a reader has left into a run that was fed none, so many at a time, which are
/// read in so many threads, and ends the run: it gives the lines of its groups. Of their files each is
/// begun once at most, in order. The stores come back in order.
pub fn run_files<
    'a,
    S: SpillStore + Drop + Send,
    I: InputFiles,
    L: Lines + Sync,
    G: Gate + Sync,
    H: Threads + Wait + Sync,
>(
    rt: &H,
    alloc: Global,
    gate: &G,
    run: GroupByRun<'a, S>,
    input: &mut I,
    reader: &mut ChunkReader,
    lines: &L,
    most: usize,
    threads: usize,
) -> (Result<TextOutput, FileRunError>, Vec<S>)
    requires most { 0 < most }
    requires threads { 0 < threads }
    requires none { run.chunks ≡ [] }
    requires fits { given_fields reader.old ≡ run.setting.query.schema }
    requires lines { (L.shape lines.now).fields ≡ output_schema (query_tree run.setting.query) }
    ensures answered { IfOk result.0 (λ out. IsAnsweredFrom (L.shape lines.now) run.entry.setting
        (I.told input.old) reader.old out
        (stores_seen S.held S.told S.faults S.sure S.path result.1.items)) }
    ensures cause { IfErr result.0 (λ e. IsRunEnd run.entry (I.told input.old) reader.old
        (stores_seen S.held S.told S.faults S.sure S.path result.1.items) e) }
    ensures failed { IfErr result.0 (λ e. e ≡ error.Read csv_error.Input
        → Rose (I.faults input.old) (I.faults input.new)) }
    ensures tried { TriedFront (I.tried input.old) (I.tried input.new) reader.old.names }
    ensures back { IfErr result.0 (λ _. HaveFront run.entry.setting
        (AreFedOf (I.told input.old) reader.old)
        (stores_seen S.held S.told S.faults S.sure S.path result.1.items)) }
{
    let run = match feed_files(rt, alloc, gate, run, input, reader, most, threads) {
        Ok(run) => run,
        Err((error, stores)) => return (Err(error), stores),
    };
    let (ended, stores) = run.finish_text(rt, alloc, gate, lines);
    match ended {
        Ok(output) => (Ok(output), stores),
        Err(error) => (Err(FileRunError::Run(error)), stores),
    }
}

/// Feeds and ends a run as `run_files` does, and gives the frame of its groups in place of their lines.
pub fn run_files_to_frame<
    'a,
    S: SpillStore + Drop + Send,
    I: InputFiles,
    G: Gate + Sync,
    H: Threads + Wait + Sync,
>(
    rt: &H,
    alloc: Global,
    gate: &G,
    run: GroupByRun<'a, S>,
    input: &mut I,
    reader: &mut ChunkReader,
    most: usize,
    threads: usize,
) -> (Result<GroupByOutput, FileRunError>, Vec<S>)
    requires most { 0 < most }
    requires threads { 0 < threads }
    requires none { run.chunks ≡ [] }
    requires fits { given_fields reader.old ≡ run.setting.query.schema }
    ensures answered { IfOk result.0 (λ out. IsFrameFrom run.entry.setting (I.told input.old)
        reader.old out (stores_seen S.held S.told S.faults S.sure S.path result.1.items)) }
    ensures cause { IfErr result.0 (λ e. IsRunEnd run.entry (I.told input.old) reader.old
        (stores_seen S.held S.told S.faults S.sure S.path result.1.items) e) }
    ensures failed { IfErr result.0 (λ e. e ≡ error.Read csv_error.Input
        → Rose (I.faults input.old) (I.faults input.new)) }
    ensures tried { TriedFront (I.tried input.old) (I.tried input.new) reader.old.names }
    ensures back { IfErr result.0 (λ _. HaveFront run.entry.setting
        (AreFedOf (I.told input.old) reader.old)
        (stores_seen S.held S.told S.faults S.sure S.path result.1.items)) }
{
    let run = match feed_files(rt, alloc, gate, run, input, reader, most, threads) {
        Ok(run) => run,
        Err((error, stores)) => return (Err(error), stores),
    };
    let (ended, stores) = run.finish(rt, alloc, gate);
    match ended {
        Ok(output) => (Ok(output), stores),
        Err(error) => (Err(FileRunError::Run(error)), stores),
    }
}
