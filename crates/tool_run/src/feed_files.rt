//! A run that is fed all chunks of files.

ghost use Rattle.std.specs.Prelude.{◌≡◌, ◌<◌, [], IfErr, IfOk, true};
ghost use Rattle.pipe_columns.specs.Causes.{Rose};
ghost use Rattle.pipe_plan.specs.Stores.{stores_seen};
ghost use Rattle.pipe_io.specs.Tried.{TriedFront};
ghost use Rattle.pipe_csv.specs.declared.csv_error.CsvError.TheVariants as csv_error;
ghost use Rattle.pipe_run.specs.Failing.{NoneFailed};
ghost use Rattle.pipe_run.specs.Refusals.{AllHaveFields};
ghost use Rattle.pipe_source.specs.Reader.{given_fields};
ghost use Rattle.tool_run.specs.Reading.{AreAll, are_few};
ghost use Rattle.tool_run.specs.Answering.{AreFedOf, HaveFront, IsRunEnd};
ghost use Rattle.tool_run.specs.declared.error.FileRunError.TheVariants as error;

use crate::counted::Counted;
use crate::error::FileRunError;
use crate::read_round::{MOST, read_round};
use pipe_global::Gate;
use pipe_group_by::GroupByRun;
use pipe_io::InputFiles;
use pipe_run::drop_chunks;
use pipe_source::ChunkReader;
use pipe_spill::SpillStore;
use std::alloc::Global;
use std::sync::Wait;
use std::thread::Threads;

/// Feeds all chunks that a reader has left into a run that was fed none, so many at a time, which are
/// read in so many threads. The chunks of a round are read into the memory of those of the one before.
pub(crate) fn feed_files<
    'a,
    S: SpillStore + Drop + Send,
    I: InputFiles,
    G: Gate + Sync,
    H: Threads + Wait + Sync,
>(
    rt: &H,
    alloc: Global,
    gate: &G,
    run: GroupByRun<'a, S>,
    input: &mut I,
    reader: &mut ChunkReader,
    most: usize,
    threads: usize,
) -> Result<GroupByRun<'a, S>, (FileRunError, Vec<S>)>
    requires most { 0 < most }
    requires threads { 0 < threads }
    requires none { run.chunks ≡ [] }
    requires fits { given_fields reader.old ≡ run.setting.query.schema }
    ensures setting { IfOk result (λ r. r.setting ≡ run.entry.setting) }
    ensures all { IfOk result (λ r. AreAll (I.told input.old) reader.old r.chunks) }
    ensures few { IfOk result (λ r. are_few r.chunks ≡ true) }
    ensures fit { IfOk result (λ r. AllHaveFields run.entry.setting.query.schema r.chunks) }
    ensures counted { IfOk result (λ r. NoneFailed run.entry.stores r.stores) }
    ensures cause { IfErr result (λ e. IsRunEnd run.entry (I.told input.old) reader.old
        (stores_seen S.held S.told S.faults S.sure S.path e.1.items) e.0) }
    ensures failed { IfErr result (λ e. e.0 ≡ error.Read csv_error.Input
        → Rose (I.faults input.old) (I.faults input.new)) }
    ensures tried { TriedFront (I.tried input.old) (I.tried input.new) reader.old.names }
    ensures back { IfErr result (λ e. HaveFront run.entry.setting
        (AreFedOf (I.told input.old) reader.old)
        (stores_seen S.held S.told S.faults S.sure S.path e.1.items)) }
{
    let mut run = run;
    let mut before = Counted { chunks: 0, rows: 0 };
    for _ in 0..MOST {
        let (chunks, counted) = match read_round(rt, alloc, input, reader, most, threads, before) {
            Ok(read) => read,
            Err(error) => return Err((FileRunError::Read(error), run.into_stores())),
        };
        let is_last = chunks.len() < most;
        let (fed, spent) = match run.feed_lent(rt, alloc, gate, chunks) {
            Ok(fed) => fed,
            Err((error, stores)) => return Err((FileRunError::Run(error), stores)),
        };
        run = fed;
        before = counted;
        if is_last {
            drop_chunks(rt, alloc, threads, reader.give_up(alloc));
            drop_chunks(rt, alloc, threads, spent);
            return Ok(run);
        }
        reader.take_back(spent);
    }
    unreachable!()
}
