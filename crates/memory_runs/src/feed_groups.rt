//! All chunks of a reader, fed to the groups of a query.

ghost use Rattle.std.specs.Prelude.{◌≡◌, [], true, IfErr, IfOk, IsErrOf};
ghost use Rattle.pipe_columns.specs.Causes.{Rose};
ghost use Rattle.pipe_csv.specs.declared.csv_error.CsvError.TheVariants as csv_error;
ghost use Rattle.pipe_source.specs.Reader.{given_fields};
ghost use Rattle.memory_runs.specs.Left.{AreAll, TellsLeft};
ghost use Rattle.memory_runs.specs.TextRuns.{are_few};

use crate::counted::Counted;
use crate::next_fitting::next_fitting;
use pipe_csv::CsvError;
use pipe_io::InputFiles;
use pipe_source::ChunkReader;
use pipe_tables::QueryGroups;
use std::alloc::Global;

/// There are fewer chunks.
const MOST_CHUNKS: usize = 1 << 32;

/// Feeds all chunks that a reader has left to groups that have taken none, one at a time.
pub(crate) fn feed_groups<'a, I: InputFiles>(
    alloc: Global,
    groups: QueryGroups<'a>,
    input: &mut I,
    reader: &mut ChunkReader,
) -> Result<QueryGroups<'a>, CsvError>
    requires none { groups.taken ≡ [] }
    requires fits { given_fields reader.old ≡ groups.query.schema }
    ensures query { IfOk result (λ g. g.query ≡ groups.entry.query) }
    ensures all { IfOk result (λ g. AreAll (I.told input.old) reader.old g.taken) }
    ensures few { IfOk result (λ g. are_few g.taken ≡ true) }
    ensures cause { IfErr result (λ e. TellsLeft e (I.told input.old) reader.old) }
    ensures failed { IsErrOf result csv_error.Input → Rose (I.faults input.old) (I.faults input.new) }
{
    let mut groups = groups;
    let mut counted = Counted::none();
    for _ in 0..MOST_CHUNKS {
        let next = match next_fitting(alloc, counted, input, reader) {
            Ok(next) => next,
            Err(error) => {
                drop(groups);
                return Err(error);
            }
        };
        let Some(chunk) = next else {
            return Ok(groups);
        };
        counted = counted.with(&chunk);
        groups = groups.add(alloc, &chunk)?;
    }
    unreachable!()
}
