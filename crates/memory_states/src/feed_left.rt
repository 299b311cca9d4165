//! All chunks of a reader, fed to a state in the making.

ghost use Rattle.std.specs.Prelude.{◌≡◌, [], IfErr, IfOk, IfSome, IsErrOf, None};
ghost use Rattle.pipe_columns.specs.Causes.{Rose};
ghost use Rattle.pipe_csv.specs.declared.csv_error.CsvError.TheVariants as csv_error;
ghost use Rattle.pipe_saving.specs.Refusals.{AllFit, AreFew};
ghost use Rattle.pipe_source.specs.Reader.{chunks_left, given_fields};
ghost use Rattle.rollup_save.specs.Saves.{end_of, Tells};

use crate::next_fitting::next_fitting;
use pipe_csv::CsvError;
use pipe_io::InputFiles;
use pipe_saving::Saving;
use pipe_source::ChunkReader;
use std::alloc::Global;

/// Chunks have fewer positions than this.
const MOST: usize = 1 << 32;

/// Feeds all chunks that a reader has left to a state in the making that has taken none, one at a time.
pub(crate) fn feed_left<'a, I: InputFiles>(
    alloc: Global,
    saving: Saving<'a>,
    input: &mut I,
    reader: &mut ChunkReader,
) -> Result<Saving<'a>, CsvError>
    requires none { saving.taken ≡ [] }
    requires few { AreFew saving.first [] }
    requires fits { given_fields reader.old ≡ saving.query.schema }
    ensures query { IfOk result (λ s. s.query ≡ saving.entry.query) }
    ensures first { IfOk result (λ s. s.first ≡ saving.entry.first) }
    ensures all { IfOk result (λ s. IfSome (I.told input.old)
        (λ files. chunks_left files reader.old ≡ record { chunks = s.taken; stop = None })) }
    ensures fit { IfOk result (λ s. AllFit saving.entry.query.schema s.taken) }
    ensures few { IfOk result (λ s. AreFew saving.entry.first s.taken) }
    ensures cause { IfErr result (λ e. IfSome (I.told input.old)
        (λ files. Tells e (end_of saving.entry.first (chunks_left files reader.old)))) }
    ensures failed { IsErrOf result csv_error.Input → Rose (I.faults input.old) (I.faults input.new) }
{
    let mut saving = saving;
    for _ in 0..MOST {
        let next = match next_fitting(alloc, &saving, input, reader) {
            Ok(next) => next,
            Err(error) => {
                drop(saving);
                return Err(error);
            }
        };
        let Some(chunk) = next else {
            return Ok(saving);
        };
        saving = saving.feed(alloc, &chunk)?;
    }
    unreachable!()
}
