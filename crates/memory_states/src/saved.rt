//! The state of a text, saved.

ghost use Rattle.std.specs.Prelude.{◌≡◌, ◌∷◌, [], IfErr, IfOk, IfSome, IsErrOf, None, Some};
ghost use Rattle.memory_runs.specs.TextRuns.{text_file, text_name};
ghost use Rattle.pipe_aggs.specs.Faults.{first_fault};
ghost use Rattle.pipe_aggs.specs.QueryTrees.{query_tree};
ghost use Rattle.pipe_columns.specs.Causes.{Rose};
ghost use Rattle.pipe_csv.specs.declared.csv_error.CsvError.TheVariants as csv_error;
ghost use Rattle.pipe_source.specs.Reader.{chunks_left, given_fields};
ghost use Rattle.pipe_states.specs.Fair.{IsStateOf};
ghost use Rattle.rollup_answer.specs.Headline.{AreSaved};
ghost use Rattle.rollup_save.specs.Saves.{end_of, end_of_files, IsSavedOf, Tells};
ghost use Rattle.rollup_save.specs.Taken.{IsTextOf};

use crate::feed_left::feed_left;
use memory_input::TextInput;
use memory_runs::{checked_of, name_of_text, reader_of};
use narrow_query::{Narrowed, narrow};
use pipe_aggs::{CheckedQuery, Query};
use pipe_csv::CsvError;
use pipe_io::InputFiles;
use pipe_saving::Saving;
use pipe_source::ChunkReader;
use pipe_states::{StateFile, write_state};
use std::alloc::Global;

/// The state of all chunks that a reader has left, of which the first has a position.
fn save_left<'a, I: InputFiles>(
    alloc: Global,
    query: &'a CheckedQuery<'a>,
    first: u32,
    input: &mut I,
    reader: &mut ChunkReader,
) -> Result<StateFile, CsvError>
    requires fits { given_fields reader.old ≡ query.now.schema }
    ensures state { IfOk result (λ f. IsSavedOf (query_tree query.now) first (I.told input.old)
        reader.old f) }
    ensures of_query { IfOk result (IsStateOf (query_tree query.now)) }
    ensures cause { IfErr result (λ e. IfSome (I.told input.old)
        (λ files. Tells e (end_of first (chunks_left files reader.old)))) }
    ensures failed { IsErrOf result csv_error.Input → Rose (I.faults input.old) (I.faults input.new) }
{
    let saving = Saving::new(alloc, query, first)?;
    let saving = feed_left(alloc, saving, input, reader)?;
    Ok(saving.finish(alloc)?)
}

/// Its text, by a query without fault.
fn text_left<I: InputFiles>(
    alloc: Global,
    query: &Query,
    first: u32,
    input: &mut I,
    reader: &mut ChunkReader,
) -> Result<Vec<u8>, CsvError>
    requires faultless { first_fault query.now ≡ None }
    requires fits { given_fields reader.old ≡ query.now.schema }
    ensures text { IfOk result (λ text. IsTextOf (query_tree query.now) first (I.told input.old)
        reader.old text.items) }
    ensures cause { IfErr result (λ e. IfSome (I.told input.old)
        (λ files. Tells e (end_of first (chunks_left files reader.old)))) }
    ensures failed { IsErrOf result csv_error.Input → Rose (I.faults input.old) (I.faults input.new) }
{
    let checked = checked_of(alloc, query)?;
    let state = save_left(alloc, &checked, first, input, reader)?;
    Ok(write_state(alloc, &checked, &state)?)
}

/// The text of the state of a text of CSV, of whose columns those alone are read that a query names. Its
/// first chunk has a position.
pub(crate) fn saved_text(
    alloc: Global,
    query: Query,
    first: u32,
    text: &[u8],
) -> Result<Vec<u8>, CsvError>
    requires faultless { first_fault query ≡ None }
    ensures saved { IfOk result (λ t. AreSaved (query_tree query) first
        (Some (text_file text.now)) (text_name ∷ []) t.items) }
    ensures cause { IfErr result (λ e. Tells e
        (end_of_files (text_file text.now) (text_name ∷ []) (query_tree query) first)) }
    ensures read { ¬ IsErrOf result csv_error.Input }
{
    let name = name_of_text(alloc)?;
    let Narrowed {
        schema,
        wanted,
        query,
    } = narrow(alloc, query)?;
    let mut reader = match reader_of(alloc, schema, wanted) {
        Ok(reader) => reader,
        Err(error) => {
            drop(query);
            return Err(error.into());
        }
    };
    let mut input = TextInput::new(&name, text);
    text_left(alloc, &query, first, &mut input, &mut reader)
}
