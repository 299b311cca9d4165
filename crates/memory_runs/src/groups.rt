//! The answer of a query over a text.

ghost use Rattle.std.specs.Prelude.{◌≡◌, IfErr, IfOk, IsErrOf, None, Ok};
ghost use Rattle.pipe_aggs.specs.Faults.{first_fault};
ghost use Rattle.pipe_aggs.specs.QueryTrees.{query_tree};
ghost use Rattle.pipe_columns.specs.Causes.{Rose};
ghost use Rattle.pipe_csv.specs.declared.csv_error.CsvError.TheVariants as csv_error;
ghost use Rattle.pipe_source.specs.Reader.{given_fields};
ghost use Rattle.memory_runs.specs.Left.{IsAnswerOf, TellsLeft};
ghost use Rattle.memory_runs.specs.TextRuns.{IsErrorOf, text_answer};

use crate::checked::checked_of;
use crate::feed_groups::feed_groups;
use crate::reader::{name_of_text, reader_of};
use memory_input::TextInput;
use narrow_query::{Narrowed, narrow};
use pipe_aggs::{CheckedQuery, Query};
use pipe_columns::DataFrame;
use pipe_csv::CsvError;
use pipe_io::InputFiles;
use pipe_source::ChunkReader;
use pipe_tables::QueryGroups;
use std::alloc::Global;

/// The answer of a checked query over all chunks that a reader has left.
fn group_left<'a, I: InputFiles>(
    alloc: Global,
    query: &'a CheckedQuery<'a>,
    input: &mut I,
    reader: &mut ChunkReader,
) -> Result<DataFrame, CsvError>
    requires fits { given_fields reader.old ≡ query.now.schema }
    ensures answer { IfOk result
        (IsAnswerOf (query_tree query.now) (I.told input.old) reader.old) }
    ensures cause { IfErr result (λ e. TellsLeft e (I.told input.old) reader.old) }
    ensures failed { IsErrOf result csv_error.Input → Rose (I.faults input.old) (I.faults input.new) }
{
    let groups = QueryGroups::new(alloc, query)?;
    let groups = feed_groups(alloc, groups, input, reader)?;
    Ok(groups.finish(alloc)?)
}

/// The same by a query without fault.
fn group_by<I: InputFiles>(
    alloc: Global,
    query: &Query,
    input: &mut I,
    reader: &mut ChunkReader,
) -> Result<DataFrame, CsvError>
    requires faultless { first_fault query.now ≡ None }
    requires fits { given_fields reader.old ≡ query.now.schema }
    ensures answer { IfOk result
        (IsAnswerOf (query_tree query.now) (I.told input.old) reader.old) }
    ensures cause { IfErr result (λ e. TellsLeft e (I.told input.old) reader.old) }
    ensures failed { IsErrOf result csv_error.Input → Rose (I.faults input.old) (I.faults input.new) }
{
    let checked = checked_of(alloc, query)?;
    group_left(alloc, &checked, input, reader)
}

/// The answer of a query over a text, of whose columns those alone are read that it names.
pub fn group_text(alloc: Global, query: Query, text: &[u8]) -> Result<DataFrame, CsvError>
    requires faultless { first_fault query ≡ None }

    // Exactly the answer over the rows of the text, or exactly why there is none; or memory ran out.
    ensures answer { IfOk result (λ f. text_answer text.now (query_tree query) ≡ Ok f) }
    ensures cause { IfErr result (λ e. IsErrorOf e (text_answer text.now (query_tree query))) }
{
    let name = name_of_text(alloc)?;
    let Narrowed {
        schema,
        wanted,
        query,
    } = narrow(alloc, query)?;
    let mut reader = match reader_of(alloc, schema, wanted) {
        Ok(reader) => reader,
        Err(error) => {
            drop(query);
            return Err(error.into());
        }
    };
    let mut input = TextInput::new(&name, text);
    group_by(alloc, &query, &mut input, &mut reader)
}
