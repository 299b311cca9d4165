//! What is read of files, and how: their texts one after another, and chunks of a text.

ghost use Rattle.std.specs.Prelude.{◌≡◌, ◌<◌, ◌*◌, IfErr, IfOk, IfSome, IsErrOf};
ghost use Rattle.pipe_columns.specs.Causes.{HasCause};
ghost use Rattle.pipe_csv.specs.declared.csv_error.CsvError.TheVariants as csv_error;
ghost use Rattle.pipe_io.specs.Tried.{AreTried, TriedFront};
ghost use Rattle.pipe_source.specs.Kept.{HasRowsLeft, IsSourcePlace, IsFitReading, kept_chunk, state_behind};
ghost use Rattle.pipe_source.specs.Next.{IsNextText};
ghost use Rattle.pipe_source.specs.Reader.{StopsAt, chunks_left};
ghost use Rattle.narrow_columns.specs.Wanted.{chosen};

use crate::column_fill::{column_fills, values_of};
use crate::file_load::{find_rows, wanted_after};
use crate::file_text::FileText;
use crate::kept_text::KeptText;
use crate::laid_push::push_laid_rows;
use crate::looks::Looks;
use crate::read_options::CsvReadOptions;
use crate::source_columns::make_chunk;
use crate::source_place::SourcePlace;
use pipe_columns::{DataChunk, Field, Schema, Text};
use pipe_csv::CsvError;
use pipe_io::InputFiles;
use std::alloc::Global;

/// A column gets room for so many values at most before they are there.
const MOST_ROOM: usize = 65536;

/// The names of files, whether columns are found by their names, their schema, which of its columns are
/// wanted and the schema of these where they aren't all, and how the files are read.
#[derive(Drop)]
pub(crate) struct Reading {
    pub(crate) by_name: bool,
    pub(crate) schema: Schema,
    pub(crate) wanted: Vec<bool>,
    pub(crate) kept: Option<Schema>,
    pub(crate) options: CsvReadOptions,
    pub(crate) names: Vec<Text>,
}

impl Reading {
    /// The fields that are wanted.
    fn kept_fields(&self) -> &[Field]
        requires { IsFitReading self.now }
        ensures { result.now ≡ chosen self.now.wanted.items self.now.schema }
    {
        match &self.kept {
            Some(kept) => kept.fields(),
            None => self.schema.fields(),
        }
    }

    /// The next file behind a place that has wanted rows, if there is one.
    pub(crate) fn next_text<I: InputFiles, L: Looks>(
        &self,
        looks: &L,
        alloc: Global,
        input: &mut I,
        last: SourcePlace,
    ) -> Result<Option<KeptText>, CsvError>
        requires ready { L.ready }
        requires reading { IsFitReading self.now }
        requires place { IsSourcePlace self.now last }
        ensures told { I.told input.new ≡ I.told input.old }
        ensures found { IfOk result (λ o. IsNextText self.now (I.told input.old) last o) }
        ensures stopped { IfErr result (λ e. IfSome (I.told input.old)
            (λ files. StopsAt e (chunks_left files (state_behind self.now last)))) }
        ensures tried { TriedFront (I.tried input.old) (I.tried input.new)
            (state_behind self.now last).names }
        ensures gone { IfOk result (λ o. IfSome o (λ k. AreTried (I.tried input.old)
            (I.tried input.new) (state_behind self.now last).names
            (state_behind self.now k.at).names)) }
        ensures cause { HasCause (I.faults input.old) (I.faults input.new)
            (IsErrOf result csv_error.Input) }
    {
        if wanted_after(self.options.n_rows, last.rows) == Some(0) {
            return Ok(None);
        }
        let fields = self.schema.fields();
        let names = &self.names;
        let by_name = self.by_name;
        match find_rows(
            looks,
            alloc,
            input,
            names,
            last,
            fields,
            &self.options,
            by_name,
        ) {
            Ok(Some((place, found))) => {
                let FileText {
                    layout,
                    text,
                    begin: _,
                    count,
                    starts,
                } = found;
                Ok(Some(KeptText {
                    at: SourcePlace {
                        file: place + 1,
                        chunks: last.chunks,
                        rows: last.rows,
                    },
                    layout,
                    text,
                    starts,
                    chunk: 0,
                    left: count,
                }))
            }
            Ok(None) => Ok(None),
            Err(error) => Err(error),
        }
    }

    /// Chunk n, counted from 0, of the rows that are left of a text, in the memory of a spent one.
    pub(crate) fn chunk_of(
        &self,
        alloc: Global,
        text: &KeptText,
        n: usize,
        spent: Option<DataChunk>,
    ) -> Result<DataChunk, CsvError>
        requires reading { IsFitReading self.now }
        requires kept { HasRowsLeft self.now text.now }
        requires some { n * self.now.options.chunk_size < text.now.left }
        ensures chunk { IfOk result (λ c. c ≡ kept_chunk self.now text.now n) }
        ensures memory { IfErr result (λ e. e ≡ csv_error.Memory) }
    {
        let left = text.left;
        let before = n * self.options.chunk_size;
        let count = (left - before).min(self.options.chunk_size);
        let begin = text.starts[text.chunk + n];
        let at = SourcePlace {
            file: text.at.file,
            chunks: text.at.chunks + n as u128,
            rows: text.at.rows + before as u128,
        };
        let fields = self.schema.fields();
        let kept = self.kept_fields();
        let first = usize::from(self.options.row_index.is_some());
        let mut fills = column_fills(alloc, spent, first, kept.len(), count.min(MOST_ROOM))?;
        let bytes = &text.text;
        let wanted = &self.wanted;
        let layout = &text.layout;
        push_laid_rows(
            alloc, &mut fills, bytes, begin, count, fields, wanted, layout,
        )?;
        let columns = values_of(alloc, fills)?;
        let file = &self.names[text.at.file - 1];
        let chunk = make_chunk(alloc, &self.options, at, file, kept, columns, count)?;
        Ok(chunk)
    }
}
