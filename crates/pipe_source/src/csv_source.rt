//! A source of the chunks of named files of an input.

ghost use Rattle.std.specs.Prelude.{◌≡◌, ◌⊎◌, ◌<◌, ◌≤◌, codes, length, vec_len, IfErr, IfOk, IfSome, IsErrAnd, IsErrOf, OnErr};
ghost use Rattle.pipe_columns.specs.Causes.{HasCause};
ghost use Rattle.pipe_columns.specs.Chunks.{GaveFirst};
ghost use Rattle.pipe_columns.specs.declared.source.SourceResult.TheVariants as source;
ghost use Rattle.pipe_io.specs.Tried.{AreTried, TriedFront};
ghost use Rattle.pipe_csv.specs.declared.csv_error.CsvError.TheVariants as csv_error;
ghost use Rattle.pipe_source.specs.CsvChunks.{chunks_then, csv_chunks, wanted_chunks, no_more};
ghost use Rattle.pipe_source.specs.NamedChunks.{named_chunks};
ghost use Rattle.pipe_source.specs.Reader.{StopsAt, chunks_left};
ghost use Rattle.pipe_source.specs.Rounds.{StopsWithin};
ghost use Rattle.pipe_source.specs.Source.{AreLeft, GivesOne};

use crate::chunk_reader::ChunkReader;
use crate::read_options::CsvReadOptions;
use pipe_columns::{DataChunk, Schema, Source, SourceResult, Text};
use pipe_csv::CsvError;
use pipe_io::InputFiles;
use std::alloc::{AllocError, Global};
use std::thread::Threads;

/// The chunks of named files of an input, one at a call.
#[derive(Drop)]
pub struct CsvSource<'a, I: InputFiles> {
    alloc: Global,
    input: &'a mut I,
    reader: ChunkReader,
}

impl<'a, I: InputFiles> CsvSource<'a, I> {
    /// No file is begun yet.
    pub fn new(
        alloc: Global,
        input: &'a mut I,
        names: Vec<Text>,
        schema: Schema,
        options: CsvReadOptions,
    ) -> CsvSource<'a, I>
        requires size { 0 < options.chunk_size }
        ensures same_input { result.input.ghost_name ≡ input.entry.ghost_name }
        ensures told { I.told result.input.now ≡ I.told input.old }
        ensures faults { I.faults result.input.now ≡ I.faults input.old }
        ensures tried { I.tried result.input.now ≡ I.tried input.old }
        ensures names { result.reader.names ≡ names.items }
        ensures left { IfSome (I.told input.old) (λ files.
            chunks_left files result.reader ≡ csv_chunks files names.items schema options) }
    {
        let reader = ChunkReader::new(alloc, names, schema, options);
        CsvSource {
            alloc,
            input,
            reader,
        }
    }

    /// No file is begun yet, and of the schema these columns are wanted; those past the end of the
    /// list are. The others are looked at, and no value of them is made.
    pub fn of_columns(
        alloc: Global,
        input: &'a mut I,
        names: Vec<Text>,
        schema: Schema,
        options: CsvReadOptions,
        wanted: Vec<bool>,
    ) -> Result<CsvSource<'a, I>, AllocError>
        requires size { 0 < options.chunk_size }
        requires wanted { vec_len wanted ≤ length schema }
        ensures same_input { IfOk result
            (λ s. s.input.ghost_name ≡ input.entry.ghost_name) }
        ensures told { IfOk result (λ s. I.told s.input.now ≡ I.told input.old) }
        ensures faults { IfOk result (λ s. I.faults s.input.now ≡ I.faults input.old) }
        ensures tried { IfOk result (λ s. I.tried s.input.now ≡ I.tried input.old) }
        ensures names { IfOk result (λ s. s.reader.names ≡ names.items) }
        ensures left { IfOk result (λ s. IfSome (I.told input.old) (λ files.
            chunks_left files s.reader
            ≡ wanted_chunks options wanted.items (csv_chunks files names.items schema options))) }
    {
        let reader = ChunkReader::of_columns(alloc, names, schema, options, wanted)?;
        Ok(CsvSource {
            alloc,
            input,
            reader,
        })
    }

    /// No file is begun yet. In each file the columns are found by their names, in its own header, which
    /// has each of them once; its other fields are no matter.
    pub fn by_name(
        alloc: Global,
        input: &'a mut I,
        names: Vec<Text>,
        columns: Schema,
        options: CsvReadOptions,
    ) -> CsvSource<'a, I>
        requires size { 0 < options.chunk_size }
        ensures same_input { result.input.ghost_name ≡ input.entry.ghost_name }
        ensures told { I.told result.input.now ≡ I.told input.old }
        ensures faults { I.faults result.input.now ≡ I.faults input.old }
        ensures tried { I.tried result.input.now ≡ I.tried input.old }
        ensures names { result.reader.names ≡ names.items }
        ensures left { IfSome (I.told input.old) (λ files.
            chunks_left files result.reader ≡ named_chunks files names.items columns options) }
    {
        let reader = ChunkReader::by_name(alloc, names, columns, options);
        CsvSource {
            alloc,
            input,
            reader,
        }
    }

    /// The next so many chunks, as so many calls of `get_batches` would give them, read side by
    /// side in threads. There are fewer only where none is left. Where a call would be refused,
    /// that is answered, with the chunks before it where the files stop there, and the source is as
    /// before.
    pub fn get_round<H: Threads + Sync>(
        &mut self,
        rt: &H,
        count: usize,
        threads: usize,
    ) -> Result<Vec<DataChunk>, (CsvError, Vec<DataChunk>)>
        requires { 0 < threads }
        ensures given { IfOk result (λ v. IfSome (I.told self.old.input.now) (λ files.
            chunks_left files self.old.reader
            ≡ chunks_then v.items (chunks_left files self.new.reader))) }
        ensures few { IfOk result (λ v. length v.items ≤ count) }
        ensures over { IfOk result (λ v. length v.items < count
            → IfSome (I.told self.old.input.now)
            (λ files. chunks_left files self.new.reader ≡ no_more)) }
        ensures stopped { IfErr result (λ e. IfSome (I.told self.old.input.now)
            (λ files. StopsWithin count e.0 e.1.items (chunks_left files self.old.reader))) }
        ensures tried { TriedFront (I.tried self.old.input.now) (I.tried self.new.input.now)
            self.old.reader.names }
        ensures gone { IfOk result (λ v. count ≤ length v.items
            → AreTried (I.tried self.old.input.now) (I.tried self.new.input.now)
            self.old.reader.names self.new.reader.names) }
        ensures as_before { OnErr result (self.new.reader ≡ self.old.reader) }
        ensures told { I.told self.new.input.now ≡ I.told self.old.input.now }
        ensures cause { HasCause (I.faults self.old.input.now) (I.faults self.new.input.now)
            (IsErrAnd result (λ e. e.0 ≡ csv_error.Input)) }
        ensures same_input { self.new.input.ghost_name ≡ self.old.input.ghost_name }
    {
        self.reader
            .get_round(rt, self.alloc, self.input, count, threads)
    }
}

impl<I: InputFiles> Source for CsvSource<'_, I> {
    type Fault = CsvError;

    ghost name = { codes "csv" };

    ghost left = { λ s. AreLeft (I.told s.input.now) s.reader };

    fn get_batches(&mut self) -> Result<SourceResult, CsvError>
        ensures given { IfOk result (λ r. GaveFirst r
            (AreLeft (I.told self.old.input.now) self.old.reader)
            (AreLeft (I.told self.new.input.now) self.new.reader)) }
        ensures one { IfOk result (λ r. IfSome (I.told self.old.input.now) (λ files.
            GivesOne r (chunks_left files self.old.reader) (chunks_left files self.new.reader))) }
        ensures stopped { IfErr result (λ e. IfSome (I.told self.old.input.now)
            (λ files. StopsAt e (chunks_left files self.old.reader))) }
        ensures refused { OnErr result (IfSome (I.told self.old.input.now)
            (λ files. chunks_left files self.new.reader ≡ chunks_left files self.old.reader)) }
        ensures as_before { IfErr result (λ e.
            (e ≡ csv_error.Memory) ⊎ (self.new.reader ≡ self.old.reader)) }
        ensures tried { TriedFront (I.tried self.old.input.now) (I.tried self.new.input.now)
            self.old.reader.names }
        ensures gone { IfOk result (λ r. (r ≡ source.Finished)
            ⊎ AreTried (I.tried self.old.input.now) (I.tried self.new.input.now)
            self.old.reader.names self.new.reader.names) }
        ensures told { I.told self.new.input.now ≡ I.told self.old.input.now }
        ensures cause { HasCause (I.faults self.old.input.now) (I.faults self.new.input.now)
            (IsErrOf result csv_error.Input) }
        ensures same_input { self.new.input.ghost_name ≡ self.old.input.ghost_name }
    {
        let Ok(mut chunks) = Vec::with_capacity(self.alloc, 1) else {
            return Err(CsvError::Memory);
        };
        match self.reader.next_chunk(self.alloc, self.input) {
            Ok(Some(chunk)) => {
                if chunks.push(chunk).is_err() {
                    unreachable!();
                }
                Ok(SourceResult::GotMoreData(chunks))
            }
            Ok(None) => Ok(SourceResult::Finished),
            Err(error) => Err(error),
        }
    }

    fn fmt(&self) -> &str {
        "csv"
    }
}
