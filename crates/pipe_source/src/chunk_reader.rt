//! What reads the chunks of named files, one after another.

ghost use Rattle.std.specs.Prelude.{◌≡◌, ◌⊎◌, ◌<◌, ◌≤◌, ◌+◌, ◌%◌, ◌^◌, [], IfErr, IfOk, IfSome, IsErrAnd, IsErrOf, List, OnErr, Some, All, length, true, vec_len};
ghost use Rattle.pipe_columns.specs.Causes.{HasCause};
ghost use Rattle.pipe_columns.specs.Frame.{FitsSchema};
ghost use Rattle.pipe_io.specs.Files.{Files};
ghost use Rattle.pipe_io.specs.Tried.{AreTried, TriedFront};
ghost use Rattle.pipe_source.specs.CsvChunks.{chunks_then, csv_chunks, wanted_chunks, no_more, source_fields};
ghost use Rattle.pipe_source.specs.NamedChunks.{named_chunks};
ghost use Rattle.pipe_source.specs.Next.{IsLoadedNext};
ghost use Rattle.pipe_source.specs.Rounds.{StopsWithin};
ghost use Rattle.pipe_source.specs.Reader.{AreFew, Gives, StopsAt, given_fields, chunks_left};
ghost use Rattle.pipe_csv.specs.declared.csv_error.CsvError.TheVariants as csv_error;

use crate::kept_text::KeptText;
use crate::looks::Alone;
use crate::read_options::CsvReadOptions;
use crate::reading::Reading;
use crate::source_place::SourcePlace;
use narrow_columns::chosen_schema;
use pipe_columns::{DataChunk, Schema, Text};
use pipe_csv::CsvError;
use pipe_io::InputFiles;
use std::alloc::{AllocError, Global};
use std::marker::Model;
use std::mem;
use std::thread::Threads;

/// The chunks of named files that are left, in an input that each call is handed. The text of one
/// file is held whole, and of a second while a call goes on into further files.
#[derive(Drop)]
pub struct ChunkReader {
    what: Reading,
    text: KeptText,
    spent: Vec<DataChunk>,
}

impl Model for ChunkReader {
    ghost use Rattle.pipe_source.specs.Kept.{HasRowsLeft, IsFitReading, kept_state};
    ghost use Rattle.pipe_source.specs.Reader.{ReaderState};

    ghost Value = { ReaderState };

    ghost view = { λ r. kept_state r.what r.text };

    ghost invariant = { λ r. IsFitReading r.what × HasRowsLeft r.what r.text };
}

/// Before any file.
const START: SourcePlace = SourcePlace {
    file: 0,
    chunks: 0,
    rows: 0,
};

impl ChunkReader {
    /// No file is read yet.
    pub fn new(
        alloc: Global,
        names: Vec<Text>,
        schema: Schema,
        options: CsvReadOptions,
    ) -> ChunkReader
        requires size { 0 < options.chunk_size }
        ensures left { (files : Files)
            → chunks_left files result ≡ csv_chunks files names.items schema options }
        ensures names { result.names ≡ names.items }
        ensures schema { result.schema ≡ schema }
        ensures options { result.options ≡ options }
        ensures fields { given_fields result ≡ source_fields options schema }
        ensures place { result.at ≡ record { file = 0; chunks = 0; rows = 0 } }
    {
        ChunkReader {
            what: Reading {
                by_name: false,
                schema,
                wanted: Vec::new(alloc),
                kept: None,
                options,
                names,
            },
            text: KeptText::none(alloc, START),
            spent: Vec::new(alloc),
        }
    }

    /// No file is read yet, and of the schema these columns are wanted; those past the end of the
    /// list are. The others are looked at, and no value of them is made.
    pub fn of_columns(
        alloc: Global,
        names: Vec<Text>,
        schema: Schema,
        options: CsvReadOptions,
        wanted: Vec<bool>,
    ) -> Result<ChunkReader, AllocError>
        requires size { 0 < options.chunk_size }
        requires wanted { vec_len wanted ≤ length schema }
        ensures left { IfOk result (λ r. (files : Files)
            → chunks_left files r
            ≡ wanted_chunks options wanted.items (csv_chunks files names.items schema options)) }
        ensures names { IfOk result (λ r. r.names ≡ names.items) }
        ensures schema { IfOk result (λ r. r.schema ≡ schema) }
        ensures wanted { IfOk result (λ r. r.wanted ≡ wanted.items) }
        ensures options { IfOk result (λ r. r.options ≡ options) }
        ensures place { IfOk result
            (λ r. r.at ≡ record { file = 0; chunks = 0; rows = 0 }) }
    {
        let kept = chosen_schema(alloc, &wanted, schema.fields())?;
        Ok(ChunkReader {
            what: Reading {
                by_name: false,
                schema,
                wanted,
                kept: Some(kept),
                options,
                names,
            },
            text: KeptText::none(alloc, START),
            spent: Vec::new(alloc),
        })
    }

    /// No file is read yet. In each file the columns are found by their names, in its own header, which has
    /// each of them once; its other fields are no matter.
    pub fn by_name(
        alloc: Global,
        names: Vec<Text>,
        columns: Schema,
        options: CsvReadOptions,
    ) -> ChunkReader
        requires size { 0 < options.chunk_size }
        ensures left { (files : Files)
            → chunks_left files result ≡ named_chunks files names.items columns options }
        ensures names { result.names ≡ names.items }
        ensures schema { result.schema ≡ columns }
        ensures options { result.options ≡ options }
        ensures fields { given_fields result ≡ source_fields options columns }
        ensures place { result.at ≡ record { file = 0; chunks = 0; rows = 0 } }
    {
        ChunkReader {
            what: Reading {
                by_name: true,
                schema: columns,
                wanted: Vec::new(alloc),
                kept: None,
                options,
                names,
            },
            text: KeptText::none(alloc, START),
            spent: Vec::new(alloc),
        }
    }

    /// Reads on to the next file that has wanted rows, where the one before has none left.
    fn load_next<I: InputFiles>(&mut self, alloc: Global, input: &mut I) -> Result<bool, CsvError>
        requires { self.old.rows ≡ [] }
        ensures told { I.told input.new ≡ I.told input.old }
        ensures same { IfSome (I.told input.old)
            (λ files. chunks_left files self.new ≡ chunks_left files self.old) }
        ensures found { IfOk result
            (λ b. IsLoadedNext b (I.told input.old) self.old self.new) }
        ensures stopped { IfErr result (λ e. IfSome (I.told input.old)
            (λ files. StopsAt e (chunks_left files self.old))) }
        ensures tried { TriedFront (I.tried input.old) (I.tried input.new) self.old.names }
        ensures gone { IfOk result (λ b. b ≡ true
            → AreTried (I.tried input.old) (I.tried input.new) self.old.names self.new.names) }
        ensures as_before { OnErr result (self.new ≡ self.old) }
        ensures cause { HasCause (I.faults input.old) (I.faults input.new)
            (IsErrOf result csv_error.Input) }
        ensures schema { self.new.schema ≡ self.old.schema }
        ensures wanted { self.new.wanted ≡ self.old.wanted }
        ensures options { self.new.options ≡ self.old.options }
        ensures rows { self.new.at.rows ≡ self.old.at.rows }
        ensures chunks { self.new.at.chunks ≡ self.old.at.chunks }
    {
        match self.what.next_text(&Alone, alloc, input, self.text.at) {
            Ok(Some(text)) => {
                self.text = text;
                Ok(true)
            }
            Ok(None) => Ok(false),
            Err(error) => Err(error),
        }
    }

    /// The first chunk of the rows that are left.
    fn take_chunk(&mut self, alloc: Global) -> Result<DataChunk, CsvError>
        requires { 0 < length self.old.rows }
        ensures given { IfOk result (λ c. (files : Files)
            → Gives (Some c) (chunks_left files self.old) (chunks_left files self.new)) }
        ensures as_before { OnErr result (self.new ≡ self.old) }
        ensures memory { IfErr result (λ e. e ≡ csv_error.Memory) }
        ensures names { self.new.names ≡ self.old.names }
        ensures schema { self.new.schema ≡ self.old.schema }
        ensures wanted { self.new.wanted ≡ self.old.wanted }
        ensures options { self.new.options ≡ self.old.options }
        ensures fits { IfOk result (λ c. FitsSchema (given_fields self.old) c.frame) }
        ensures rows { IfOk result
            (λ c. self.new.at.rows ≡ self.old.at.rows + c.frame.height) }
        ensures number { IfOk result (λ _. self.new.at.chunks ≡ self.old.at.chunks + 1) }
        ensures few { AreFew self.new.at }
    {
        let spent = self.spent.pop();
        match self.what.chunk_of(alloc, &self.text, 0, spent) {
            Ok(chunk) => {
                self.text.advance(1, self.what.options.chunk_size);
                Ok(chunk)
            }
            Err(error) => Err(error),
        }
    }

    /// The next chunk. A file is read whole when its first chunk is wanted, and begun only where
    /// rows are still wanted, each once, in order. A refused call leaves what is left; where memory
    /// wants for a chunk, the text is kept.
    pub fn next_chunk<I: InputFiles>(
        &mut self,
        alloc: Global,
        input: &mut I,
    ) -> Result<Option<DataChunk>, CsvError>
        ensures told { I.told input.new ≡ I.told input.old }
        ensures given { IfOk result (λ o. IfSome (I.told input.old)
            (λ files. Gives o (chunks_left files self.old) (chunks_left files self.new))) }
        ensures stopped { IfErr result (λ e. IfSome (I.told input.old)
            (λ files. StopsAt e (chunks_left files self.old))) }
        ensures refused { OnErr result (IfSome (I.told input.old)
            (λ files. chunks_left files self.new ≡ chunks_left files self.old)) }
        ensures as_before { IfErr result (λ e. (e ≡ csv_error.Memory) ⊎ (self.new ≡ self.old)) }
        ensures tried { TriedFront (I.tried input.old) (I.tried input.new) self.old.names }
        ensures gone { IfOk result (λ o. IfSome o (λ _.
            AreTried (I.tried input.old) (I.tried input.new) self.old.names self.new.names)) }
        ensures cause { HasCause (I.faults input.old) (I.faults input.new)
            (IsErrOf result csv_error.Input) }
        ensures schema { self.new.schema ≡ self.old.schema }
        ensures wanted { self.new.wanted ≡ self.old.wanted }
        ensures options { self.new.options ≡ self.old.options }
        ensures fits { IfOk result (λ o. IfSome o
            (λ c. FitsSchema (given_fields self.old) c.frame)) }
        ensures rows { IfOk result (λ o. IfSome o
            (λ c. self.new.at.rows ≡ self.old.at.rows + c.frame.height)) }
        ensures number { IfOk result (λ o. IfSome o
            (λ c. self.new.at.chunks ≡ self.old.at.chunks + 1)) }
        ensures few { IfOk result (λ _. AreFew self.new.at) }
    {
        if self.text.left == 0 {
            match self.load_next(alloc, input) {
                Ok(true) => {}
                Ok(false) => return Ok(None),
                Err(error) => return Err(error),
            }
        }
        match self.take_chunk(alloc) {
            Ok(chunk) => Ok(Some(chunk)),
            Err(error) => Err(error),
        }
    }

    /// Takes spent chunks back, whose memory the next ones take. What is left stays.
    pub fn take_back(&mut self, chunks: Vec<DataChunk>)
        ensures { self.new ≡ self.old }
    {
        self.spent = chunks;
    }

    /// Gives the spent chunks up that no further one took. What is left stays.
    pub fn give_up(&mut self, alloc: Global) -> Vec<DataChunk>
        ensures { self.new ≡ self.old }
    {
        mem::replace(&mut self.spent, Vec::new(alloc))
    }

    /// The next so many chunks, as so many calls of `next_chunk` would give them, read side by side
    /// in threads. There are fewer only where none is left. Where a call would be refused, that is
    /// answered, with the chunks before it where the files stop there, and the reader is as before.
    pub fn get_round<I: InputFiles, H: Threads + Sync>(
        &mut self,
        rt: &H,
        alloc: Global,
        input: &mut I,
        count: usize,
        threads: usize,
    ) -> Result<Vec<DataChunk>, (CsvError, Vec<DataChunk>)>
        requires { 0 < threads }
        ensures told { I.told input.new ≡ I.told input.old }
        ensures given { IfOk result (λ v. IfSome (I.told input.old) (λ files.
            chunks_left files self.old ≡ chunks_then v.items (chunks_left files self.new))) }
        ensures few { IfOk result (λ v. length v.items ≤ count) }
        ensures over { IfOk result (λ v. length v.items < count
            → IfSome (I.told input.old) (λ files. chunks_left files self.new ≡ no_more)) }
        ensures stopped { IfErr result (λ e. IfSome (I.told input.old)
            (λ files. StopsWithin count e.0 e.1.items (chunks_left files self.old))) }
        ensures tried { TriedFront (I.tried input.old) (I.tried input.new) self.old.names }
        ensures gone { IfOk result (λ v. count ≤ length v.items
            → AreTried (I.tried input.old) (I.tried input.new) self.old.names self.new.names) }
        ensures as_before { OnErr result (self.new ≡ self.old) }
        ensures cause { HasCause (I.faults input.old) (I.faults input.new)
            (IsErrAnd result (λ e. e.0 ≡ csv_error.Input)) }
        ensures fields { given_fields self.new ≡ given_fields self.old }
        ensures fit { IfOk result (λ v.
            All (λ c. FitsSchema (given_fields self.old) c.frame) v.items) }
    {
        let some = self.text.chunks_left().min(count);
        let Ok(mut chunks) = self
            .what
            .chunks_of(rt, alloc, &self.text, some, threads, &mut self.spent)
        else {
            return Err((CsvError::Memory, Vec::new(alloc)));
        };
        if some == count {
            self.text.advance(some, self.what.options.chunk_size);
            return Ok(chunks);
        }
        let last = self.text.place_behind();
        match self.what.read_on(
            rt,
            alloc,
            input,
            last,
            &mut chunks,
            count,
            threads,
            &mut self.spent,
        ) {
            Ok(Some(text)) => {
                self.text = text;
                Ok(chunks)
            }
            Ok(None) => {
                self.text.advance(some, self.what.options.chunk_size);
                Ok(chunks)
            }
            Err(error) => Err((error, chunks)),
        }
    }
}
