//! Chunks that are read side by side.

ghost use Rattle.std.specs.Prelude.{◌≡◌, ◌≤◌, ◌<◌, ◌+◌, ◌++◌, ◌∷◌, [], All, ◌⊎◌, IfErr, IfOk, IfSome, IsErrOf, List, Ok, OnOk, length, map, slice_index_or, ℕ, ◌*◌};
ghost use Rattle.pipe_columns.specs.declared.data_chunk.DataChunk.{DataChunk};
ghost use Rattle.pipe_columns.specs.Causes.{HasCause};
ghost use Rattle.pipe_columns.specs.Frame.{FitsSchema};
ghost use Rattle.pipe_csv.specs.declared.csv_error.CsvError.TheVariants as csv_error;
ghost use Rattle.pipe_io.specs.Tried.{AreTried, TriedFront};
ghost use Rattle.pipe_source.specs.CsvChunks.{chunks_then, no_more};
ghost use Rattle.pipe_source.specs.Kept.{HasRowsLeft, IsSourcePlace, IsFitReading, kept_chunk, chunks_at, state_behind};
ghost use Rattle.pipe_source.specs.Reader.{StopsAt, chunks_left};
ghost use Rattle.pipe_source.specs.ReadOn.{HasReadNextText, HasReadOn, state_ahead};
ghost use Rattle.pipe_source.specs.Rounds.{StopsWithin};

use crate::kept_text::KeptText;
use crate::looks::{FEWEST_BYTES, SideBySide};
use crate::reading::Reading;
use crate::source_place::SourcePlace;
use pipe_columns::DataChunk;
use pipe_csv::CsvError;
use pipe_io::InputFiles;
use pipe_threads::for_each_beside;
use std::alloc::{AllocError, Global};
use std::thread::Threads;

/// Adds a chunk.
fn push_chunk(chunks: &mut Vec<DataChunk>, chunk: DataChunk) -> Result<(), AllocError>
    ensures { OnOk result (chunks.new.items ≡ chunks.old.items ++ chunk ∷ []) }
{
    match chunks.push(chunk) {
        Ok(()) => Ok(()),
        Err(_) => Err(AllocError),
    }
}

/// A place for a chunk: a spent one, whose memory it takes, and the chunk, in whose stead a want of
/// memory stands until it is read.
#[derive(Drop)]
struct ChunkPlace {
    spent: Option<DataChunk>,
    made: Result<DataChunk, CsvError>,
}

/// What stands in a place.
fn made_of(place: ChunkPlace) -> Result<DataChunk, CsvError>
    ensures { result ≡ place.made }
{
    place.made
}

/// Adds chunks, where each was made.
fn push_made(chunks: &mut Vec<DataChunk>, places: Vec<ChunkPlace>) -> Result<(), AllocError>
    ensures { OnOk result ((more : List DataChunk) × (map (λ p. p.made) places.items ≡ map Ok more)
        × (chunks.new.items ≡ chunks.old.items ++ more)) }
{
    for place in places {
        match made_of(place) {
            Ok(chunk) => push_chunk(chunks, chunk)?,
            Err(_) => return Err(AllocError),
        }
    }
    Ok(())
}

/// Adds other chunks.
fn push_all(chunks: &mut Vec<DataChunk>, more: Vec<DataChunk>) -> Result<(), AllocError>
    ensures { OnOk result (chunks.new.items ≡ chunks.old.items ++ more.items) }
{
    for chunk in more {
        push_chunk(chunks, chunk)?;
    }
    Ok(())
}

/// Places for so many chunks, which take the memory of spent ones.
fn places_for(
    alloc: Global,
    count: usize,
    spent: &mut Vec<DataChunk>,
) -> Result<Vec<ChunkPlace>, AllocError>
    ensures { IfOk result (λ v. length v.items ≡ count) }
{
    let mut places = Vec::with_capacity(alloc, count)?;
    for _place in 0..count {
        places.push_reserved(ChunkPlace {
            spent: spent.pop(),
            made: Err(CsvError::Memory),
        });
    }
    Ok(places)
}

impl Reading {
    /// Reads a chunk of the rows that are left of a text into its place.
    fn read_one(&self, alloc: Global, text: &KeptText, n: usize, place: &mut ChunkPlace)
        requires reading { IsFitReading self.now }
        requires kept { HasRowsLeft self.now text.now }
        requires some { n * self.now.options.chunk_size < text.now.left }
        ensures { IfOk place.new.made (λ c. c ≡ kept_chunk self.now text.now n) }
    {
        let spent = place.spent.take();
        place.made = self.chunk_of(alloc, text, n, spent);
    }

    /// Reads the first chunks of the rows that are left of a text into their places, in so many threads
    /// at most.
    fn read_each<H: Threads + Sync>(
        &self,
        rt: &H,
        alloc: Global,
        text: &KeptText,
        threads: usize,
        places: &mut [ChunkPlace],
    )
        requires reading { IsFitReading self.now }
        requires kept { HasRowsLeft self.now text.now }
        requires some { (n : ℕ) → n < length places.old
            → n * self.now.options.chunk_size < text.now.left }
        requires threads { 0 < threads }
        ensures count { length places.new ≡ length places.old }
        ensures each { (n : ℕ) (d : _) → n < length places.old
            → IfOk (slice_index_or places.new n d).made (λ c. c ≡ kept_chunk self.now text.now n) }
    {
        for_each_beside(
            rt,
            places,
            threads,
            &|n, place| { self.read_one(alloc, text, n, place) },
        );
    }

    /// The first chunks of the rows that are left of a text, read side by side in so many threads at most,
    /// in the memory of spent ones.
    pub(crate) fn chunks_of<H: Threads + Sync>(
        &self,
        rt: &H,
        alloc: Global,
        text: &KeptText,
        count: usize,
        threads: usize,
        spent: &mut Vec<DataChunk>,
    ) -> Result<Vec<DataChunk>, AllocError>
        requires reading { IsFitReading self.now }
        requires kept { HasRowsLeft self.now text.now }
        requires some { text.now.chunk + count ≤ length text.now.starts.items }
        requires threads { 0 < threads }
        ensures { IfOk result (λ v. v.items ≡ chunks_at self.now text.now count) }
    {
        let mut places = places_for(alloc, count, spent)?;
        self.read_each(rt, alloc, text, threads, places.as_mut_slice());
        let mut chunks = Vec::new(alloc);
        push_made(&mut chunks, places)?;
        Ok(chunks)
    }

    /// Adds chunks of the next file behind a place, so many in all at most, and tells what is left
    /// of its text, if there is one. A text of which no row is left is let go.
    fn read_next<I: InputFiles, H: Threads + Sync>(
        &self,
        rt: &H,
        alloc: Global,
        input: &mut I,
        last: SourcePlace,
        chunks: &mut Vec<DataChunk>,
        count: usize,
        threads: usize,
        spent: &mut Vec<DataChunk>,
    ) -> Result<Option<KeptText>, CsvError>
        requires reading { IsFitReading self.now }
        requires place { IsSourcePlace self.now last }
        requires some { length chunks.old.items < count }
        requires threads { 0 < threads }
        ensures told { I.told input.new ≡ I.told input.old }
        ensures read { IfOk result (λ o. HasReadNextText self.now (I.told input.old) last
            chunks.old.items chunks.new.items count o) }
        ensures stopped { IfErr result (λ e. IfSome (I.told input.old)
            (λ files. StopsAt e (chunks_left files (state_behind self.now last)))) }
        ensures kept { IfErr result (λ e. (e ≡ csv_error.Memory)
            ⊎ (chunks.new.items ≡ chunks.old.items)) }
        ensures tried { TriedFront (I.tried input.old) (I.tried input.new)
            (state_behind self.now last).names }
        ensures gone { IfOk result (λ o. IfSome o (λ k. AreTried (I.tried input.old)
            (I.tried input.new) (state_behind self.now last).names
            (state_behind self.now k.at).names)) }
        ensures cause { HasCause (I.faults input.old) (I.faults input.new)
            (IsErrOf result csv_error.Input) }
    {
        let looks = SideBySide {
            rt,
            threads,
            fewest: FEWEST_BYTES,
        };
        let mut text = match self.next_text(&looks, alloc, input, last) {
            Ok(Some(text)) => text,
            Ok(None) => return Ok(None),
            Err(error) => return Err(error),
        };
        let some = text.chunks_left().min(count - chunks.len());
        let Ok(more) = self.chunks_of(rt, alloc, &text, some, threads, spent) else {
            return Err(CsvError::Memory);
        };
        if push_all(chunks, more).is_err() {
            return Err(CsvError::Memory);
        }
        text.advance(some, self.options.chunk_size);
        Ok(Some(text.or_none(alloc)))
    }

    /// Adds chunks of the files behind a place, so many in all at most, and tells what is left of
    /// the text that was read last, if one was. There are fewer only where none is left. Where the
    /// files stop, the chunks before the stop are added.
    pub(crate) fn read_on<I: InputFiles, H: Threads + Sync>(
        &self,
        rt: &H,
        alloc: Global,
        input: &mut I,
        first: SourcePlace,
        chunks: &mut Vec<DataChunk>,
        count: usize,
        threads: usize,
        spent: &mut Vec<DataChunk>,
    ) -> Result<Option<KeptText>, CsvError>
        requires reading { IsFitReading self.now }
        requires place { IsSourcePlace self.now first }
        requires few { length chunks.old.items ≤ count }
        requires threads { 0 < threads }
        ensures told { I.told input.new ≡ I.told input.old }
        ensures read { IfOk result (λ o. HasReadOn self.now (I.told input.old) first
            chunks.old.items chunks.new.items o) }
        ensures few { IfOk result (λ _. length chunks.new.items ≤ count) }
        ensures over { IfOk result (λ o. length chunks.new.items < count
            → IfSome (I.told input.old)
            (λ files. chunks_left files (state_ahead self.now first o) ≡ no_more)) }
        ensures stopped { IfErr result (λ e. IfSome (I.told input.old)
            (λ files. StopsWithin count e chunks.new.items
            (chunks_then chunks.old.items (chunks_left files (state_behind self.now first))))) }
        ensures tried { TriedFront (I.tried input.old) (I.tried input.new)
            (state_behind self.now first).names }
        ensures gone { IfOk result (λ o. count ≤ length chunks.new.items
            → AreTried (I.tried input.old) (I.tried input.new)
            (state_behind self.now first).names (state_ahead self.now first o).names) }
        ensures cause { HasCause (I.faults input.old) (I.faults input.new)
            (IsErrOf result csv_error.Input) }
    {
        let mut ahead: Option<KeptText> = None;
        let mut last = first;
        'files: while chunks.len() < count {
            match self.read_next(rt, alloc, input, last, chunks, count, threads, spent) {
                Ok(Some(text)) => {
                    last = text.at;
                    ahead = Some(text);
                }
                Ok(None) => return Ok(ahead),
                Err(error) => return Err(error),
            }
        }
        Ok(ahead)
    }
}
