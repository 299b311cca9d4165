//! A sink that counts rows and a source of one chunk, as the traits have them.

ghost use Rattle.std.specs.Prelude.{◌≡◌, ◌+◌, ◌<◌, ◌^◌, ◌∷◌, [], IfOk, codes, sum_by};
ghost use Rattle.std.specs.Option.{option_to_list};
ghost use Rattle.pipe_columns.specs.Chunks.{frame_given};

use pipe_columns::{DataChunk, DataFrame, FinalizedSink, Sink, SinkResult, Source, SourceResult};
use std::alloc::{AllocError, Global};
use std::test::Fail;

/// How many rows came.
#[derive(Drop)]
struct Counted {
    alloc: Global,
    rows: usize,
}

impl Sink for Counted {
    type Fault = &'static str;

    ghost name = { codes "counted" };

    ghost takes = { λ s chunk. s.rows + chunk.frame.height < 2 ^ 64 };

    ghost stands = { λ s chunks. s.rows ≡ sum_by (λ c. c.frame.height) chunks };

    ghost Purpose = { Unit {0} };

    ghost purpose = { λ s. tt };

    ghost gives = { λ p chunks frame. frame.height ≡ sum_by (λ c. c.frame.height) chunks };

    fn sink(&mut self, chunk: DataChunk) -> Result<SinkResult, &'static str> {
        self.rows += chunk.frame.height();
        Ok(SinkResult::CanHaveMoreInput)
    }

    fn finalize(&mut self) -> Result<FinalizedSink, &'static str> {
        let frame = DataFrame::new(self.rows, Vec::new(self.alloc)).ok_or("no frame")?;
        self.rows = 0;
        Ok(FinalizedSink::Finished(frame))
    }

    fn fmt(&self) -> &str {
        "counted"
    }
}

/// One chunk, which is given once.
#[derive(Drop)]
struct Single {
    alloc: Global,
    chunk: Option<DataChunk>,
}

impl Source for Single {
    type Fault = AllocError;

    ghost name = { codes "single" };

    ghost left = { λ s chunks. option_to_list s.chunk ≡ chunks };

    fn get_batches(&mut self) -> Result<SourceResult, AllocError> {
        let Some(chunk) = self.chunk.take() else {
            return Ok(SourceResult::Finished);
        };
        let mut chunks = Vec::new(self.alloc);
        chunks.push(chunk)?;
        Ok(SourceResult::GotMoreData(chunks))
    }

    fn fmt(&self) -> &str {
        "single"
    }
}

/// What any sink gives of one chunk.
fn frame_of_one<S: Sink>(sink: &mut S, chunk: DataChunk) -> Result<FinalizedSink, S::Fault>
    requires takes { S.takes sink.old chunk }
    requires fresh { S.stands sink.old [] }
    ensures { IfOk result (λ r. S.gives (S.purpose sink.old) (chunk ∷ []) (frame_given r)) }
{
    let _answer = sink.sink(chunk)?;
    sink.finalize()
}

/// A source of one chunk of three rows.
fn three_rows(alloc: Global) -> Result<Single, Fail> {
    let frame = DataFrame::new(3, Vec::new(alloc)).ok_or("no frame")?;
    let chunk = DataChunk {
        chunk_index: 0,
        frame,
    };
    Ok(Single {
        alloc,
        chunk: Some(chunk),
    })
}

/// The last chunk of those that a source gives first.
fn given_chunk(source: &mut Single) -> Result<DataChunk, Fail> {
    match source.get_batches()? {
        SourceResult::GotMoreData(mut chunks) => Ok(chunks.pop().ok_or("no chunk")?),
        SourceResult::Finished => Err("no chunks".into()),
    }
}

/// How many rows the counting sink gives of what a source gives first.
fn rows_given(alloc: Global, source: &mut Single) -> Result<usize, Fail> {
    let chunk = given_chunk(source)?;
    let mut sink = Counted { alloc, rows: 0 };
    let FinalizedSink::Finished(frame) = frame_of_one(&mut sink, chunk)?;
    Ok(frame.height())
}

/// Whether a source has nothing more to give.
fn is_over(source: &mut Single) -> Result<bool, AllocError> {
    Ok(matches!(source.get_batches()?, SourceResult::Finished))
}

#[test]
fn counts_the_rows_of_a_source(rt: HostRuntime) -> Result<(), Fail> {
    let mut source = three_rows(rt.alloc())?;
    assert!(rt; rows_given(rt.alloc(), &mut source)? == 3 && is_over(&mut source)?);
    Ok(())
}

#[test]
fn names(rt: HostRuntime) -> Result<(), Fail> {
    let alloc = rt.alloc();
    let source = Single { alloc, chunk: None };
    let sink = Counted { alloc, rows: 0 };
    assert!(rt; sink.fmt() == "counted" && source.fmt() == "single");
    Ok(())
}
