//! What gives chunks.

ghost use Rattle.std.specs.Prelude.{◌≡◌, List, ℕ, IfOk};
ghost use Rattle.pipe_columns.specs.declared.data_chunk.DataChunk.{DataChunk};
ghost use Rattle.pipe_columns.specs.Chunks.{GaveFirst};

use crate::data_chunk::DataChunk;

/// What a source gives at a call.
#[derive(Drop)]
pub enum SourceResult {
    /// No chunk is left.
    Finished,
    /// The next chunks.
    GotMoreData(Vec<DataChunk>),
}

/// What gives chunks, some at a call.
pub trait Source {
    /// Why a source refuses.
    type Fault;

    /// What the kind of source is called.
    ghost name: { List ℕ };

    /// The chunks that a source still has to give, in order.
    ghost left: { Self → List DataChunk → Type 0 };

    /// Gives the next chunks.
    fn get_batches(&mut self) -> Result<SourceResult, Self::Fault>
        ensures given { IfOk result (λ r. GaveFirst r (left self.old) (left self.new)) };

    /// The name of the kind of source.
    fn fmt(&self) -> &str
        ensures { result.now ≡ name };
}
