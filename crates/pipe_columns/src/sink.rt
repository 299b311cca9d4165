//! What takes chunks.

ghost use Rattle.std.specs.Prelude.{◌≡◌, ◌∷◌, ◌++◌, [], List, ℕ, IfOk, OnOk};
ghost use Rattle.pipe_columns.specs.declared.data_chunk.DataChunk.{DataChunk};
ghost use Rattle.pipe_columns.specs.Chunks.{frame_given};
ghost use Rattle.pipe_columns.specs.Frame.{FrameData};

use crate::data_chunk::DataChunk;
use crate::data_frame::DataFrame;

/// What a sink answers to a chunk.
#[derive(Clone, Copy, Debug, PartialEq, Eq)]
pub enum SinkResult {
    /// No further chunk is of use.
    Finished,
    CanHaveMoreInput,
}

/// What a sink gives in the end.
#[derive(Drop)]
pub enum FinalizedSink {
    Finished(DataFrame),
}

/// What takes chunks one by one, and then gives a frame of them.
pub trait Sink {
    /// Why a sink refuses.
    type Fault;

    /// What the kind of sink is called.
    ghost name: { List ℕ };

    /// Whether a sink takes a chunk, as it stands.
    ghost takes: { Self → DataChunk → Type 0 };

    /// A sink stands for chunks, in the order in which they were taken.
    ghost stands: { Self → List DataChunk → Type 0 };

    /// What a sink is made for, which stays as it is.
    ghost Purpose: { Type 0 };

    ghost purpose: { Self → Purpose };

    /// The frame that a sink of a purpose gives of chunks.
    ghost gives: { Purpose → List DataChunk → FrameData → Type 0 };

    /// Takes a chunk.
    fn sink(&mut self, chunk: DataChunk) -> Result<SinkResult, Self::Fault>
        requires { takes self.old chunk }
        ensures taken { OnOk result ((chunks : List DataChunk) → stands self.old chunks
            → stands self.new (chunks ++ (chunk ∷ []))) }
        ensures purpose { purpose self.new ≡ purpose self.old };

    /// Gives the frame of the chunks taken.
    fn finalize(&mut self) -> Result<FinalizedSink, Self::Fault>
        ensures given { IfOk result (λ r. (chunks : List DataChunk) → stands self.old chunks
            → gives (purpose self.old) chunks (frame_given r)) }
        ensures purpose { purpose self.new ≡ purpose self.old };

    /// The name of the kind of sink.
    fn fmt(&self) -> &str
        ensures { result.now ≡ name };
}
