//! What writes frames to an output.

ghost use Rattle.std.specs.Prelude.{◌≡◌, ◌++◌, ℕ, List, Option, Some, [], false, true, take, is_some, is_err, IfSome, IsErrOf};
ghost use Rattle.pipe_columns.specs.Causes.{HasCause};
ghost use Rattle.pipe_columns.specs.Frame.{FitsSchema};
ghost use Rattle.pipe_columns.specs.declared.schema.Field.{Field};
ghost use Rattle.pipe_lines.specs.Rows.{Row, frame_rows};
ghost use Rattle.pipe_writers.specs.Writers.{IsOpen, TellsAfter, TellsFront, after_batch, after_finish};
ghost use Rattle.pipe_writers.specs.declared.sink_writer.WriterCalls.{WriterCalls};
ghost use Rattle.pipe_writers.specs.declared.write_error.WriteError.TheVariants as write_error;

use crate::write_error::WriteError;
use pipe_columns::{DataFrame, Schema};

/// Which calls a writer had: whether a batch, whether a refused one, whether the finish.
#[derive(Debug, Drop)]
pub struct WriterCalls {
    pub begun: bool,
    pub refused: bool,
    pub finished: bool,
}

/// What writes frames to an output, batch by batch. Once a call was refused, or it was finished,
/// it takes no further call.
pub trait SinkWriter {
    /// What fixes the text of rows, and stays as it is.
    ghost Format: { Type 0 };

    ghost format: { Self → Format };

    /// The fields of the frames that it writes.
    ghost fields: { Format → List Field };

    /// The text of rows.
    ghost text: { Format → List Row → List ℕ };

    /// Which calls it had.
    ghost calls: { Self → WriterCalls };

    /// The bytes that its output was given, where that tells.
    ghost told: { Self → Option (List ℕ) };

    /// How often its output failed.
    ghost faults: { Self → ℕ };

    /// It stands for rows since its output had some bytes.
    ghost stands: { Self → List Row → List ℕ → Type 0 };

    /// The schema of the frames that it writes.
    fn schema(&self) -> &Schema
        ensures { result.now ≡ fields (format self.now) };

    /// Writes the rows of a frame.
    fn _write_batch(&mut self, df: &DataFrame) -> Result<(), WriteError>
        requires open { IsOpen (calls self.old) }
        requires fits { FitsSchema (fields (format self.old)) df.now }
        ensures stands { (rows : List Row) → (since : List ℕ) → stands self.old rows since
            → stands self.new (rows ++ frame_rows df.now) since }
        ensures calls { calls self.new ≡ after_batch (is_err result) (calls self.old) }
        ensures format { format self.new ≡ format self.old }
        ensures tells { is_some (told self.new) ≡ is_some (told self.old) }
        ensures cause { HasCause (faults self.old) (faults self.new)
            (IsErrOf result write_error.Output) };

    /// Writes what is left to write, after the last batch.
    fn _finish(&mut self) -> Result<(), WriteError>
        requires { IsOpen (calls self.old) }
        ensures stands { (rows : List Row) → (since : List ℕ) → stands self.old rows since
            → stands self.new rows since }
        ensures calls { calls self.new ≡ after_finish (is_err result) (calls self.old) }
        ensures format { format self.new ≡ format self.old }
        ensures tells { is_some (told self.new) ≡ is_some (told self.old) }
        ensures cause { HasCause (faults self.old) (faults self.new)
            (IsErrOf result write_error.Output) };

    /// Before the first call it stands for no rows, since what its output tells.
    ghost starts: { (w : Self) → (since : List ℕ) → (calls w).begun ≡ false
        → (calls w).finished ≡ false → told w ≡ Some since → stands w [] since };

    /// What its output was given is a front of the text.
    ghost front: { (w : Self) → (rows : List Row) → (since : List ℕ) → stands w rows since
        → TellsFront (told w) since (text (format w) rows) };

    /// After a finish that wasn't refused it is the whole text.
    ghost whole: { (w : Self) → (rows : List Row) → (since : List ℕ) → stands w rows since
        → (calls w).finished ≡ true → (calls w).refused ≡ false
        → TellsAfter (told w) since (text (format w) rows) };

    /// The text of the first rows is a front of the text of all.
    ghost grows: { (f : Format) → (rows more : List Row)
        → (n : ℕ) × (text f rows ≡ take n (text f (rows ++ more))) };
}
