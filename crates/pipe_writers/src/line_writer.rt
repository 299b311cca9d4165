//! A writer of lines.

ghost use Rattle.std.specs.Prelude.{◌≡◌, ◌++◌, ℕ, List, [], flat_map, is_err, is_some, IfOk, IsErrOf, OnErr, OnOk};
ghost use Rattle.std.specs.Io.KnownBytes.{Appends};
ghost use Rattle.pipe_columns.specs.Causes.{HasCause};
ghost use Rattle.pipe_columns.specs.Frame.{FitsSchema};
ghost use Rattle.pipe_io.specs.Output.{WroteFront};
ghost use Rattle.pipe_lines.specs.Rows.{Row, frame_rows};
ghost use Rattle.pipe_writers.specs.WriterLaws.{front_lines, grows_lines, starts_lines, whole_lines};
ghost use Rattle.pipe_lines.specs.Lines.{LineText, text_of_lines};
ghost use Rattle.pipe_writers.specs.Writers.{HasPutOut, IsOpen, after_batch, after_finish, head_due, no_writer_calls};
ghost use Rattle.pipe_writers.specs.declared.write_error.WriteError.TheVariants as write_error;

use crate::sink_writer::{SinkWriter, WriterCalls};
use crate::write_error::{WriteError, send};
use pipe_columns::{DataFrame, Schema};
use pipe_io::Output;
use pipe_lines::Lines;
use std::alloc::{AllocError, Global};

/// How many bytes are sent together: a text is sent once it is so long.
pub(crate) const MOST_HELD: usize = 1 << 20;

/// Writes rows as lines to an output. It holds no text between two calls.
#[derive(Drop)]
pub struct LineWriter<O, L> {
    alloc: Global,
    output: O,
    lines: L,
    most: usize,
    calls: WriterCalls,
}

/// Sends a text and then the lines of a frame, or where something refuses a front of them.
pub(crate) fn put_out<O: Output, L: Lines>(
    output: &mut O,
    lines: &L,
    text: Vec<u8>,
    frame: &DataFrame,
    most: usize,
) -> Result<(), WriteError>
    requires { FitsSchema (L.shape lines.now).fields frame.now }
    ensures all { OnOk result (Appends (O.told output.old) (O.told output.new)
        (text.items ++ flat_map (L.shape lines.now).line (frame_rows frame.now))) }
    ensures front { OnErr result (WroteFront (O.told output.old) (O.told output.new)
        (text.items ++ flat_map (L.shape lines.now).line (frame_rows frame.now))) }
    ensures tells { is_some (O.told output.new) ≡ is_some (O.told output.old) }
    ensures cause { HasCause (O.faults output.old) (O.faults output.new)
        (IsErrOf result write_error.Output) }
{
    let mut piece = lines.add_lines(text, frame, 0, most)?;
    send(output, &piece.text)?;
    while piece.next < frame.height() {
        piece.text.clear();
        piece = lines.add_lines(piece.text, frame, piece.next, most)?;
        send(output, &piece.text)?;
    }
    Ok(())
}

/// A text with the lines' head, where it is due.
pub(crate) fn head_text<L: Lines>(
    alloc: Global,
    lines: &L,
    begun: bool,
) -> Result<Vec<u8>, AllocError>
    ensures { IfOk result (λ v. v.items ≡ head_due begun (L.shape lines.now)) }
{
    let text = Vec::new(alloc);
    if begun {
        Ok(text)
    } else {
        lines.add_head(text)
    }
}

impl<O: Output, L: Lines> LineWriter<O, L> {
    /// A writer to which no call was made.
    pub(crate) fn of_lines(alloc: Global, output: O, lines: L) -> LineWriter<O, L>
        ensures output { result.output ≡ output }
        ensures lines { result.lines ≡ lines }
        ensures calls { result.calls ≡ no_writer_calls }
    {
        LineWriter {
            alloc,
            output,
            lines,
            most: MOST_HELD,
            calls: WriterCalls {
                begun: false,
                refused: false,
                finished: false,
            },
        }
    }

    /// The output, as it stands.
    pub fn into_output(self) -> O
    where
        L: Drop,
        ensures { result ≡ self.output }
    {
        let LineWriter { output, .. } = self;
        output
    }

    /// Sends the head, where it is due, and the lines of a frame.
    fn put_batch(&mut self, frame: &DataFrame) -> Result<(), WriteError>
        requires { FitsSchema (L.shape self.old.lines).fields frame.now }
        ensures all { OnOk result (Appends (O.told self.old.output) (O.told self.new.output)
            (head_due self.old.calls.begun (L.shape self.old.lines)
            ++ flat_map (L.shape self.old.lines).line (frame_rows frame.now))) }
        ensures front { OnErr result (WroteFront (O.told self.old.output) (O.told self.new.output)
            (head_due self.old.calls.begun (L.shape self.old.lines)
            ++ flat_map (L.shape self.old.lines).line (frame_rows frame.now))) }
        ensures tells { is_some (O.told self.new.output) ≡ is_some (O.told self.old.output) }
        ensures cause { HasCause (O.faults self.old.output) (O.faults self.new.output)
            (IsErrOf result write_error.Output) }
        ensures calls { self.new.calls ≡ self.old.calls }
        ensures lines { self.new.lines ≡ self.old.lines }
    {
        let text = head_text(self.alloc, &self.lines, self.calls.begun)?;
        put_out(&mut self.output, &self.lines, text, frame, self.most)?;
        Ok(())
    }

    /// Sends the head, where it is due.
    fn put_head(&mut self) -> Result<(), WriteError>
        ensures all { OnOk result (Appends (O.told self.old.output) (O.told self.new.output)
            (head_due self.old.calls.begun (L.shape self.old.lines))) }
        ensures front { OnErr result (WroteFront (O.told self.old.output) (O.told self.new.output)
            (head_due self.old.calls.begun (L.shape self.old.lines))) }
        ensures tells { is_some (O.told self.new.output) ≡ is_some (O.told self.old.output) }
        ensures cause { HasCause (O.faults self.old.output) (O.faults self.new.output)
            (IsErrOf result write_error.Output) }
        ensures calls { self.new.calls ≡ self.old.calls }
        ensures lines { self.new.lines ≡ self.old.lines }
    {
        let text = head_text(self.alloc, &self.lines, self.calls.begun)?;
        send(&mut self.output, &text)?;
        Ok(())
    }
}

impl<O: Output, L: Lines> SinkWriter for LineWriter<O, L> {
    ghost Format = { LineText };

    ghost format = { λ w. L.shape w.lines };

    ghost fields = { λ t. t.fields };

    ghost text = { text_of_lines };

    ghost calls = { λ w. w.calls };

    ghost told = { λ w. O.told w.output };

    ghost faults = { λ w. O.faults w.output };

    ghost stands = { λ w rows since.
        HasPutOut (O.told w.output) w.calls (L.shape w.lines) rows since };

    ghost starts = { λ w since begun finished told.
        starts_lines (O.told w.output) w.calls (L.shape w.lines) since begun finished told };

    ghost front = { λ w rows since stands.
        front_lines (O.told w.output) w.calls (L.shape w.lines) rows since stands };

    ghost whole = { λ w rows since stands finished unrefused.
        whole_lines (O.told w.output) w.calls (L.shape w.lines) rows since stands finished
        unrefused };

    ghost grows = { grows_lines };

    fn schema(&self) -> &Schema {
        self.lines.schema()
    }

    fn _write_batch(&mut self, df: &DataFrame) -> Result<(), WriteError> {
        let result = self.put_batch(df);
        self.calls.begun = true;
        self.calls.refused = result.is_err();
        result
    }

    fn _finish(&mut self) -> Result<(), WriteError> {
        let result = self.put_head();
        self.calls.finished = true;
        self.calls.refused = result.is_err();
        result
    }
}
