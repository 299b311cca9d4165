//! What the texts of writers are, as laws over the definitions.

ghost use Rattle.std.specs.Prelude.{◌≡◌, ◌++◌, List, true};
ghost use Rattle.pipe_columns.specs.declared.schema.Field.{Field};
ghost use Rattle.pipe_columns.specs.Frame.{FitsSchema, FrameData};
ghost use Rattle.pipe_csv.specs.Texts.{csv_text};
ghost use Rattle.pipe_writers.specs.CsvLines.{csv_lines, csv_shape};
ghost use Rattle.pipe_writers.specs.JsonText.{json_lines, json_shape, json_text};
ghost use Rattle.pipe_lines.specs.Lines.{lines_of};
ghost use Rattle.pipe_lines.specs.Rows.{names_of, frame_rows};

/// The text of a frame's rows under the names of its schema is the text of the frame. So are the
/// head and the lines of it.
pub fn texts_of_frames()
    ensures csv { (fields : List Field) → (frame : FrameData) → FitsSchema fields frame
        → csv_lines true (names_of fields) (frame_rows frame) ≡ csv_text frame }
    ensures json { (fields : List Field) → (frame : FrameData) → FitsSchema fields frame
        → json_lines (names_of fields) (frame_rows frame) ≡ json_text frame }
    ensures csv_whole { (fields : List Field) → (frame : FrameData) → FitsSchema fields frame
        → (csv_shape true fields).head ++ lines_of (csv_shape true fields) frame ≡ csv_text frame }
    ensures json_whole { (fields : List Field) → (frame : FrameData) → FitsSchema fields frame
        → (json_shape fields).head ++ lines_of (json_shape fields) frame ≡ json_text frame }
{}
