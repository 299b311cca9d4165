//! Laws of lines, each proved as the contract of an empty function.

ghost use Rattle.std.specs.Prelude.{◌≡◌, ◌++◌, [], List};
ghost use Rattle.pipe_columns.specs.declared.schema.Field.{Field};
ghost use Rattle.pipe_columns.specs.Frame.{AllHaveHeight, FrameData, fields_of, frame_of, stacked};
ghost use Rattle.pipe_lines.specs.Lines.{LineText, lines_of};

/// No rows have no lines. The lines of a frame below another stand behind the lines of that.
pub fn lines_are_stacked()
    ensures none { (t : LineText) (fields : List Field) → lines_of t (frame_of fields []) ≡ [] }
    ensures stacked { (t : LineText) (f g : FrameData)
        → fields_of g.columns ≡ fields_of f.columns → AllHaveHeight f.height f.columns
        → lines_of t (stacked f g) ≡ lines_of t f ++ lines_of t g }
{}
