//! Rows as lines of CSV or of JSON, whichever is asked for.

ghost use Rattle.std.specs.Prelude.{◌≡◌};
ghost use Rattle.pipe_writers.specs.CsvLines.{csv_shape};
ghost use Rattle.pipe_writers.specs.JsonText.{json_shape};
ghost use Rattle.pipe_writers.specs.TextLines.{lines_shape};

use crate::csv_lines::CsvLines;
use crate::json_lines::JsonLines;
use pipe_columns::{DataFrame, Schema};
use pipe_lines::{Lines, Piece};
use std::alloc::{AllocError, Global};

/// Lines of CSV or of JSON.
#[derive(Drop)]
pub enum TextLines {
    Csv(CsvLines),
    Json(JsonLines),
}

impl TextLines {
    /// Lines of CSV of rows of a schema; there is no line of the names without `include_header`.
    pub fn csv(schema: Schema, include_header: bool) -> TextLines
        ensures { lines_shape result ≡ csv_shape include_header schema }
    {
        TextLines::Csv(CsvLines::new(schema, include_header))
    }

    /// Lines of JSON of rows of a schema.
    pub fn json(alloc: Global, schema: Schema) -> TextLines
        ensures { lines_shape result ≡ json_shape schema }
    {
        TextLines::Json(JsonLines::new(alloc, schema))
    }
}

impl Lines for TextLines {
    ghost shape = { lines_shape };

    fn schema(&self) -> &Schema {
        match self {
            TextLines::Csv(lines) => lines.schema(),
            TextLines::Json(lines) => lines.schema(),
        }
    }

    fn add_head(&self, text: Vec<u8>) -> Result<Vec<u8>, AllocError> {
        match self {
            TextLines::Csv(lines) => lines.add_head(text),
            TextLines::Json(lines) => lines.add_head(text),
        }
    }

    fn add_lines(
        &self,
        text: Vec<u8>,
        frame: &DataFrame,
        from: usize,
        most: usize,
    ) -> Result<Piece, AllocError> {
        match self {
            TextLines::Csv(lines) => lines.add_lines(text, frame, from, most),
            TextLines::Json(lines) => lines.add_lines(text, frame, from, most),
        }
    }
}
