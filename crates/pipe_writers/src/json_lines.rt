//! Rows as lines of JSON.

ghost use Rattle.std.specs.Prelude.{◌≡◌, ◌++◌, ◌+◌, ◌<◌, ◌≤◌, ℕ, List, [], IfOk, OnOk, false, length};
ghost use Rattle.pipe_columns.specs.Frame.{FitsSchema, row_at};
ghost use Rattle.pipe_writers.specs.JsonHeads.{AreHeads};
ghost use Rattle.pipe_writers.specs.JsonText.{json_line, json_members, json_shape, member_head};
ghost use Rattle.pipe_lines.specs.Lines.{GoesOn};
ghost use Rattle.pipe_lines.specs.Rows.{names_of, frame_rows};

use crate::json_value::{Scratch, append_string, append_value, empty_scratch};
use pipe_columns::{DataFrame, Schema};
use pipe_lines::{Lines, Piece};
use std::alloc::{AllocError, Global};

/// Lines of JSON: an object for each row.
#[derive(Drop)]
pub struct JsonLines {
    pub(crate) alloc: Global,
    pub(crate) schema: Schema,
}

impl JsonLines {
    /// The lines of rows of a schema.
    pub fn new(alloc: Global, schema: Schema) -> JsonLines
        ensures { result.schema ≡ schema }
    {
        JsonLines { alloc, schema }
    }
}

/// The head of a member: what stands before its value.
fn make_head(scratch: &mut Scratch, later: bool, name: &str) -> Result<Vec<u8>, AllocError>
    ensures { IfOk result (λ v. v.items ≡ member_head later name.now) }
{
    let mut text = Vec::new(scratch.alloc);
    if later {
        text.push(b',')?;
    }
    append_string(&mut text, scratch, name)?;
    text.push(b':')?;
    Ok(text)
}

/// The heads of the members of each line.
fn make_heads(scratch: &mut Scratch, schema: &Schema) -> Result<Vec<Vec<u8>>, AllocError>
    ensures { IfOk result (λ v. AreHeads (names_of schema.now) v.items) }
{
    let fields = schema.fields();
    let mut heads = Vec::new(scratch.alloc);
    for i in 0..fields.len() {
        heads.push(make_head(scratch, 0 < i, fields[i].name.as_str())?)?;
    }
    Ok(heads)
}

/// Puts the members of a row behind a text.
#[inline(always)]
fn append_members(
    text: &mut Vec<u8>,
    scratch: &mut Scratch,
    heads: &[Vec<u8>],
    frame: &DataFrame,
    row: usize,
) -> Result<(), AllocError>
    requires columns { length frame.now.columns ≡ length heads.now }
    requires within { row < frame.now.height }
    ensures { (names : List (List ℕ)) → AreHeads names heads.now → OnOk result (text.new.items
        ≡ text.old.items ++ json_members false names (row_at frame.now.columns row)) }
{
    let columns = frame.columns();
    for i in 0..columns.len() {
        text.extend_from_slice(&heads[i])?;
        append_value(text, scratch, &columns[i].values()[row])?;
    }
    Ok(())
}

/// Puts the line of a row behind a text.
fn append_line(
    text: &mut Vec<u8>,
    scratch: &mut Scratch,
    heads: &[Vec<u8>],
    frame: &DataFrame,
    row: usize,
) -> Result<(), AllocError>
    requires columns { length frame.now.columns ≡ length heads.now }
    requires within { row < frame.now.height }
    ensures { (names : List (List ℕ)) → AreHeads names heads.now → OnOk result (text.new.items
        ≡ text.old.items ++ json_line names (row_at frame.now.columns row)) }
{
    text.push(b'{')?;
    append_members(text, scratch, heads, frame, row)?;
    text.extend_from_slice(b"}\n")
}

/// Puts the lines of rows from a place on behind a text, until it is so long or the frame ends, and
/// says which row is the next.
fn append_lines(
    text: &mut Vec<u8>,
    scratch: &mut Scratch,
    heads: &[Vec<u8>],
    frame: &DataFrame,
    from: usize,
    most: usize,
) -> Result<usize, AllocError>
    requires columns { length frame.now.columns ≡ length heads.now }
    requires within { from ≤ frame.now.height }
    ensures lines { (names : List (List ℕ)) → AreHeads names heads.now
        → IfOk result (λ next. GoesOn (json_line names) (frame_rows frame.now) from next
        text.old.items text.new.items) }
    ensures further { IfOk result (λ next. from < frame.now.height → from < next) }
    ensures within { IfOk result (λ next. next ≤ frame.now.height) }
    ensures long { IfOk result (λ next. next < frame.now.height → most ≤ length text.new.items) }
{
    for row in from..frame.height() {
        append_line(text, scratch, heads, frame, row)?;
        if most <= text.len() {
            return Ok(row + 1);
        }
    }
    Ok(frame.height())
}

impl Lines for JsonLines {
    ghost shape = { λ l. json_shape l.schema };

    fn schema(&self) -> &Schema {
        &self.schema
    }

    fn add_head(&self, text: Vec<u8>) -> Result<Vec<u8>, AllocError> {
        Ok(text)
    }

    fn add_lines(
        &self,
        text: Vec<u8>,
        frame: &DataFrame,
        from: usize,
        most: usize,
    ) -> Result<Piece, AllocError> {
        let mut text = text;
        let mut scratch = empty_scratch(self.alloc);
        let heads = make_heads(&mut scratch, &self.schema)?;
        let next = append_lines(&mut text, &mut scratch, &heads, frame, from, most)?;
        Ok(Piece { text, next })
    }
}
