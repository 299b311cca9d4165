//! Long texts of writers, which are sent in pieces of a megabyte.

use crate::fed::write_one;
use crate::hold::hold;
use crate::made::{frame_of, json_writer, output, texts};
use pipe_columns::{DataFrame, Schema};
use std::alloc::{AllocError, Global};
use std::test::Fail;

/// How many bytes a line has beside those of its text.
const BESIDE: usize = 9;

/// How many rows there are, how many bytes the text of each has, and how many writes they take: a
/// text is sent once it has a megabyte.
const PIECES: [(usize, usize, u64); 4] = [
    (2, (1 << 20) - BESIDE, 2),
    (4, (1 << 19) - BESIDE, 2),
    (3, (1 << 19) - BESIDE - 1, 1),
    (4, 8, 1),
];

/// A text of so many bytes.
fn text_of(alloc: Global, bytes: usize) -> Result<String, AllocError> {
    let mut text = String::new(alloc);
    for _ in 0..bytes {
        text.push('x')?;
    }
    Ok(text)
}

/// Rows of the same text.
fn rows_of(alloc: Global, rows: usize, text: &str) -> Result<DataFrame, AllocError> {
    let texts = vec![in alloc; text; rows]?;
    frame_of(alloc, &texts)
}

/// Whether a frame is written where the write of a number fails, and how many bytes were.
fn written_where_fails(
    alloc: Global,
    schema: &Schema,
    frame: &DataFrame,
    failing: u64,
) -> Result<(bool, usize), AllocError> {
    let mut writer = json_writer(alloc, output(alloc, &[failing])?, schema)?;
    let is_written = write_one(&mut writer, frame).is_ok();
    Ok((is_written, writer.into_output().bytes().len()))
}

/// Whether a frame of so many bytes takes so many writes: where one of them fails, those before it were made.
fn is_sent_by(
    alloc: Global,
    schema: &Schema,
    frame: &DataFrame,
    bytes: u128,
    writes: u64,
) -> Result<bool, AllocError> {
    for failing in 0..=writes {
        let (is_written, told) = written_where_fails(alloc, schema, frame, failing)?;
        let sent = u128::from(failing).saturating_mul(bytes);
        if is_written != (failing == writes) || u128::from(writes) * told as u128 != sent {
            return Ok(false);
        }
    }
    Ok(true)
}

/// Whether rows of texts of so many bytes do.
fn are_sent_by(
    alloc: Global,
    schema: &Schema,
    rows: usize,
    bytes: usize,
    writes: u64,
) -> Result<bool, AllocError> {
    let text = text_of(alloc, bytes)?;
    let frame = rows_of(alloc, rows, text.as_str());
    drop(text);
    let all = (rows as u128).saturating_mul(bytes as u128 + BESIDE as u128);
    is_sent_by(alloc, schema, &frame?, all, writes)
}

/// Whether all are.
fn are_all_sent(alloc: Global, schema: &Schema) -> Result<bool, AllocError> {
    for (rows, bytes, writes) in PIECES {
        if !are_sent_by(alloc, schema, rows, bytes, writes)? {
            return Ok(false);
        }
    }
    Ok(true)
}

#[test]
fn text_is_sent_in_pieces(rt: HostRuntime) -> Result<(), Fail> {
    let schema = texts(rt.alloc())?;
    hold(are_all_sent(rt.alloc(), &schema))
}
