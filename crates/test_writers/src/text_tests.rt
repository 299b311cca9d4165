//! Heads and lines that are made first, and then written as texts.

use crate::hold::hold;
use crate::made::{frame_of, output, texts};
use pipe_io::MemoryOutput;
use pipe_writers::{CsvLines, JsonLines, Lines, TextLines, write_texts};
use std::alloc::{AllocError, Global};
use std::test::Fail;

const ROWS: [&str; 3] = ["a", "", "c"];

/// The line of a row, where it fits.
fn line_of(alloc: Global, lines: &TextLines, row: &str) -> Result<Vec<u8>, AllocError> {
    let frame = frame_of(alloc, &[row])?;
    if !frame.fits(lines.schema()) {
        return Err(AllocError);
    }
    let piece = lines.add_lines(Vec::new(alloc), &frame, 0, usize::MAX)?;
    Ok(piece.text)
}

/// The line of each row.
fn lines_of(alloc: Global, lines: &TextLines) -> Result<Vec<Vec<u8>>, AllocError> {
    let mut made = Vec::new(alloc);
    for row in ROWS {
        made.push(line_of(alloc, lines, row)?)?;
    }
    Ok(made)
}

/// Whether a head and texts are written.
fn is_written(output: &mut MemoryOutput, head: &[u8], texts: &[Vec<u8>], text: &[u8]) -> bool {
    write_texts(output, head, texts).is_ok() && output.bytes() == text
}

/// Whether the head and the lines of all rows are a text.
fn are_written(
    alloc: Global,
    lines: &TextLines,
    output: &mut MemoryOutput,
    text: &[u8],
) -> Result<bool, AllocError> {
    let head = lines.add_head(Vec::new(alloc))?;
    let texts = lines_of(alloc, lines)?;
    Ok(is_written(output, &head, &texts, text))
}

/// Whether that is so into a new output.
fn come_to(alloc: Global, lines: TextLines, text: &[u8]) -> Result<bool, AllocError> {
    let mut output = output(alloc, &[])?;
    are_written(alloc, &lines, &mut output, text)
}

#[test]
fn texts_of_both_formats_are_written(rt: HostRuntime) -> Result<(), Fail> {
    let alloc = rt.alloc();
    let csv = TextLines::csv(texts(alloc)?, true);
    hold(come_to(alloc, csv, b"t\na\n\"\"\nc\n"))?;
    let csv = TextLines::Csv(CsvLines::new(texts(alloc)?, false));
    hold(come_to(alloc, csv, b"a\n\"\"\nc\n"))?;
    let text = b"{\"t\":\"a\"}\n{\"t\":\"\"}\n{\"t\":\"c\"}\n";
    hold(come_to(alloc, TextLines::json(alloc, texts(alloc)?), text))?;
    let json = TextLines::Json(JsonLines::new(alloc, texts(alloc)?));
    hold(come_to(alloc, json, text))
}
