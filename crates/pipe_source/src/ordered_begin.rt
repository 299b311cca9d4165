//! Where the rows of a text begin whose columns stand in the order of a schema.

ghost use Rattle.std.specs.Prelude.{◌≤◌, ℕ, IfErr, IfOk, Option, length};
ghost use Rattle.pipe_csv.specs.CsvError.{StopsBy};
ghost use Rattle.pipe_io.specs.declared.whole_file.TheConstants.{MOST_FILE_BYTES};
ghost use Rattle.pipe_source.specs.CsvChunks.{text_rows};
ghost use Rattle.pipe_source.specs.Rows.{HasRowsFrom};

use csv::ByteRecord;
use pipe_columns::Field;
use pipe_csv::{CsvError, is_header};
use pipe_scan::{read_record, text_start};
use std::alloc::Global;

/// Where the rows of the text of a file begin, behind its header.
pub(crate) fn find_begin(
    alloc: Global,
    text: &[u8],
    fields: &[Field],
    file: usize,
) -> Result<usize, CsvError>
    requires small { length text.now ≤ MOST_FILE_BYTES }
    ensures rows { IfOk result
        (λ begin. HasRowsFrom file fields.now text.now begin) }
    ensures within { IfOk result (λ begin. begin ≤ length text.now) }
    ensures stop { IfErr result
        (λ e. (wanted : Option ℕ) → StopsBy e (text_rows file wanted fields.now text.now)) }
{
    let start = text_start(text);
    let mut entry = ByteRecord::new(alloc);
    let mut bytes = Vec::new(alloc);
    let Some(begin) = read_record(text, start, &mut entry, &mut bytes)? else {
        return Err(CsvError::Header { file });
    };
    if !is_header(fields, &entry) {
        return Err(CsvError::Header { file });
    }
    Ok(begin)
}
