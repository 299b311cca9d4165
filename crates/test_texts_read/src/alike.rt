//! Texts that are scanned, and read by `csv`.

use crate::hold::hold;
use csv::{ByteRecord, Reader, ReaderBuilder};
use pipe_scan::{Row, Stops, next_row, text_start};
use std::alloc::{AllocError, Global};
use std::test::Fail;

/// What texts are made of: the bytes that a reader tells apart, another, and a byte order mark.
const BYTES: [u8; 8] = [b',', b'"', b'\r', b'\n', b'a', 0xEF, 0xBB, 0xBF];

/// How many texts there are of each number of these bytes.
const TEXTS: [(usize, usize); 7] = [
    (0, 1),
    (1, 8),
    (2, 64),
    (3, 512),
    (4, 4096),
    (5, 32768),
    (6, 262144),
];

/// Lays so many of the bytes, told by their number, between two texts.
fn lay_between(
    text: &mut Vec<u8>,
    front: &[u8],
    length: usize,
    number: usize,
    back: &[u8],
) -> Result<(), AllocError> {
    text.clear();
    text.extend_from_slice(front)?;
    let mut left = number;
    for _ in 0..length {
        text.push(BYTES[left % 8])?;
        left /= 8;
    }
    text.extend_from_slice(back)
}

/// Whether the fields of a record are those that lie in a text.
fn are_fields(record: &ByteRecord, text: &[u8], start: usize, ends: &[usize]) -> bool {
    let mut low = start;
    for (i, end) in ends.iter().enumerate() {
        let high = *end;
        if low > high || high > text.len() || record.get(i) != Some(&text[low..high]) {
            return false;
        }
        low = high + 1;
    }
    record.len() == ends.len()
}

/// Whether the rows of a text, few of few fields, are scanned as `csv` reads them.
fn are_rows_alike(
    text: &[u8],
    reader: &mut Reader<&[u8]>,
    record: &mut ByteRecord,
    row: &mut ByteRecord,
    field: &mut Vec<u8>,
) -> Result<bool, AllocError> {
    let mut stops = Stops::new(text_start(text));
    let mut ends = [0; 8];
    for _ in 0..8 {
        let Ok(found) = reader.read_byte_record(record) else {
            return Err(AllocError);
        };
        let same = match next_row(text, &mut stops, &mut ends, row, field)? {
            Row::End => return Ok(!found),
            Row::Plain { start, count } => are_fields(record, text, start, &ends[..count]),
            Row::Quoted => *row == *record,
            Row::Wide => false,
        };
        if !found || !same {
            return Ok(false);
        }
    }
    Ok(false)
}

/// Whether a text of few fields is scanned as `csv` reads it.
fn reads_alike(alloc: Global, text: &[u8]) -> Result<bool, AllocError> {
    let mut reader = ReaderBuilder::new()
        .has_headers(false)
        .flexible(true)
        .from_reader(alloc, text);
    let mut record = ByteRecord::new(alloc);
    let mut row = ByteRecord::new(alloc);
    let mut field = Vec::new(alloc);
    are_rows_alike(text, &mut reader, &mut record, &mut row, &mut field)
}

/// Whether each text of the bytes, laid between two others, is scanned as `csv` reads it.
fn all_read_alike(
    alloc: Global,
    text: &mut Vec<u8>,
    front: &[u8],
    texts: &[(usize, usize)],
    back: &[u8],
) -> Result<bool, AllocError> {
    for &(length, count) in texts {
        for number in 0..count {
            lay_between(text, front, length, number, back)?;
            if !reads_alike(alloc, text)? {
                return Ok(false);
            }
        }
    }
    Ok(true)
}

/// Bytes without a stop, which end and begin pieces of 64 bytes inside the texts.
const FRONT: &[u8] = b"abcdefghijklmnopqrstuvwxyz0123456789abcdefghijklmnopqrstuvwxy";

const BACK: &[u8] = b"abcdefghijklmnopqrstuvwxyz0123456789abcdefghijklmnopqrstuvwxyz0123456789";

/// Whether all texts of few bytes are, alone and across 64 bytes.
fn few_bytes_read_alike(alloc: Global, text: &mut Vec<u8>) -> Result<bool, AllocError> {
    Ok(
        all_read_alike(alloc, text, b"", &TEXTS, b"")?
            && all_read_alike(alloc, text, FRONT, &TEXTS[..6], BACK)?,
    )
}

#[test]
fn texts_of_few_bytes_are_scanned_as_csv_reads_them(rt: HostRuntime) -> Result<(), Fail> {
    hold(few_bytes_read_alike(rt.alloc(), &mut Vec::new(rt.alloc())))
}

/// Texts at the edges of CSV: marks, ends of lines, empty lines, no end, quotes at the end, one byte, a
/// header alone.
const EDGES: [&[u8]; 14] = [
    b"\xEF\xBB\xBFk,v\n1,5\n",
    b"\xEF\xBB\xBF\xEF\xBB\xBFk,v\n",
    b"k,v\n1,5\n",
    b"k,v\r1,5\r",
    b"k,v\r\n1,5\r\n",
    b"k,v\r\n1,5\r",
    b"k,v\n\n\r\n\r1,5\n\n",
    b"\n\r\nk,v\n1,5",
    b"k,v\n1,\"5\"",
    b"k,v\n1,\"5",
    b"k,v\n1,\"5\"\"\"\n",
    b"k,v\n1,5\"",
    b"k",
    b"k,v\n",
];

/// Whether each of them is scanned as `csv` reads it, and a text with a field of a megabyte, alone and before
/// another row.
fn edges_read_alike(alloc: Global, wide: &mut Vec<u8>) -> Result<bool, AllocError> {
    for text in EDGES {
        if !reads_alike(alloc, text)? {
            return Ok(false);
        }
    }
    wide.extend_from_slice(b"k,v\n1,")?;
    wide.resize(1 << 20, b'x')?;
    let alone = reads_alike(alloc, wide)?;
    wide.extend_from_slice(b",\"y\"\n2,3\n")?;
    Ok(alone && reads_alike(alloc, wide)?)
}

#[test]
fn texts_at_the_edges_are_scanned_as_csv_reads_them(rt: HostRuntime) -> Result<(), Fail> {
    hold(edges_read_alike(rt.alloc(), &mut Vec::new(rt.alloc())))
}
