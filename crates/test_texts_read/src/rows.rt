//! Numbers of fields and rows that are gone over, and texts that are cut.

use crate::hold::hold;
use crate::{numbers, plain};
use csv::ByteRecord;
use pipe_scan::{Skip, Stops, has_quote, piece_ends, skip_rows};
use std::alloc::{AllocError, Global};
use std::test::Fail;

/// Texts of rows of two fields: how far four of them are gone over, and where that ends.
const TEXTS: [(&[u8], Skip, usize); 6] = [
    (b"", Skip::End(0), 0),
    (b"a,b\n\n1,\"x\n,\"\r\n", Skip::End(2), 13),
    (b"a,b\n1,2\n3,4\n5,6\n7", Skip::Done, 16),
    (b"a,b\n1,2,3\n", Skip::OtherWidth(1), 4),
    (b"a,b\n\"1,2\"\n", Skip::OtherWidth(1), 4),
    (b"a,b\n1", Skip::OtherWidth(1), 4),
];

/// Whether both go equally far.
fn are_alike(one: Skip, other: Skip) -> bool {
    match (one, other) {
        (Skip::Done, Skip::Done) => true,
        (Skip::End(count), Skip::End(due)) => count == due,
        (Skip::OtherWidth(count), Skip::OtherWidth(due)) => count == due,
        _ => false,
    }
}

/// Whether four rows of a text are gone over so far, up to a place.
fn skips(
    text: &[u8],
    row: &mut ByteRecord,
    field: &mut Vec<u8>,
    how_far: Skip,
    at: usize,
) -> Result<bool, AllocError> {
    let mut stops = Stops::new(0);
    let skip = skip_rows(text, &mut stops, &mut [0; 2], row, field, 4)?;
    Ok(are_alike(skip, how_far) && stops.cursor() == at)
}

/// Whether rows of each text are gone over so far, up to a place.
fn all_skip(row: &mut ByteRecord, field: &mut Vec<u8>) -> Result<bool, AllocError> {
    for (text, how_far, at) in &TEXTS {
        if !skips(text, row, field, *how_far, *at)? {
            return Ok(false);
        }
    }
    Ok(true)
}

/// Whether a text is cut behind ends of lines.
fn is_cut(alloc: Global) -> Result<bool, AllocError> {
    let ends = piece_ends(alloc, b"k,v\r\n1,2\n\n3,4", 0, 4)?;
    Ok(ends.as_slice() == [4, 9, 13].as_slice())
}

/// Whether a text without a quote has none, and one with a quote has it.
fn are_quotes_found() -> bool {
    !has_quote(b"k,v\r\n1,2\n\n3,4") && has_quote(b"k,\"v\"")
}

#[test]
fn rows_are_gone_over(rt: HostRuntime) -> Result<(), Fail> {
    let mut row = ByteRecord::new(rt.alloc());
    let mut field = Vec::new(rt.alloc());
    hold(all_skip(&mut row, &mut field))
}

#[test]
fn texts_are_looked_over(rt: HostRuntime) -> Result<(), Fail> {
    hold(is_cut(rt.alloc()))?;
    hold(Ok(are_quotes_found() && numbers::are_read() && plain::are_all_gone_over()))
}
