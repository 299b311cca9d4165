//! Calls that want memory: `rt try --test --fail-alloc N` refuses the allocation of number N, and a test then
//! tells that memory was wanting.

use crate::frames::{TWO_ROWS, is_two_rows, payload_of, row_of};
use crate::hold::hold;
use pipe_columns::{AnyValue, DataType, Text};
use pipe_spill::{
    DecodeError, FrameError, KeyBytes, SpillPayload, decode_key, encode_key, encode_key_into,
    read_frame, write_frame, write_payloads,
};
use std::alloc::{AllocError, Global};
use std::test::Fail;

/// The code of the text a, NUL, b and of the number 258 of type Int16.
const KEY: [u8; 10] = [1, 97, 0, 1, 98, 0, 0, 1, 129, 2];

/// The types of these.
const TYPES: [DataType; 2] = [DataType::String, DataType::Int16];

/// Whether a text and 258 have that code, also where it is written in the place of what stood in a buffer.
fn have_code(alloc: Global, text: Text, buffer: &mut Vec<u8>) -> Result<bool, AllocError> {
    let values = [AnyValue::Text(text), AnyValue::Int(258)];
    let has_code = encode_key(alloc, &values, &TYPES)?.as_slice() == KEY.as_slice();
    encode_key_into(buffer, &values, &TYPES)?;
    Ok(has_code && buffer.as_slice() == KEY.as_slice())
}

/// How many values a code is read as.
fn values_of(alloc: Global, code: &[u8]) -> Result<usize, AllocError> {
    match decode_key(alloc, code, &TYPES) {
        Ok(values) => Ok(values.as_slice().len()),
        Err(DecodeError::Memory) => Err(AllocError),
        Err(DecodeError::NotAKey) => Ok(0),
    }
}

/// Whether a key of so many bytes is kept: a few stand in its row, and more in memory of their own.
fn is_kept(alloc: Global, bytes: &[u8]) -> Result<bool, AllocError> {
    Ok(KeyBytes::from_slice(alloc, bytes)?.as_slice() == bytes)
}

/// Whether keys of any length are.
fn are_kept(alloc: Global) -> Result<bool, AllocError> {
    let bytes = [7; 64];
    for len in [0, 1, 30, 31, 64] {
        if !is_kept(alloc, &bytes[..len])? {
            return Ok(false);
        }
    }
    Ok(true)
}

#[test]
fn memory_for_keys(rt: HostRuntime) -> Result<(), Fail> {
    let text = Text::new(rt.alloc(), "a\0b")?;
    hold(have_code(rt.alloc(), text, &mut Vec::new(rt.alloc())))?;
    let is_read = values_of(rt.alloc(), &KEY)? == 2 && values_of(rt.alloc(), &KEY[..9])? == 0;
    hold(Ok(is_read))?;
    hold(are_kept(rt.alloc()))
}

/// Whether rows have the frame of two rows.
fn have_frame(alloc: Global) -> Result<bool, AllocError> {
    let rows = [row_of(alloc, 1, 2, 6)?, row_of(alloc, 2, 2, 7)?];
    Ok(is_two_rows(&write_frame(alloc, &rows, &[DataType::Int64])?))
}

/// Whether payloads of them, of which one has no row, have the same frame.
fn have_payloads_frame(alloc: Global) -> Result<bool, AllocError> {
    let none = SpillPayload {
        rows: Vec::new(alloc),
    };
    let payloads = [
        payload_of(alloc, 1, 2, 6)?,
        none,
        payload_of(alloc, 2, 2, 7)?,
    ];
    Ok(is_two_rows(&write_payloads(alloc, &payloads, &[DataType::Int64])?))
}

/// How many rows a frame is read as, if it is one.
fn rows_of(alloc: Global, frame: &[u8]) -> Result<Option<usize>, AllocError> {
    let types = [DataType::Int64];
    match read_frame(alloc, frame, &types, &types) {
        Ok(rows) => Ok(Some(rows.len())),
        Err(FrameError::Memory) => Err(AllocError),
        Err(FrameError::NotAFrame) => Ok(None),
    }
}

/// Whether the frame is read, and not without its last byte, nor with more rows in front than any memory holds.
fn is_read(alloc: Global) -> Result<bool, AllocError> {
    let mut spoilt = TWO_ROWS;
    spoilt[0] = 255;
    Ok(
        rows_of(alloc, &TWO_ROWS)? == Some(2)
            && rows_of(alloc, &TWO_ROWS[..75])?.is_none()
            && rows_of(alloc, &spoilt)?.is_none(),
    )
}

#[test]
fn memory_for_frames(rt: HostRuntime) -> Result<(), Fail> {
    hold(have_frame(rt.alloc()))?;
    hold(have_payloads_frame(rt.alloc()))?;
    hold(is_read(rt.alloc()))
}
