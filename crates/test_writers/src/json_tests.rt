//! Texts at the edges of JSON, read back.

use crate::hold::hold;
use crate::made::{frame_of, output};
use pipe_io::MemoryOutput;
use pipe_writers::write_json;
use serde_json::Value;
use std::alloc::{AllocError, Global};
use std::test::Fail;

/// Each character below 160, quotes and backslashes among them, and some above.
fn characters(alloc: Global) -> Result<String, AllocError> {
    let mut all = String::new(alloc);
    for code in 0..160u8 {
        all.push(char::from(code))?;
    }
    all.push_str("\u{7ff}\u{800}\u{2028}\u{ffff}\u{10000}\u{10ffff}\\\"\\\\")?;
    Ok(all)
}

/// Writes a text as a line of JSON.
fn write_line(alloc: Global, output: &mut MemoryOutput, text: &str) -> Result<bool, AllocError> {
    let frame = frame_of(alloc, &[text])?;
    Ok(write_json(alloc, output, &frame).is_ok())
}

/// Whether bytes are a line of JSON that has a text.
fn has_text(alloc: Global, bytes: &[u8], text: &str) -> bool {
    let Ok(line) = str::from_utf8(bytes) else {
        return false;
    };
    match Value::from_str(alloc, line) {
        Ok(value) => value.get("t").and_then(Value::as_str) == Some(text),
        Err(_) => false,
    }
}

/// Whether a text is written and read back.
fn is_read_back(alloc: Global, output: &mut MemoryOutput, text: &str) -> Result<bool, AllocError> {
    Ok(write_line(alloc, output, text)? && has_text(alloc, output.bytes(), text))
}

#[test]
fn texts_are_read_back(rt: HostRuntime) -> Result<(), Fail> {
    let all = characters(rt.alloc())?;
    let mut output = output(rt.alloc(), &[])?;
    hold(is_read_back(rt.alloc(), &mut output, all.as_str()))
}
