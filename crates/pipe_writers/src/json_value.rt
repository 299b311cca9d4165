//! Values as JSON.

ghost use Rattle.std.specs.Prelude.{◌≡◌, ◌++◌, true, OnOk};
ghost use Rattle.std.specs.Fmt.{signed_decimal};
ghost use Rattle.pipe_writers.specs.JsonText.{json_string, json_value};
ghost use Rattle.pipe_writers.specs.PlainBytes.{are_plain};

use crate::json_plain::is_plain;
use itoa::Buffer;
use json::Writer;
use pipe_columns::AnyValue;
use std::alloc::{AllocError, Global};

/// What is used again for each value.
#[derive(Drop)]
pub(crate) struct Scratch {
    pub(crate) alloc: Global,
    digits: Buffer,
    escaped: Vec<u8>,
}

/// Nothing is in use.
pub(crate) fn empty_scratch(alloc: Global) -> Scratch {
    Scratch {
        alloc,
        digits: Buffer::new(),
        escaped: Vec::new(alloc),
    }
}

/// Puts a JSON string that has no escapes behind a text.
#[inline(always)]
fn append_plain(text: &mut Vec<u8>, bytes: &[u8]) -> Result<(), AllocError>
    requires { are_plain bytes.now ≡ true }
    ensures { OnOk result (text.new.items ≡ text.old.items ++ json_string bytes.now) }
{
    text.push(b'"')?;
    text.extend_from_slice(bytes)?;
    text.push(b'"')?;
    Ok(())
}

/// Puts a JSON string that may have escapes behind a text. The writer fills room ahead of what it
/// writes, so it writes apart from a long text.
fn append_escaped(text: &mut Vec<u8>, scratch: &mut Scratch, string: &str) -> Result<(), AllocError>
    ensures { OnOk result (text.new.items ≡ text.old.items ++ json_string string.now) }
{
    let mut escaped = std::mem::replace(&mut scratch.escaped, Vec::new(scratch.alloc));
    escaped.clear();
    let mut writer = Writer::new(escaped);
    writer.string(string)?;
    scratch.escaped = writer.into_inner();
    text.extend_from_slice(&scratch.escaped)?;
    Ok(())
}

/// Puts a JSON string behind a text.
#[inline(always)]
pub(crate) fn append_string(
    text: &mut Vec<u8>,
    scratch: &mut Scratch,
    string: &str,
) -> Result<(), AllocError>
    ensures { OnOk result (text.new.items ≡ text.old.items ++ json_string string.now) }
{
    if is_plain(string.as_bytes()) {
        append_plain(text, string.as_bytes())
    } else {
        append_escaped(text, scratch, string)
    }
}

/// Puts the digits of a number behind a text, by way of 64 bits where it fits them.
#[inline(always)]
fn append_number(text: &mut Vec<u8>, scratch: &mut Scratch, number: i128) -> Result<(), AllocError>
    ensures { OnOk result (text.new.items ≡ text.old.items ++ signed_decimal number) }
{
    let written = match i64::try_from(number) {
        Ok(short) => scratch.digits.format(short),
        Err(_) => scratch.digits.format(number),
    };
    text.extend_from_slice(written.as_bytes())
}

/// Puts a value behind a text.
#[inline(always)]
pub(crate) fn append_value(
    text: &mut Vec<u8>,
    scratch: &mut Scratch,
    value: &AnyValue,
) -> Result<(), AllocError>
    ensures { OnOk result (text.new.items ≡ text.old.items ++ json_value value.now) }
{
    match value {
        AnyValue::Null => text.extend_from_slice(b"null"),
        AnyValue::Boolean(true) => text.extend_from_slice(b"true"),
        AnyValue::Boolean(false) => text.extend_from_slice(b"false"),
        AnyValue::Int(number) => append_number(text, scratch, *number),
        AnyValue::Text(string) => append_string(text, scratch, string.as_str()),
    }
}
