//! Any record, a byte at a time, as the definition reads it.

ghost use Rattle.std.specs.Prelude.{◌++◌, ◌≡◌, ◌≤◌, IfOk, OnOk, length};
ghost use Rattle.csv.specs.Machine.{in_field, start_record, step};
ghost use Rattle.csv.specs.Reading.{default_config};
ghost use Rattle.csv.specs.Records.{fields_of};
ghost use Rattle.pipe_scan.specs.Modes.{action_of, joins, state_of};
ghost use Rattle.pipe_scan.specs.Records.{between};
ghost use Rattle.pipe_scan.specs.Row.{TakesOne};

use csv::ByteRecord;
use std::alloc::AllocError;

/// Where a reader of a record stands.
#[derive(Clone, Copy, Drop)]
pub(crate) enum Mode {
    /// Before a record.
    BeforeRecord,
    /// Behind a CR that ended a line.
    AfterCr,
    /// At the start of a field.
    FieldStart,
    /// Within a field that began with no quote, or behind its quotes.
    InField,
    /// Between quotes.
    InQuotes,
    /// Behind a quote that may close.
    AfterQuote,
}

/// What a byte does.
#[derive(Clone, Copy, Drop)]
pub(crate) enum Effect {
    Skip,
    Copy,
    EndField,
    EndRecord,
}

/// What a byte does within a field.
fn within_field(byte: u8) -> (Mode, Effect)
    ensures mode { state_of result.0 ≡ (in_field default_config byte).0 }
    ensures effect { action_of result.1 ≡ (in_field default_config byte).1 }
{
    if byte == b',' {
        (Mode::FieldStart, Effect::EndField)
    } else if byte == b'\r' {
        (Mode::AfterCr, Effect::EndRecord)
    } else if byte == b'\n' {
        (Mode::BeforeRecord, Effect::EndRecord)
    } else {
        (Mode::InField, Effect::Copy)
    }
}

/// What a byte does at the start of a record.
fn before_record(byte: u8) -> (Mode, Effect)
    ensures mode { state_of result.0 ≡ (start_record default_config byte).0 }
    ensures effect { action_of result.1 ≡ (start_record default_config byte).1 }
{
    if byte == b'\r' || byte == b'\n' {
        (Mode::BeforeRecord, Effect::Skip)
    } else if byte == b'"' {
        (Mode::InQuotes, Effect::Skip)
    } else {
        within_field(byte)
    }
}

/// What a byte does at a mode.
#[inline(always)]
pub(crate) fn next_step(mode: Mode, byte: u8) -> (Mode, Effect)
    ensures mode { state_of result.0 ≡ (step default_config (state_of mode) byte).0 }
    ensures effect { action_of result.1 ≡ (step default_config (state_of mode) byte).1 }
{
    match mode {
        Mode::BeforeRecord => before_record(byte),
        Mode::AfterCr => {
            if byte == b'\n' {
                (Mode::BeforeRecord, Effect::Skip)
            } else {
                before_record(byte)
            }
        }
        Mode::FieldStart => {
            if byte == b'"' {
                (Mode::InQuotes, Effect::Skip)
            } else {
                within_field(byte)
            }
        }
        Mode::InField => within_field(byte),
        Mode::InQuotes => {
            if byte == b'"' {
                (Mode::AfterQuote, Effect::Skip)
            } else {
                (Mode::InQuotes, Effect::Copy)
            }
        }
        Mode::AfterQuote => {
            if byte == b'"' {
                (Mode::InQuotes, Effect::Copy)
            } else {
                within_field(byte)
            }
        }
    }
}

/// Whether each byte above the comma is one of the field's.
#[inline(always)]
pub(crate) fn joins(mode: Mode) -> bool
    ensures { result ≡ joins mode }
{
    match mode {
        Mode::InField | Mode::InQuotes => true,
        _ => false,
    }
}

/// Puts the bytes between two places of a text behind those of a field.
fn take_run(text: &[u8], low: usize, high: usize, field: &mut Vec<u8>) -> Result<(), AllocError>
    requires order { low ≤ high }
    requires within { high ≤ length text.now }
    ensures { OnOk result (field.new.items ≡ field.old.items ++ between text.now low high) }
{
    field.extend_from_slice(&text[low..high])
}

/// Reads the record from `at` on into `row`, whatever it has, and tells where the next one may
/// begin, or that there was none. `field` is room for the bytes of a field.
pub fn read_record(
    text: &[u8],
    at: usize,
    row: &mut ByteRecord,
    field: &mut Vec<u8>,
) -> Result<Option<usize>, AllocError>
    requires { at ≤ length text.now }
    ensures { IfOk result (λ o. TakesOne text.now at (fields_of row.new) o) }
{
    row.clear();
    field.clear();
    let mut mode = Mode::BeforeRecord;
    let mut run = at;
    for i in at..text.len() {
        let byte = text[i];
        if byte > b',' && joins(mode) {
            continue;
        }
        let (next, effect) = next_step(mode, byte);
        mode = next;
        match effect {
            Effect::Copy => {}
            Effect::Skip => {
                take_run(text, run, i, field)?;
                run = i + 1;
            }
            Effect::EndField => {
                take_run(text, run, i, field)?;
                row.push_field(field)?;
                field.clear();
                run = i + 1;
            }
            Effect::EndRecord => {
                take_run(text, run, i, field)?;
                row.push_field(field)?;
                return Ok(Some(i + 1));
            }
        }
    }
    match mode {
        Mode::BeforeRecord | Mode::AfterCr => Ok(None),
        _ => {
            take_run(text, run, text.len(), field)?;
            row.push_field(field)?;
            Ok(Some(text.len()))
        }
    }
}
