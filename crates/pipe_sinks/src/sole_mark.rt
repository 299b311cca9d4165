//! Codes and marks of values of the one key.

ghost use Rattle.std.specs.Prelude.{◌≡◌, ◌==◌, ◌∷◌, ℕ, List, false, true};
ghost use Rattle.std.specs.List.{list_any};
ghost use Rattle.std.specs.Str.{bytes_eq};
ghost use Rattle.pipe_columns.specs.declared.any_value.AnyValue.{AnyValue};
ghost use Rattle.pipe_columns.specs.declared.data_type.DataType.{DataType};
ghost use Rattle.pipe_columns.specs.Key.{text_code};
ghost use Rattle.pipe_sinks.specs.Marks.{begins, is_narrow, IsSole, IsSoleValue, mark_of, number_mark, sole_code};

use pipe_chains::hash_bytes;
use pipe_columns::AnyValue;

/// The mark of a number of 64 bits at most.
fn number_mark(number: i128) -> u64
    requires { is_narrow number ≡ true }
    ensures { result ≡ number_mark number }
{
    if number < 0 {
        (number + (1 << 64)) as u64
    } else {
        number as u64
    }
}

/// The mark of a value of the one key.
pub(crate) fn mark_of(value: &AnyValue) -> u64
    requires { (types : List DataType) × IsSole types × IsSoleValue types value.now }
    ensures { result ≡ mark_of value.now }
{
    match value {
        AnyValue::Null => 0,
        AnyValue::Boolean(truth) => u64::from(*truth),
        AnyValue::Int(number) => number_mark(*number),
        AnyValue::Text(text) => hash_bytes(text.as_bytes()),
    }
}

/// Whether bytes begin with one.
fn begins(bytes: &[u8], byte: u8) -> bool
    ensures { result ≡ begins byte bytes.now }
{
    match bytes.first() {
        Some(first) => *first == byte,
        None => false,
    }
}

/// Whether bytes are the code of a text, byte by byte.
fn is_escaped_code(code: &[u8], text: &[u8]) -> bool
    ensures { result ≡ bytes_eq code.now (1 ∷ text_code text.now) }
{
    if !begins(code, 1) {
        return false;
    }
    let mut at = 1;
    for byte in text {
        if !begins(&code[at..], *byte) {
            return false;
        }
        at += 1;
        if *byte == 0 {
            if !begins(&code[at..], 1) {
                return false;
            }
            at += 1;
        }
    }
    code[at..] == [0, 0]
}

/// Whether bytes are the code of a text without a zero byte, which stands in it as it is.
fn is_plain_code(code: &[u8], text: &[u8]) -> bool
    requires { list_any (λ byte. byte == 0) text.now ≡ false }
    ensures { result ≡ bytes_eq code.now (1 ∷ text_code text.now) }
{
    let end = text.len() + 1;
    if code.len() != end + 2 {
        return false;
    }
    if !begins(code, 1) {
        return false;
    }
    let body = &code[1..end];
    body == text && code[end..] == [0, 0]
}

/// Whether bytes are the code of a text.
fn is_text_code(code: &[u8], text: &[u8]) -> bool
    ensures { result ≡ bytes_eq code.now (1 ∷ text_code text.now) }
{
    if text.contains(&0) {
        is_escaped_code(code, text)
    } else {
        is_plain_code(code, text)
    }
}

/// Whether the code of a value is that of another one that has its mark: of numbers no more than
/// whether they are null is looked at.
pub(crate) fn is_code_of(code: &[u8], value: &AnyValue) -> bool
    ensures { (types : List DataType) (v : AnyValue) → IsSole types
        → IsSoleValue types v → IsSoleValue types value.now → code.now ≡ sole_code types v
        → mark_of v ≡ mark_of value.now
        → result ≡ bytes_eq code.now (sole_code types value.now) }
{
    match value {
        AnyValue::Null => begins(code, 0),
        AnyValue::Text(text) => is_text_code(code, text.as_bytes()),
        AnyValue::Int(_) | AnyValue::Boolean(_) => begins(code, 1),
    }
}
