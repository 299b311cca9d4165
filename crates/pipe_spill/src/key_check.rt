//! Whether bytes are a key, told from the bytes as they lie: no value is made.

ghost use Rattle.std.specs.Prelude.{◌≤◌, ◌+◌, ◌↔◌, ◌∷◌, IfSome, IsNone, IsTrue, length};
ghost use Rattle.pipe_columns.specs.declared.data_type.DataType.TheVariants as dt;
ghost use Rattle.pipe_spill.specs.KeyTypes.{BeginsNoValue};
ghost use Rattle.pipe_spill.specs.Reading.{BeginsNoText, BeginsText, BeginsValue};
ghost use Rattle.pipe_spill.specs.SpillRow.{IsKey};

use crate::decode::read_truth;
use crate::read_number::read_number;
use pipe_columns::DataType;
use std::str;

/// How many bytes of a text's code stand before its end.
fn text_end(body: &[u8]) -> Option<usize>
    ensures within { IfSome result (λ end. end + 2 ≤ length body.now) }
    ensures text { IfSome result (BeginsText body.now) }
    ensures none { IsNone result → BeginsNoText body.now }
{
    let mut at: usize = 0;
    while at + 1 < body.len() {
        match (body[at], body[at + 1]) {
            (0, 0) => return Some(at),
            (0, 1) => at += 2,
            (0, _) => return None,
            _ => at += 1,
        }
    }
    None
}

/// The bytes after the code of a text, which is UTF-8 exactly where its escaped form is.
fn skip_text(body: &[u8]) -> Option<&[u8]>
    ensures some { IfSome result (λ rest. BeginsValue dt.String (1 ∷ body.now) rest.now) }
    ensures none { IsNone result → BeginsNoValue dt.String (1 ∷ body.now) }
{
    let end = text_end(body)?;
    match str::from_utf8(&body[..end]) {
        Ok(_) => Some(&body[end + 2..]),
        Err(_) => None,
    }
}

/// The bytes after the code of a value that isn't null, whose mark stood in front.
fn skip_body(body: &[u8], dtype: DataType) -> Option<&[u8]>
    ensures some { IfSome result (λ rest. BeginsValue dtype (1 ∷ body.now) rest.now) }
    ensures none { IsNone result → BeginsNoValue dtype (1 ∷ body.now) }
{
    match dtype {
        DataType::Boolean => match read_truth(body) {
            Some((_, rest)) => Some(rest),
            None => None,
        },
        DataType::String => skip_text(body),
        _ => match read_number(body, dtype) {
            Some((_, rest)) => Some(rest),
            None => None,
        },
    }
}

/// The bytes after the code of a value.
fn skip_value(bytes: &[u8], dtype: DataType) -> Option<&[u8]>
    ensures some { IfSome result (λ rest. BeginsValue dtype bytes.now rest.now) }
    ensures none { IsNone result → BeginsNoValue dtype bytes.now }
{
    match bytes.split_first() {
        Some((0, rest)) => Some(rest),
        Some((1, body)) => skip_body(body, dtype),
        _ => None,
    }
}

/// Whether the bytes are the code of a tuple of the types.
pub(crate) fn is_key(key: &[u8], types: &[DataType]) -> bool
    ensures { IsTrue result ↔ IsKey types.now key.now }
{
    let mut rest = key;
    for dtype in types {
        match skip_value(rest, *dtype) {
            Some(after) => rest = after,
            None => return false,
        }
    }
    rest.is_empty()
}
