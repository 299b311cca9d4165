//! A text out of the bytes of its code.

ghost use Rattle.std.specs.Prelude.{◌≡◌, ◌≢◌, ◌++◌, IfOk, IsErrOf, IsUtf8, List, ℕ};
ghost use Rattle.pipe_columns.specs.Key.{text_code};
ghost use Rattle.pipe_spill.specs.declared.decode.DecodeError.TheVariants as fault;

use crate::DecodeError;
use pipe_columns::Text;
use std::alloc::Global;

/// The bytes whose escaped form stands in front, and the bytes after it.
fn unescape(alloc: Global, body: &[u8]) -> Result<(Vec<u8>, &[u8]), DecodeError>
    ensures code { IfOk result (λ p. text_code p.0.items ++ p.1.now ≡ body.now) }
    ensures not_a_key { IsErrOf result fault.NotAKey
        → (text rest : List ℕ) → text_code text ++ rest ≢ body.now }
{
    let mut text = Vec::new(alloc);
    let mut at: usize = 0;
    while at + 1 < body.len() {
        match (body[at], body[at + 1]) {
            (0, 0) => return Ok((text, &body[at + 2..])),
            (0, 1) => {
                text.push(0)?;
                at += 2;
            }
            (0, _) => return Err(DecodeError::NotAKey),
            (byte, _) => {
                text.push(byte)?;
                at += 1;
            }
        }
    }
    Err(DecodeError::NotAKey)
}

/// The text whose code stands in front, without its mark, and the bytes after it.
pub(crate) fn read_text(alloc: Global, body: &[u8]) -> Result<(Text, &[u8]), DecodeError>
    ensures utf8 { IfOk result (λ p. IsUtf8 p.0) }
    ensures code { IfOk result (λ p. text_code p.0 ++ p.1.now ≡ body.now) }
    ensures not_a_key { IsErrOf result fault.NotAKey
        → (text rest : List ℕ) → IsUtf8 text → text_code text ++ rest ≢ body.now }
{
    let (bytes, rest) = unescape(alloc, body)?;
    match Text::from_bytes(bytes) {
        Some(text) => Ok((text, rest)),
        None => Err(DecodeError::NotAKey),
    }
}
