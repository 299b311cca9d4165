//! Secret hashes of the codes of values of the one key.

ghost use Rattle.std.specs.Prelude.{◌≡◌, ◌∷◌, [], List, ℕ};
ghost use Rattle.std.specs.Hash.DefaultHasher.{write};
ghost use Rattle.pipe_chains.specs.Hash.{secret_hash_of};
ghost use Rattle.pipe_columns.specs.Key.{text_code};
ghost use Rattle.pipe_columns.specs.declared.data_type.DataType.{DataType};
ghost use Rattle.pipe_sinks.specs.Marks.{IsSought, IsTextKey, sole_code};

use pipe_chains::{secret_hash, secret_hasher};
use pipe_columns::AnyValue;
use std::hash::{DefaultHasher, Hasher, RandomState};

/// Writes a byte of a text as it stands in the text's code.
fn write_byte(hasher: &mut DefaultHasher, byte: u8)
    ensures { (rest : List ℕ)
        → write hasher.new (text_code rest) ≡ write hasher.old (text_code (byte ∷ rest)) }
{
    if byte == 0 {
        hasher.write(&[0, 1]);
    } else {
        hasher.write(&[byte]);
    }
}

/// Writes a text as its code has it, but for the end, byte by byte.
fn write_escaped(hasher: &mut DefaultHasher, text: &[u8])
    ensures { write hasher.new (0 ∷ 0 ∷ []) ≡ write hasher.old (text_code text.now) }
{
    for byte in text {
        write_byte(hasher, *byte);
    }
}

/// Writes a text as its code has it, but for the end.
fn write_text(hasher: &mut DefaultHasher, text: &[u8])
    ensures { write hasher.new (0 ∷ 0 ∷ []) ≡ write hasher.old (text_code text.now) }
{
    if text.contains(&0) {
        write_escaped(hasher, text);
    } else {
        hasher.write(text);
    }
}

/// The secret hash of the code of a text.
fn secret_text(hash_keys: Option<RandomState>, text: &[u8]) -> u64
    ensures { result ≡ secret_hash_of hash_keys (1 ∷ text_code text.now) }
{
    let mut hasher = secret_hasher(hash_keys);
    hasher.write(&[1]);
    write_text(&mut hasher, text);
    hasher.write(&[0, 0]);
    hasher.finish()
}

/// The secret hash of the code of a value that is a key of texts.
pub(crate) fn secret_lead(value: &AnyValue, hash_keys: Option<RandomState>) -> u64
    ensures { (types : List DataType) (mark : ℕ) → IsTextKey types
        → IsSought types value.now mark
        → result ≡ secret_hash_of hash_keys (sole_code types value.now) }
{
    match value {
        AnyValue::Null => secret_hash(hash_keys, &[0]),
        AnyValue::Text(text) => secret_text(hash_keys, text.as_bytes()),
        AnyValue::Int(_) | AnyValue::Boolean(_) => 0,
    }
}
