//! Where a piece of a list is cut: `COLUMN:TYPE=NAME`.

ghost use Rattle.std.specs.Prelude.{◌≡◌, option_map};
ghost use Rattle.lavzimo_words.specs.Items as items;

use pipe_columns::DataType;

/// The type of a name.
fn type_named(name: &str) -> Option<DataType>
    ensures { result ≡ items.type_named name.now }
{
    match name {
        "text" => Some(DataType::String),
        "int" => Some(DataType::Int64),
        "i8" => Some(DataType::Int8),
        "i16" => Some(DataType::Int16),
        "i32" => Some(DataType::Int32),
        "i64" => Some(DataType::Int64),
        "u8" => Some(DataType::UInt8),
        "u16" => Some(DataType::UInt16),
        "u32" => Some(DataType::UInt32),
        "u64" => Some(DataType::UInt64),
        "bool" => Some(DataType::Boolean),
        "date" => Some(DataType::Date),
        _ => None,
    }
}

/// A column, and the type behind the last colon; a tail that is no type belongs to the name.
pub(crate) fn typed(text: &str) -> (&str, Option<DataType>)
    ensures { (result.0.now, result.1) ≡ items.typed text.now }
{
    let Some((column, tail)) = text.rsplit_once(':') else {
        return (text, None);
    };
    match type_named(tail) {
        Some(dtype) => (column, Some(dtype)),
        None => (text, None),
    }
}

/// What stands before the last `=`, and the name behind it.
pub(crate) fn titled(text: &str) -> (&str, Option<&str>)
    ensures { (result.0.now, option_map (λ s. s.now) result.1) ≡ items.titled text.now }
{
    match text.rsplit_once('=') {
        Some((front, name)) => (front, Some(name)),
        None => (text, None),
    }
}
