//! Values: null, Booleans, numbers and texts.

ghost use Rattle.std.specs.Prelude.{◌≡◌, IfOk};
ghost use Rattle.pipe_columns.specs.AnyValue.{fits, fits_number, HasUtf8};

use crate::data_type::DataType;
use crate::text::Text;
use std::alloc::{AllocError, Global};

/// A value of a column, or none. Null is least, false comes before true, numbers are ordered by
/// value and texts by their bytes.
#[derive(Debug, Drop, PartialEq, Eq, PartialOrd, Ord)]
pub enum AnyValue {
    Null,
    Boolean(bool),
    Int(i128),
    Text(Text),
}

/// Whether a number is in the range of a type.
#[inline(always)]
fn is_in_range(number: i128, dtype: DataType) -> bool
    ensures { result ≡ fits_number number dtype }
{
    match dtype {
        DataType::Boolean | DataType::String => false,
        DataType::Int8 => number >= -128 && number <= 127,
        DataType::Int16 => number >= -32768 && number <= 32767,
        DataType::Int32 | DataType::Date => number >= -2147483648 && number <= 2147483647,
        DataType::Int64 => number >= -9223372036854775808 && number <= 9223372036854775807,
        DataType::UInt8 => number >= 0 && number <= 255,
        DataType::UInt16 => number >= 0 && number <= 65535,
        DataType::UInt32 => number >= 0 && number <= 4294967295,
        DataType::UInt64 => number >= 0 && number <= 18446744073709551615,
        DataType::Int128 => true,
    }
}

impl AnyValue {
    /// Whether a column of the type may hold the value.
    #[inline(always)]
    pub fn fits(&self, dtype: DataType) -> bool
        ensures fits { result ≡ fits self.now dtype }
        ensures utf8 { HasUtf8 self.now }
    {
        match self {
            AnyValue::Null => true,
            AnyValue::Boolean(_) => dtype == DataType::Boolean,
            AnyValue::Int(number) => is_in_range(*number, dtype),
            AnyValue::Text(text) => {
                let _utf8 = text.as_bytes();
                dtype == DataType::String
            }
        }
    }

    /// An equal value of its own. A value that is no text takes no memory.
    pub fn try_clone(&self, alloc: Global) -> Result<AnyValue, AllocError>
        ensures { IfOk result (λ v. v ≡ self.now) }
    {
        match self {
            AnyValue::Null => Ok(AnyValue::Null),
            AnyValue::Boolean(truth) => Ok(AnyValue::Boolean(*truth)),
            AnyValue::Int(number) => Ok(AnyValue::Int(*number)),
            AnyValue::Text(text) => Ok(AnyValue::Text(text.try_clone(alloc)?)),
        }
    }
}
