//! Values in other types.

ghost use Rattle.std.specs.Prelude.{◌≡◌};
ghost use Rattle.pipe_model.specs.Operators.{cast_value};

use pipe_columns::{AnyValue, DataType};

/// A value in another type: null where it is out of range.
pub(crate) fn cast(value: &AnyValue, dtype: DataType) -> AnyValue
    ensures { result ≡ cast_value dtype value.now }
{
    match value {
        AnyValue::Null | AnyValue::Text(_) => AnyValue::Null,
        AnyValue::Boolean(truth) => {
            if dtype == DataType::Boolean {
                AnyValue::Boolean(*truth)
            } else {
                AnyValue::Int(i128::from(*truth))
            }
        }
        AnyValue::Int(number) => {
            if dtype == DataType::Boolean {
                AnyValue::Boolean(*number != 0)
            } else if value.fits(dtype) {
                AnyValue::Int(*number)
            } else {
                AnyValue::Null
            }
        }
    }
}
