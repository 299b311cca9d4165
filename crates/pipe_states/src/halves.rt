//! The halves of a mean's sum.

ghost use Rattle.std.specs.Prelude.{◌≡◌, ◌*ℤ◌, ◌+ℤ◌, ◌^◌, pos, true};
ghost use Rattle.pipe_columns.specs.AnyValue.{fits, fits_number};
ghost use Rattle.pipe_columns.specs.declared.data_type.DataType.TheVariants as dt;
ghost use Rattle.pipe_states.specs.Forms.{joined_halves};
ghost use Rattle.pipe_states.specs.StateText.{high_half, low_half};

use pipe_columns::AnyValue;

/// The high half of a sum, null for none.
pub(crate) fn high_half(sum: &AnyValue) -> AnyValue
    ensures half { result ≡ high_half sum.now }
    ensures fits { fits result dt.Int64 ≡ true }
{
    match sum {
        AnyValue::Int(number) => AnyValue::Int(number.div_euclid(1 << 64)),
        _ => AnyValue::Null,
    }
}

/// The low half of a sum, null for none.
pub(crate) fn low_half(sum: &AnyValue) -> AnyValue
    ensures half { result ≡ low_half sum.now }
    ensures fits { fits result dt.UInt64 ≡ true }
{
    match sum {
        AnyValue::Int(number) => AnyValue::Int(number.rem_euclid(1 << 64)),
        _ => AnyValue::Null,
    }
}

/// The number of two halves.
fn joined(high: i128, low: i128) -> i128
    requires high { fits_number high dt.Int64 ≡ true }
    requires low { fits_number low dt.UInt64 ≡ true }
    ensures { result ≡ high *ℤ pos (2 ^ 64) +ℤ low }
{
    high * (1 << 64) + low
}

/// A sum of its halves, of which both are null or none is.
pub(crate) fn joined_halves(high: &AnyValue, low: &AnyValue) -> Option<AnyValue>
    requires high { fits high.now dt.Int64 ≡ true }
    requires low { fits low.now dt.UInt64 ≡ true }
    ensures { result ≡ joined_halves high.now low.now }
{
    match (high, low) {
        (AnyValue::Null, AnyValue::Null) => Some(AnyValue::Null),
        (AnyValue::Int(high), AnyValue::Int(low)) => Some(AnyValue::Int(joined(*high, *low))),
        _ => None,
    }
}
