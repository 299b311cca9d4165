//! What a number type is to a running aggregate.

ghost use Rattle.std.specs.Prelude.{◌≡◌, ◌+ℤ◌};
ghost use Rattle.std.specs.Ordering.{int_cmp};
ghost use Rattle.pipe_native.specs.Native.{IsNative, Native};

use pipe_columns::DataType;
use std::cmp::Ordering;

/// A number type that a running aggregate keeps its numbers in.
pub trait NumericNative: Copy + Drop {
    /// What the type is as numbers.
    ghost native: { Native Self };

    /// The number, wrapped into the type.
    fn narrowed(number: i128) -> Self
        ensures { result ≡ native.wrap number };

    /// The number that this is.
    fn widened(self) -> i128
        ensures { result ≡ native.number self };

    /// The sum, wrapped into the type.
    fn plus(self, other: Self) -> Self
        ensures { result ≡ native.wrap (native.number self +ℤ native.number other) };

    /// Which is greater, as numbers.
    fn compare(self, other: Self) -> Ordering
        ensures { result ≡ int_cmp (native.number self) (native.number other) };

    /// The name of the type.
    fn dtype() -> DataType
        ensures { result ≡ native.dtype };

    ghost laws: { IsNative native };
}
