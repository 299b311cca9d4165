//! Number types with a sign.

ghost use Rattle.pipe_native.specs.Native.{native_i8, native_i16, native_i32, native_i64, native_i128};
ghost use Rattle.pipe_native.specs.NativeLaws.{is_native_i8, is_native_i16, is_native_i32, is_native_i64, is_native_i128};

use crate::native::NumericNative;
use pipe_columns::DataType;
use std::cmp::Ordering;

impl NumericNative for i8 {
    ghost native = { native_i8 };

    ghost laws = { is_native_i8 };

    fn narrowed(number: i128) -> i8 {
        match i8::try_from(number) {
            Ok(short) => short,
            Err(_) => u8::narrowed(number).cast_signed(),
        }
    }

    fn widened(self) -> i128 {
        i128::from(self)
    }

    #[tactic(auto, using(std::proofs::lemmas::Int::wrapping_add_is))]
    fn plus(self, other: i8) -> i8 {
        self.wrapping_add(other)
    }

    fn compare(self, other: i8) -> Ordering {
        self.cmp(&other)
    }

    fn dtype() -> DataType {
        DataType::Int8
    }
}

impl NumericNative for i16 {
    ghost native = { native_i16 };

    ghost laws = { is_native_i16 };

    fn narrowed(number: i128) -> i16 {
        match i16::try_from(number) {
            Ok(short) => short,
            Err(_) => u16::narrowed(number).cast_signed(),
        }
    }

    fn widened(self) -> i128 {
        i128::from(self)
    }

    #[tactic(auto, using(std::proofs::lemmas::Int::wrapping_add_is))]
    fn plus(self, other: i16) -> i16 {
        self.wrapping_add(other)
    }

    fn compare(self, other: i16) -> Ordering {
        self.cmp(&other)
    }

    fn dtype() -> DataType {
        DataType::Int16
    }
}

impl NumericNative for i32 {
    ghost native = { native_i32 };

    ghost laws = { is_native_i32 };

    fn narrowed(number: i128) -> i32 {
        match i32::try_from(number) {
            Ok(short) => short,
            Err(_) => u32::narrowed(number).cast_signed(),
        }
    }

    fn widened(self) -> i128 {
        i128::from(self)
    }

    #[tactic(auto, using(std::proofs::lemmas::Int::wrapping_add_is))]
    fn plus(self, other: i32) -> i32 {
        self.wrapping_add(other)
    }

    fn compare(self, other: i32) -> Ordering {
        self.cmp(&other)
    }

    fn dtype() -> DataType {
        DataType::Int32
    }
}

impl NumericNative for i64 {
    ghost native = { native_i64 };

    ghost laws = { is_native_i64 };

    fn narrowed(number: i128) -> i64 {
        match i64::try_from(number) {
            Ok(short) => short,
            Err(_) => u64::narrowed(number).cast_signed(),
        }
    }

    fn widened(self) -> i128 {
        i128::from(self)
    }

    #[tactic(auto, using(std::proofs::lemmas::Int::wrapping_add_is))]
    fn plus(self, other: i64) -> i64 {
        self.wrapping_add(other)
    }

    fn compare(self, other: i64) -> Ordering {
        self.cmp(&other)
    }

    fn dtype() -> DataType {
        DataType::Int64
    }
}

impl NumericNative for i128 {
    ghost native = { native_i128 };

    ghost laws = { is_native_i128 };

    fn narrowed(number: i128) -> i128 {
        number
    }

    fn widened(self) -> i128 {
        self
    }

    #[tactic(auto, using(std::proofs::lemmas::Int::wrapping_add_is))]
    fn plus(self, other: i128) -> i128 {
        self.wrapping_add(other)
    }

    fn compare(self, other: i128) -> Ordering {
        self.cmp(&other)
    }

    fn dtype() -> DataType {
        DataType::Int128
    }
}
