//! Number types without a sign.

ghost use Rattle.pipe_native.specs.Native.{native_u8, native_u16, native_u32, native_u64};
ghost use Rattle.pipe_native.specs.NativeLaws.{is_native_u8, is_native_u16, is_native_u32, is_native_u64};

use crate::native::NumericNative;
use pipe_columns::DataType;
use std::cmp::Ordering;

impl NumericNative for u8 {
    ghost native = { native_u8 };

    ghost laws = { is_native_u8 };

    fn narrowed(number: i128) -> u8 {
        match u8::try_from(number) {
            Ok(short) => short,
            Err(_) => number.rem_euclid(1 << 8) as u8,
        }
    }

    fn widened(self) -> i128 {
        i128::from(self)
    }

    fn plus(self, other: u8) -> u8 {
        self.wrapping_add(other)
    }

    fn compare(self, other: u8) -> Ordering {
        self.cmp(&other)
    }

    fn dtype() -> DataType {
        DataType::UInt8
    }
}

impl NumericNative for u16 {
    ghost native = { native_u16 };

    ghost laws = { is_native_u16 };

    fn narrowed(number: i128) -> u16 {
        match u16::try_from(number) {
            Ok(short) => short,
            Err(_) => number.rem_euclid(1 << 16) as u16,
        }
    }

    fn widened(self) -> i128 {
        i128::from(self)
    }

    fn plus(self, other: u16) -> u16 {
        self.wrapping_add(other)
    }

    fn compare(self, other: u16) -> Ordering {
        self.cmp(&other)
    }

    fn dtype() -> DataType {
        DataType::UInt16
    }
}

impl NumericNative for u32 {
    ghost native = { native_u32 };

    ghost laws = { is_native_u32 };

    fn narrowed(number: i128) -> u32 {
        match u32::try_from(number) {
            Ok(short) => short,
            Err(_) => number.rem_euclid(1 << 32) as u32,
        }
    }

    fn widened(self) -> i128 {
        i128::from(self)
    }

    fn plus(self, other: u32) -> u32 {
        self.wrapping_add(other)
    }

    fn compare(self, other: u32) -> Ordering {
        self.cmp(&other)
    }

    fn dtype() -> DataType {
        DataType::UInt32
    }
}

impl NumericNative for u64 {
    ghost native = { native_u64 };

    ghost laws = { is_native_u64 };

    fn narrowed(number: i128) -> u64 {
        match u64::try_from(number) {
            Ok(short) => short,
            Err(_) => number.rem_euclid(1 << 64) as u64,
        }
    }

    fn widened(self) -> i128 {
        i128::from(self)
    }

    fn plus(self, other: u64) -> u64 {
        self.wrapping_add(other)
    }

    fn compare(self, other: u64) -> Ordering {
        self.cmp(&other)
    }

    fn dtype() -> DataType {
        DataType::UInt64
    }
}
