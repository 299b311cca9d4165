//! Keys that are marked by their one value.

ghost use Rattle.pipe_sinks.specs.MarkLaws.{mark_once, sought_marked};
ghost use Rattle.pipe_sinks.specs.Marks.{IsMarkedKey, IsSought, IsTextKey, sole_code};

use crate::secret_lead::secret_lead;
use crate::sole_mark::is_code_of;
use pipe_columns::{AnyValue, DataType};
use pipe_keyed::{Marking, Sought};
use std::hash::RandomState;

/// The mark of a key is that of its one value: of a number the number itself, of a text a hash.
pub(crate) struct ByValue;

impl Marking for ByValue {
    ghost marks = { IsMarkedKey };

    ghost once = { mark_once };

    ghost can_hide = { IsTextKey };

    /// No two numbers have one mark, so only texts ever hide.
    fn can_hide(types: &[DataType]) -> bool {
        match types {
            [DataType::String] => true,
            _ => false,
        }
    }
}

/// A value is never encoded to be looked for.
impl Sought<ByValue> for AnyValue {
    ghost code_of = { λ value types. sole_code types value };

    ghost has_mark = { λ value types mark. IsSought types value mark };

    #[inline]
    fn is_code(&self, code: &[u8]) -> bool {
        is_code_of(code, self)
    }

    fn secret_lead(&self, hash_keys: Option<RandomState>) -> u64 {
        secret_lead(self, hash_keys)
    }

    ghost marked = { sought_marked };
}
