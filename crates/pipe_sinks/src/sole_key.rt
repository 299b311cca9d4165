//! What the one key of a sink is of.

ghost use Rattle.std.specs.Prelude.{◌≡◌, ◌↔◌, ◌∷◌, [], ℕ, false, IsTrue, List, refl};
ghost use Rattle.pipe_columns.specs.declared.data_type.DataType.{DataType};
ghost use Rattle.pipe_columns.specs.declared.data_type.DataType.TheVariants as dt;
ghost use Rattle.pipe_aggs.specs.QueryTrees.{query_tree};
ghost use Rattle.pipe_model.specs.Output.{key_types};
ghost use Rattle.pipe_sinks.specs.SoleKeys.{is_wide};
ghost use Rattle.pipe_sinks.specs.SinkNames.{number_name, text_name};

use crate::key_sink::KeySink;
use pipe_aggs::CheckedQuery;
use pipe_columns::DataType;
use pipe_native::NumericNative;
use std::marker::PhantomData;

/// What the one key of a sink is of.
pub trait SoleKey {
    /// Its type.
    ghost dtype: { DataType };

    /// What the kind of sink is called.
    ghost called: { List ℕ };

    /// Its type.
    fn key_type() -> DataType
        ensures { result ≡ dtype };

    /// What the kind of sink is called.
    fn name() -> &'static str
        ensures { result.now ≡ called };

    ghost narrow: { is_wide dtype ≡ false };
}

/// Whether a query has one key, of a type.
pub fn has_sole_key(query: &CheckedQuery<'_>, dtype: DataType) -> bool
    ensures { IsTrue result ↔ (key_types (query_tree query.now) ≡ dtype ∷ []) }
{
    let types = query.key_types();
    types.len() == 1 && types[0] == dtype
}

/// A type of the numbers of a key: one of 64 bits at most.
pub trait KeyNumber: NumericNative {
    ghost narrow: { is_wide Self.native.dtype ≡ false };
}

impl KeyNumber for i8 {
    ghost narrow = { refl };
}

impl KeyNumber for i16 {
    ghost narrow = { refl };
}

impl KeyNumber for i32 {
    ghost narrow = { refl };
}

impl KeyNumber for i64 {
    ghost narrow = { refl };
}

impl KeyNumber for u8 {
    ghost narrow = { refl };
}

impl KeyNumber for u16 {
    ghost narrow = { refl };
}

impl KeyNumber for u32 {
    ghost narrow = { refl };
}

impl KeyNumber for u64 {
    ghost narrow = { refl };
}

/// A key of numbers.
pub struct NumberKey<K> {
    of: PhantomData<K>,
}

impl<K: KeyNumber> SoleKey for NumberKey<K> {
    ghost dtype = { K.native.dtype };

    ghost called = { number_name };

    fn key_type() -> DataType {
        K::dtype()
    }

    fn name() -> &'static str {
        "primitive_group_by"
    }

    ghost narrow = { K.narrow };
}

/// A key of texts.
pub struct TextKey;

impl SoleKey for TextKey {
    ghost dtype = { dt.String };

    ghost called = { text_name };

    fn key_type() -> DataType {
        DataType::String
    }

    fn name() -> &'static str {
        "string_group_by"
    }

    ghost narrow = { refl };
}

/// The sink for one key of an integer type.
pub type PrimitiveGroupbySink<'a, K> = KeySink<'a, NumberKey<K>>;

/// The sink for one key of texts.
pub type StringGroupbySink<'a> = KeySink<'a, TextKey>;
