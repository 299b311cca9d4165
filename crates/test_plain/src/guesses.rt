//! Where the groups of keys were found last. It is only a hint: a wrong guess costs a comparison.

ghost use Rattle.std.specs.Prelude.{◌<◌, length};

use pipe_aggs::NumericNative;
use pipe_columns::AnyValue;
use pipe_inputs::ChunkRows;
use pipe_spill::fold;
use std::alloc::{AllocError, Global};

/// So many bits of a number tell where its key is remembered.
const BITS: u32 = 12;

/// How many keys are remembered.
const COUNT: usize = 1 << BITS;

/// 2^64 over the golden ratio, which spreads numbers over the high bits.
const SPREAD: u64 = 11400714819323198485;

/// Places of groups in a table, by the numbers of their keys.
#[derive(Drop)]
pub struct Guesses {
    places: Vec<usize>,
}

impl Guesses {
    pub fn new(alloc: Global) -> Result<Guesses, AllocError> {
        let places = vec![in alloc; 0; COUNT]?;
        Ok(Guesses { places })
    }

    /// Where the group of a key of a number may be.
    pub fn get(&self, number: u64) -> usize {
        match self.places.get(slot(number)) {
            Some(place) => *place,
            None => 0,
        }
    }

    /// Remembers where the group of a key of a number was found.
    pub fn set(&mut self, number: u64, place: usize) {
        if let Some(guess) = self.places.get_mut(slot(number)) {
            *guess = place;
        }
    }
}

/// The place of a number among those that are remembered.
fn slot(number: u64) -> usize {
    (number.wrapping_mul(SPREAD) >> (64 - BITS)) as usize
}

/// A number of a value.
fn value_number(value: &AnyValue) -> u64 {
    match value {
        AnyValue::Int(number) => u64::narrowed(*number),
        AnyValue::Text(text) => fold(text.as_str().as_bytes()),
        AnyValue::Boolean(truth) => *truth as u64,
        AnyValue::Null => 0,
    }
}

/// A number of a row's key.
pub fn key_number(rows: &ChunkRows<'_>, row: usize) -> u64
    requires { row < length rows.now }
{
    let mut number: u64 = 0;
    for i in 0..rows.key_len() {
        number = number
            .wrapping_mul(31)
            .wrapping_add(value_number(rows.key(row, i)));
    }
    number
}
