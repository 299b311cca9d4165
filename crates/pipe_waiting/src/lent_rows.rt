//! Rows that are read one after another from bytes that are lent.

ghost use Rattle.std.specs.Prelude.{◌≡◌, IfNone, IfOk, IfSome, List, OnErr};
ghost use Rattle.pipe_columns.specs.declared.data_type.DataType.{DataType};
ghost use Rattle.pipe_waiting.specs.Waiting.{AreWaiting, HoldRows, IsNext, left_rows, waiting_rows};

use crate::read_inputs::read_inputs;
use crate::row_head::take_key;
use crate::waiting_rows::WaitingRows;
use pipe_columns::{AnyValue, DataType, Place};
use pipe_spill::DecodeError;
use std::alloc::{AllocError, Global};
use std::marker::Model;

/// Where a row stands, and the code of its key, which is lent.
#[derive(Debug, Drop)]
pub struct LentRow<'a> {
    pub place: Place,
    pub key: &'a [u8],
}

/// Rows that are still to be given, whose bytes are lent. Contracts see how many they are and the
/// bytes.
#[derive(Debug, Drop)]
pub struct LentRows<'a> {
    pub(crate) count: usize,
    pub(crate) bytes: &'a [u8],
}

impl<'a> Model for LentRows<'a> {
    ghost use Rattle.pipe_waiting.specs.Waiting.{Left};

    ghost Value = { Left };

    ghost view = { λ a. record { count = a.count; bytes = a.bytes.now } };
}

impl WaitingRows {
    /// The rows, to be given one after another. They stay.
    pub fn lend(&self) -> LentRows<'_>
        ensures count { result.count ≡ self.now.count }
        ensures bytes { result.bytes ≡ self.now.bytes }
        ensures typed { (types : List DataType) → AreWaiting types self.now
            → HoldRows types result.count result.bytes }
        ensures rows { (types : List DataType)
            → left_rows types result ≡ waiting_rows types self.now }
    {
        LentRows {
            count: self.count,
            bytes: &self.bytes,
        }
    }
}

impl<'a> LentRows<'a> {
    /// How many rows are left.
    pub fn len(&self) -> usize
        ensures { result ≡ self.now.count }
    {
        self.count
    }

    /// The next row: where it stands and its key, and its inputs in a list, in the place of what it
    /// held. None where all were given. Once the list has room, only texts take memory.
    pub fn next(
        &mut self,
        alloc: Global,
        types: &[DataType],
        values: &mut Vec<AnyValue>,
    ) -> Result<Option<LentRow<'a>>, AllocError>
        requires { HoldRows types.now self.old.count self.old.bytes }
        ensures some { IfOk result (λ next. IfSome next (λ row. IsNext types.now (record {
          place = row.place;
          key = row.key.now;
          values = values.new.items;
        }) self.old self.new)) }
        ensures none { IfOk result (λ next. IfNone next (self.old.count ≡ 0)) }
        ensures same { IfOk result (λ next. IfNone next (self.new ≡ self.old)) }
        ensures refused { OnErr result (self.new ≡ self.old) }
    {
        if self.count == 0 {
            return Ok(None);
        }
        let Some((place, key, inputs)) = take_key(self.bytes) else {
            unreachable!();
        };
        match read_inputs(alloc, inputs, types, values) {
            Ok(rest) => {
                self.count -= 1;
                self.bytes = rest;
                Ok(Some(LentRow { place, key }))
            }
            Err(DecodeError::Memory) => Err(AllocError),
            Err(DecodeError::NotAKey) => unreachable!(),
        }
    }
}
