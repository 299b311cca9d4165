//! The parts of one row.

ghost use Rattle.std.specs.Prelude.{◌≡◌, ◌<◌, ◌^◌, All, IfOk, length};
ghost use Rattle.pipe_columns.specs.Frame.{value_at};
ghost use Rattle.pipe_model.specs.Answer.{tuple_cmp};
ghost use Rattle.pipe_inputs.specs.ChunkRows.{row_at};

use crate::cells::{cell, compare_cells, own_cells};
use crate::chunk_rows::ChunkRows;
use pipe_columns::{AnyValue, Place};
use std::alloc::{AllocError, Global};
use std::cmp::Ordering;

impl<'a> ChunkRows<'a> {
    /// Where a row stands.
    pub fn place(&self, row: usize) -> Place
        requires there { row < length self.now }
        requires few { row < 2 ^ 32 }
        ensures { result ≡ (row_at self.now row).place }
    {
        Place {
            chunk: self.index,
            row: row as u32,
        }
    }

    /// How many values the key of each row has.
    pub fn key_len(&self) -> usize
        ensures { All (λ r. length r.key ≡ result) self.now }
    {
        self.keys.len()
    }

    /// A value of a row's key, lent: null past the last.
    pub fn key(&self, row: usize, i: usize) -> &AnyValue
        requires { row < length self.now }
        ensures { result.now ≡ value_at (row_at self.now row).key i }
    {
        cell(&self.keys, row, i, &self.null)
    }

    /// An input of a row, lent: null past the last.
    pub fn input(&self, row: usize, j: usize) -> &AnyValue
        requires { row < length self.now }
        ensures { result.now ≡ value_at (row_at self.now row).inputs j }
    {
        cell(&self.inputs, row, j, &self.null)
    }

    /// The order of a row's key and another key.
    pub fn compare_key(&self, row: usize, key: &[AnyValue]) -> Ordering
        requires { row < length self.now }
        ensures { result ≡ tuple_cmp (row_at self.now row).key key.now }
    {
        compare_cells(&self.keys, row, key)
    }

    /// A row's key, of its own.
    pub fn own_key(&self, alloc: Global, row: usize) -> Result<Vec<AnyValue>, AllocError>
        requires { row < length self.now }
        ensures { IfOk result (λ key. key.items ≡ (row_at self.now row).key) }
    {
        own_cells(alloc, &self.keys, row)
    }

    /// A row's inputs, of their own.
    pub fn own_inputs(&self, alloc: Global, row: usize) -> Result<Vec<AnyValue>, AllocError>
        requires { row < length self.now }
        ensures { IfOk result (λ inputs. inputs.items ≡ (row_at self.now row).inputs) }
    {
        own_cells(alloc, &self.inputs, row)
    }

    /// An input of a row, of its own: null past the last.
    #[inline(always)]
    pub fn own_input(&self, alloc: Global, row: usize, j: usize) -> Result<AnyValue, AllocError>
        requires { row < length self.now }
        ensures { IfOk result (λ v. v ≡ value_at (row_at self.now row).inputs j) }
    {
        self.input(row, j).try_clone(alloc)
    }

    /// How many inputs each row has.
    pub fn inputs_len(&self) -> usize
        ensures { All (λ r. length r.inputs ≡ result) self.now }
    {
        self.inputs.len()
    }
}
