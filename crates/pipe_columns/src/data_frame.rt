//! Frames: columns of one height.

ghost use Rattle.std.specs.Prelude.{◌≡◌, ◌+◌, ◌<◌, ◌^◌, ◌↔◌, [], IfNone, IfOk, IfSome, IsTrue, OnErr, OnOk, map, true, false};
ghost use Rattle.pipe_columns.specs.Frame.{AllHaveHeight, FitsSchema, HoldsTypes, all_have_height, appended_all, fields_of, frame_of, sliced_column, sliced_frame, stacked, truncated, unsorted};

use crate::column::Column;
use crate::schema::{Field, Schema};
use std::alloc::{AllocError, Global};
use std::marker::Model;

/// A height, and columns of that many values.
#[derive(Drop)]
pub struct DataFrame {
    height: usize,
    columns: Vec<Column>,
}

impl Model for DataFrame {
    ghost use Rattle.pipe_columns.specs.Frame.{FrameData, IsFrame};

    ghost Value = { FrameData };

    ghost view = { λ a. record { height = a.height; columns = a.columns.items } };

    ghost invariant = { λ a. IsFrame (record { height = a.height; columns = a.columns.items }) };
}

/// Whether all columns have that many values. The look at each shows that they are of its type.
fn do_have_height(columns: &[Column], height: usize) -> bool
    ensures height { result ≡ all_have_height height columns.now }
    ensures types { IsTrue result
        → HoldsTypes (record { height = height; columns = columns.now }) }
{
    for column in columns {
        if column.values().len() != height {
            return false;
        }
    }
    true
}

/// A column of a field, without values.
fn empty_column(alloc: Global, field: &Field) -> Result<Column, AllocError>
    ensures { IfOk result (λ c. c ≡ record {
      name = field.now.name;
      dtype = field.now.dtype;
      sorted = false;
      values = [];
    }) }
{
    let name = field.name.try_clone(alloc)?;
    let Some(column) = Column::new(name, field.dtype, false, Vec::new(alloc)) else {
        unreachable!()
    };
    Ok(column)
}

/// Keeps the first values of each column.
fn truncate_all(columns: &mut [Column], len: usize)
    ensures { columns.new ≡ map (truncated len) columns.old }
{
    for i in 0..columns.len() {
        columns[i].truncate(len);
    }
}

/// Drops the first values of each column, and keeps so many of the rest at most.
fn slice_all(columns: &mut [Column], offset: usize, len: usize)
    ensures { columns.new ≡ map (sliced_column offset len) columns.old }
{
    for i in 0..columns.len() {
        columns[i].slice(offset, len);
    }
}

/// Clears the flag of each column.
fn clear_all(columns: &mut [Column])
    ensures { columns.new ≡ map unsorted columns.old }
{
    for i in 0..columns.len() {
        columns[i].clear_sorted();
    }
}

/// Appends to each column of a height the values of its partner. Where memory is wanting, all are
/// as before.
fn append_all(columns: &mut [Column], others: Vec<Column>, height: usize) -> Result<(), AllocError>
    requires fields { fields_of others.items ≡ fields_of columns.old }
    requires height { AllHaveHeight height columns.old }
    ensures ok { OnOk result (columns.new ≡ appended_all others.items columns.old) }
    ensures err { OnErr result (columns.new ≡ columns.old) }
{
    let mut done = 0;
    for other in others {
        if let Err(error) = columns[done].append(other) {
            truncate_all(columns, height);
            return Err(error);
        }
        done += 1;
    }
    Ok(())
}

impl DataFrame {
    /// A frame, or none exactly where a column has another number of values.
    pub fn new(height: usize, columns: Vec<Column>) -> Option<DataFrame>
        ensures some { IfSome result (λ f.
            f ≡ record { height = height; columns = columns.items }) }
        ensures fits { IfSome result (λ f. all_have_height height columns.items ≡ true) }
        ensures types { IfSome result HoldsTypes }
        ensures none { IfNone result (all_have_height height columns.items ≡ false) }
    {
        if do_have_height(&columns, height) {
            Some(DataFrame { height, columns })
        } else {
            None
        }
    }

    pub fn height(&self) -> usize
        ensures height { result ≡ self.now.height }
        ensures types { HoldsTypes self.now }
    {
        self.height
    }

    pub fn columns(&self) -> &[Column]
        ensures columns { result.now ≡ self.now.columns }
        ensures height { all_have_height self.now.height self.now.columns ≡ true }
        ensures types { HoldsTypes self.now }
    {
        &self.columns
    }

    /// The columns, which are given up. It takes no memory.
    pub fn into_columns(self) -> Vec<Column>
        ensures { result.items ≡ self.columns }
    {
        self.columns
    }

    /// A frame of the schema's columns, without rows.
    pub fn empty_with_schema(alloc: Global, schema: &Schema) -> Result<DataFrame, AllocError>
        ensures { IfOk result (λ f. f ≡ frame_of schema.now []) }
    {
        let fields = schema.fields();
        let mut columns = Vec::with_capacity(alloc, fields.len())?;
        for field in fields {
            columns.push(empty_column(alloc, field)?)?;
        }
        Ok(DataFrame { height: 0, columns })
    }

    /// Whether names and types are the schema's, in order. It takes no memory.
    pub fn fits(&self, schema: &Schema) -> bool
        ensures fits { IsTrue result ↔ FitsSchema schema.now self.now }
        ensures types { HoldsTypes self.now }
    {
        let fields = schema.fields();
        if self.columns.len() != fields.len() {
            return false;
        }
        for i in 0..fields.len() {
            if !self.columns[i].is_of(&fields[i]) {
                return false;
            }
        }
        true
    }

    /// Drops the first rows, and keeps so many of the rest at most. It takes no memory, and a
    /// column keeps its flag.
    pub fn slice(self, offset: usize, len: usize) -> DataFrame
        ensures { result ≡ sliced_frame offset len self }
    {
        let DataFrame {
            height,
            mut columns,
        } = self;
        slice_all(&mut columns, offset, len);
        let height = height.saturating_sub(offset).min(len);
        DataFrame { height, columns }
    }

    /// Appends the rows of a frame of the same columns, whose flags are cleared. Where memory is
    /// wanting, the frame is as before.
    pub fn vstack(&mut self, other: DataFrame) -> Result<(), AllocError>
        requires fields { fields_of other.columns ≡ fields_of self.old.columns }
        requires height { self.old.height + other.height < 2 ^ 64 }
        ensures ok { OnOk result (self.new ≡ stacked self.old other) }
        ensures err { OnErr result (self.new ≡ self.old) }
    {
        let DataFrame {
            height: more,
            columns: others,
        } = other;
        append_all(&mut self.columns, others, self.height)?;
        clear_all(&mut self.columns);
        self.height += more;
        Ok(())
    }
}
