//! A frame that is filled in room that was made before: this takes no memory.

ghost use Rattle.std.specs.Prelude.{◌≡◌, ◌+◌, ◌≤◌, [], All, IfOk, length, map, vec_capacity, vec_len};
ghost use Rattle.pipe_columns.specs.Frame.{AllHaveHeight, all_have_height, appended_all, fields_of, frame_of, stacked};
ghost use Rattle.pipe_writers.specs.Room.{HasRoom, filled_columns};

use crate::column_room::ColumnRoom;
use pipe_columns::{Column, DataFrame, Schema};
use std::alloc::{AllocError, Global};
use std::marker::Model;

/// Columns that are filled, how many rows they have and how many they have room for, and a place
/// for each column that is made of them.
#[derive(Drop)]
pub struct FrameRoom {
    columns: Vec<ColumnRoom>,
    made: Vec<Column>,
    height: usize,
    most: usize,
}

impl Model for FrameRoom {
    ghost use Rattle.std.specs.Prelude.{vec_capacity, vec_len};
    ghost use Rattle.pipe_writers.specs.Room.{FrameRoomData, IsFrameRoom, filled_columns};

    ghost Value = { FrameRoomData };

    ghost view = { λ r. record {
      frame = record { height = r.height; columns = filled_columns r.columns.items };
      most = r.most;
    } };

    ghost invariant = { λ r.
        IsFrameRoom r.columns.items r.height r.most (vec_len r.made) (vec_capacity r.made) };
}

/// Puts the values of each of some columns below those of its partner.
fn fill_all(
    columns: &mut [ColumnRoom],
    others: Vec<Column>,
    height: usize,
    more: usize,
    most: usize,
)
    requires fields { fields_of others.items ≡ fields_of (filled_columns columns.old) }
    requires height { AllHaveHeight height (filled_columns columns.old) }
    requires more { AllHaveHeight more others.items }
    requires few { height + more ≤ most }
    requires room { All (HasRoom most) columns.old }
    ensures filled { filled_columns columns.new
        ≡ appended_all others.items (filled_columns columns.old) }
    ensures room { All (HasRoom most) columns.new }
{
    let mut done = 0;
    for other in others {
        columns[done].fill(other);
        done += 1;
    }
}

/// A column of each field without values, with room for so many.
fn rooms_for(alloc: Global, schema: &Schema, most: usize) -> Result<Vec<ColumnRoom>, AllocError>
    ensures empty { IfOk result (λ v.
        filled_columns v.items ≡ (frame_of schema.now []).columns) }
    ensures room { IfOk result (λ v. All (HasRoom most) v.items) }
{
    let fields = schema.fields();
    let mut columns = Vec::new(alloc);
    for field in fields {
        columns.push(ColumnRoom::new(alloc, field, most)?)?;
    }
    Ok(columns)
}

/// The columns, each at its place.
fn made_columns(columns: Vec<ColumnRoom>, mut made: Vec<Column>) -> Vec<Column>
    requires none { vec_len made ≡ 0 }
    requires places { length columns.items ≤ vec_capacity made }
    ensures { result.items ≡ filled_columns columns.items }
{
    for column in columns {
        made.push_reserved(column.into_column());
    }
    made
}

impl FrameRoom {
    /// A frame of a schema without rows, with room for so many.
    pub(crate) fn new(alloc: Global, schema: &Schema, most: usize) -> Result<FrameRoom, AllocError>
        ensures { IfOk result (λ r. r ≡ record { frame = frame_of schema.now []; most = most }) }
    {
        let columns = rooms_for(alloc, schema, most)?;
        let made = Vec::with_capacity(alloc, columns.len())?;
        Ok(FrameRoom {
            columns,
            made,
            height: 0,
            most,
        })
    }

    /// Puts the rows of a frame below its own.
    pub(crate) fn fill(&mut self, frame: DataFrame)
        requires fields { fields_of frame.columns ≡ fields_of self.old.frame.columns }
        requires room { self.old.frame.height + frame.height ≤ self.old.most }
        ensures { self.new ≡ record self.old { frame = stacked self.old.frame frame } }
    {
        // Called for what its clauses say.
        let _columns = frame.columns();
        let more = frame.height();
        fill_all(
            &mut self.columns,
            frame.into_columns(),
            self.height,
            more,
            self.most,
        );
        self.height += more;
    }

    /// The frame.
    pub(crate) fn into_frame(self) -> DataFrame
        ensures { result ≡ self.frame }
    {
        let FrameRoom {
            columns,
            made,
            height,
            most: _most,
        } = self;
        let columns = made_columns(columns, made);
        let Some(frame) = DataFrame::new(height, columns) else {
            unreachable!()
        };
        frame
    }
}
