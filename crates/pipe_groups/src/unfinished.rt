//! Columns in the making.

ghost use Rattle.std.specs.Prelude.{◌≡◌, ◌+◌, ◌<◌, ◌≤◌, ◌∷◌, ◌++◌, [], ℕ, IfOk, IsOk, length, OnOk, vec_capacity, vec_len};
ghost use Rattle.pipe_columns.specs.Frame.{AllFit, columns_from, ColumnsFit};
ghost use Rattle.pipe_running.specs.States.{output_values};
ghost use Rattle.pipe_groups.specs.Columns.{column_of_unfinished, columns_of_unfinished, HaveRoom, HaveRoomFrom, with_value, with_values_at};

use pipe_aggs::Finalized;
use pipe_columns::{AnyValue, Column, Field};
use std::alloc::{AllocError, Global};

/// A column that values are put into, one by one.
#[derive(Drop)]
pub(crate) struct Unfinished {
    pub(crate) field: Field,
    pub(crate) values: Vec<AnyValue>,
}

impl Unfinished {
    /// Puts a value below the others.
    fn push(&mut self, value: AnyValue) -> Result<(), AllocError>
        ensures column { OnOk result
            (column_of_unfinished self.new ≡ with_value value (column_of_unfinished self.old)) }
        ensures succeeds { vec_len self.old.values < vec_capacity self.old.values → IsOk result }
        ensures len { OnOk result (vec_len self.new.values ≡ vec_len self.old.values + 1) }
        ensures capacity { vec_capacity self.old.values ≤ vec_capacity self.new.values }
    {
        self.values.push(value)?;
        Ok(())
    }

    /// The column of these values, which fit its type.
    fn finish(self) -> Column
        requires { AllFit self.field.dtype self.values.items }
        ensures { result ≡ column_of_unfinished self }
    {
        let Unfinished { field, values } = self;
        Column::new(field.name, field.dtype, false, values).unwrap()
    }
}

/// Columns of fields that have no values yet, each with memory for so many.
pub(crate) fn opened(
    alloc: Global,
    fields: &[Field],
    height: usize,
) -> Result<Vec<Unfinished>, AllocError>
    ensures columns { IfOk result (λ v. columns_of_unfinished v.items ≡ columns_from 0 fields.now []) }
    ensures room { IfOk result (λ v. HaveRoom height v.items) }
{
    let mut columns = Vec::with_capacity(alloc, fields.len())?;
    for field in fields {
        let name = field.name.try_clone(alloc)?;
        let dtype = field.dtype;
        let field = Field { name, dtype };
        let values = Vec::with_capacity(alloc, height)?;
        columns.push(Unfinished { field, values })?;
    }
    Ok(columns)
}

/// Puts a value below those of a column.
pub(crate) fn push_at(
    columns: &mut [Unfinished],
    at: usize,
    value: AnyValue,
) -> Result<(), AllocError>
    requires { at < length columns.old }
    ensures { OnOk result
        (columns_of_unfinished columns.new ≡ with_values_at at (value ∷ []) (columns_of_unfinished columns.old)) }
{
    columns[at].push(value)?;
    Ok(())
}

/// Puts a value below those of a column that has memory for it.
fn place_at(columns: &mut [Unfinished], at: usize, value: AnyValue)
    requires within { at < length columns.old }
    requires room { HaveRoomFrom 0 at columns.old }
    ensures columns { columns_of_unfinished columns.new
        ≡ with_values_at at (value ∷ []) (columns_of_unfinished columns.old) }
    ensures room { (n : ℕ) → HaveRoomFrom n at columns.old → HaveRoomFrom n (at + 1) columns.new }
{
    columns[at].push(value).unwrap();
}

/// Puts what an aggregate gives below the values of its column or its two columns, and says where
/// the next stands.
pub(crate) fn give_at(columns: &mut [Unfinished], at: usize, outputs: Finalized) -> usize
    requires within { at + length (output_values outputs) ≤ length columns.old }
    requires room { HaveRoomFrom 0 at columns.old }
    ensures columns { columns_of_unfinished columns.new
        ≡ with_values_at at (output_values outputs) (columns_of_unfinished columns.old) }
    ensures next { result ≡ at + length (output_values outputs) }
    ensures room { (n : ℕ) → HaveRoomFrom n at columns.old
        → HaveRoomFrom n (at + length (output_values outputs)) columns.new }
{
    match outputs {
        Finalized::One(value) => {
            place_at(columns, at, value);
            at + 1
        }
        Finalized::Pair(first, second) => {
            place_at(columns, at, first);
            place_at(columns, at + 1, second);
            at + 2
        }
    }
}

/// Puts finished columns behind others that have memory for them.
pub(crate) fn finish_all(columns: Vec<Unfinished>, finished: &mut Vec<Column>)
    requires fit { ColumnsFit (columns_of_unfinished columns.items) }
    requires room { vec_len finished.old + vec_len columns ≤ vec_capacity finished.old }
    ensures columns { finished.new.items ≡ finished.old.items ++ columns_of_unfinished columns.items }
    ensures capacity { vec_capacity finished.old ≤ vec_capacity finished.new }
{
    for column in columns {
        finished.push(column.finish()).unwrap();
    }
}
