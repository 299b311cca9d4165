//! The chunk of some rows: their numbers in front, and their file's name behind.

ghost use Rattle.std.specs.Prelude.{◌≡◌, ◌+◌, ◌++◌, ◌<◌, ◌≤◌, ◌%◌, ◌^◌, [], IfOk, List, length, map, option_map, pos, replicate, vec_len, IfSome, IsUtf8};
ghost use Rattle.pipe_columns.specs.declared.any_value.AnyValue.TheVariants as av;
ghost use Rattle.pipe_columns.specs.Frame.{AllHaveHeight};
ghost use Rattle.pipe_csv.specs.Columns.{DoHold, columns_of};
ghost use Rattle.pipe_source.specs.CsvChunks.{index_column, numbers_from, path_column, with_first, with_last};
ghost use Rattle.pipe_source.specs.Kept.{AreNumbered};

use crate::read_options::CsvReadOptions;
use crate::source_place::SourcePlace;
use pipe_columns::{AnyValue, Column, DataChunk, DataFrame, DataType, Field, Text};
use pipe_csv::make_column;
use std::alloc::{AllocError, Global};
use std::mem;

/// The number of a row, as a value.
fn row_number(number: u64) -> AnyValue
    ensures { result ≡ av.Int (pos number) }
{
    AnyValue::Int(i128::from(number))
}

/// The numbers of so many rows.
fn row_numbers(alloc: Global, first: u64, count: usize) -> Result<Vec<AnyValue>, AllocError>
    requires { first + count ≤ 2 ^ 32 }
    ensures { IfOk result (λ v. v.items ≡ numbers_from first count) }
{
    let mut numbers = Vec::with_capacity(alloc, count)?;
    for i in 0..count {
        if numbers.push(row_number(first + i as u64)).is_err() {
            return Err(AllocError);
        }
    }
    Ok(numbers)
}

/// The column of the numbers of so many rows, of which some come before.
fn index_column(
    alloc: Global,
    index: &(Text, u32),
    given: u128,
    count: usize,
) -> Result<Column, AllocError>
    requires { index.now.1 + given + count ≤ 2 ^ 32 }
    ensures { IfOk result (λ c. c ≡ index_column given count index.now) }
{
    let first = u64::from(index.1) + given as u64;
    let field = Field {
        name: index.0.try_clone(alloc)?,
        dtype: DataType::UInt32,
    };
    make_column(alloc, &field, row_numbers(alloc, first, count)?)
}

/// The name of a file, so many times.
fn file_names(alloc: Global, file: &Text, count: usize) -> Result<Vec<AnyValue>, AllocError>
    ensures names { IfOk result (λ v. v.items ≡ replicate count (av.Text file.now)) }
    ensures utf8 { IsUtf8 file.now }
{
    let _utf8 = file.as_bytes();
    let mut names = Vec::with_capacity(alloc, count)?;
    for _ in 0..count {
        let name = file.try_clone(alloc)?;
        if names.push(AnyValue::Text(name)).is_err() {
            return Err(AllocError);
        }
    }
    Ok(names)
}

/// The column of the name of the file of so many rows.
fn path_column(alloc: Global, name: &Text, file: &Text, count: usize) -> Result<Column, AllocError>
    ensures { IfOk result (λ c. c ≡ path_column file.now count name.now) }
{
    let field = Field {
        name: name.try_clone(alloc)?,
        dtype: DataType::String,
    };
    make_column(alloc, &field, file_names(alloc, file, count)?)
}

/// The column of the numbers of so many rows, where it is wanted.
fn first_columns(
    alloc: Global,
    index: &Option<(Text, u32)>,
    given: u128,
    count: usize,
    room: usize,
) -> Result<Vec<Column>, AllocError>
    requires { AreNumbered index.now given count }
    ensures columns { IfOk result
        (λ v. v.items ≡ with_first (option_map (index_column given count) index.now) []) }
    ensures height { IfOk result (λ v. AllHaveHeight count v.items) }
{
    let mut made = Vec::with_capacity(alloc, room)?;
    let Some(index) = index else {
        return Ok(made);
    };
    let column = index_column(alloc, index, given, count)?;
    if made.push(column).is_err() {
        return Err(AllocError);
    }
    Ok(made)
}

/// Puts the columns of some fields behind others.
fn push_columns(
    alloc: Global,
    made: &mut Vec<Column>,
    fields: &[Field],
    columns: Vec<Vec<AnyValue>>,
    height: usize,
) -> Result<(), AllocError>
    requires hold { DoHold height fields.now (map (λ c. c.items) columns.items) }
    requires width { vec_len columns ≡ length fields.now }
    requires height { AllHaveHeight height made.old.items }
    ensures pushed { IfOk result (λ _. made.new.items
        ≡ made.old.items ++ columns_of fields.now (map (λ c. c.items) columns.items)) }
    ensures height { IfOk result (λ _. AllHaveHeight height made.new.items) }
{
    let mut columns = columns;
    for (i, field) in fields.iter().enumerate() {
        let values = mem::replace(&mut columns[i], Vec::new(alloc));
        if made.push(make_column(alloc, field, values)?).is_err() {
            return Err(AllocError);
        }
    }
    Ok(())
}

/// Puts the column of the file's name behind others, where it is wanted.
fn push_path(
    alloc: Global,
    made: &mut Vec<Column>,
    name: &Option<Text>,
    file: &Text,
    count: usize,
) -> Result<(), AllocError>
    requires { AllHaveHeight count made.old.items }
    ensures pushed { IfOk result (λ _. made.new.items
        ≡ with_last made.old.items (option_map (path_column file.now count) name.now)) }
    ensures height { IfOk result (λ _. AllHaveHeight count made.new.items) }
{
    let Some(name) = name else {
        return Ok(());
    };
    let column = path_column(alloc, name, file, count)?;
    if made.push(column).is_err() {
        return Err(AllocError);
    }
    Ok(())
}

/// The chunk at a place, of columns of so many values.
pub(crate) fn make_chunk(
    alloc: Global,
    options: &CsvReadOptions,
    at: SourcePlace,
    file: &Text,
    fields: &[Field],
    columns: Vec<Vec<AnyValue>>,
    height: usize,
) -> Result<DataChunk, AllocError>
    requires hold { DoHold height fields.now (map (λ c. c.items) columns.items) }
    requires width { vec_len columns ≡ length fields.now }
    requires numbered { AreNumbered options.now.row_index at.rows height }
    ensures { IfOk result (λ c. c ≡ record {
      chunk_index = at.chunks % 2 ^ 32;
      frame = record {
        height = height;
        columns =
            with_first (option_map (index_column at.rows height) options.now.row_index)
            (with_last (columns_of fields.now (map (λ c. c.items) columns.items))
            (option_map (path_column file.now height) options.now.include_file_path));
      };
    }) }
{
    let room = fields.len().saturating_add(2);
    let mut made = first_columns(alloc, &options.row_index, at.rows, height, room)?;
    push_columns(alloc, &mut made, fields, columns, height)?;
    push_path(alloc, &mut made, &options.include_file_path, file, height)?;
    let frame = DataFrame::new(height, made).unwrap();
    Ok(DataChunk {
        chunk_index: (at.chunks % (1 << 32)) as u32,
        frame,
    })
}
