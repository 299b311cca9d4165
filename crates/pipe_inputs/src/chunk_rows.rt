//! The rows of a chunk as a query sees them.

ghost use Rattle.std.specs.Prelude.{◌≡◌, All, IfOk, length};
ghost use Rattle.pipe_columns.specs.Frame.{FitsSchema};
ghost use Rattle.pipe_aggs.specs.QueryTrees.{query_tree};
ghost use Rattle.pipe_model.specs.Rows.{chunk_rows};
ghost use Rattle.pipe_inputs.specs.RowTypes.{IsRowOf};

use crate::value_lists::{input_lists, key_lists};
use pipe_aggs::{CheckedQuery, ColumnValues};
use pipe_columns::{AnyValue, DataChunk};
use std::alloc::{AllocError, Global};
use std::marker::Model;

/// The rows of a chunk as a query sees them: a place, a key and inputs each. They are kept as a
/// list of values for each key and each input, which a bare column lends. Contracts see them as the
/// rows.
#[derive(Drop)]
pub struct ChunkRows<'a> {
    pub(crate) index: u32,
    pub(crate) height: usize,
    pub(crate) keys: Vec<ColumnValues<'a>>,
    pub(crate) inputs: Vec<ColumnValues<'a>>,
    pub(crate) null: AnyValue,
}

impl<'a> Model for ChunkRows<'a> {
    ghost use Rattle.std.specs.Prelude.{◌≡◌, List};
    ghost use Rattle.pipe_columns.specs.Row.{Row};
    ghost use Rattle.pipe_columns.specs.declared.any_value.AnyValue.TheVariants as av;
    ghost use Rattle.pipe_inputs.specs.Cells.{rows_read};

    ghost Value = { List Row };

    ghost view = { λ a. rows_read a.index a.height a.keys.items a.inputs.items };

    ghost invariant = { λ a. a.null ≡ av.Null };
}

impl<'a> ChunkRows<'a> {
    /// The rows of the chunk at a position. Memory is taken for values of their own alone: those of
    /// a column are lent by the chunk, and rows that are only counted have none.
    pub fn new(
        alloc: Global,
        query: &CheckedQuery<'_>,
        index: u32,
        chunk: &'a DataChunk,
    ) -> Result<ChunkRows<'a>, AllocError>
        requires { FitsSchema query.now.schema chunk.now.frame }
        ensures rows { IfOk result
            (λ rows. rows ≡ chunk_rows (query_tree query.now) index chunk.now.frame) }
        ensures typed { IfOk result (λ rows. All (IsRowOf (query_tree query.now)) rows) }
    {
        let keys = key_lists(alloc, query, chunk)?;
        let inputs = input_lists(alloc, query, chunk)?;
        Ok(ChunkRows {
            index,
            height: chunk.frame.height(),
            keys,
            inputs,
            null: AnyValue::Null,
        })
    }

    /// How many rows there are.
    pub fn len(&self) -> usize
        ensures { result ≡ length self.now }
    {
        self.height
    }
}
