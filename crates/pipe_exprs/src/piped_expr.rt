//! An expression with a value in each row of a chunk.

ghost use Rattle.std.specs.Prelude.{◌≡◌, ◌<◌, All, length, IfOk, is_some, true};
ghost use Rattle.pipe_columns.specs.AnyValue.{HasUtf8};
ghost use Rattle.pipe_columns.specs.Frame.{all_fit, fields_of};
ghost use Rattle.pipe_exprs.specs.Evaluated.{evaluated, items_of, row_values};
ghost use Rattle.pipe_exprs.specs.Trees.{tree};
ghost use Rattle.pipe_model.specs.Typing.{is_row_wise, known_type, type_of};

use crate::arena::Arena;
use crate::column_values::ColumnValues;
use crate::columns::is_sorted;
use crate::evaluate::root_operand;
use crate::expression::Node;
use crate::node_operand::type_at;
use crate::operand::Operand;
use crate::types::node_types;
use pipe_columns::{Column, DataChunk, Text};
use std::alloc::{AllocError, Global};

/// An expression with a value in each row of a chunk.
#[derive(Debug, Drop, PartialEq, Eq)]
pub struct PipedExpr {
    pub node: Node,
}

impl PipedExpr {
    /// The column of the expression's values. Each part of the expression is evaluated once,
    /// however many others name it, and its values are dropped after the last one.
    pub fn evaluate(
        &self,
        alloc: Global,
        arena: &Arena,
        chunk: &DataChunk,
    ) -> Result<Column, AllocError>
        requires in_arena { self.now.node.0 < length arena.now }
        requires row_wise { is_row_wise (tree arena.now self.now.node) ≡ true }
        requires typed { is_some (type_of (tree arena.now self.now.node)
            (fields_of chunk.now.frame.columns)) ≡ true }
        ensures { IfOk result (λ c. c ≡ evaluated (tree arena.now self.now.node) chunk.now.frame) }
    {
        let frame = &chunk.frame;
        let columns = frame.columns();
        let types = node_types(alloc, arena, columns)?;
        let operand = root_operand(alloc, arena, self.node, &types, frame)?;
        let values = operand.into_vec(alloc, frame.height())?;
        let name = Text::new(alloc, arena.name(self.node))?;
        let dtype = type_at(&types, self.node);
        let sorted = is_sorted(arena, self.node, columns);
        Ok(Column::new(name, dtype, sorted, values).unwrap())
    }

    /// The values alone: lent by the chunk, with no memory taken for them, where the expression is
    /// a column or an alias of one.
    pub fn values<'a>(
        &self,
        alloc: Global,
        arena: &Arena,
        chunk: &'a DataChunk,
    ) -> Result<ColumnValues<'a>, AllocError>
        requires in_arena { self.now.node.0 < length arena.now }
        requires row_wise { is_row_wise (tree arena.now self.now.node) ≡ true }
        requires typed { is_some (type_of (tree arena.now self.now.node)
            (fields_of chunk.now.frame.columns)) ≡ true }
        ensures values { IfOk result (λ v. items_of v
            ≡ row_values (tree arena.now self.now.node) chunk.now.frame) }
        ensures fit { IfOk result (λ v. all_fit (known_type (tree arena.now self.now.node)
            (fields_of chunk.now.frame.columns)) (items_of v) ≡ true) }
        ensures utf8 { IfOk result (λ v. All HasUtf8 (items_of v)) }
    {
        let frame = &chunk.frame;
        let columns = frame.columns();
        let types = node_types(alloc, arena, columns)?;
        match root_operand(alloc, arena, self.node, &types, frame)? {
            Operand::Lent(values) => Ok(ColumnValues::Lent(values)),
            operand => Ok(ColumnValues::Own(operand.into_vec(alloc, frame.height())?)),
        }
    }
}
