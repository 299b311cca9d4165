//! The name and the type of an expression over a schema.

ghost use Rattle.std.specs.Prelude.{◌≡◌, ◌<◌, length, IfOk, OnOk, IsErrOf, Some, None, true, false};
ghost use Rattle.pipe_exprs.specs.declared.fields.TypeFault.TheVariants as fault;
ghost use Rattle.pipe_model.specs.Expr.{name_of};
ghost use Rattle.pipe_exprs.specs.Trees.{tree};
ghost use Rattle.pipe_model.specs.Typing.{knows_columns, type_of};

use crate::arena::Arena;
use crate::expression::Node;
use crate::facts::facts_at;
use crate::types::node_facts;
use pipe_columns::{Field, Schema, Text};
use std::alloc::{AllocError, Global};

/// Why an expression has no field: it reaches a column that the schema lacks, its parts have no
/// type together, or memory is wanting.
#[derive(Debug, Drop, PartialEq, Eq)]
pub enum TypeFault {
    UnknownColumn,
    IllTyped,
    Memory,
}

impl From<AllocError> for TypeFault {
    ghost from_gives = { λ _ e. e ≡ fault.Memory };

    fn from(_error: AllocError) -> TypeFault {
        TypeFault::Memory
    }
}

/// The name and the type of an expression over a schema.
pub fn to_field(
    alloc: Global,
    node: Node,
    arena: &Arena,
    schema: &Schema,
) -> Result<Field, TypeFault>
    requires { node.0 < length arena.now }
    ensures name { IfOk result (λ f. f.name ≡ name_of (tree arena.now node)) }
    ensures dtype { IfOk result (λ f. Some f.dtype ≡ type_of (tree arena.now node) schema.now) }
    ensures known { OnOk result (knows_columns (tree arena.now node) schema.now ≡ true) }
    ensures unknown_column { IsErrOf result fault.UnknownColumn
        → knows_columns (tree arena.now node) schema.now ≡ false }
    ensures ill_typed { IsErrOf result fault.IllTyped
        → type_of (tree arena.now node) schema.now ≡ None }
    ensures ill_typed_known { IsErrOf result fault.IllTyped
        → knows_columns (tree arena.now node) schema.now ≡ true }
{
    let known = node_facts(alloc, arena, schema.fields())?;
    let facts = facts_at(&known, node);
    if !facts.knows_columns {
        return Err(TypeFault::UnknownColumn);
    }
    match facts.dtype {
        Some(dtype) => Ok(Field {
            name: Text::new(alloc, arena.name(node))?,
            dtype,
        }),
        None => Err(TypeFault::IllTyped),
    }
}
