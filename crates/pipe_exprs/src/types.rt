//! What is known of all nodes of an arena, and their types.

ghost use Rattle.std.specs.Prelude.{◌≡◌, IfOk, map};
ghost use Rattle.pipe_columns.specs.Frame.{fields_of};
ghost use Rattle.pipe_exprs.specs.NodeFacts.{facts_of};
ghost use Rattle.pipe_exprs.specs.Trees.{trees};
ghost use Rattle.pipe_model.specs.Typing.{type_of};

use crate::arena::Arena;
use crate::expression::Node;
use crate::facts::{NodeFacts, expr_facts};
use pipe_columns::{Column, DataType, Field};
use std::alloc::{AllocError, Global};

/// What is known of each node of an arena over some fields, each node visited once.
pub fn node_facts(
    alloc: Global,
    arena: &Arena,
    fields: &[Field],
) -> Result<Vec<NodeFacts>, AllocError>
    ensures { IfOk result (λ facts. facts.items ≡ map (facts_of fields.now) (trees arena.now)) }
{
    let mut facts = Vec::with_capacity(alloc, arena.len())?;
    for node in 0..arena.len() {
        let next = expr_facts(fields, &facts, arena.get(Node(node)));
        facts.push(next)?;
    }
    Ok(facts)
}

/// The fields of some columns.
fn fields_of(alloc: Global, columns: &[Column]) -> Result<Vec<Field>, AllocError>
    ensures { IfOk result (λ fields. fields.items ≡ fields_of columns.now) }
{
    let mut fields = Vec::with_capacity(alloc, columns.len())?;
    for column in columns {
        fields.push(Field {
            name: column.name().try_clone(alloc)?,
            dtype: column.dtype(),
        })?;
    }
    Ok(fields)
}

/// The types in what is known of some nodes.
fn dtypes_in(alloc: Global, facts: &[NodeFacts]) -> Result<Vec<Option<DataType>>, AllocError>
    ensures { IfOk result (λ types. types.items ≡ map (λ f. f.dtype) facts.now) }
{
    let mut dtypes = Vec::with_capacity(alloc, facts.len())?;
    for known in facts {
        dtypes.push(known.dtype)?;
    }
    Ok(dtypes)
}

/// The type of each node of an arena over the fields of some columns.
pub(crate) fn node_types(
    alloc: Global,
    arena: &Arena,
    columns: &[Column],
) -> Result<Vec<Option<DataType>>, AllocError>
    ensures { IfOk result (λ types. types.items
        ≡ map (λ e. type_of e (fields_of columns.now)) (trees arena.now)) }
{
    let fields = fields_of(alloc, columns)?;
    let facts = node_facts(alloc, arena, &fields)?;
    dtypes_in(alloc, &facts)
}
