//! The columns that a query puts out.

ghost use Rattle.std.specs.Prelude.{◌≡◌, ◌++◌, ◌∷◌, [], IfOk, OnOk, option_copied, string_bytes};
ghost use Rattle.pipe_aggs.specs.KnownArena.{agg_columns, key_field, kind_by};
ghost use Rattle.pipe_model.specs.Output.{agg_fields, mean_fields, output_schema};
ghost use Rattle.pipe_model.specs.WrittenTree.{kept_kind};
ghost use Rattle.pipe_aggs.specs.QueryTrees.{query_tree};
ghost use Rattle.pipe_exprs.specs.Trees.{aggregation, tree};

use crate::known::Known;
use crate::query::Query;
use pipe_columns::{DataType, Field, Schema, Text};
use pipe_exprs::{AExpr, IRAggExpr, Node, sum_type};
use std::alloc::{AllocError, Global};

/// Adds a field of a name and a type.
fn push_field(
    alloc: Global,
    fields: &mut Vec<Field>,
    name: &str,
    dtype: DataType,
) -> Result<(), AllocError>
    ensures { OnOk result (fields.new.items
        ≡ fields.old.items ++ record { name = name.now; dtype = dtype } ∷ []) }
{
    let name = Text::new(alloc, name)?;
    fields.push(Field { name, dtype })?;
    Ok(())
}

/// A name with an ending.
fn name_with(alloc: Global, name: &str, ending: &str) -> Result<String, AllocError>
    ensures { IfOk result (λ s. string_bytes s ≡ name.now ++ ending.now) }
{
    let mut text = String::from_str(alloc, name)?;
    text.push_str(ending)?;
    Ok(text)
}

/// Adds the columns of a mean of values of a type.
fn push_mean(
    alloc: Global,
    fields: &mut Vec<Field>,
    name: &str,
    dtype: DataType,
) -> Result<(), AllocError>
    ensures { OnOk result (fields.new.items ≡ fields.old.items ++ mean_fields name.now dtype) }
{
    if dtype == DataType::String {
        return push_field(alloc, fields, name, dtype);
    }
    let sum = name_with(alloc, name, "_sum")?;
    let count = name_with(alloc, name, "_count")?;
    push_field(alloc, fields, sum.as_str(), DataType::Int128)?;
    push_field(alloc, fields, count.as_str(), DataType::UInt32)
}

/// Adds the columns of an aggregate of values of a type.
fn push_agg(
    alloc: Global,
    fields: &mut Vec<Field>,
    name: &str,
    agg: &IRAggExpr,
    dtype: DataType,
) -> Result<(), AllocError>
    ensures { OnOk result (fields.new.items
        ≡ fields.old.items ++ agg_fields name.now (kept_kind (aggregation agg.now)) dtype) }
{
    match agg {
        IRAggExpr::Sum(_) => push_field(alloc, fields, name, sum_type(dtype)),
        IRAggExpr::Mean(_) => push_mean(alloc, fields, name, dtype),
        IRAggExpr::First(_) | IRAggExpr::Last(_) | IRAggExpr::Min { .. } | IRAggExpr::Max { .. } =>
            push_field(alloc, fields, name, dtype),
        IRAggExpr::Count(..) | IRAggExpr::Median(_) | IRAggExpr::NUnique(_) => {
            push_field(alloc, fields, name, DataType::UInt32)
        }
    }
}

/// Adds the columns of an expression without alias that is an aggregate.
fn push_columns(
    alloc: Global,
    fields: &mut Vec<Field>,
    name: &str,
    expr: Option<&AExpr>,
    dtype: DataType,
) -> Result<(), AllocError>
    ensures { OnOk result (fields.new.items
        ≡ fields.old.items ++ agg_fields name.now (kind_by (option_copied expr.entry)) dtype) }
{
    match expr {
        Some(AExpr::Agg(agg)) => push_agg(alloc, fields, name, agg, dtype),
        _ => push_field(alloc, fields, name, DataType::UInt32),
    }
}

impl<'a> Known<'a> {
    /// Adds the field of a key.
    fn push_key(&self, alloc: Global, fields: &mut Vec<Field>, node: Node) -> Result<(), AllocError>
        ensures { OnOk result (fields.new.items
            ≡ fields.old.items ++ key_field self.now.fields (tree self.now.exprs node) ∷ []) }
    {
        push_field(alloc, fields, self.name(node), self.dtype(node))
    }

    /// Adds the columns of the aggregate of a node.
    fn push_output(
        &self,
        alloc: Global,
        fields: &mut Vec<Field>,
        node: Node,
    ) -> Result<(), AllocError>
        ensures { OnOk result (fields.new.items
            ≡ fields.old.items ++ agg_columns self.now.fields (tree self.now.exprs node)) }
    {
        let expr = self.expr(self.unaliased(node));
        push_columns(alloc, fields, self.name(node), expr, self.fed(node))
    }
}

/// The output schema of a query.
pub(crate) fn output_of(
    alloc: Global,
    query: &Query,
    known: &Known<'_>,
) -> Result<Schema, AllocError>
    requires { known.now ≡ record { exprs = query.now.arena; fields = query.now.schema } }
    ensures { IfOk result (λ s. s ≡ output_schema (query_tree query.now)) }
{
    let mut fields = Vec::new(alloc);
    for key in &query.keys {
        known.push_key(alloc, &mut fields, *key)?;
    }
    for agg in &query.aggs {
        known.push_output(alloc, &mut fields, *agg)?;
    }
    Ok(Schema::new(fields))
}
