//! The columns that expressions name, and which of them are sorted.

ghost use Rattle.std.specs.Prelude.{◌≡◌, option_copied};
ghost use Rattle.pipe_exprs.specs.Evaluated.{keeps_sorted};
ghost use Rattle.pipe_exprs.specs.Nodes.{own_flag as flag_of};
ghost use Rattle.pipe_model.specs.Expr.{column};
ghost use Rattle.pipe_exprs.specs.Operands.{HoldsValues};
ghost use Rattle.pipe_exprs.specs.Trees.{tree};
ghost use Rattle.pipe_model.specs.Value.{column_named as named};

use crate::arena::Arena;
use crate::expression::{AExpr, Node};
use crate::names::alias_input;
use crate::operand::Operand;
use pipe_columns::{AnyValue, Column, DataFrame, Text};

/// The first column of a name.
pub(crate) fn column_named<'a>(columns: &'a [Column], name: &Text) -> Option<&'a Column>
    ensures { option_copied result ≡ named name.now columns.now }
{
    for column in columns {
        if column.name() == name {
            return Some(column);
        }
    }
    None
}

/// The values of the first column of a name, lent: a null for all rows where there is none.
pub(crate) fn column_operand<'a>(frame: &'a DataFrame, name: &Text) -> Operand<'a>
    ensures { HoldsValues frame.now (column name.now) result }
{
    match column_named(frame.columns(), name) {
        Some(column) => Operand::Lent(column.values()),
        None => Operand::Constant(AnyValue::Null),
    }
}

/// The flag of an expression that is no alias: that of the column that it is.
fn own_flag(expr: Option<&AExpr>, columns: &[Column]) -> bool
    ensures { result ≡ flag_of (option_copied expr.entry) columns.now }
{
    match expr {
        Some(AExpr::Column(name)) => match column_named(columns, name) {
            Some(column) => column.sorted(),
            None => false,
        },
        _ => false,
    }
}

/// Whether the column that a node is, under aliases or none, is sorted: false for what is no
/// column.
pub(crate) fn is_sorted(arena: &Arena, node: Node, columns: &[Column]) -> bool
    ensures { result ≡ keeps_sorted (tree arena.now node) columns.now }
{
    let mut at = node;
    while let Some(input) = alias_input(arena.find(at)) {
        at = input;
    }
    own_flag(arena.find(at), columns)
}
