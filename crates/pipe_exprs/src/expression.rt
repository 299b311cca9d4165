//! Nodes and the expressions that stand at them.

ghost use Rattle.std.specs.Prelude.{◌≡◌};
ghost use Rattle.pipe_exprs.specs.Trees.{agg_input};

use pipe_columns::{AnyValue, DataType, Operator, Text};

/// The position of an expression in an arena.
#[derive(Clone, Copy, Debug, PartialEq, Eq)]
pub struct Node(pub usize);

/// An expression, whose parts stand in the same arena.
#[derive(Drop)]
pub enum AExpr {
    Column(Text),
    Literal {
        dtype: DataType,
        value: AnyValue,
    },
    Cast {
        expr: Node,
        dtype: DataType,
    },
    BinaryExpr {
        left: Node,
        op: Operator,
        right: Node,
    },
    Ternary {
        predicate: Node,
        truthy: Node,
        falsy: Node,
    },
    Alias(Node, Text),
    Agg(IRAggExpr),
    Len,
    Filter {
        input: Node,
        by: Node,
    },
    Sort {
        expr: Node,
    },
}

/// An aggregate of an expression. A count with `true` counts nulls too.
#[derive(Drop)]
pub enum IRAggExpr {
    Sum(Node),
    First(Node),
    Last(Node),
    Mean(Node),
    Count(Node, bool),
    Min { input: Node, propagate_nans: bool },
    Max { input: Node, propagate_nans: bool },
    Median(Node),
    NUnique(Node),
}

impl IRAggExpr {
    /// The node that is summed up.
    pub fn input(&self) -> Node
        ensures { result ≡ agg_input self.now }
    {
        match self {
            IRAggExpr::Sum(input)
            | IRAggExpr::First(input)
            | IRAggExpr::Last(input)
            | IRAggExpr::Mean(input)
            | IRAggExpr::Count(input, _)
            | IRAggExpr::Min { input, .. }
            | IRAggExpr::Max { input, .. }
            | IRAggExpr::Median(input)
            | IRAggExpr::NUnique(input) => *input,
        }
    }
}
