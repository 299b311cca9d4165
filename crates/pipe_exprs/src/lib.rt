//! Expressions: their arena, their names and types, and their values in the rows of a chunk.
#![tactic(auto)]

mod arena;
mod arithmetic;
mod casts;
mod column_values;
mod columns;
mod evaluate;
mod expression;
mod facts;
mod fields;
mod last_uses;
mod laws;
mod len;
mod logic;
mod names;
mod node_operand;
mod operand;
mod operators;
mod piped_expr;
mod rows;
mod types;
mod typing;
mod worked;

pub use arena::{AddError, Arena};
pub use column_values::ColumnValues;
pub use expression::{AExpr, IRAggExpr, Node};
pub use facts::{NodeFacts, facts_at};
pub use fields::{TypeFault, to_field};
pub use len::Len;
pub use names::alias_input;
pub use pipe_columns::Operator;
pub use piped_expr::PipedExpr;
pub use types::node_facts;
pub use typing::{is_input, is_integer, sum_type};
