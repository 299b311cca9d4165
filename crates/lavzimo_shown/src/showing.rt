//! What is shown of an answer.

ghost use Rattle.std.specs.Prelude.{◌≡◌, IfOk, List, length, ℕ};
ghost use Rattle.pipe_model.specs.Output.{output_schema};
ghost use Rattle.pipe_model.specs.Query.{QueryTree};
ghost use Rattle.lavzimo_words.specs.Asked.{columns_seen, of_columns, of_file};
ghost use Rattle.lavzimo_shown.specs.Showing as spec;

use crate::columns::{asked_shown, fields_shown};
use crate::keys::{key_count, order_by};
use crate::none::{nothing, rows_of_none};
use lavzimo_rows::{RowOrder, Shown};
use lavzimo_words::Columns;
use pipe_columns::{DataFrame, Schema};
use std::alloc::{AllocError, Global};
use std::marker::Model;

/// What is shown of an answer, and the rows that stand in place of its own where it has none.
#[derive(Drop)]
pub struct Showing {
    pub(crate) shown: Shown,
    pub(crate) none: DataFrame,
}

impl Model for Showing {
    ghost use Rattle.pipe_lines.specs.Rows.{frame_rows};
    ghost use Rattle.lavzimo_shown.specs.Showing.{ShowingSeen};

    ghost Value = { ShowingSeen };

    ghost view = { λ s. record { shown = s.shown; none = frame_rows s.none } };
}

impl Showing {
    /// What is shown of the answer of asked columns.
    pub fn of_columns(alloc: Global, asked: &Columns) -> Result<Showing, AllocError>
        ensures { IfOk result (λ s. (q : QueryTree)
            → s ≡ spec.shown_of (of_columns (columns_seen asked.now)) q) }
    {
        let columns = asked_shown(alloc, &asked.columns)?;
        let keys = key_count(&asked.columns);
        let shown = Shown::new(columns, keys, order_by(asked.order));
        let none = rows_of_none(alloc, &asked.columns)?;
        let shown = shown.limited(asked.offset, asked.limit);
        Ok(Showing { shown, none })
    }

    /// All of an answer of so many keys and these columns, as it stands.
    pub fn whole(alloc: Global, keys: usize, columns: &Schema) -> Result<Showing, AllocError>
        ensures { IfOk result (λ s. (name : List ℕ) (q : QueryTree) → keys ≡ length q.keys
            → columns.now ≡ output_schema q → s ≡ spec.shown_of (of_file name) q) }
    {
        let columns = fields_shown(alloc, columns.fields())?;
        let shown = Shown::new(columns, keys, RowOrder::First);
        let none = nothing(alloc);
        Ok(Showing { shown, none })
    }
}
