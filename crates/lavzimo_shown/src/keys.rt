//! The keys of asked columns, and the order of rows.

ghost use Rattle.std.specs.Prelude.{◌≡◌, length};
ghost use Rattle.lavzimo_words.specs.AskedQuery.{keys_in};
ghost use Rattle.lavzimo_shown.specs.Showing as spec;

use lavzimo_rows::{ColumnOrder, RowOrder};
use lavzimo_words::{AskedColumn, Order, Role};

/// How many columns are keys.
fn count_keys(columns: &[AskedColumn]) -> usize
    ensures { result ≡ length (keys_in columns.now) }
{
    columns
        .iter()
        .filter(|column| column.role == Role::Key)
        .count()
}

/// How many keys an answer has; where none is asked, all rows have one.
pub(crate) fn key_count(columns: &[AskedColumn]) -> usize
    ensures { result ≡ spec.key_count columns.now }
{
    count_keys(columns).max(1)
}

/// Whether some column is a key.
pub(crate) fn has_key(columns: &[AskedColumn]) -> bool
    ensures { result ≡ spec.has_key columns.now }
{
    columns.iter().any(|column| column.role == Role::Key)
}

/// An order by the column at a place.
fn by_column(column: usize, descending: bool) -> RowOrder
    ensures { result ≡ RowOrder.Column (record { column = column; descending = descending }) }
{
    RowOrder::Column(ColumnOrder { column, descending })
}

/// The order of rows that is asked for.
pub(crate) fn order_by(order: Order) -> RowOrder
    ensures { result ≡ spec.order_by order }
{
    match order {
        Order::Key => RowOrder::Key,
        Order::First => RowOrder::First,
        Order::Up(place) => by_column(place, false),
        Order::Down(place) => by_column(place, true),
    }
}
