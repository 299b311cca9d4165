//! Laws of the definitions, each proved as the contract of an empty function.

ghost use Rattle.std.specs.Prelude.{◌≡◌, ◌≢◌, ◌++◌, ◌+◌, ◌<◌, ℕ, ℤ, neg_ℤ, IsPermutation, List, None, Some};
ghost use Rattle.pipe_columns.specs.Groups.{IsAscending};
ghost use Rattle.pipe_lines.specs.Rows.{Row};
ghost use Rattle.lavzimo_rows.specs.declared.columns.ShownColumn.{ShownColumn};
ghost use Rattle.lavzimo_rows.specs.declared.row_order.RowOrder.{RowOrder};
ghost use Rattle.lavzimo_rows.specs.declared.row_order.RowOrder.TheVariants as order;
ghost use Rattle.lavzimo_rows.specs.Laws.{HaveDistinctKeys, IsNearest};
ghost use Rattle.lavzimo_rows.specs.Mean.{mean_micros, rounded};
ghost use Rattle.lavzimo_rows.specs.Shown.{ShownData, key_cmp, kept_rows, limited, ordered};

/// A rounded quotient is nearest to it, and even where two numbers are as near. A mean below 0 is
/// rounded as the one above it.
pub fn means_are_nearest()
    ensures nearest { (n divisor : ℕ) → 0 < divisor → IsNearest n divisor (rounded n divisor) }
    ensures turned { (sum : ℤ) (count : ℕ)
        → mean_micros (neg_ℤ sum) count ≡ neg_ℤ (mean_micros sum count) }
{}

/// An order shows each row once; rows of which no two have the same keys ascend by them.
pub fn rows_stand_in_order()
    ensures once { (columns : List ShownColumn) (keys : ℕ) (o : RowOrder) (rows : List Row)
        → IsPermutation rows (ordered columns keys o rows) }
    ensures ascending { (columns : List ShownColumn) (keys : ℕ) (rows : List Row)
        → HaveDistinctKeys keys rows
        → IsAscending (key_cmp keys) (ordered columns keys order.Key rows) }
{}

/// The rows that are shown don't depend on where they stood, but in the order of first rows.
pub fn rows_are_moved()
    ensures { (s : ShownData) (rows others : List Row) → s.order ≢ order.First
        → HaveDistinctKeys s.keys rows → IsPermutation rows others
        → kept_rows s rows ≡ kept_rows s others }
{}

/// A window and the one behind it are one window.
pub fn windows_are_joined()
    ensures { (first next : ℕ) (rows : List Row)
        → limited 0 (Some first) rows ++ limited first (Some next) rows
        ≡ limited 0 (Some (first + next)) rows }
{}
