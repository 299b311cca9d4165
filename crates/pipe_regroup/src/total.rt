//! How many rows states are of.

ghost use Rattle.std.specs.Prelude.{◌≡◌, ◌<◌, ◌^◌, All};
ghost use Rattle.pipe_regroup.specs.Groups.{count_rows};
ghost use Rattle.pipe_regroup.specs.Regrouping.{held_count, with_more};
ghost use Rattle.pipe_states.specs.Fair.{IsFair};
ghost use Rattle.pipe_states.specs.Together.{total_rows};

use pipe_states::{StateFile, StateRow};

/// How many rows state rows are of.
pub(crate) fn counted(rows: &[StateRow]) -> u32
    requires { count_rows rows.now < 2 ^ 32 }
    ensures { result ≡ count_rows rows.now }
{
    let mut sum = 0;
    for row in rows {
        sum += row.rows;
    }
    sum
}

/// A number of rows with some more, if a count holds it.
pub(crate) fn more(rows: Option<u32>, added: u32) -> Option<u32>
    ensures { result ≡ with_more rows added }
{
    rows?.checked_add(added)
}

/// How many rows states are of, if a count holds it.
pub(crate) fn total(files: &[StateFile]) -> Option<u32>
    ensures rows { result ≡ held_count (total_rows files.now) }
    ensures fair { All IsFair files.now }
{
    let mut rows = Some(0);
    for file in files {
        rows = more(rows, counted(file.rows()));
    }
    rows
}
