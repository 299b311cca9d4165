//! Rows that wait as bytes and are merged into a table.

ghost use Rattle.std.specs.Prelude.{◌≡◌, length};
ghost use Rattle.pipe_groups.specs.Holds.{HoldFewer};
ghost use Rattle.pipe_spill.specs.SpillRow.{AreRows};
ghost use Rattle.pipe_waiting.specs.Waiting.{AreWaiting, HaveNoTexts, waiting_rows};

use pipe_columns::AnyValue;
use pipe_tables::AggHashTable;
use pipe_waiting::WaitingRows;
use std::alloc::AllocError;

/// Merges rows that wait.
pub(crate) fn merge(
    table: &mut AggHashTable,
    waiting: &WaitingRows,
    values: &mut [AnyValue],
) -> Result<(), AllocError>
    requires held { AreWaiting table.old.shape.input_types waiting.now }
    requires plain { HaveNoTexts table.old.shape.input_types }
    requires fit { length values.old ≡ length table.old.shape.input_types }
    requires typed { AreRows table.old.shape.key_types table.old.shape.input_types
        (waiting_rows table.old.shape.input_types waiting.now) }
    requires few { HoldFewer table.old.shape table.old.groups waiting.now.count }
    ensures fits { length values.new ≡ length values.old }
{
    table.take_lent(waiting.lend(), values)
}
