//! The group of a row's one key.

ghost use Rattle.std.specs.Prelude.{◌≡◌, ◌<◌, IfOk, length, OnErr, OnOk};
ghost use Rattle.pipe_columns.specs.Key.{code};
ghost use Rattle.pipe_inputs.specs.ChunkRows.{row_at};
ghost use Rattle.pipe_spill.specs.KeyTypes.{AreOfTypes};
ghost use Rattle.pipe_groups.specs.Groups.{cover, HasGroups};
ghost use Rattle.pipe_keyed.specs.Keyed.{IsAt};
ghost use Rattle.pipe_sinks.specs.SoleKeys.{IsSole};

use crate::by_value::ByValue;
use crate::sole_mark::mark_of;
use pipe_columns::DataType;
use pipe_groups::encode_row;
use pipe_inputs::ChunkRows;
use pipe_keyed::KeyedGroups;
use std::alloc::AllocError;

/// The index of the group of a row's key. Where there is none it is made, and for it alone the code
/// of the key, in a buffer.
pub(crate) fn cover_lent(
    keyed: &mut KeyedGroups<ByValue>,
    key: &mut Vec<u8>,
    types: &[DataType],
    rows: &ChunkRows<'_>,
    row: usize,
) -> Result<usize, AllocError>
    requires types { types.now ≡ keyed.old.shape.key_types }
    requires sole { IsSole keyed.old.shape.key_types }
    requires there { row < length rows.now }
    requires key { AreOfTypes keyed.old.shape.key_types (row_at rows.now row).key }
    ensures ok { OnOk result (HasGroups keyed.old keyed.new (cover keyed.old.shape.prototypes
        (code keyed.old.shape.key_types (row_at rows.now row).key) keyed.old.groups)) }
    ensures at { IfOk result (λ i. IsAt keyed.new.groups
        (code keyed.old.shape.key_types (row_at rows.now row).key) i) }
    ensures err { OnErr result (HasGroups keyed.old keyed.new keyed.old.groups) }
{
    let value = rows.key(row, 0);
    let mark = mark_of(value);
    match keyed.find(mark, value) {
        Some(index) => {
            return Ok(index);
        }
        None => {
            encode_row(key, rows, row, types)?;
            let index = keyed.push(mark, key)?;
            return Ok(index);
        }
    }
}
