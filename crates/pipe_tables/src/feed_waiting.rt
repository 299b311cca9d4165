//! Rows that wait are fed to the groups of their keys, which were found before.

ghost use Rattle.std.specs.Prelude.{◌≡◌, ◌∷◌, [], length};
ghost use Rattle.std.specs.List.{All};
ghost use Rattle.pipe_spill.specs.SpillRow.{IsRow};
ghost use Rattle.pipe_keyed.specs.Keyed.{IsAt};
ghost use Rattle.pipe_keyed.specs.Tables.{TakesOne};
ghost use Rattle.pipe_waiting.specs.Waiting.{AreWaiting, HaveNoTexts, HoldRows, left_rows};
ghost use Rattle.pipe_tables.specs.Tables.{taken_row};
ghost use Rattle.pipe_tables.specs.Waits.{CanTakeAt, rows_waiting, TookAt};

use crate::hash_table::AggHashTable;
use pipe_columns::AnyValue;
use pipe_waiting::{LentRow, LentRows, WaitingRows};

impl AggHashTable {
    /// Takes a row in at the group of its key. Its inputs are taken out of a list.
    #[inline(always)]
    fn feed_at(&mut self, index: usize, row: LentRow<'_>, values: &mut [AnyValue])
        requires typed { IsRow self.old.shape.key_types self.old.shape.input_types
            (taken_row row.place row.key.now values.old) }
        requires few { TakesOne self.old }
        requires at { IsAt self.old.groups row.key.now index }
        ensures took { TookAt self.old self.new
            (taken_row row.entry.place row.entry.key.now values.old ∷ []) }
        ensures fits { length values.new ≡ length values.old }
    {
        self.keyed.feed_taken(index, row.place, values);
    }

    /// Takes rows in that are lent, whose groups are at spots, one for each row.
    pub(crate) fn feed_lent(&mut self, rows: LentRows<'_>, spots: &[u32], values: &mut [AnyValue])
        requires held { HoldRows self.old.shape.input_types rows.count rows.bytes }
        requires plain { HaveNoTexts self.old.shape.input_types }
        requires fit { length values.old ≡ length self.old.shape.input_types }
        requires rows { CanTakeAt self.old (left_rows self.old.shape.input_types rows) spots.now }
        ensures took { TookAt self.old self.new
            (left_rows self.old.shape.input_types rows.entry) }
        ensures fits { length values.new ≡ length values.old }
    {
        let mut rows = rows;
        let mut spots = spots;
        while let Some(row) = rows.next_plain(self.input_types(), values) {
            let Some((spot, rest)) = spots.split_first() else {
                unreachable!();
            };
            self.look_at_spots(rest);
            self.feed_at(*spot as usize, row, values);
            spots = rest;
        }
    }

    /// Takes all rows in that wait, whose groups are at spots, one for each row.
    pub(crate) fn feed_waiting(
        &mut self,
        waiting: &[WaitingRows],
        spots: &[u32],
        values: &mut [AnyValue],
    )
        requires held { All (AreWaiting self.old.shape.input_types) waiting.now }
        requires plain { HaveNoTexts self.old.shape.input_types }
        requires fit { length values.old ≡ length self.old.shape.input_types }
        requires rows { CanTakeAt self.old
            (rows_waiting self.old.shape.input_types waiting.now) spots.now }
        ensures took { TookAt self.old self.new
            (rows_waiting self.old.shape.input_types waiting.now) }
        ensures fits { length values.new ≡ length values.old }
    {
        let mut spots = spots;
        for rows in waiting {
            let (own, rest) = spots.split_at(rows.len());
            self.feed_lent(rows.lend(), own, values);
            spots = rest;
        }
    }
}
