//! Room for rows that are to come.

ghost use Rattle.std.specs.Prelude.{◌≡◌, ◌+◌, ℕ, IfOk, length, OnErr, OnOk, sum_by};
ghost use Rattle.pipe_groups.specs.Groups.{cover, Covers, HasGroups as SameGroups};
ghost use Rattle.pipe_keyed.specs.Tables.{HasGroups};
ghost use Rattle.pipe_tables.specs.Tables.{cover_rows};

use crate::by_hash::ByHash;
use crate::hash_table::AggHashTable;
use pipe_chains::hash_bytes;
use pipe_keyed::KeyedGroups;
use pipe_spill::SpillRow;
use std::alloc::AllocError;

/// How many bytes the keys of rows have, where the number fits.
fn key_bytes_of(rows: &[SpillRow]) -> Result<usize, AllocError>
    ensures { IfOk result (λ n. n ≡ sum_by (λ r. length r.key) rows.now) }
{
    let mut bytes: usize = 0;
    for row in rows {
        let Some(more) = bytes.checked_add(row.key.as_slice().len()) else {
            return Err(AllocError);
        };
        bytes = more;
    }
    Ok(bytes)
}

/// Makes a group for the key of each row that has none, for which there is room.
fn cover_all(keyed: &mut KeyedGroups<ByHash>, rows: &[SpillRow])
    requires { Covers keyed.old (length rows.now) (sum_by (λ r. length r.key) rows.now) }
    ensures { SameGroups keyed.old keyed.new
        (cover_rows keyed.old.shape.prototypes rows.now keyed.old.groups) }
{
    for row in rows {
        let key = row.key.as_slice();
        let _index = keyed.cover(hash_bytes(key), key);
    }
}

impl AggHashTable {
    /// Takes memory for the key of each row, so that no insert of one of these rows wants any.
    pub fn reserve(&mut self, rows: &[SpillRow]) -> Result<(), AllocError>
        ensures ok { OnOk result (HasGroups self.old self.new
            (cover_rows self.old.shape.prototypes rows.now self.old.groups)) }
        ensures err { OnErr result (HasGroups self.old self.new self.old.groups) }
    {
        let key_bytes = key_bytes_of(rows)?;
        self.keyed.make_room(rows.len(), key_bytes)?;
        self.parts = None;
        cover_all(&mut self.keyed, rows);
        Ok(())
    }
}
