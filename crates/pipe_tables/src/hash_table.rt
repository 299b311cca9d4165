//! A table of groups by key.

ghost use Rattle.std.specs.Prelude.{◌≡◌, ◌≢◌, ◌↔◌, ◌<◌, ◌^◌, ◌∷◌, ◌++◌, [], IfOk, IsTrue, List, None, OnErr, OnOk, false, if◌then◌else◌, length, true, ℕ};
ghost use Rattle.pipe_columns.specs.Key.{code};
ghost use Rattle.pipe_columns.specs.Slice.{sliced};
ghost use Rattle.pipe_aggs.specs.QueryTrees.{query_tree};
ghost use Rattle.pipe_inputs.specs.ChunkRows.{row_at};
ghost use Rattle.pipe_spill.specs.SpillRow.{IsRow, spilled};
ghost use Rattle.pipe_spill.specs.declared.spill_row.SpillRow.{SpillRow};
ghost use Rattle.pipe_groups.specs.Given.{in_order, IsFrameOfGroups, slice_after};
ghost use Rattle.pipe_groups.specs.Groups.{AreJoined, count_held, held_at, held_bytes, is_covered, is_held};
ghost use Rattle.pipe_groups.specs.Holds.{Holds};
ghost use Rattle.pipe_groups.specs.Shape.{shape_of};
ghost use Rattle.pipe_keyed.specs.Tables.{HasGroups, HoldFewTogether, IsTable, KeepsShape, put_row, TakesOne};
ghost use Rattle.pipe_tables.specs.Tables.{cover_rows, groups_in, is_full, lies_in};
ghost use Rattle.pipe_tables.specs.declared.insert_end.InsertEnd.TheVariants as end;

use crate::by_hash::ByHash;
use crate::insert_end::LentEnd;
use crate::parts::Parts;
use pipe_aggs::CheckedQuery;
use pipe_columns::DataFrame;
use pipe_inputs::ChunkRows;
use pipe_keyed::KeyedGroups;
use pipe_spill::SpillRow;
use std::alloc::{AllocError, Global};
use std::marker::Model;

/// Groups by key, with a limit on new keys or none. Contracts see the groups in the order in which
/// their keys came, those without rows among them, which are room that was reserved.
#[derive(Drop)]
pub struct AggHashTable {
    pub(crate) keyed: KeyedGroups<ByHash>,
    pub(crate) limit: Option<usize>,
    pub(crate) parts: Option<Parts>,
}

impl Model for AggHashTable {
    ghost use Rattle.pipe_tables.specs.TableLayout.{IsKept, table_in};
    ghost use Rattle.pipe_keyed.specs.Tables.{Table};

    ghost Value = { Table };

    ghost view = { table_in };

    ghost invariant = { IsKept };
}

impl AggHashTable {
    /// A table of no rows for a query. With a limit, a new key is refused once more keys than that are
    /// held.
    pub fn new(
        alloc: Global,
        query: &CheckedQuery<'_>,
        limit: Option<usize>,
    ) -> Result<AggHashTable, AllocError>
        ensures shape { IfOk result (λ t. t.shape ≡ shape_of (query_tree query.now)) }
        ensures limit { IfOk result (λ t. t.limit ≡ limit) }
        ensures groups { IfOk result (λ t. t.groups ≡ []) }
    {
        Ok(AggHashTable {
            keyed: KeyedGroups::new(alloc, query)?,
            limit,
            parts: None,
        })
    }

    /// An empty table of the same query and limit.
    pub fn split(&self) -> Result<AggHashTable, AllocError>
        ensures shape { IfOk result (λ t. t.shape ≡ self.now.shape) }
        ensures limit { IfOk result (λ t. t.limit ≡ self.now.limit) }
        ensures groups { IfOk result (λ t. t.groups ≡ []) }
    {
        Ok(AggHashTable {
            keyed: self.keyed.split()?,
            limit: self.limit,
            parts: None,
        })
    }

    /// How many keys are held.
    pub fn len(&self) -> usize
        ensures len { result ≡ count_held self.now.groups }
        ensures table { IsTable self.now }
    {
        self.keyed.held()
    }

    /// Whether no key is held.
    pub fn is_empty(&self) -> bool
        ensures { IsTrue result ↔ (count_held self.now.groups ≡ 0) }
    {
        self.len() == 0
    }

    /// How many bytes the codes of the held keys have.
    pub fn key_bytes(&self) -> usize
        ensures { result ≡ held_bytes self.now.groups }
    {
        self.keyed.key_bytes()
    }
}
