//! A table of groups by key.

ghost use Rattle.std.specs.Prelude.{◌≡◌, ◌<◌, ◌≤◌, ◌^◌, ◌∷◌, ◌++◌, [], IfOk, List, length, OnErr, OnOk, true};
ghost use Rattle.pipe_columns.specs.Key.{code};
ghost use Rattle.pipe_columns.specs.Slice.{sliced};
ghost use Rattle.pipe_aggs.specs.QueryTrees.{query_tree};
ghost use Rattle.pipe_inputs.specs.ChunkRows.{row_at};
ghost use Rattle.pipe_spill.specs.KeyTypes.{AreOfTypes};
ghost use Rattle.pipe_spill.specs.SpillRow.{IsRow, spilled};
ghost use Rattle.pipe_spill.specs.declared.spill_row.SpillRow.{SpillRow};
ghost use Rattle.pipe_groups.specs.Given.{IsFrameOfGroups};
ghost use Rattle.pipe_groups.specs.GroupRuns.{keep_no_text};
ghost use Rattle.pipe_groups.specs.Holds.{HoldFewer, Holds};
ghost use Rattle.pipe_groups.specs.Placed.{HaveFirstsApart, in_order_of_parts, IsFrameByRow};
ghost use Rattle.pipe_groups.specs.Shape.{shape_of};
ghost use Rattle.pipe_sinks.specs.SoleKeys.{IsSole};
ghost use Rattle.pipe_keyed.specs.Keyed.{IsAt};
ghost use Rattle.pipe_sinks.specs.KeyRuns.{IsRun, run_rows};
ghost use Rattle.pipe_keyed.specs.Tables.{HasGroups, HoldFewTogether, IsTable, TakesOne};
ghost use Rattle.pipe_sinks.specs.Alike.{HoldAlike, KeysStay, TookTable};

use crate::by_value::ByValue;
use crate::cover_lent::cover_lent;
use pipe_aggs::CheckedQuery;
use pipe_columns::{DataFrame, DataType};
use pipe_inputs::ChunkRows;
use pipe_keyed::{KeyedGroups, take_all};
use std::alloc::{AllocError, Global};
use std::marker::Model;

/// Groups by key. Contracts see the groups in the order in which their keys came.
#[derive(Drop)]
pub(crate) struct KeyTable {
    keyed: KeyedGroups<ByValue>,
}

impl Model for KeyTable {
    ghost use Rattle.pipe_sinks.specs.TableLayout.{IsKept, table_in};
    ghost use Rattle.pipe_keyed.specs.Tables.{Table};

    ghost Value = { Table };

    ghost view = { table_in };

    ghost invariant = { IsKept };
}

impl KeyTable {
    /// A table of no rows for a query.
    pub(crate) fn new(alloc: Global, query: &CheckedQuery<'_>) -> Result<KeyTable, AllocError>
        ensures shape { IfOk result (λ t. t.shape ≡ shape_of (query_tree query.now)) }
        ensures groups { IfOk result (λ t. t.groups ≡ []) }
    {
        let keyed = KeyedGroups::new(alloc, query)?;
        Ok(KeyTable { keyed })
    }

    /// A table of no rows, of what this is.
    pub(crate) fn split(&self) -> Result<KeyTable, AllocError>
        ensures shape { IfOk result (λ t. t.shape ≡ self.now.shape) }
        ensures groups { IfOk result (λ t. t.groups ≡ []) }
    {
        let keyed = self.keyed.split()?;
        Ok(KeyTable { keyed })
    }

    /// Whether no group ever keeps a text.
    pub(crate) fn keep_no_text(&self) -> bool
        ensures { result ≡ keep_no_text self.now.shape.prototypes self.now.shape.input_types }
    {
        self.keyed.groups().keep_no_text()
    }

    /// Takes row `row` of a chunk in, which is lent. The code of its key is made for a new key alone, in
    /// a buffer.
    pub(crate) fn insert_lent(
        &mut self,
        key: &mut Vec<u8>,
        types: &[DataType],
        rows: &ChunkRows<'_>,
        row: usize,
    ) -> Result<(), AllocError>
        requires types { types.now ≡ self.old.shape.key_types }
        requires sole { IsSole self.old.shape.key_types }
        requires there { row < length rows.now }
        requires number { row < 2 ^ 32 }
        requires key { AreOfTypes self.old.shape.key_types (row_at rows.now row).key }
        requires typed { IsRow self.old.shape.key_types self.old.shape.input_types
            (spilled self.old.shape.key_types (row_at rows.now row)) }
        requires few { TakesOne self.old }
        ensures shape { self.new.shape ≡ self.old.shape }
        ensures holds { OnOk result ((taken : List SpillRow)
            → Holds self.old.shape.prototypes self.old.groups taken
            → Holds self.old.shape.prototypes self.new.groups
            (taken ++ spilled self.old.shape.key_types (row_at rows.now row) ∷ [])) }
    {
        let index = cover_lent(&mut self.keyed, key, types, rows, row)?;
        self.keyed.feed_lent(index, rows, row)?;
        Ok(())
    }

    /// The index of the group of a row's key, for which room is made where there is none. No row comes in.
    pub(crate) fn cover(
        &mut self,
        key: &mut Vec<u8>,
        types: &[DataType],
        rows: &ChunkRows<'_>,
        row: usize,
    ) -> Result<usize, AllocError>
        requires types { types.now ≡ self.old.shape.key_types }
        requires sole { IsSole self.old.shape.key_types }
        requires there { row < length rows.now }
        requires key { AreOfTypes self.old.shape.key_types (row_at rows.now row).key }
        ensures alike { HoldAlike self.old self.new }
        ensures stay { KeysStay self.old self.new }
        ensures at { IfOk result (λ i. IsAt self.new.groups
            (code self.old.shape.key_types (row_at rows.now row).key) i) }
    {
        let index = cover_lent(&mut self.keyed, key, types, rows, row)?;
        Ok(index)
    }

    /// Takes rows of a chunk into the group of their key, which follow one another, and of which no text
    /// is kept. It takes no memory.
    pub(crate) fn feed_run(&mut self, index: usize, rows: &ChunkRows<'_>, row: usize, len: usize)
        requires plain { keep_no_text self.old.shape.prototypes self.old.shape.input_types ≡ true }
        requires run { IsRun self.old.shape rows.now row len }
        requires at { IsAt self.old.groups
            (code self.old.shape.key_types (row_at rows.now row).key) index }
        requires few { HoldFewer self.old.shape self.old.groups len }
        ensures shape { self.new.shape ≡ self.old.shape }
        ensures stay { KeysStay self.old self.new }
        ensures holds { (taken : List SpillRow)
            → Holds self.old.shape.prototypes self.old.groups taken
            → Holds self.old.shape.prototypes self.new.groups
            (taken ++ run_rows self.old.shape.key_types rows.now row len) }
    {
        self.keyed.feed_run(index, rows, row, len);
    }

    /// Takes the rows of another table in, which is then empty.
    pub(crate) fn combine(&mut self, other: &mut KeyTable) -> Result<(), AllocError>
        requires shape { other.old.shape ≡ self.old.shape }
        requires few { HoldFewTogether self.old other.old }
        ensures took { OnOk result (TookTable self.old other.old self.new) }
        ensures emptied { OnOk result (HasGroups other.old other.new []) }
        ensures err { OnErr result (HasGroups self.old self.new self.old.groups) }
        ensures other_err { OnErr result (HasGroups other.old other.new other.old.groups) }
    {
        let groups = other.keyed.held();
        let key_bytes = other.keyed.key_bytes();
        self.keyed.make_room(groups, key_bytes)?;
        take_all(&mut self.keyed, &mut other.keyed);
        other.keyed.clear();
        Ok(())
    }

    /// Gives the groups in the order of their first rows, under a slice. None is left. Where memory is
    /// wanting, all stays as it was.
    pub(crate) fn finalize_by_row(
        &mut self,
        slice: Option<(usize, usize)>,
    ) -> Result<DataFrame, AllocError>
        requires { IsTable self.old → HaveFirstsApart self.old.groups }
        ensures frame { IfOk result (λ f. IsFrameByRow self.old.shape self.old.groups slice f) }
        ensures emptied { OnOk result (HasGroups self.old self.new []) }
        ensures err { OnErr result (HasGroups self.old self.new self.old.groups) }
        ensures table { IsTable self.old }
    {
        let frame = self.keyed.finalize_by_row(slice)?;
        Ok(frame)
    }

    /// Gives the groups partition by partition, and by key in each, under a slice. None is left. Where
    /// memory is wanting, all stays as it was.
    pub(crate) fn finalize_by_partition(
        &mut self,
        partitions: usize,
        slice: Option<(usize, usize)>,
    ) -> Result<DataFrame, AllocError>
        requires some { 0 < partitions }
        requires few { partitions ≤ 2 ^ 32 }
        ensures frame { IfOk result (λ f. IsFrameOfGroups self.old.shape
            (sliced slice (in_order_of_parts partitions self.old.groups)) f) }
        ensures emptied { OnOk result (HasGroups self.old self.new []) }
        ensures err { OnErr result (HasGroups self.old self.new self.old.groups) }
        ensures table { IsTable self.old }
    {
        let frame = self.keyed.finalize_by_partition(partitions, slice)?;
        Ok(frame)
    }
}
