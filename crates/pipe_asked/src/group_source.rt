//! The groups of a run, partition by partition, or all in the order of their first rows.

ghost use Rattle.std.specs.Prelude.{◌≡◌, ◌<◌, ◌++◌, ◌↔◌, [], IfErr, IfOk, IfSome, List, None, OnErr, OnOk, false, length, true};
ghost use Rattle.std.specs.Option.{option_to_list};
ghost use Rattle.pipe_columns.specs.Frame.{FitsSchema};
ghost use Rattle.pipe_columns.specs.Row.{Row};
ghost use Rattle.pipe_model.specs.Output.{output_schema};
ghost use Rattle.pipe_asked.specs.Given.{IsSource};
ghost use Rattle.pipe_asked.specs.Sources.{chunks_left, GroupSourceSeen, HasAllRows, is_over, IsGiveCause, IsGroupSource, KeepsAsked, LeavesOthers, most_left, source_query, unasked};

use crate::asked::AskedPartitions;
use crate::by_place::{ask_rest, frame_by_place};
use pipe_aggs::CheckedQuery;
use pipe_columns::DataChunk;
use pipe_global::{BatchError, ClosedPartition};
use pipe_groups::PlacedGroups;
use pipe_spill::SpillStore;
use pipe_tables::AggHashTable;
use std::alloc::Global;
use std::marker::Model;

/// Gives the groups of closed partitions and of a local table under one slice: partition by partition,
/// each in the order of keys, or in one chunk in the order of first rows, where the query keeps order.
/// Contracts see its partitions, the groups that wait for the others, and whether the one chunk was
/// given.
#[derive(Drop)]
pub struct GroupBySource<'a, S: SpillStore + Drop> {
    alloc: Global,
    asked: AskedPartitions<'a, S>,
    placed: Vec<PlacedGroups>,
    is_given: bool,
}

impl<'a, S: SpillStore + Drop> Model for GroupBySource<'a, S> {
    ghost Value = { GroupSourceSeen };

    ghost view = { λ s. record {
      asked = s.asked;
      placed = s.placed.items;
      is_given = s.is_given;
    } };

    ghost invariant = { λ s. IsGroupSource (record {
      asked = s.asked;
      placed = s.placed.items;
      is_given = s.is_given;
    }) };
}

impl<'a, S: SpillStore + Drop> GroupBySource<'a, S> {
    /// A source that gives the groups of closed partitions of a query, each with those of the local
    /// table whose keys lie there, under a slice.
    pub fn new(
        alloc: Global,
        query: &'a CheckedQuery<'a>,
        partitions: Vec<ClosedPartition<S>>,
        local: AggHashTable,
        slice: Option<(usize, usize)>,
    ) -> GroupBySource<'a, S>
        requires { IsSource (unasked query.now partitions.items local slice) }
        ensures { result ≡ record {
          asked = unasked query.now partitions.items local slice;
          placed = [];
          is_given = false;
        } }
    {
        let asked = AskedPartitions::new(alloc, query, partitions, local, slice);
        let placed = Vec::new(alloc);
        GroupBySource {
            alloc,
            asked,
            placed,
            is_given: false,
        }
    }

    /// Whether nothing is left to give.
    fn is_over(&self) -> bool
        ensures is { result ≡ is_over self.now }
        ensures source { IsSource self.now.asked }
    {
        let all = if self.keeps_order() {
            self.is_given
        } else {
            self.asked.are_given()
        };
        self.asked.is_used_up() || all
    }

    /// Whether groups come in the order of their first rows.
    fn keeps_order(&self) -> bool
        ensures is { result ≡ (source_query self.now).keeps_order }
        ensures source { IsSource self.now.asked }
    {
        self.asked.query().query().maintain_order
    }

    /// Gives the groups of the next partition, in the order of their keys, under what is left of the
    /// slice; where the query keeps order, all groups in the order of their first rows. It gives
    /// nothing where all was given or the slice has no length left. A refused call gives nothing and
    /// loses no row, and can be made again.
    pub fn next_chunk(&mut self) -> Result<Option<DataChunk>, BatchError>
        ensures finished { IfOk result (λ given. (given ≡ None) ↔ (is_over self.old ≡ true)) }
        ensures as_before { IfOk result (λ given. given ≡ None → self.new ≡ self.old) }
        ensures chunk { IfOk result (λ given. (rs : List Row) → HasAllRows rs self.old
            → chunks_left rs self.old ≡ option_to_list given ++ chunks_left rs self.new) }
        ensures fields { IfOk result (λ given. IfSome given
            (λ c. FitsSchema (output_schema (source_query self.old)) c.frame)) }
        ensures fewer { IfOk result (λ given. IfSome given
            (λ _. most_left self.new < most_left self.old)) }
        ensures refused { OnErr result ((rs : List Row)
            → chunks_left rs self.new ≡ chunks_left rs self.old) }
        ensures slice_err { OnErr result (self.new.asked.slice ≡ self.old.asked.slice) }
        ensures stands { (rs : List Row) → HasAllRows rs self.old → HasAllRows rs self.new }
        ensures kept { KeepsAsked self.old.asked self.new.asked }
        ensures others { OnOk result (LeavesOthers self.old.asked self.new.asked) }
        ensures cause { IfErr result (λ e. IsGiveCause self.old.asked self.new.asked e) }
    {
        if self.is_over() {
            return Ok(None);
        }
        if self.keeps_order() {
            self.give_all()
        } else {
            self.give_next()
        }
    }

    /// Gives the groups of the next partition.
    fn give_next(&mut self) -> Result<Option<DataChunk>, BatchError>
        requires order { (source_query self.old).keeps_order ≡ false }
        requires left { is_over self.old ≡ false }
        requires source { IsSource self.old.asked }
        ensures some { IfOk result (λ given. given ≡ None → ⊥) }
        ensures chunk { IfOk result (λ given. (rs : List Row) → HasAllRows rs self.old
            → chunks_left rs self.old ≡ option_to_list given ++ chunks_left rs self.new) }
        ensures fields { IfOk result (λ given. IfSome given
            (λ c. FitsSchema (output_schema (source_query self.old)) c.frame)) }
        ensures fewer { OnOk result (most_left self.new < most_left self.old) }
        ensures refused { OnErr result ((rs : List Row)
            → chunks_left rs self.new ≡ chunks_left rs self.old) }
        ensures slice_err { OnErr result (self.new.asked.slice ≡ self.old.asked.slice) }
        ensures stands { (rs : List Row) → HasAllRows rs self.old → HasAllRows rs self.new }
        ensures kept { KeepsAsked self.old.asked self.new.asked }
        ensures others { OnOk result (LeavesOthers self.old.asked self.new.asked) }
        ensures cause { IfErr result (λ e. IsGiveCause self.old.asked self.new.asked e) }
    {
        let chunk = match self.asked.next_chunk() {
            Ok(chunk) => chunk,
            Err(error) => return Err(error),
        };
        Ok(Some(chunk))
    }

    /// Gives all groups in the order of their first rows. What partitions gave is kept where another
    /// refuses.
    fn give_all(&mut self) -> Result<Option<DataChunk>, BatchError>
        requires order { (source_query self.old).keeps_order ≡ true }
        requires left { is_over self.old ≡ false }
        ensures some { IfOk result (λ given. given ≡ None → ⊥) }
        ensures chunk { IfOk result (λ given. (rs : List Row) → HasAllRows rs self.old
            → chunks_left rs self.old ≡ option_to_list given ++ chunks_left rs self.new) }
        ensures fields { IfOk result (λ given. IfSome given
            (λ c. FitsSchema (output_schema (source_query self.old)) c.frame)) }
        ensures fewer { OnOk result (most_left self.new < most_left self.old) }
        ensures refused { OnErr result ((rs : List Row)
            → chunks_left rs self.new ≡ chunks_left rs self.old) }
        ensures slice_err { OnErr result (self.new.asked.slice ≡ self.old.asked.slice) }
        ensures stands { (rs : List Row) → HasAllRows rs self.old → HasAllRows rs self.new }
        ensures kept { KeepsAsked self.old.asked self.new.asked }
        ensures others { OnOk result (LeavesOthers self.old.asked self.new.asked) }
        ensures cause { IfErr result (λ e. IsGiveCause self.old.asked self.new.asked e) }
    {
        let GroupBySource {
            alloc,
            asked,
            placed,
            is_given,
        } = self;
        match ask_rest(asked, placed) {
            Ok(()) => {}
            Err(error) => return Err(error),
        }
        let query = asked.query();
        let slice = asked.slice();
        let parts = placed.as_slice();
        let Ok(frame) = frame_by_place(*alloc, query, parts, slice) else {
            return Err(BatchError::Memory);
        };
        *is_given = true;
        let chunk_index = 1;
        Ok(Some(DataChunk { chunk_index, frame }))
    }

    /// Gives the partitions back, in order. It takes no memory.
    pub fn into_parts(self) -> Vec<ClosedPartition<S>>
        ensures { result.items ≡ self.entry.asked.partitions }
    {
        let GroupBySource { asked, .. } = self;
        asked.into_parts()
    }
}
