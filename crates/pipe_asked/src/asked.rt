//! Closed partitions that are asked for their groups, one after another.

ghost use Rattle.std.specs.Prelude.{◌≡◌, ◌==◌, ◌||◌, ◌+◌, ◌<◌, ℕ, IfErr, IfOk, List, OnErr, OnOk, length, slice_index_or};
ghost use Rattle.pipe_aggs.specs.QueryTrees.{query_tree};
ghost use Rattle.pipe_columns.specs.Frame.{FitsSchema};
ghost use Rattle.pipe_columns.specs.Row.{Row};
ghost use Rattle.pipe_model.specs.Output.{output_schema};
ghost use Rattle.pipe_model.specs.Partitions.{groups_in};
ghost use Rattle.pipe_groups.specs.QueryRows.{ArePlacedRows};
ghost use Rattle.pipe_asked.specs.Left.{CountOn};
ghost use Rattle.pipe_asked.specs.Given.{HasGivenNext, HasRows, is_used_up, IsSource, KeepsSource, SourceSeen};
ghost use Rattle.pipe_asked.specs.Sources.{IsPlacedFrame};
ghost use Rattle.pipe_asked.specs.Stacking.{GivesNextPieces};
ghost use Rattle.pipe_global.specs.Finishing.{IsCause};

use pipe_aggs::CheckedQuery;
use pipe_columns::DataChunk;
use pipe_global::{BatchError, ClosedPartition};
use pipe_groups::{GroupPieces, PlacedGroups};
use pipe_spill::SpillStore;
use pipe_tables::AggHashTable;
use std::alloc::Global;
use std::marker::Model;

/// Closed partitions and a local table, which give their groups partition by partition, with one slice
/// or with the least places of their rows. Contracts see the query, the partitions, the local table,
/// what is left of the slice, and how many partitions were given.
#[derive(Drop)]
pub(crate) struct AskedPartitions<'a, S: SpillStore + Drop> {
    alloc: Global,
    query: &'a CheckedQuery<'a>,
    partitions: Vec<ClosedPartition<S>>,
    local: AggHashTable,
    slice: Option<(usize, usize)>,
    given: usize,
}

impl<'a, S: SpillStore + Drop> Model for AskedPartitions<'a, S> {
    ghost Value = { SourceSeen };

    ghost view = { λ s. record {
      query = s.query.now;
      partitions = s.partitions.items;
      local = s.local;
      slice = s.slice;
      given = s.given;
    } };

    ghost invariant = { λ s. IsSource (record {
      query = s.query.now;
      partitions = s.partitions.items;
      local = s.local;
      slice = s.slice;
      given = s.given;
    }) };
}

impl<'a, S: SpillStore + Drop> AskedPartitions<'a, S> {
    /// Partitions of which none was asked.
    pub(crate) fn new(
        alloc: Global,
        query: &'a CheckedQuery<'a>,
        partitions: Vec<ClosedPartition<S>>,
        local: AggHashTable,
        slice: Option<(usize, usize)>,
    ) -> AskedPartitions<'a, S>
        requires { IsSource (record {
          query = query.now;
          partitions = partitions.items;
          local = local;
          slice = slice;
          given = 0;
        }) }
        ensures { result ≡ record {
          query = query.now;
          partitions = partitions.items;
          local = local;
          slice = slice;
          given = 0;
        } }
    {
        AskedPartitions {
            alloc,
            query,
            partitions,
            local,
            slice,
            given: 0,
        }
    }

    /// The query.
    pub(crate) fn query(&self) -> &'a CheckedQuery<'a>
        ensures query { result.now ≡ self.now.query }
        ensures source { IsSource self.now }
    {
        self.query
    }

    /// What is left of the slice.
    pub(crate) fn slice(&self) -> Option<(usize, usize)>
        ensures { result ≡ self.now.slice }
    {
        self.slice
    }

    /// Whether the slice has no length left.
    pub(crate) fn is_used_up(&self) -> bool
        ensures { result ≡ is_used_up self.now.slice }
    {
        match self.slice {
            None => false,
            Some((_, length)) => length == 0,
        }
    }

    /// Whether every partition was given.
    pub(crate) fn are_given(&self) -> bool
        ensures is { result ≡ (self.now.given == length self.now.partitions) }
        ensures source { IsSource self.now }
    {
        self.given == self.partitions.len()
    }

    /// Whether nothing is left to give, where the query keeps no order.
    pub(crate) fn is_done(&self) -> bool
        ensures is { result ≡ (is_used_up self.now.slice
            || (self.now.given == length self.now.partitions)) }
        ensures source { IsSource self.now }
    {
        let all = self.are_given();
        self.is_used_up() || all
    }

    /// Gives the groups of the next partition, in the order of their keys, under what is left of the
    /// slice. A refused call gives nothing and loses no row, and can be made again.
    pub(crate) fn next_chunk(&mut self) -> Result<DataChunk, BatchError>
        requires left { self.old.given < length self.old.partitions }
        ensures chunk { IfOk result (λ c. (rs : List Row)
            → HasRows rs self.old → HasGivenNext rs self.old self.new c) }
        ensures fields { IfOk result
            (λ c. FitsSchema (output_schema (query_tree self.old.query)) c.frame) }
        ensures kept { OnOk result (KeepsSource self.old self.new (self.old.given + 1)) }
        ensures calm { OnOk result (CountOn self.old.partitions self.new.partitions) }
        ensures refused { OnErr result (KeepsSource self.old self.new self.old.given) }
        ensures slice_err { OnErr result (self.new.slice ≡ self.old.slice) }
        ensures stands { (rs : List Row) → HasRows rs self.old → HasRows rs self.new }
        ensures cause { IfErr result (λ e. (d : _) → IsCause
            (slice_index_or self.old.partitions self.old.given d)
            (slice_index_or self.new.partitions self.old.given d) e) }
    {
        let AskedPartitions {
            alloc,
            partitions,
            local,
            slice,
            given,
            ..
        } = self;
        let partition = &mut partitions[*given];
        let frame = match partition.finish(*alloc, local, slice) {
            Ok(frame) => frame,
            Err(error) => return Err(error),
        };
        *given += 1;
        let chunk_index = *given as u32;
        Ok(DataChunk { chunk_index, frame })
    }

    /// Gives the groups of the next partition, in the order of their keys, each with the least place of
    /// its rows. The slice stays. A refused call gives nothing and loses no row, and can be made again.
    pub(crate) fn next_placed(&mut self) -> Result<PlacedGroups, BatchError>
        requires left { self.old.given < length self.old.partitions }
        ensures placed { IfOk result (λ g. (rs : List Row) → HasRows rs self.old
            → ArePlacedRows (query_tree self.old.query) rs
            (groups_in (length self.old.partitions) (query_tree self.old.query) self.old.given rs)
            g.frame g.firsts) }
        ensures frame { IfOk result (IsPlacedFrame (query_tree self.old.query)) }
        ensures kept { OnOk result (KeepsSource self.old self.new (self.old.given + 1)) }
        ensures calm { OnOk result (CountOn self.old.partitions self.new.partitions) }
        ensures refused { OnErr result (KeepsSource self.old self.new self.old.given) }
        ensures slice { self.new.slice ≡ self.old.slice }
        ensures stands { (rs : List Row) → HasRows rs self.old → HasRows rs self.new }
        ensures cause { IfErr result (λ e. (d : _) → IsCause
            (slice_index_or self.old.partitions self.old.given d)
            (slice_index_or self.new.partitions self.old.given d) e) }
    {
        let AskedPartitions {
            alloc,
            partitions,
            local,
            given,
            ..
        } = self;
        let partition = &mut partitions[*given];
        let groups = match partition.finish_placed(*alloc, local) {
            Ok(groups) => groups,
            Err(refusal) => return Err(refusal),
        };
        *given += 1;
        Ok(groups)
    }

    /// Gives the groups of the next partition piece by piece, in the order of their keys, under what is
    /// left of the slice. They are the partition's no more. A refused call gives nothing and loses no row.
    pub(crate) fn next_pieces(&mut self) -> Result<GroupPieces, BatchError>
        requires left { self.old.given < length self.old.partitions }
        ensures pieces { IfOk result (λ p. GivesNextPieces self.old self.new p) }
        ensures kept { OnOk result (KeepsSource self.old self.new (self.old.given + 1)) }
        ensures calm { OnOk result (CountOn self.old.partitions self.new.partitions) }
        ensures refused { OnErr result (KeepsSource self.old self.new self.old.given) }
        ensures stands { OnOk result
            ((rs : List Row) → HasRows rs self.old → HasRows rs self.new) }
        ensures cause { IfErr result (λ e. (d : _) → IsCause
            (slice_index_or self.old.partitions self.old.given d)
            (slice_index_or self.new.partitions self.old.given d) e) }
    {
        let AskedPartitions {
            alloc,
            partitions,
            local,
            slice,
            given,
            ..
        } = self;
        let partition = &mut partitions[*given];
        let pieces = match partition.finish_pieces(*alloc, local, slice) {
            Ok(pieces) => pieces,
            Err(refused) => return Err(refused),
        };
        *given += 1;
        Ok(pieces)
    }

    /// Gives the partitions back, in order. It takes no memory.
    pub(crate) fn into_parts(self) -> Vec<ClosedPartition<S>>
        ensures { result.items ≡ self.entry.partitions }
    {
        let AskedPartitions {
            partitions,
            local,
            ..
        } = self;
        drop(local);
        partitions
    }
}
