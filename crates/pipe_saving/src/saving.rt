//! A state in the making, of chunks that come one by one.

ghost use Rattle.std.specs.Prelude.{◌≡◌, ◌↔◌, ◌∷◌, ◌++◌, [], IfOk, IsTrue, map, OnOk};
ghost use Rattle.pipe_aggs.specs.QueryTrees.{query_tree};
ghost use Rattle.pipe_columns.specs.Frame.{FitsSchema};
ghost use Rattle.pipe_saving.specs.Refusals.{AllFit, AreFew};
ghost use Rattle.pipe_saving.specs.Taken.{HasTaken};
ghost use Rattle.pipe_states.specs.Fair.{IsStateOf};
ghost use Rattle.pipe_states.specs.Parts.{part_of, saved};

use crate::chunk_check::total_rows;
use crate::fed_groups::FedGroups;
use pipe_aggs::CheckedQuery;
use pipe_columns::DataChunk;
use pipe_inputs::ChunkRows;
use pipe_states::StateFile;
use std::alloc::{AllocError, Global};
use std::marker::Model;
use std::snapshot::Snapshot;

/// Feeds the rows of the next chunk to groups that are fed chunks, of which marks are at hand.
fn feed_chunk(
    alloc: Global,
    groups: &mut FedGroups,
    query: &CheckedQuery<'_>,
    first: u32,
    taken: &[Snapshot<DataChunk>],
    chunk: &DataChunk,
) -> Result<(), AllocError>
    requires before { HasTaken (query_tree query.now) first (map (λ s. s.value) taken.now)
        groups.old.table groups.old.extents.items }
    requires fits { FitsSchema query.now.schema chunk.now.frame }
    requires few { AreFew first (map (λ s. s.value) taken.now ++ chunk.now ∷ []) }
    ensures { OnOk result (HasTaken (query_tree query.now) first
        (map (λ s. s.value) taken.now ++ chunk.now ∷ [])
        groups.new.table groups.new.extents.items) }
{
    let height = chunk.frame.height();
    let index = first + taken.len() as u32;
    let rows = ChunkRows::new(alloc, query, index, chunk)?;
    let types = query.key_types();
    for row in 0..height {
        groups.feed_row(&rows, row, types)?;
    }
    Ok(())
}

/// The state of chunks that groups are fed, of which marks are at hand.
fn file_of(
    alloc: Global,
    query: &CheckedQuery<'_>,
    first: u32,
    groups: FedGroups,
    taken: &[Snapshot<DataChunk>],
) -> Result<StateFile, AllocError>
    requires { HasTaken (query_tree query.now) first (map (λ s. s.value) taken.now)
        groups.table groups.extents.items }
    ensures state { IfOk result (λ f. let q = query_tree query.now in
        f ≡ saved q (part_of q first (map (λ s. s.value) taken.now))) }
    ensures of_query { IfOk result (IsStateOf (query_tree query.now)) }
{
    let end = first + taken.len() as u32;
    let _known = query.query();
    let rows = groups.into_rows(alloc)?;
    Ok(StateFile::new(first, end, rows))
}

/// The state of chunks that come one by one. Contracts see the query, the position of the first
/// chunk and the chunks taken, though of each only a mark without bytes is kept.
#[derive(Drop)]
pub struct Saving<'a> {
    query: &'a CheckedQuery<'a>,
    first: u32,
    groups: FedGroups,
    rows: u64,
    taken: Vec<Snapshot<DataChunk>>,
}

impl<'a> Model for Saving<'a> {
    ghost use Rattle.std.specs.Prelude.{◌≡◌, map};
    ghost use Rattle.pipe_aggs.specs.QueryTrees.{query_tree};
    ghost use Rattle.pipe_model.specs.Rows.{total_height};
    ghost use Rattle.pipe_saving.specs.Taken.{HasTaken, SavingSeen};

    ghost Value = { SavingSeen };

    ghost view = { λ a. record {
      query = a.query.now;
      first = a.first;
      taken = map (λ s. s.value) a.taken.items;
    } };

    ghost invariant = { λ a.
        HasTaken (query_tree a.query.now) a.first (map (λ s. s.value) a.taken.items) a.groups.table
        a.groups.extents.items
        × (a.rows ≡ total_height (map (λ s. s.value) a.taken.items)) };
}

impl<'a> Saving<'a> {
    /// No chunk is taken yet; the first has a position. The error is want of memory, as it is of
    /// the other methods.
    pub fn new(
        alloc: Global,
        query: &'a CheckedQuery<'a>,
        first: u32,
    ) -> Result<Saving<'a>, AllocError>
        ensures { IfOk result (λ s. s ≡ record { query = query.now; first = first; taken = [] }) }
    {
        let groups = FedGroups::new(alloc, query)?;
        Ok(Saving {
            query,
            first,
            groups,
            rows: 0,
            taken: Vec::new(alloc),
        })
    }

    /// Whether there is room for one more chunk: all rows are then fewer than 2^32, and their
    /// chunks have positions.
    pub fn has_room(&self, chunk: &DataChunk) -> bool
        ensures { IsTrue result ↔ AreFew self.now.first (self.now.taken ++ chunk.now ∷ []) }
    {
        let most = u64::from(u32::MAX);
        let end = u64::from(self.first) + self.taken.len() as u64;
        chunk.frame.height() as u64 <= most - self.rows && end < most
    }

    /// Whether there is room for some chunks more, all of them.
    pub fn has_room_for(&self, chunks: &[DataChunk]) -> bool
        ensures { IsTrue result ↔ AreFew self.now.first (self.now.taken ++ chunks.now) }
    {
        let most = u64::from(u32::MAX);
        let end = u64::from(self.first) + self.taken.len() as u64;
        match total_rows(chunks) {
            Some(rows) => rows <= most - self.rows && chunks.len() as u64 <= most - end,
            None => false,
        }
    }

    /// Takes the rows of the next chunk, which may then be dropped.
    pub fn feed(self, alloc: Global, chunk: &DataChunk) -> Result<Saving<'a>, AllocError>
        requires fits { FitsSchema self.query.schema chunk.now.frame }
        requires few { AreFew self.first (self.taken ++ chunk.now ∷ []) }
        ensures query { IfOk result (λ s. s.query ≡ self.entry.query) }
        ensures first { IfOk result (λ s. s.first ≡ self.entry.first) }
        ensures taken { IfOk result (λ s. s.taken ≡ self.entry.taken ++ chunk.now ∷ []) }
    {
        let Saving {
            query,
            first,
            mut groups,
            rows,
            mut taken,
        } = self;
        feed_chunk(alloc, &mut groups, query, first, &taken, chunk)?;
        taken.push(Snapshot::of(chunk))?;
        let rows = rows + chunk.frame.height() as u64;
        Ok(Saving {
            query,
            first,
            groups,
            rows,
            taken,
        })
    }

    /// Takes the rows of the next chunks, one after another.
    pub fn feed_all(self, alloc: Global, chunks: &[DataChunk]) -> Result<Saving<'a>, AllocError>
        requires fit { AllFit self.query.schema chunks.now }
        requires few { AreFew self.first (self.taken ++ chunks.now) }
        ensures query { IfOk result (λ s. s.query ≡ self.entry.query) }
        ensures first { IfOk result (λ s. s.first ≡ self.entry.first) }
        ensures taken { IfOk result (λ s. s.taken ≡ self.entry.taken ++ chunks.now) }
    {
        let mut saving = self;
        for chunk in chunks {
            saving = saving.feed(alloc, chunk)?;
        }
        Ok(saving)
    }

    /// The state of the chunks taken.
    pub fn finish(self, alloc: Global) -> Result<StateFile, AllocError>
        ensures state { IfOk result (λ f. let q = query_tree self.entry.query in
            f ≡ saved q (part_of q self.entry.first self.entry.taken)) }
        ensures of_query { IfOk result (IsStateOf (query_tree self.entry.query)) }
    {
        let Saving {
            query,
            first,
            groups,
            rows: _,
            taken,
        } = self;
        file_of(alloc, query, first, groups, &taken)
    }
}
