//! An addition whose chunks come one by one.

ghost use Rattle.std.specs.Prelude.{◌≡◌, ◌↔◌, ◌++◌, [], IfOk, IsTrue};
ghost use Rattle.pipe_aggs.specs.QueryTrees.{query_tree};
ghost use Rattle.pipe_saving.specs.Refusals.{AllFit};
ghost use Rattle.pipe_states.specs.Fair.{IsStateOf};
ghost use Rattle.pipe_states.specs.Parts.{part_of, saved};
ghost use Rattle.pipe_summary.specs.Additions.{AreFewBehind};

use crate::rows::rows_behind;
use pipe_aggs::CheckedQuery;
use pipe_columns::DataChunk;
use pipe_saving::Saving;
use pipe_states::StateFile;
use std::alloc::{AllocError, Global};
use std::marker::Model;

/// An addition to a summary, which chunks are fed to and which the summary then finishes. Contracts
/// see the query, of how many rows the states of the summary are and where they end, and the chunks
/// taken, though of each only a mark without bytes is kept.
#[derive(Drop)]
pub struct Adding<'a> {
    alloc: Global,
    saving: Saving<'a>,
    before: u32,
    rows: u64,
}

impl<'a> Model for Adding<'a> {
    ghost use Rattle.pipe_summary.specs.Additions.{AddingSeen};
    ghost use Rattle.pipe_summary.specs.Held.{IsAdding};

    ghost Value = { AddingSeen };

    ghost view = { λ a. record {
      query = a.saving.query;
      rows = a.before;
      first = a.saving.first;
      taken = a.saving.taken;
    } };

    ghost invariant = { λ a. IsAdding a.saving.query.schema a.before a.saving.first a.saving.taken
        a.rows };
}

impl<'a> Adding<'a> {
    /// No chunk is taken yet, behind so many rows, and the first has a position.
    pub(crate) fn begin(
        alloc: Global,
        query: &'a CheckedQuery<'a>,
        rows: u32,
        first: u32,
    ) -> Result<Adding<'a>, AllocError>
        ensures { IfOk result (λ a.
            a ≡ record { query = query.now; rows = rows; first = first; taken = [] }) }
    {
        let saving = Saving::new(alloc, query, first)?;
        Ok(Adding {
            alloc,
            saving,
            before: rows,
            rows: u64::from(rows),
        })
    }

    /// Whether there is room for some chunks more, all of them: all rows are then fewer than 2^32
    /// with those of the summary, and their chunks have positions.
    pub fn has_room_for(&self, chunks: &[DataChunk]) -> bool
        ensures { IsTrue result ↔ AreFewBehind self.now.rows self.now.first
            (self.now.taken ++ chunks.now) }
    {
        match rows_behind(self.rows, chunks) {
            Some(_) => self.saving.has_room_for(chunks),
            None => false,
        }
    }

    /// Takes the rows of the next chunks, which may then be dropped. The error is want of memory,
    /// and lets all go.
    pub fn feed_all(self, chunks: &[DataChunk]) -> Result<Adding<'a>, AllocError>
        requires fit { AllFit self.query.schema chunks.now }
        requires few { AreFewBehind self.rows self.first (self.taken ++ chunks.now) }
        ensures query { IfOk result (λ a. a.query ≡ self.entry.query) }
        ensures rows { IfOk result (λ a. a.rows ≡ self.entry.rows) }
        ensures first { IfOk result (λ a. a.first ≡ self.entry.first) }
        ensures taken { IfOk result (λ a. a.taken ≡ self.entry.taken ++ chunks.now) }
    {
        let Adding {
            alloc,
            saving,
            before,
            rows,
        } = self;
        let Some(rows) = rows_behind(rows, chunks) else {
            unreachable!()
        };
        let saving = saving.feed_all(alloc, chunks)?;
        Ok(Adding {
            alloc,
            saving,
            before,
            rows,
        })
    }

    /// The state of the chunks taken.
    pub(crate) fn into_state(self) -> Result<StateFile, AllocError>
        ensures state { IfOk result (λ f. let q = query_tree self.entry.query in
            f ≡ saved q (part_of q self.entry.first self.entry.taken)) }
        ensures of_query { IfOk result (IsStateOf (query_tree self.entry.query)) }
        ensures fit { AllFit self.entry.query.schema self.entry.taken }
        ensures few { AreFewBehind self.entry.rows self.entry.first self.entry.taken }
    {
        let Adding {
            alloc,
            saving,
            before: _,
            rows: _,
        } = self;
        saving.finish(alloc)
    }
}
