//! States that are added one by one, and then regrouped by some of the keys.

ghost use Rattle.std.specs.Prelude.{◌≡◌, ◌↔◌, ◌∷◌, ◌++◌, [], ℕ, Err, IfOk, IsErrOf, OnOk};
ghost use Rattle.pipe_aggs.specs.QueryTrees.{query_tree};
ghost use Rattle.pipe_regroup.specs.Added.{AreTooLarge, CanRegroup};
ghost use Rattle.pipe_regroup.specs.declared.regroup_error.RegroupError.TheVariants as fault;
ghost use Rattle.pipe_states.specs.Fair.{IsStateOf};
ghost use Rattle.pipe_states.specs.Regrouped.{regrouped};
ghost use Rattle.pipe_states.specs.Together.{AreKept, IsFirstOverlap};

use crate::coverage::Coverage;
use crate::frame::frame_of_groups;
use crate::kept_fields::kept_fields;
use crate::regroup_error::RegroupError;
use crate::row_groups::RowGroups;
use crate::setup::groups_by;
use pipe_aggs::CheckedQuery;
use pipe_columns::{DataFrame, Schema};
use pipe_states::StateFile;
use std::alloc::{AllocError, Global};
use std::marker::Model;
use std::snapshot::Snapshot;

/// States that are regrouped by some of a query's keys: the groups of their rows, and the ranges
/// that they have. Contracts see the query, the positions of the kept keys and the states added, in
/// order, though of each state only a mark without bytes is kept.
#[derive(Drop)]
pub struct Regrouping<'a> {
    query: &'a CheckedQuery<'a>,
    schema: Schema,
    groups: RowGroups,
    coverage: Coverage,
    added: Vec<Snapshot<StateFile>>,
}

impl<'a> Model for Regrouping<'a> {
    ghost use Rattle.std.specs.Prelude.{map};
    ghost use Rattle.pipe_aggs.specs.QueryTrees.{query_tree};
    ghost use Rattle.pipe_regroup.specs.Added.{IsRegrouping, RegroupingSeen};

    ghost Value = { RegroupingSeen };

    ghost view = { λ a. record {
      query = a.query.now;
      keep = a.groups.keep.items;
      files = map (λ s. s.value) a.added.items;
    } };

    ghost invariant = { λ a. IsRegrouping (query_tree a.query.now)
        (map (λ s. s.value) a.added.items) a.schema a.groups a.coverage };
}

impl<'a> Regrouping<'a> {
    /// No state is added yet. The keys at some positions are kept. The error is want of memory.
    pub fn begin(
        alloc: Global,
        query: &'a CheckedQuery<'a>,
        keep: &[usize],
    ) -> Result<Regrouping<'a>, AllocError>
        requires { AreKept (query_tree query.now) keep.now }
        ensures { IfOk result (λ r.
            r ≡ record { query = query.now; keep = keep.now; files = [] }) }
    {
        let schema = kept_fields(alloc, query, keep)?;
        let groups = groups_by(alloc, query, keep)?;
        Ok(Regrouping {
            query,
            schema,
            groups,
            coverage: Coverage::new(alloc),
            added: Vec::new(alloc),
        })
    }

    /// Adds a state of the query, which may then be dropped. States may come in any order; what
    /// forbids to regroup them is told by `finish`. The error is want of memory, and lets all go.
    pub fn add(self, alloc: Global, file: &StateFile) -> Result<Regrouping<'a>, AllocError>
        requires { IsStateOf (query_tree self.query) file.now }
        ensures query { IfOk result (λ r. r.query ≡ self.entry.query) }
        ensures keep { IfOk result (λ r. r.keep ≡ self.entry.keep) }
        ensures files { IfOk result (λ r. r.files ≡ self.entry.files ++ file.now ∷ []) }
    {
        let Regrouping {
            query,
            schema,
            groups,
            mut coverage,
            mut added,
        } = self;
        coverage.add(&added, file)?;
        added.push(Snapshot::of(file))?;
        if !coverage.is_sound() {
            return Ok(Regrouping {
                query,
                schema,
                groups,
                coverage,
                added,
            });
        }
        let groups = groups.add_rows(alloc, file.rows())?;
        Ok(Regrouping {
            query,
            schema,
            groups,
            coverage,
            added,
        })
    }

    /// The states added, regrouped: for each distinct tuple of kept keys, in order of tuple, that
    /// tuple and what the rows with it come to. So it is the answer of the query with those keys
    /// alone over all rows that the states are of.
    pub fn finish(self, alloc: Global) -> Result<DataFrame, RegroupError>
        ensures frame { IfOk result (λ f. f
            ≡ regrouped (query_tree self.entry.query) self.entry.files self.entry.keep) }
        ensures overlap { (i : ℕ) → (result ≡ Err (fault.Overlap i))
            ↔ IsFirstOverlap self.entry.files i }
        ensures large { IsErrOf result fault.TooLarge ↔ AreTooLarge self.entry.files }
        ensures ok { OnOk result (CanRegroup self.entry.files) }
        ensures memory { IsErrOf result fault.Memory → CanRegroup self.entry.files }
    {
        self.coverage.check()?;
        let Regrouping {
            query: _query,
            schema,
            groups,
            coverage,
            added,
        } = self;
        drop(coverage);
        drop(added);
        let mut sorted = groups.sorted();
        Ok(frame_of_groups(alloc, &schema, &mut sorted)?)
    }
}
