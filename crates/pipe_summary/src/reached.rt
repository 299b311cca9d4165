//! How far states in turn go.

ghost use Rattle.std.specs.Prelude.{◌≡◌, ◌++◌, ◌∷◌, [], IfNone, IfSome};
ghost use Rattle.pipe_aggs.specs.QueryTrees.{query_tree};
ghost use Rattle.pipe_states.specs.Fair.{IsStateOf};
ghost use Rattle.pipe_states.specs.Regrouped.{end_of};
ghost use Rattle.pipe_states.specs.Together.{total_rows};
ghost use Rattle.pipe_summary.specs.InTurn.{AreInTurn};

use crate::held_states::HeldStates;
use crate::rows::counted;
use pipe_aggs::CheckedQuery;
use pipe_states::StateFile;
use std::marker::Model;

/// States of a query in turn. Contracts see them and the query; the code holds where they end and
/// of how many rows they are.
#[derive(Drop)]
pub struct Reached<'a> {
    query: &'a CheckedQuery<'a>,
    states: HeldStates,
    end: u32,
    rows: u32,
}

impl<'a> Model for Reached<'a> {
    ghost use Rattle.pipe_aggs.specs.QueryTrees.{query_tree};
    ghost use Rattle.pipe_summary.specs.Held.{HasReached};
    ghost use Rattle.pipe_summary.specs.Seen.{ReachedSeen};

    ghost Value = { ReachedSeen };

    ghost view = { λ a. record { query = a.query.now; states = a.states } };

    ghost invariant = { λ a. HasReached (query_tree a.query.now) a.states a.end a.rows };
}

impl<'a> Reached<'a> {
    /// No state.
    pub(crate) fn none(query: &'a CheckedQuery<'a>) -> Reached<'a>
        ensures { result ≡ record { query = query.now; states = [] } }
    {
        Reached {
            query,
            states: HeldStates::none(),
            end: 0,
            rows: 0,
        }
    }

    /// The query.
    pub(crate) fn query(&self) -> &'a CheckedQuery<'a>
        ensures query { result.now ≡ self.now.query }
        ensures in_turn { AreInTurn (query_tree self.now.query) self.now.states }
    {
        self.query
    }

    /// Where the states end.
    pub(crate) fn end(&self) -> u32
        ensures { result ≡ end_of self.now.states }
    {
        self.end
    }

    /// Of how many rows they are.
    pub(crate) fn rows(&self) -> u32
        ensures { result ≡ total_rows self.now.states }
    {
        self.rows
    }

    /// Of how many rows the states are with one more, where that stands in turn behind them.
    pub(crate) fn rows_with(&self, file: &StateFile) -> Option<u32>
        requires { IsStateOf (query_tree self.now.query) file.now }
        ensures rows { IfSome result (λ n. n ≡ total_rows (self.now.states ++ file.now ∷ [])) }
        ensures in_turn { IfSome result (λ n.
            AreInTurn (query_tree self.now.query) (self.now.states ++ file.now ∷ [])) }
        ensures none { IfNone result
            (AreInTurn (query_tree self.now.query) (self.now.states ++ file.now ∷ []) → ⊥) }
    {
        let first = file.first();
        if first != self.end || first == file.end() {
            return None;
        }
        self.rows.checked_add(counted(file.rows()))
    }

    /// Takes a state that stands in turn behind the others. With it they are of so many rows.
    pub(crate) fn push(&mut self, file: &StateFile, rows: u32)
        requires in_turn { AreInTurn (query_tree self.old.query)
            (self.old.states ++ file.now ∷ []) }
        requires rows { rows ≡ total_rows (self.old.states ++ file.now ∷ []) }
        ensures query { self.new.query ≡ self.old.query }
        ensures states { self.new.states ≡ self.old.states ++ file.now ∷ [] }
    {
        self.states.add(file);
        self.end = file.end();
        self.rows = rows;
    }
}
