//! A saved state.

ghost use Rattle.std.specs.Prelude.{◌≡◌};
ghost use Rattle.pipe_states.specs.Fair.{IsFair};

use crate::state_row::StateRow;
use std::marker::Model;

/// What the rows of some chunks come to: the positions of the chunks, and a row for each key.
/// Contracts see the range and the rows. The range doesn't end before it begins, the places of its
/// rows lie in it, their keys ascend, and no two rows have one first or one last place.
#[derive(Debug, Drop)]
pub struct StateFile {
    pub(crate) first: u32,
    pub(crate) end: u32,
    pub(crate) rows: Vec<StateRow>,
}

impl Model for StateFile {
    ghost use Rattle.pipe_states.specs.States.{StateSeen};
    ghost use Rattle.pipe_states.specs.Fair.{IsFair};

    ghost Value = { StateSeen };

    ghost view = { λ s. record { first = s.first; end = s.end; rows = s.rows.items } };

    ghost invariant = { λ s. IsFair (record {
      first = s.first;
      end = s.end;
      rows = s.rows.items;
    }) };
}

impl StateFile {
    /// The state of a range of chunks and of rows that are fair there.
    pub fn new(first: u32, end: u32, rows: Vec<StateRow>) -> StateFile
        requires { IsFair (record { first = first; end = end; rows = rows.items }) }
        ensures { result ≡ record { first = first; end = end; rows = rows.items } }
    {
        StateFile { first, end, rows }
    }

    /// The position of the first chunk.
    pub fn first(&self) -> u32
        ensures first { result ≡ self.now.first }
        ensures fair { IsFair self.now }
    {
        self.first
    }

    /// The position behind the last chunk.
    pub fn end(&self) -> u32
        ensures end { result ≡ self.now.end }
        ensures fair { IsFair self.now }
    {
        self.end
    }

    /// The rows, in the order of their keys.
    pub fn rows(&self) -> &[StateRow]
        ensures rows { result.now ≡ self.now.rows }
        ensures fair { IsFair self.now }
    {
        &self.rows
    }
}
