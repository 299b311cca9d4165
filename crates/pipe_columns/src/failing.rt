//! Calls that are counted, of which listed ones fail.

ghost use Rattle.std.specs.Prelude.{◌≡◌, ◌≤◌, IsTrue};
ghost use Rattle.pipe_columns.specs.Calls.{after_call, is_listed, no_calls};
ghost use Rattle.pipe_columns.specs.Causes.{Rose};

use std::marker::Model;

/// The calls of an object in memory, numbered from 0.
#[derive(Debug, Drop)]
pub struct FailingCalls {
    listed: Vec<u64>,
    next: u64,
    faults: u64,
}

impl Model for FailingCalls {
    ghost use Rattle.pipe_columns.specs.Calls.{Calls};

    ghost Value = { Calls };

    ghost view = { λ c. record { failing = c.listed.items; next = c.next; faults = c.faults } };
}

impl FailingCalls {
    /// No call is made yet.
    pub fn new(listed: Vec<u64>) -> FailingCalls
        ensures { result ≡ no_calls listed.items }
    {
        FailingCalls {
            listed,
            next: 0,
            faults: 0,
        }
    }

    /// Counts a call, and its fault where it is listed. It answers whether it is.
    pub fn count(&mut self) -> bool
        ensures answer { result ≡ is_listed self.old }
        ensures counted { self.new ≡ after_call self.old }
        ensures later { self.old.faults ≤ self.new.faults }
        ensures rose { IsTrue result → Rose self.old.faults self.new.faults }
    {
        let fails = self.listed.contains(&self.next);
        self.next = self.next.saturating_add(1);
        if fails {
            self.faults = self.faults.saturating_add(1);
        }
        fails
    }
}
