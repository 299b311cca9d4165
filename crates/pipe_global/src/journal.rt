//! The events of a partition, and of all partitions.

ghost use Rattle.std.specs.Prelude.{◌≡◌, [], map};

use pipe_plan::PartitionEvent;
use std::alloc::Global;
use std::marker::Model;

/// The events of a partition, in the order in which they were made. Contracts see it as the list of
/// them.
#[derive(Debug, Drop)]
pub struct Journal {
    pub(crate) events: Vec<PartitionEvent>,
}

impl Model for Journal {
    ghost use Rattle.std.specs.Prelude.{List};
    ghost use Rattle.pipe_plan.specs.declared.event.PartitionEvent.{PartitionEvent};

    ghost Value = { List PartitionEvent };

    ghost view = { λ j. j.events.items };
}

impl Journal {
    /// No event. It takes no memory.
    pub fn new(alloc: Global) -> Journal
        ensures { result ≡ [] }
    {
        Journal {
            events: Vec::new(alloc),
        }
    }

    /// The events, lent. It takes no memory.
    pub fn events(&self) -> &[PartitionEvent]
        ensures { result.now ≡ self.now }
    {
        &self.events
    }
}

/// The journals of all partitions, in order. Contracts see it as a list of lists of events.
#[derive(Debug, Drop)]
pub struct Journals {
    journals: Vec<Journal>,
}

impl Model for Journals {
    ghost use Rattle.std.specs.Prelude.{List};
    ghost use Rattle.pipe_plan.specs.declared.event.PartitionEvent.{PartitionEvent};

    ghost Value = { List (List PartitionEvent) };

    ghost view = { λ j. j.journals.items };
}

impl Journals {
    /// The list of these journals. It takes no memory.
    pub fn new(journals: Vec<Journal>) -> Journals
        ensures { result ≡ journals.items }
    {
        Journals { journals }
    }

    /// The journals, lent. It takes no memory.
    pub fn journals(&self) -> &[Journal]
        ensures { result.now ≡ self.now }
    {
        &self.journals
    }
}
