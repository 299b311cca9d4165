//! What a run of the tool leaves.

ghost use Rattle.std.specs.Prelude.{◌≡◌, [], Some};

use crate::fault::ToolFault;
use pipe_global::Journals;
use pipe_spill::SpillStore;
use std::alloc::Global;
use std::marker::Model;

/// A run of the tool that has ended: its exit status, the journal of each partition, and the stores, in
/// order. Before the run there are neither journals nor stores, and a run that stops has no journals.
#[derive(Drop)]
pub struct ToolEnd<S: SpillStore + Drop> {
    pub status: u8,
    pub journals: Journals,
    pub stores: Vec<S>,
}

impl<S: SpillStore + Drop> Model for ToolEnd<S> {
    ghost use Rattle.pipe_plan.specs.Stores.{stores_seen};
    ghost use Rattle.tool_answer.specs.Ended.{EndSeen};

    ghost Value = { EndSeen };

    ghost view = { λ e. record {
      status = e.status;
      journals = e.journals;
      stores = stores_seen S.held S.told S.faults S.sure S.path e.stores.items;
    } };
}

/// The same before its fault, if it has one, is told.
#[derive(Drop)]
pub struct Ran<S: SpillStore + Drop> {
    pub fault: Option<ToolFault>,
    pub journals: Journals,
    pub stores: Vec<S>,
}

impl<S: SpillStore + Drop> Model for Ran<S> {
    ghost use Rattle.pipe_plan.specs.Stores.{stores_seen};
    ghost use Rattle.tool_answer.specs.Inside.{RanSeen};

    ghost Value = { RanSeen };

    ghost view = { λ r. record {
      fault = r.fault;
      journals = r.journals;
      stores = stores_seen S.held S.told S.faults S.sure S.path r.stores.items;
    } };
}

impl<S: SpillStore + Drop> Ran<S> {
    /// No run was begun.
    pub fn nothing(alloc: Global, fault: ToolFault) -> Ran<S>
        ensures { result ≡ record { fault = Some fault; journals = []; stores = [] } }
    {
        Ran {
            fault: Some(fault),
            journals: Journals::new(Vec::new(alloc)),
            stores: Vec::new(alloc),
        }
    }
}
