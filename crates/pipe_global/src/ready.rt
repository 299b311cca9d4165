//! A partition gathers all rows whose groups it is to give, and gives them.

ghost use Rattle.std.specs.Prelude.{◌≡◌, IfErr, IfOk, OnErr, OnOk};
ghost use Rattle.pipe_global.specs.Finishing.{CanFinish, HasNoFault, IsCause, KeepsRest, StandAsBefore};
ghost use Rattle.pipe_global.specs.Gathering.{HasGiven, HasGivenPieces, HasGivenPlaced, HasTakenLocal, HoldsAllRows, without_groups};

use crate::batch_error::BatchError;
use crate::contents::Contents;
use pipe_columns::DataFrame;
use pipe_groups::{GroupPieces, PlacedGroups};
use pipe_spill::SpillStore;
use pipe_tables::AggHashTable;
use std::alloc::{AllocError, Global};

impl<S: SpillStore + Drop> Contents<S> {
    /// The local groups of the partition are taken in, all or none. Where no others are there and its own
    /// table holds none, the tables exchange theirs, and no group is copied.
    fn take_local(&mut self, local: &mut AggHashTable) -> Result<(), AllocError>
        requires { CanFinish self.old local.old }
        ensures ok { OnOk result (HasTakenLocal self.old self.new local.old local.new) }
        ensures err { OnErr result (self.new ≡ self.old) }
        ensures local_err { OnErr result (local.new ≡ local.old) }
    {
        let Contents {
            number,
            partitions,
            table,
            ..
        } = self;
        if table.is_empty() && local.lies_in(*number, *partitions) {
            table.exchange(local);
            return Ok(());
        }
        table.combine_on_partition(*number, *partitions, local)?;
        Ok(())
    }

    /// All that was put away, and the local groups of the partition, are in its table, or a part.
    pub(crate) fn prepare(
        &mut self,
        alloc: Global,
        local: &mut AggHashTable,
    ) -> Result<(), BatchError>
        requires { CanFinish self.old local.old }
        ensures kept { KeepsRest self.old self.new }
        ensures again { CanFinish self.new local.new }
        ensures ready { OnOk result (HoldsAllRows self.old self.new local.old local.new) }
        ensures err { OnErr result (StandAsBefore self.old self.new local.old local.new) }
        ensures local_err { OnErr result (local.new ≡ local.old) }
        ensures calm { OnOk result (HasNoFault self.old self.new) }
        ensures cause { IfErr result (λ e. IsCause self.old self.new e) }
    {
        match self.gather(alloc) {
            Ok(()) => {}
            Err(error) => return Err(error),
        }
        self.take_local(local)?;
        Ok(())
    }

    /// The groups of the table are given under a slice, and none is left.
    pub(crate) fn give(
        &mut self,
        slice: &mut Option<(usize, usize)>,
    ) -> Result<DataFrame, AllocError>
        ensures frame { IfOk result (λ f. HasGiven self.old slice.old slice.new f) }
        ensures ok { OnOk result (self.new ≡ without_groups self.old) }
        ensures err { OnErr result (self.new ≡ self.old) }
        ensures slice_err { OnErr result (slice.new ≡ slice.old) }
    {
        let frame = self.table.finalize(slice)?;
        Ok(frame)
    }

    /// The groups of the table are given piece by piece under a slice, and none is left.
    pub(crate) fn give_pieces(
        &mut self,
        slice: &mut Option<(usize, usize)>,
    ) -> Result<GroupPieces, AllocError>
        ensures pieces { IfOk result (λ p. HasGivenPieces self.old slice.old slice.new p) }
        ensures ok { OnOk result (self.new ≡ without_groups self.old) }
        ensures err { OnErr result (self.new ≡ self.old) }
        ensures slice_err { OnErr result (slice.new ≡ slice.old) }
    {
        let pieces = self.table.in_pieces(slice)?;
        Ok(pieces)
    }

    /// The same of all groups, each with the least place of its rows.
    pub(crate) fn give_placed(&mut self) -> Result<PlacedGroups, AllocError>
        ensures placed { IfOk result (λ g. HasGivenPlaced self.old g.frame g.firsts) }
        ensures ok { OnOk result (self.new ≡ without_groups self.old) }
        ensures err { OnErr result (self.new ≡ self.old) }
    {
        let placed = self.table.finalize_placed()?;
        Ok(placed)
    }
}
