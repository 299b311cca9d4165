//! Closed partitions give their groups.

ghost use Rattle.std.specs.Prelude.{◌≡◌, ◌++◌, IfErr, IfOk, List, OnErr, OnOk};
ghost use Rattle.pipe_spill.specs.declared.spill_row.SpillRow.{SpillRow};
ghost use Rattle.pipe_global.specs.Finishing.{CanFinish, GivesGroups, GivesOwn, GivesOwnPieces, GivesOwnPlaced, GivesPieces, GivesPlaced, HasNoFault, IsCause, IsEmptied, IsLeftOf, IsRestOf, KeepsRest, own_rows, StandFor, StandTogether};

use crate::batch_error::BatchError;
use crate::closed::ClosedPartition;
use pipe_columns::DataFrame;
use pipe_groups::{GroupPieces, PlacedGroups};
use pipe_spill::SpillStore;
use pipe_tables::AggHashTable;
use std::alloc::Global;

impl<S: SpillStore + Drop> ClosedPartition<S> {
    /// Gives the groups of its rows and of the rows of a local table whose keys lie in it, in the
    /// order of their keys, under a slice, of which less is then left.
    ///
    /// Its own frames are read back one by one, and each goes into its table whole or not at all, as
    /// do what waits and the local groups. A refused call keeps what went in, and the next one goes
    /// on from there.
    pub fn finish(
        &mut self,
        alloc: Global,
        local: &mut AggHashTable,
        slice: &mut Option<(usize, usize)>,
    ) -> Result<DataFrame, BatchError>
        requires { CanFinish self.old local.old }
        ensures frame { IfOk result (λ f. (rows locals : List SpillRow)
            → StandFor self.old local.old rows locals → GivesGroups self.old.table.shape
            slice.old slice.new (rows ++ own_rows self.old locals) f) }
        ensures partition { IfOk result (λ f. GivesOwn self.old slice.old slice.new f) }
        ensures emptied { OnOk result (IsEmptied self.new) }
        ensures rest { OnOk result (IsRestOf self.old local.old local.new) }
        ensures kept { KeepsRest self.old self.new }
        ensures again { OnErr result (CanFinish self.new local.new) }
        ensures left { OnErr result (IsLeftOf self.old local.old local.new) }
        ensures together { OnErr result (StandTogether self.old self.new local.old local.new) }
        ensures slice_err { OnErr result (slice.new ≡ slice.old) }
        ensures calm { OnOk result (HasNoFault self.old self.new) }
        ensures cause { IfErr result (λ e. IsCause self.old self.new e) }
    {
        match self.contents.prepare(alloc, local) {
            Ok(()) => {}
            Err(error) => return Err(error),
        }
        let Ok(frame) = self.contents.give(slice) else {
            return Err(BatchError::Memory);
        };
        Ok(frame)
    }

    /// The same groups, to be given piece by piece. Once they are to be given, the partition has none.
    pub fn finish_pieces(
        &mut self,
        alloc: Global,
        local: &mut AggHashTable,
        slice: &mut Option<(usize, usize)>,
    ) -> Result<GroupPieces, BatchError>
        requires { CanFinish self.old local.old }
        ensures pieces { IfOk result (λ p. (rows locals : List SpillRow)
            → StandFor self.old local.old rows locals → GivesPieces self.old.table.shape
            slice.old slice.new (rows ++ own_rows self.old locals) p) }
        ensures partition { IfOk result (λ p. GivesOwnPieces self.old slice.old slice.new p) }
        ensures emptied { OnOk result (IsEmptied self.new) }
        ensures rest { OnOk result (IsRestOf self.old local.old local.new) }
        ensures kept { KeepsRest self.old self.new }
        ensures again { OnErr result (CanFinish self.new local.new) }
        ensures left { OnErr result (IsLeftOf self.old local.old local.new) }
        ensures together { OnErr result (StandTogether self.old self.new local.old local.new) }
        ensures slice_err { OnErr result (slice.new ≡ slice.old) }
        ensures calm { OnOk result (HasNoFault self.old self.new) }
        ensures cause { IfErr result (λ e. IsCause self.old self.new e) }
    {
        match self.contents.prepare(alloc, local) {
            Ok(()) => {}
            Err(error) => return Err(error),
        }
        let Ok(pieces) = self.contents.give_pieces(slice) else {
            return Err(BatchError::Memory);
        };
        Ok(pieces)
    }

    /// The same of all groups, each with the least place of its rows.
    pub fn finish_placed(
        &mut self,
        alloc: Global,
        local: &mut AggHashTable,
    ) -> Result<PlacedGroups, BatchError>
        requires { CanFinish self.old local.old }
        ensures placed { IfOk result (λ g. (rows locals : List SpillRow)
            → StandFor self.old local.old rows locals → GivesPlaced self.old.table.shape
            (rows ++ own_rows self.old locals) g.frame g.firsts) }
        ensures partition { IfOk result (λ g. GivesOwnPlaced self.old g.frame g.firsts) }
        ensures emptied { OnOk result (IsEmptied self.new) }
        ensures rest { OnOk result (IsRestOf self.old local.old local.new) }
        ensures kept { KeepsRest self.old self.new }
        ensures again { OnErr result (CanFinish self.new local.new) }
        ensures left { OnErr result (IsLeftOf self.old local.old local.new) }
        ensures together { OnErr result (StandTogether self.old self.new local.old local.new) }
        ensures calm { OnOk result (HasNoFault self.old self.new) }
        ensures cause { IfErr result (λ e. IsCause self.old self.new e) }
    {
        match self.contents.prepare(alloc, local) {
            Ok(()) => {}
            Err(error) => return Err(error),
        }
        let Ok(placed) = self.contents.give_placed() else {
            return Err(BatchError::Memory);
        };
        Ok(placed)
    }
}
