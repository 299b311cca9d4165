//! What is kept of the groups of a partition, until those of all partitions are there.

ghost use Rattle.std.specs.Prelude.{◌≡◌, List, ⊤};
ghost use Rattle.pipe_columns.specs.declared.schema.Field.{Field};
ghost use Rattle.pipe_groups.specs.declared.placed_groups.PlacedGroups.{PlacedGroups};
ghost use Rattle.pipe_asked.specs.Tasks.{CanBeKept, WasFinished};

use crate::form::Form;
use pipe_columns::Schema;
use pipe_global::{BatchError, ClosedPartition};
use pipe_groups::PlacedGroups;
use pipe_spill::SpillStore;
use pipe_tables::AggHashTable;
use std::alloc::{AllocError, Global};

/// What is kept of the groups of a partition.
pub(crate) trait Keep {
    /// What is kept.
    type Kept: Drop + Send;

    /// It takes groups of these fields.
    ghost takes: { Self → List Field → Type 0 };

    /// What is kept is that of these groups.
    ghost is: { Self → Self.Kept → PlacedGroups → Type 0 };

    /// What is kept of the groups of a partition, which is finished. The rest of them goes.
    fn finish<S: SpillStore + Drop>(
        &self,
        alloc: Global,
        partition: &mut ClosedPartition<S>,
        local: &mut AggHashTable,
    ) -> Result<Self::Kept, BatchError>
        requires { CanBeKept (takes self.now) partition.old local.old }
        ensures { WasFinished (is self.now) partition.old local.old partition.new result };
}

/// The groups themselves, each with the least place of its rows.
#[derive(Drop)]
pub(crate) struct AsGroups;

impl Keep for AsGroups {
    type Kept = PlacedGroups;

    ghost takes = { λ keep fields. ⊤ };

    ghost is = { λ keep k g. k ≡ g };

    fn finish<S: SpillStore + Drop>(
        &self,
        alloc: Global,
        partition: &mut ClosedPartition<S>,
        local: &mut AggHashTable,
    ) -> Result<PlacedGroups, BatchError> {
        let groups = match partition.finish_placed(alloc, local) {
            Ok(groups) => groups,
            Err(error) => return Err(error),
        };
        let _columns = groups.frame.columns();
        Ok(groups)
    }
}

/// The whole of them, made piece by piece. The places go.
#[derive(Drop)]
pub(crate) struct AsWhole<'a, F> {
    pub(crate) form: &'a F,
    pub(crate) schema: &'a Schema,
}

impl<'a, F: Form> Keep for AsWhole<'a, F> {
    type Kept = F::Whole;

    ghost takes = { λ keep fields. F.takes keep.form.now fields × (keep.schema.now ≡ fields) };

    ghost is = { λ keep w g. F.is keep.form.now w g.frame };

    fn finish<S: SpillStore + Drop>(
        &self,
        alloc: Global,
        partition: &mut ClosedPartition<S>,
        local: &mut AggHashTable,
    ) -> Result<F::Whole, BatchError> {
        let mut slice = None;
        let mut pieces = match partition.finish_pieces(alloc, local, &mut slice) {
            Ok(pieces) => pieces,
            Err(error) => return Err(error),
        };
        let whole = self.form.of_pieces(alloc, self.schema, &mut pieces);
        drop(pieces);
        match whole {
            Ok(whole) => Ok(whole),
            Err(AllocError) => Err(BatchError::Memory),
        }
    }
}
