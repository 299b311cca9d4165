//! What follows the rows of a turn.

ghost use Rattle.std.specs.Prelude.{◌≡◌, ◌<◌, IfErr, OnOk};
ghost use Rattle.pipe_global.specs.Shares.{next_pick};
ghost use Rattle.pipe_workers.specs.Steps.{after_action, IsNextPick};
ghost use Rattle.pipe_workers.specs.Turns.{refused_after, IsPartition, no_faults};

use crate::shared::Shared;
use crate::stop::WorkerStop;
use pipe_global::{DumpError, Gate, Naming, Shares};
use pipe_plan::SpillAction;
use pipe_spill::SpillStore;
use std::sync::Wait;

/// The partition of a worker's next pick, out of so many.
fn picked_partition<R: Naming>(shares: &Shares<R>, partitions: usize) -> usize
    requires { 0 < partitions }
    ensures is { result ≡ next_pick partitions shares.now }
    ensures there { result < partitions }
{
    let sum = shares.worker() as u128 + shares.picks() as u128;
    (sum % partitions as u128) as usize
}

/// Makes the event that an action asks for, if it asks for one.
pub(crate) fn pick<S: SpillStore + Drop, R: Naming, G: Gate, H: Wait>(
    rt: &H,
    shared: &Shared<'_, S, R, G>,
    shares: &mut Shares<R>,
    action: SpillAction,
) -> Result<(), WorkerStop>
    requires next { IsNextPick R.run action shares.old }
    requires faultless { shares.old.faults ≡ no_faults R.run.limits.partitions }
    ensures ok { OnOk result
        (shares.new ≡ after_action R.run.limits.partitions action shares.old) }
    ensures worker { shares.new.worker ≡ shares.old.worker }
    ensures events { IfErr result (λ _. shares.new.events ≡ shares.old.events) }
    ensures faults { IfErr result
        (λ end. shares.new.faults ≡ refused_after end shares.old.faults) }
    ensures partition { IfErr result (λ end. IsPartition R.run end) }
{
    let global = shared.global;
    let partition = picked_partition(shares, global.len());
    match action {
        SpillAction::None => Ok(()),
        SpillAction::EarlyMerge => {
            match global.early_merge(rt, shared.alloc, shared.gate, shares) {
                Ok(()) => Ok(()),
                Err(_) => Err(WorkerStop::Memory),
            }
        }
        SpillAction::Dump => match global.dump(rt, shared.alloc, shared.gate, shares) {
            Ok(()) => Ok(()),
            Err(DumpError::Store) => Err(WorkerStop::Store { partition }),
            Err(DumpError::Memory) => Err(WorkerStop::Memory),
        },
    }
}
