//! The stores of a run.

ghost use Rattle.std.specs.Prelude.{◌≡◌, ◌+◌, ◌≤◌, IfOk, OnOk, option_map};
ghost use Rattle.pipe_plan.specs.Stores.{stores_seen};
ghost use Rattle.lavzimo_run.specs.Stores.{AreMade, WereMadeIn};

use lavzimo_stores::SpillMaker;
use pipe_columns::Text;
use std::alloc::{AllocError, Global};

/// A store for each of so many partitions, in a folder or, where none is named, in memory.
pub fn make_stores<M: SpillMaker>(
    alloc: Global,
    maker: &mut M,
    folder: Option<&Text>,
    partitions: usize,
) -> Result<Vec<M::Store>, AllocError>
    ensures made { IfOk result (λ v. AreMade (option_map (λ f. f.now) folder.entry) partitions
        (stores_seen M.Store.held M.Store.told M.Store.faults M.Store.sure M.Store.path v.items)) }
    ensures number { OnOk result (M.made maker.new ≡ M.made maker.old + partitions) }
    ensures at_most { M.made maker.new ≤ M.made maker.old + partitions }
    ensures folders { WereMadeIn (option_map (λ f. f.now) folder.entry)
        (M.folders maker.old) (M.folders maker.new) }
{
    let mut stores = Vec::new(alloc);
    for _ in 0..partitions {
        stores.push(maker.make(folder)?)?;
    }
    Ok(stores)
}
