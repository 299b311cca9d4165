//! The stores of a run.

ghost use Rattle.std.specs.Prelude.{◌≡◌, ◌++◌, All, IfOk, OnOk, length, map, option_map};
ghost use Rattle.tool_stores.specs.StorePath.{store_paths};
ghost use Rattle.pipe_plan.specs.Stores.{stores_seen};
ghost use Rattle.tool_answer.specs.Ended.{IsMade};

use pipe_columns::Text;
use std::alloc::{AllocError, Global};
use tool_stores::StoreMaker;

/// A store for each of so many partitions, in a folder or, where none is named, in memory.
pub fn make_stores<M: StoreMaker>(
    alloc: Global,
    maker: &mut M,
    folder: Option<&Text>,
    partitions: usize,
) -> Result<Vec<M::Store>, AllocError>
    ensures made { IfOk result (λ v. All (IsMade (option_map (λ f. f.now) folder.entry))
        (stores_seen M.Store.held M.Store.told M.Store.faults M.Store.sure M.Store.path v.items)) }
    ensures count { IfOk result (λ v. length v.items ≡ partitions) }
    ensures paths { IfOk result (λ v. map M.Store.path v.items
        ≡ store_paths (option_map (λ f. f.now) folder.entry) partitions) }
    ensures stores_made { OnOk result (M.made maker.new ≡ M.made maker.old
        ++ store_paths (option_map (λ f. f.now) folder.entry) partitions) }
{
    let mut stores = Vec::new(alloc);
    for partition in 0..partitions {
        stores.push(maker.make(folder, partition)?)?;
    }
    Ok(stores)
}
