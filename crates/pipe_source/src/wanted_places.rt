//! Where the wanted fields stand.

ghost use Rattle.std.specs.Prelude.{◌≡◌, IfOk};
ghost use Rattle.std.specs.List.{range_with_len};
ghost use Rattle.narrow_columns.specs.Wanted.{chosen};

use narrow_columns::is_wanted;
use std::alloc::{AllocError, Global};

/// The places of the wanted fields among so many, in order.
pub(crate) fn wanted_places(
    alloc: Global,
    wanted: &[bool],
    count: usize,
) -> Result<Vec<usize>, AllocError>
    ensures { IfOk result (λ v. v.items ≡ chosen wanted.now (range_with_len 0 count)) }
{
    let mut places = Vec::with_capacity(alloc, count)?;
    for i in 0..count {
        if is_wanted(wanted, i) {
            places.push(i)?;
        }
    }
    Ok(places)
}
