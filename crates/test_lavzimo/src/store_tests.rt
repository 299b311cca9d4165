//! A maker that makes no store.

use crate::asked::{End, asks, ends, hold};
use crate::stores::Makeless;
use std::test::Fail;

/// A store that can't be made is want of memory, and then none is left.
#[test]
fn no_store_is_made(rt: HostRuntime) -> Result<(), Fail> {
    let asked = asks("--count", &[("-", "k\n1\n")]);
    let end = End {
        status: 10,
        journals: 0,
        stores: 0,
    };
    let line = "out of memory\n";
    hold(ends(&rt, &mut Makeless, &asked, end, &[], line)?)
}
