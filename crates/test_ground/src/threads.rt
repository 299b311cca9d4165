//! Places of lists of any length, by any number of threads.

use pipe_threads::for_each_beside;
use std::process::Abort;
use std::test::Fail;

/// Adds its number to an item.
fn add(place: usize, item: &mut usize) {
    *item = item.wrapping_add(place);
}

#[test]
fn each_place_once(rt: HostRuntime) -> Result<(), Fail> {
    for threads in [0, 1, 2, 3, 4, 64] {
        let mut items = [100; 9];
        for_each_beside(&rt, &mut items, threads, &add);
        assert!(rt;
            items == [100, 101, 102, 103, 104, 105, 106, 107, 108],
            "{threads}"
        );
        let mut none: [usize; 0] = [];
        for_each_beside(&rt, &mut none, threads, &add);
        let mut one = [7];
        for_each_beside(&rt, &mut one, threads, &add);
        assert!(rt; one == [7]);
    }
    Ok(())
}
