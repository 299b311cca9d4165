//! Calls that want memory: `rt try --test --fail-alloc N` refuses the allocation of number N. A
//! refused call is made again, and then each row counts once.

use crate::cases::{Case, TWO_SINKS, Way};
use crate::compared::agrees;
use pipe_sinks::{NumberKey, SoleKey, TextKey};
use std::alloc::Global;
use std::test::Fail;

/// Whether sinks give what the plain program answers, with order kept and without it.
fn agree_in_each_order<S: SoleKey>(alloc: Global, texts: bool, way: Way) -> Result<bool, Fail> {
    let ordered = Case {
        keeps_order: true,
        texts,
        way,
        ..TWO_SINKS
    };
    let unordered = Case {
        keeps_order: false,
        ..ordered
    };
    Ok(agrees::<S>(alloc, &ordered)? && agrees::<S>(alloc, &unordered)?)
}

#[test]
fn numbers(rt: HostRuntime) -> Result<(), Fail> {
    assert!(rt; agree_in_each_order::<NumberKey<i64>>(rt.alloc(), false, Way::Whole)?);
    Ok(())
}

#[test]
fn sorted_numbers(rt: HostRuntime) -> Result<(), Fail> {
    assert!(rt; agree_in_each_order::<NumberKey<u16>>(rt.alloc(), false, Way::Sorted(true))?);
    Ok(())
}

#[test]
fn texts(rt: HostRuntime) -> Result<(), Fail> {
    assert!(rt; agree_in_each_order::<TextKey>(rt.alloc(), false, Way::Whole)?);
    Ok(())
}

#[test]
fn sorted_texts_with_texts(rt: HostRuntime) -> Result<(), Fail> {
    assert!(rt; agree_in_each_order::<TextKey>(rt.alloc(), true, Way::Sorted(false))?);
    Ok(())
}

#[test]
fn numbers_with_texts(rt: HostRuntime) -> Result<(), Fail> {
    assert!(rt; agree_in_each_order::<NumberKey<i32>>(rt.alloc(), true, Way::Whole)?);
    Ok(())
}
