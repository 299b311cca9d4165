//! Sinks for each kind of key.

use crate::cases::{Case, THREE_SINKS, TWO_SINKS};
use crate::compared::agrees;
use pipe_sinks::{NumberKey, TextKey};
use std::alloc::Global;
use std::test::Fail;

/// Whether the sinks for numbers with a sign give what the plain program answers.
fn agree_with_sign(alloc: Global, case: &Case) -> Result<bool, Fail> {
    Ok(
        agrees::<NumberKey<i8>>(alloc, case)?
            && agrees::<NumberKey<i16>>(alloc, case)?
            && agrees::<NumberKey<i32>>(alloc, case)?
            && agrees::<NumberKey<i64>>(alloc, case)?,
    )
}

/// Whether those for numbers without a sign do, and that for texts.
fn agree_without_sign(alloc: Global, case: &Case) -> Result<bool, Fail> {
    Ok(
        agrees::<NumberKey<u8>>(alloc, case)?
            && agrees::<NumberKey<u16>>(alloc, case)?
            && agrees::<NumberKey<u32>>(alloc, case)?
            && agrees::<NumberKey<u64>>(alloc, case)?
            && agrees::<TextKey>(alloc, case)?,
    )
}

#[test]
fn sinks_for_each_kind_of_key(rt: HostRuntime) -> Result<(), Fail> {
    let alloc = rt.alloc();
    assert!(rt; agree_with_sign(alloc, &TWO_SINKS)? && agree_without_sign(alloc, &TWO_SINKS)?);
    assert!(rt; agree_with_sign(alloc, &THREE_SINKS)? && agree_without_sign(alloc, &THREE_SINKS)?);
    Ok(())
}
