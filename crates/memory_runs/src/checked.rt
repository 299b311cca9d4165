//! Queries that have no fault.

ghost use Rattle.std.specs.Prelude.{◌≡◌, IfOk, None};
ghost use Rattle.pipe_aggs.specs.Faults.{first_fault};

use pipe_aggs::{CheckError, CheckedQuery, Query};
use std::alloc::{AllocError, Global};

/// A query without fault, checked.
pub fn checked_of<'a>(alloc: Global, query: &'a Query) -> Result<CheckedQuery<'a>, AllocError>
    requires { first_fault query.now ≡ None }
    ensures { IfOk result (λ c. c ≡ query.now) }
{
    match query.check(alloc) {
        Ok(checked) => Ok(checked),
        Err(CheckError::Memory) => Err(AllocError),
        Err(CheckError::Fault(_)) => unreachable!(),
    }
}
