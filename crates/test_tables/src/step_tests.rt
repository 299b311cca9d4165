//! A table that holds one key, and another of the same query, step by step.

ghost use Rattle.std.specs.Prelude.{◌≡◌};
ghost use Rattle.pipe_keyed.specs.Tables.{HoldFewTogether};

use crate::asked::hold;
use crate::tables::joined::{join, tables_of};
use crate::tables::rows::LIMITED;
use crate::tables::two_tables::TwoTables;
use pipe_tables::{AggHashTable, LentEnd};
use std::alloc::{AllocError, Global};
use std::test::Fail;

/// Whether the rows of 1, 2, 1 come to a table of limit 0 as they should. Room for the row of 2 lets it
/// no more in.
fn are_limited(tables: &mut TwoTables) -> Result<bool, AllocError> {
    let ends = [tables.put(), tables.put(), tables.put()];
    let held = tables.held();
    tables.reserve()?;
    Ok(
        ends == [LentEnd::Done, LentEnd::Overflow, LentEnd::Done]
            && held == 1
            && tables.held() == 1
            && tables.put() == LentEnd::Overflow
            && tables.put_other() == LentEnd::Done,
    )
}

/// Two tables, of which the first holds 1 and the second 2.
fn limited(alloc: Global) -> Result<TwoTables, Fail> {
    let mut tables = tables_of(alloc, &LIMITED)?;
    match are_limited(&mut tables) {
        Ok(true) => Ok(tables),
        _ => {
            drop(tables);
            Err("the tables aren't limited".into())
        }
    }
}

/// Whether a table with the key of another one holds two, and the other one none.
fn is_joined(table: &mut AggHashTable, other: &mut AggHashTable) -> Result<bool, AllocError>
    requires shape { other.old.shape ≡ table.old.shape }
    requires few { HoldFewTogether table.old other.old }
{
    join(table, other)?;
    Ok(table.len() == 2 && other.is_empty())
}

#[test]
fn steps_of_a_table(rt: HostRuntime) -> Result<(), Fail> {
    let (mut table, mut other) = limited(rt.alloc())?.into_tables();
    let is = is_joined(&mut table, &mut other);
    drop(table);
    drop(other);
    hold(Ok(is?))
}
