//! The keys of groups, read from their bytes into columns.

ghost use Rattle.std.specs.Prelude.{◌≡◌, ◌<◌, ◌≤◌, All, IfOk, length, map, OnOk, take};
ghost use Rattle.pipe_spill.specs.SpillRow.{IsKey};
ghost use Rattle.pipe_groups.specs.Columns.{columns_of_unfinished, HaveKey, HaveKeys, types_of};
ghost use Rattle.pipe_groups.specs.Groups.{group_of};

use crate::groups::Groups;
use crate::unfinished::{Unfinished, opened, push_at};
use pipe_spill::{DecodeError, read_value};
use std::alloc::{AllocError, Global};

/// Puts the values of a key below those of the columns.
fn push_key(alloc: Global, columns: &mut [Unfinished], key: &[u8]) -> Result<(), AllocError>
    requires { IsKey (types_of (columns_of_unfinished columns.old)) key.now }
    ensures { OnOk result (HaveKey (columns_of_unfinished columns.old) key.now (columns_of_unfinished columns.new)) }
{
    let mut rest = key;
    for at in 0..columns.len() {
        match read_value(alloc, rest, columns[at].field.dtype) {
            Ok((value, after)) => {
                push_at(columns, at, value)?;
                rest = after;
            }
            Err(DecodeError::NotAKey) => unreachable!(),
            Err(DecodeError::Memory) => return Err(AllocError),
        }
    }
    Ok(())
}

impl Groups {
    /// The columns of the keys of groups, which are codes of tuples of the key types.
    pub(crate) fn key_columns(&self, taken: &[usize]) -> Result<Vec<Unfinished>, AllocError>
        requires within { All (λ i. i < length self.now.groups) taken.now }
        requires keys { All (λ i.
            IsKey self.now.shape.key_types (group_of self.now.groups i).key) taken.now }
        ensures { IfOk result (λ v. HaveKeys self.now.shape.key_types
            (take (length self.now.shape.key_types) self.now.shape.fields)
            (map (λ i. (group_of self.now.groups i).key) taken.now) (columns_of_unfinished v.items)) }
    {
        let alloc = *self.entries.allocator();
        let fields = &self.fields.fields()[..self.key_types.len()];
        let mut columns = opened(alloc, fields, taken.len())?;
        for index in taken {
            push_key(alloc, &mut columns, self.key(*index))?;
        }
        Ok(columns)
    }
}
