//! How much the groups of a partition hold.

ghost use Rattle.std.specs.Prelude.{◌≡◌, ◌+◌, IfOk, OnOk, length, Some};
ghost use Rattle.pipe_groups.specs.Groups.{Covers, count_held, HasGroups, held_bytes};
ghost use Rattle.pipe_tables.specs.Parts.{ArePartsOf};
ghost use Rattle.pipe_tables.specs.Tables.{groups_in};

use crate::by_hash::ByHash;
use crate::parts::Parts;
use pipe_keyed::KeyedGroups;
use std::alloc::AllocError;

/// How many groups hold a row, and how many bytes their keys have.
#[derive(Clone, Copy)]
pub(crate) struct PartSize {
    pub(crate) groups: usize,
    pub(crate) key_bytes: usize,
}

impl PartSize {
    /// The size with one group more, where the numbers fit.
    fn with_key(self, key: &[u8]) -> Result<PartSize, AllocError>
        ensures groups { IfOk result (λ s. s.groups ≡ self.groups + 1) }
        ensures key_bytes { IfOk result (λ s. s.key_bytes ≡ self.key_bytes + length key.now) }
    {
        let groups = self.groups.checked_add(1);
        let key_bytes = self.key_bytes.checked_add(key.len());
        match (groups, key_bytes) {
            (Some(groups), Some(key_bytes)) => Ok(PartSize { groups, key_bytes }),
            _ => Err(AllocError),
        }
    }
}

/// The size of a partition of groups. It looks at the groups of this partition alone.
fn size_of_part(
    keyed: &KeyedGroups<ByHash>,
    parts: &Parts,
    partition: usize,
) -> Result<PartSize, AllocError>
    requires { ArePartsOf keyed.now.groups (Some parts.now) }
    ensures groups { IfOk result (λ s. s.groups
        ≡ count_held (groups_in parts.now.partitions partition keyed.now.groups)) }
    ensures key_bytes { IfOk result (λ s. s.key_bytes
        ≡ held_bytes (groups_in parts.now.partitions partition keyed.now.groups)) }
{
    let mut size = PartSize {
        groups: 0,
        key_bytes: 0,
    };
    let mut at = parts.chains.last(partition as u64);
    while let Some(index) = at {
        if keyed.has_rows(index) {
            size = size.with_key(keyed.key(index))?;
        }
        at = parts.chains.before(index);
    }
    Ok(size)
}

/// Makes room for the groups of a partition of others.
pub(crate) fn make_room_for_part(
    own: &mut KeyedGroups<ByHash>,
    other: &KeyedGroups<ByHash>,
    parts: &Parts,
    partition: usize,
) -> Result<(), AllocError>
    requires { ArePartsOf other.now.groups (Some parts.now) }
    ensures groups { HasGroups own.old own.new own.old.groups }
    ensures ok { OnOk result (Covers own.new
        (count_held (groups_in parts.now.partitions partition other.now.groups))
        (held_bytes (groups_in parts.now.partitions partition other.now.groups))) }
{
    let size = size_of_part(other, parts, partition)?;
    own.make_room(size.groups, size.key_bytes)
}
