//! What a table has for a new row of a key.

ghost use Rattle.std.specs.Prelude.{◌≡◌};
ghost use Rattle.std.specs.List.{IsDistinct};
ghost use Rattle.std.specs.Str.{bytes_eq};
ghost use Rattle.pipe_groups.specs.Groups.{count_held, group_keys};
ghost use Rattle.pipe_chains.specs.Hash.{hash_of};
ghost use Rattle.pipe_keyed.specs.Keyed.{IsFound};
ghost use Rattle.pipe_tables.specs.Spots.{IsSpot};
ghost use Rattle.pipe_tables.specs.Tables.{passes};

use crate::by_hash::ByHash;
use pipe_chains::hash_bytes;
use pipe_keyed::{KeyCode, KeyedGroups, are_same};

/// The keys of fewer groups lie near to the processor.
const FEW: usize = 1 << 14;

/// What a table has for a new row of a key.
#[derive(Clone, Copy)]
pub(crate) enum Spot {
    /// A group at this index.
    At(usize),
    /// No group yet. The key has this hash.
    New(u64),
    /// Nothing: its key is new, and the limit is passed.
    Full,
}

/// Whether more keys are held than a limit allows for a new one to come.
fn passes(held: usize, limit: Option<usize>) -> bool
    ensures { result ≡ passes held limit }
{
    match limit {
        None => false,
        Some(limit) => limit < held,
    }
}

/// The index of the group of a key, which has a hash. It is looked for along the chain.
#[inline(never)]
fn find_chained(keyed: &KeyedGroups<ByHash>, hash: u64, key: &[u8]) -> Option<usize>
    requires { hash ≡ hash_of key.now }
    ensures { IsFound keyed.now.groups key.now result }
{
    keyed.find(hash, &KeyCode { bytes: key })
}

/// The index of the group of a key, which has a hash. Among few groups the last one of a chain is mostly
/// the one, and so its key is compared before its hash. In a full table most keys are new, which a chain
/// tells without a key.
#[inline(always)]
pub(crate) fn find_near(
    keyed: &KeyedGroups<ByHash>,
    full: bool,
    hash: u64,
    key: &[u8],
) -> Option<usize>
    requires { hash ≡ hash_of key.now }
    ensures { IsFound keyed.now.groups key.now result }
{
    if !full && keyed.len() < FEW {
        let near = keyed.near(hash);
        if near < keyed.len() && are_same(keyed.key(near), key) {
            return Some(near);
        }
    }
    find_chained(keyed, hash, key)
}

/// What there is for a new row of a key. It takes no memory.
#[inline(always)]
pub(crate) fn spot_for(keyed: &KeyedGroups<ByHash>, limit: Option<usize>, key: &[u8]) -> Spot
    requires { IsDistinct bytes_eq (group_keys keyed.now.groups) }
    ensures { IsSpot limit keyed.now.groups key.now result }
{
    let hash = hash_bytes(key);
    let full = passes(keyed.held(), limit);
    let found = find_near(keyed, full, hash, key);
    match found {
        Some(index) => {
            if full && !keyed.has_rows(index) {
                Spot::Full
            } else {
                Spot::At(index)
            }
        }
        None => { if full { Spot::Full } else { Spot::New(hash) } }
    }
}
