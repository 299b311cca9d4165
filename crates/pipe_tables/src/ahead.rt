//! A look at what the next rows need.

ghost use Rattle.std.specs.Prelude.{◌≡◌, All};
ghost use Rattle.pipe_spill.specs.KeyTypes.{AreOfTypes};
ghost use Rattle.pipe_waiting.specs.Waiting.{HaveNoTexts, HoldRows};

use crate::by_hash::ByHash;
use crate::hash_table::AggHashTable;
use pipe_chains::hash_bytes;
use pipe_columns::DataType;
use pipe_groups::encode_row;
use pipe_inputs::ChunkRows;
use pipe_keyed::KeyedGroups;
use pipe_waiting::LentRows;

/// How many rows are looked at together.
const TOGETHER: usize = 16;

/// The memory of fewer groups is near the processor anyway.
const FEWEST: usize = 1 << 14;

/// Reads what the rows from one on need of the groups that may be theirs. First it is read where these may
/// stand, and then all groups, so that the processor waits for several at once. What it answers says
/// nothing.
#[inline(never)]
fn look(keyed: &KeyedGroups<ByHash>, types: &[DataType], rows: &ChunkRows<'_>, from: usize) -> usize
    requires { All (λ r. AreOfTypes types.now r.key) rows.now }
{
    let mut spots = [0usize; TOGETHER];
    let count = rows.len().saturating_sub(from).min(TOGETHER);
    let mut key = Vec::new(keyed.allocator());
    for place in 0..count {
        if encode_row(&mut key, rows, from + place, types).is_err() {
            return 0;
        }
        spots[place] = hash_bytes(&key) as usize;
    }
    for place in 0..count {
        spots[place] = keyed.near(spots[place] as u64);
    }
    let mut seen = 0usize;
    for place in 0..count {
        let spot = spots[place];
        if spot < keyed.len() {
            seen = seen.wrapping_add(keyed.mark(spot) as usize);
        }
        seen = seen.wrapping_add(keyed.groups().look(spot));
    }
    seen
}

/// Reads the marks and the keys of the groups that may be those of keys of these hashes.
#[inline(always)]
fn look_at_keys(keyed: &KeyedGroups<ByHash>, mut spots: [usize; TOGETHER]) -> usize {
    for place in 0..TOGETHER {
        spots[place] = keyed.near(spots[place] as u64);
    }
    let mut seen = 0usize;
    for place in 0..TOGETHER {
        let spot = spots[place];
        if spot < keyed.len() {
            seen = seen.wrapping_add(keyed.mark(spot) as usize);
            if let Some(byte) = keyed.key(spot).first() {
                seen = seen.wrapping_add(*byte as usize);
            }
        }
    }
    seen
}

/// Reads what the keys of the next rows that are lent need.
#[inline(never)]
fn look_lent(keyed: &KeyedGroups<ByHash>, rows: LentRows<'_>) -> usize
    requires held { HoldRows keyed.now.shape.input_types rows.count rows.bytes }
    requires plain { HaveNoTexts keyed.now.shape.input_types }
{
    let mut rows = rows;
    let mut spots = [0usize; TOGETHER];
    for place in 0..TOGETHER {
        if let Some(row) = rows.next_key(keyed.groups().input_types()) {
            spots[place] = hash_bytes(row.key) as usize;
        }
    }
    look_at_keys(keyed, spots)
}

/// Reads what the keys of the next rows that are lent need, once for several of them.
#[inline(always)]
pub(crate) fn look_at_lent(keyed: &KeyedGroups<ByHash>, rows: &LentRows<'_>, spots: &mut Vec<u32>)
    requires held { HoldRows keyed.now.shape.input_types rows.now.count rows.now.bytes }
    requires plain { HaveNoTexts keyed.now.shape.input_types }
    ensures { spots.new.items ≡ spots.old.items }
{
    if rows.len() % TOGETHER != 0 || keyed.len() < FEWEST {
        return;
    }
    // What was read is used, or a compiler would leave the reading out.
    if look_lent(keyed, rows.again()) == usize::MAX {
        let _room = spots.reserve(1);
    }
}

/// Reads the first of the groups at these places.
#[inline(never)]
fn look_there(keyed: &KeyedGroups<ByHash>, spots: &[u32]) -> usize {
    let mut seen = 0usize;
    for place in 0..spots.len().min(TOGETHER) {
        seen = seen.wrapping_add(keyed.groups().look(spots[place] as usize));
    }
    seen
}

impl AggHashTable {
    /// Reads what the next rows of a chunk need, from a row on, once for several of them: where the groups
    /// are many, most of an insert is waiting for their memory. Nothing changes.
    #[inline(always)]
    pub fn look_ahead(&mut self, types: &[DataType], rows: &ChunkRows<'_>, row: usize)
        requires { All (λ r. AreOfTypes types.now r.key) rows.now }
        ensures { self.new ≡ self.old }
    {
        if row % TOGETHER != 0 || self.keyed.len() < FEWEST {
            return;
        }
        // What was read is used, or a compiler would leave the reading out.
        if look(&self.keyed, types, rows, row) == usize::MAX {
            self.parts = None;
        }
    }

    /// Reads what the next rows need, whose groups are at these places, once for several of them. Nothing
    /// changes.
    #[inline(always)]
    pub(crate) fn look_at_spots(&mut self, spots: &[u32])
        ensures { self.new ≡ self.old }
    {
        if spots.len() % TOGETHER != 0 || self.keyed.len() < FEWEST {
            return;
        }
        // What was read is used, or a compiler would leave the reading out.
        if look_there(&self.keyed, spots) == usize::MAX {
            self.parts = None;
        }
    }
}
