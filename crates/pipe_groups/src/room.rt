//! Room for more groups, and groups that come and go.

ghost use Rattle.std.specs.Prelude.{◌≡◌, ◌+◌, ◌≤◌, ◌<◌, ◌∷◌, ◌++◌, [], ℕ, IfOk, IsOk, None, OnErr, OnOk, length, vec_capacity, vec_len};
ghost use Rattle.pipe_kinds.specs.ManyStates.{with_fresh};
ghost use Rattle.pipe_groups.specs.Groups.{Covers, HasGroups, KeepsRoom, new_group};

use crate::groups::{Entry, Groups};
use pipe_kinds::States;
use std::alloc::AllocError;

/// Makes memory for so many more entries with their running aggregates, with so many bytes in all.
fn reserve_all(
    bytes: &mut Vec<u8>,
    entries: &mut Vec<Entry>,
    states: &mut States,
    groups: usize,
    key_bytes: usize,
) -> Result<(), AllocError>
    ensures bytes { bytes.new.items ≡ bytes.old.items }
    ensures entries { entries.new.items ≡ entries.old.items }
    ensures states { states.new.groups ≡ states.old.groups }
    ensures like { states.new.fresh ≡ states.old.fresh }
    ensures keeps_bytes { vec_capacity bytes.old ≤ vec_capacity bytes.new }
    ensures keeps_entries { vec_capacity entries.old ≤ vec_capacity entries.new }
    ensures keeps_states { states.old.room ≤ states.new.room }
    ensures for_bytes { OnOk result (vec_len bytes.new + key_bytes ≤ vec_capacity bytes.new) }
    ensures for_entries { OnOk result (vec_len entries.new + groups ≤ vec_capacity entries.new) }
    ensures for_states { OnOk result (groups ≤ states.new.room) }
    ensures succeeds { vec_len bytes.old + key_bytes ≤ vec_capacity bytes.old
        → vec_len entries.old + groups ≤ vec_capacity entries.old
        → groups ≤ states.old.room → IsOk result }
{
    bytes.reserve(key_bytes)?;
    entries.reserve(groups)?;
    states.reserve(groups)
}

/// Appends the entry of a key without rows, where there is room.
fn push_entry(bytes: &mut Vec<u8>, entries: &mut Vec<Entry>, states: &mut States, key: &[u8])
    requires for_bytes { vec_len bytes.old + length key.now ≤ vec_capacity bytes.old }
    requires for_entries { vec_len entries.old < vec_capacity entries.old }
    requires for_states { 0 < states.old.room }
    ensures bytes { bytes.new.items ≡ bytes.old.items ++ key.now }
    ensures entries { entries.new.items ≡ entries.old.items ++ record {
      end = length bytes.old.items + length key.now;
      first = None;
    } ∷ [] }
    ensures states { states.new ≡ with_fresh states.old }
    ensures keeps_bytes { vec_capacity bytes.old ≤ vec_capacity bytes.new }
    ensures keeps_entries { vec_capacity entries.old ≤ vec_capacity entries.new }
{
    bytes.extend_from_slice(key).unwrap();
    let entry = Entry {
        end: bytes.len(),
        first: None,
    };
    entries.push_reserved(entry);
    states.push_fresh();
}

impl Groups {
    /// Makes memory for so many more groups, with so many bytes of keys in all.
    pub fn make_room(&mut self, groups: usize, key_bytes: usize) -> Result<(), AllocError>
        ensures groups { HasGroups self.old self.new self.old.groups }
        ensures ok { OnOk result (Covers self.new groups key_bytes) }
        ensures room { KeepsRoom self.old self.new }
        ensures succeeds { Covers self.old groups key_bytes → IsOk result }
    {
        reserve_all(
            &mut self.bytes,
            &mut self.entries,
            &mut self.states,
            groups,
            key_bytes,
        )
    }

    /// Appends a group without rows, and gives its index. Whether there is one of the key isn't looked
    /// at. It takes no memory where there is room.
    pub fn push(&mut self, key: &[u8]) -> Result<usize, AllocError>
        ensures ok { OnOk result (HasGroups self.old self.new
            (self.old.groups ++ new_group self.old.shape.prototypes key.now ∷ [])) }
        ensures index { IfOk result (λ i. i ≡ length self.old.groups) }
        ensures err { OnErr result (HasGroups self.old self.new self.old.groups) }
        ensures succeeds { Covers self.old 1 (length key.now) → IsOk result }
        ensures room { OnOk result ((g b : ℕ)
            → Covers self.old (g + 1) (b + length key.now) → Covers self.new g b) }
    {
        self.make_room(1, key.len())?;
        let index = self.entries.len();
        push_entry(&mut self.bytes, &mut self.entries, &mut self.states, key);
        Ok(index)
    }

    /// Lets all groups go. The room stays.
    pub fn clear(&mut self)
        ensures groups { HasGroups self.old self.new [] }
        ensures room { KeepsRoom self.old self.new }
    {
        self.bytes.clear();
        self.entries.clear();
        self.states.clear();
        self.held = 0;
    }
}
