//! The heads of chains.

ghost use Rattle.std.specs.Prelude.{◌≡◌, ◌*◌, ◌≤◌, ◌<◌, ◌^◌, IfOk, length};
ghost use Rattle.pipe_chains.specs.Heads.{AreClear, slot_of, told_at};

use std::alloc::{AllocError, Global};
use std::hash::{BuildHasher, FoldHasher, Hasher, RandomState};

/// How many heads there are at least, where there are any.
const LEAST: usize = 16;

/// Heads that are made for fewer entries are eight for each, and else two. So most of them tell entries of one
/// lead alone, where at most 32 kilobytes buy it.
const FEW: usize = 1024;

/// A power of two of heads, or none. Each tells the last entry of those whose leads have its slot, as
/// its number and one, or 0 where there is none.
#[derive(Drop)]
pub(crate) struct Heads {
    pub(crate) told: Vec<u32>,
    start: FoldHasher,
}

/// How many heads so many entries have at least.
fn wanted(entries: usize) -> usize
    requires { entries < 2 ^ 32 }
    ensures enough { entries * 2 ≤ result }
    ensures bound { result < 2 ^ 34 }
{
    if entries < FEW {
        entries * 8
    } else {
        entries * 2
    }
}

impl Heads {
    /// No heads. The slots of leads begin with a number of these keys, so that no one who doesn't have
    /// them knows which leads have one slot.
    pub(crate) fn new(alloc: Global, keys: Option<RandomState>) -> Heads
        ensures { AreClear result }
    {
        let mut start = FoldHasher::default();
        if let Some(keys) = keys {
            start.write_u64(keys.build_hasher().finish());
        }
        Heads {
            told: Vec::new(alloc),
            start,
        }
    }

    /// No heads, under the same keys.
    pub(crate) fn split(&self) -> Heads
        ensures { AreClear result }
    {
        Heads {
            told: Vec::new(*self.told.allocator()),
            start: self.start,
        }
    }

    /// The slot of a lead.
    #[inline(always)]
    pub(crate) fn slot(&self, lead: u64) -> usize
        ensures { result ≡ slot_of self.now lead }
    {
        let mut hasher = self.start;
        hasher.write_u64(lead);
        hasher.finish() as usize & self.told.len().saturating_sub(1)
    }

    /// What is told of the slot of a lead.
    #[inline(always)]
    pub(crate) fn of_lead(&self, lead: u64) -> u32
        ensures { result ≡ told_at self.now (slot_of self.now lead) }
    {
        match self.told.get(self.slot(lead)) {
            Some(told) => *told,
            None => 0,
        }
    }

    /// Heads under the same keys for so many entries, and no fewer than there are. None tells an entry.
    pub(crate) fn wider(&self, entries: usize) -> Result<Heads, AllocError>
        requires { entries < 2 ^ 32 }
        ensures clear { IfOk result (λ wide. AreClear wide) }
        ensures enough { IfOk result (λ wide. entries * 2 ≤ length wide.told.items) }
        ensures kept { IfOk result (λ wide. length self.now.told.items ≤ length wide.told.items) }
    {
        let count = wanted(entries)
            .next_power_of_two()
            .max(LEAST)
            .max(self.told.len());
        let mut told = Vec::with_capacity(*self.told.allocator(), count)?;
        told.resize(count, 0)?;
        Ok(Heads {
            told,
            start: self.start,
        })
    }

    /// Lets no head tell an entry.
    pub(crate) fn clear(&mut self)
        ensures clear { AreClear self.new }
        ensures kept { length self.new.told.items ≡ length self.old.told.items }
    {
        self.told.fill(0);
    }
}
