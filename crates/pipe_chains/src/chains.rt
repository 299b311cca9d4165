//! Entries in chains by a lead.

ghost use Rattle.std.specs.Prelude.{◌≡◌, ◌+◌, ◌≤◌, ◌<◌, ◌∷◌, ◌++◌, [], length, take, slice_index, IsOk, OnErr, OnOk};
ghost use Rattle.pipe_chains.specs.Chains.{last_of};

use crate::heads::Heads;
use crate::link::{Link, along, lead_all, link_all, link_to};
use crate::widen::see_to_heads;
use std::alloc::{AllocError, Global};
use std::hash::RandomState;
use std::marker::Model;

/// The most entries that chains have.
const MOST_ENTRIES: usize = 0xFFFF_FFFF;

/// Entries by number, each with a mark that it keeps, and with a lead. From the last entry of a lead a
/// chain leads back over all of them. Contracts see the lists of the marks and of the leads, and the
/// room for more.
#[derive(Drop)]
pub struct Chains {
    heads: Heads,
    links: Vec<Link>,
}

impl Model for Chains {
    ghost use Rattle.pipe_chains.specs.Chains.{Marked};
    ghost use Rattle.pipe_chains.specs.Layout.{AreChained, view_of};

    ghost Value = { Marked };

    ghost view = { view_of };

    ghost invariant = { AreChained };
}

impl Chains {
    /// Chains of no entries.
    pub fn new(alloc: Global) -> Chains
        ensures marks { result.marks ≡ [] }
        ensures leads { result.leads ≡ [] }
    {
        Chains::with_keys(alloc, None)
    }

    /// Chains of no entries, the heads of which are found under these keys: no leads can be chosen so
    /// that it takes long to find them.
    pub fn with_keys(alloc: Global, keys: Option<RandomState>) -> Chains
        ensures marks { result.marks ≡ [] }
        ensures leads { result.leads ≡ [] }
    {
        Chains {
            heads: Heads::new(alloc, keys),
            links: Vec::new(alloc),
        }
    }

    /// Where the memory comes from.
    pub fn allocator(&self) -> Global {
        *self.links.allocator()
    }

    /// Chains of no entries, under the same keys, whose memory comes from where that of these does.
    pub fn split(&self) -> Chains
        ensures marks { result.marks ≡ [] }
        ensures leads { result.leads ≡ [] }
    {
        Chains {
            heads: self.heads.split(),
            links: Vec::new(self.allocator()),
        }
    }

    /// How many entries there are.
    pub fn len(&self) -> usize
        ensures marks { result ≡ length self.now.marks }
        ensures leads { result ≡ length self.now.leads }
    {
        self.links.len()
    }

    /// The mark of an entry.
    pub fn mark(&self, index: usize) -> u64
        requires { index < length self.now.marks }
        ensures { result ≡ slice_index self.now.marks index }
    {
        self.links[index].mark
    }

    /// The last entry of a lead.
    #[inline]
    pub fn last(&self, lead: u64) -> Option<usize>
        ensures { result ≡ last_of lead self.now.leads }
    {
        let told = self.heads.of_lead(lead);
        along(&self.heads, self.links.as_slice(), told, lead)
    }

    /// Where the last entry of a lead may stand, as a guess that says nothing.
    #[inline(always)]
    pub fn near(&self, lead: u64) -> usize {
        (self.heads.of_lead(lead) as usize).wrapping_sub(1)
    }

    /// The last entry before another that has the same lead.
    #[inline]
    pub fn before(&self, index: usize) -> Option<usize>
        requires { index < length self.now.leads }
        ensures { result
            ≡ last_of (slice_index self.now.leads index) (take index self.now.leads) }
    {
        let Link { behind, lead, .. } = self.links[index];
        along(&self.heads, self.links.as_slice(), behind, lead)
    }

    /// Whether more than 32 entries stand before one in its chain.
    #[inline(always)]
    pub fn is_deep(&self, index: usize) -> bool
        requires { index < length self.now.leads }
    {
        self.links[index].is_deep()
    }

    /// Takes memory for so many more entries. More than 2^32 - 1 in all are want of memory.
    pub fn reserve(&mut self, additional: usize) -> Result<(), AllocError>
        ensures marks { self.new.marks ≡ self.old.marks }
        ensures leads { self.new.leads ≡ self.old.leads }
        ensures ok { OnOk result (additional ≤ self.new.room) }
        ensures succeeds { additional ≤ self.old.room → IsOk result }
        ensures room { self.old.room ≤ self.new.room }
    {
        if additional > MOST_ENTRIES - self.links.len() {
            return Err(AllocError);
        }
        let entries = self.links.len() + additional;
        see_to_heads(&mut self.heads, self.links.as_mut_slice(), entries)?;
        self.links.reserve(additional)
    }

    /// Appends an entry.
    pub fn push(&mut self, mark: u64, lead: u64) -> Result<(), AllocError>
        ensures ok { OnOk result (self.new.marks ≡ self.old.marks ++ mark ∷ []) }
        ensures led { OnOk result (self.new.leads ≡ self.old.leads ++ lead ∷ []) }
        ensures err { OnErr result (self.new.marks ≡ self.old.marks) }
        ensures led_err { OnErr result (self.new.leads ≡ self.old.leads) }
        ensures succeeds { 0 < self.old.room → IsOk result }
        ensures room { self.old.room ≤ self.new.room + 1 }
    {
        self.reserve(1)?;
        let link = link_to(&mut self.heads, self.links.as_slice(), mark, lead);
        self.links.push_reserved(link);
        Ok(())
    }

    /// Chains the entries by other leads. Where memory is wanting for it, they stay as they are.
    pub fn lead_anew(&mut self, leads: &[u64]) -> Result<(), AllocError>
        requires { length leads.now ≡ length self.old.leads }
        ensures marks { self.new.marks ≡ self.old.marks }
        ensures ok { OnOk result (self.new.leads ≡ leads.now) }
        ensures err { OnErr result (self.new.leads ≡ self.old.leads) }
        ensures room { self.old.room ≤ self.new.room }
    {
        lead_all(self.links.as_mut_slice(), leads);
        self.heads.clear();
        link_all(&mut self.heads, self.links.as_mut_slice());
        Ok(())
    }

    /// Takes all entries out. The memory stays.
    pub fn clear(&mut self)
        ensures marks { self.new.marks ≡ [] }
        ensures leads { self.new.leads ≡ [] }
        ensures room { self.old.room ≤ self.new.room }
    {
        self.heads.clear();
        self.links.clear();
    }
}
