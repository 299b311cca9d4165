//! The links of chains.

ghost use Rattle.std.specs.Prelude.{◌≡◌, ◌+◌, ◌≤◌, ◌<◌, ◌∷◌, ◌++◌, ◌^◌, [], length, take};
ghost use Rattle.pipe_chains.specs.Chains.{last_of};
ghost use Rattle.pipe_chains.specs.Heads.{AreClear, slot_of};
ghost use Rattle.pipe_chains.specs.Layout.{AreLinked, IsOfSlot, leads_of, marks_of};

use crate::heads::Heads;

/// Chains are deep where more entries than these stand before one of theirs.
const DEEP: u32 = 32;

/// The mark of an entry; its lead; the entry before it whose lead has the same slot, as its number and
/// one, or 0 where there is none; and how many of its lead stand before it.
#[derive(Clone, Copy, Debug)]
pub(crate) struct Link {
    pub(crate) mark: u64,
    pub(crate) lead: u64,
    pub(crate) behind: u32,
    depth: u32,
}

impl Link {
    /// Whether many of its lead stand before it.
    #[inline(always)]
    pub(crate) fn is_deep(&self) -> bool {
        self.depth > DEEP
    }
}

/// The last entry of a lead among so many, the last of which has its slot.
#[inline(always)]
pub(crate) fn along(heads: &Heads, links: &[Link], told: u32, lead: u64) -> Option<usize>
    requires linked { AreLinked heads.now links.now }
    requires slot { IsOfSlot (slot_of heads.now) links.now lead told }
    ensures { result ≡ last_of lead (take told (leads_of links.now)) }
{
    let mut told = told;
    while told != 0 {
        let index = told as usize - 1;
        let link = &links[index];
        if link.lead == lead {
            return Some(index);
        }
        told = link.behind;
    }
    None
}

/// How many entries of a lead there are, the last of which is given.
fn depth_behind(links: &[Link], last: Option<usize>) -> u32 {
    let Some(index) = last else {
        return 0;
    };
    match links.get(index) {
        Some(link) => link.depth.saturating_add(1),
        None => 0,
    }
}

/// The link of one more entry, which the head of its lead tells from now on.
#[inline(always)]
pub(crate) fn link_to(heads: &mut Heads, links: &[Link], mark: u64, lead: u64) -> Link
    requires linked { AreLinked heads.old links.now }
    requires few { length links.now + 1 < 2 ^ 32 }
    requires headed { 0 < length heads.old.told.items }
    ensures mark { result.mark ≡ mark }
    ensures lead { result.lead ≡ lead }
    ensures linked { AreLinked heads.new (links.now ++ result ∷ []) }
    ensures kept { length heads.new.told.items ≡ length heads.old.told.items }
{
    let slot = heads.slot(lead);
    let behind = heads.told[slot];
    let depth = depth_behind(links, along(heads, links, behind, lead));
    heads.told[slot] = links.len() as u32 + 1;
    Link {
        mark,
        lead,
        behind,
        depth,
    }
}

/// Links all entries by their leads, where no head tells one.
pub(crate) fn link_all(heads: &mut Heads, links: &mut [Link])
    requires clear { AreClear heads.old }
    requires few { length links.old < 2 ^ 32 }
    requires headed { length links.old ≤ length heads.old.told.items }
    ensures linked { AreLinked heads.new links.new }
    ensures marks { marks_of links.new ≡ marks_of links.old }
    ensures leads { leads_of links.new ≡ leads_of links.old }
    ensures kept { length heads.new.told.items ≡ length heads.old.told.items }
{
    for index in 0..links.len() {
        let Link { mark, lead, .. } = links[index];
        links[index] = link_to(heads, &links[..index], mark, lead);
    }
}

/// Gives the entries other leads, by which they are not linked yet.
pub(crate) fn lead_all(links: &mut [Link], leads: &[u64])
    requires { length leads.now ≡ length links.old }
    ensures marks { marks_of links.new ≡ marks_of links.old }
    ensures leads { leads_of links.new ≡ leads.now }
{
    for index in 0..links.len() {
        links[index].lead = leads[index];
    }
}
