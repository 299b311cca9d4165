//! Groups whose keys may have been chosen so that many have one mark: they are led by secret hashes.

ghost use Rattle.std.specs.Prelude.{◌≡◌, ◌<◌, ℕ, IfOk, length, map};
ghost use Rattle.std.specs.Str.{bytes_eq};
ghost use Rattle.pipe_chains.specs.Hash.{secret_hash_of};
ghost use Rattle.pipe_groups.specs.Groups.{group_keys, group_of, HasGroups, KeepsRoom};
ghost use Rattle.pipe_keyed.specs.Keyed.{IsFound};
ghost use Rattle.pipe_keyed.specs.KeyedLayout.{AreMarked, HaveLead, lead_of};

use crate::keyed_groups::KeyedGroups;
use crate::marking::Marking;
use crate::sought::Sought;
use pipe_chains::{Chains, secret_hash};
use pipe_groups::Groups;
use std::alloc::{AllocError, Global};
use std::hash::RandomState;

/// The lead of a key of a mark.
#[inline(always)]
pub(crate) fn lead_of(hides: bool, hash_keys: Option<RandomState>, key: &[u8], mark: u64) -> u64
    ensures { result ≡ lead_of hides hash_keys key.now mark }
{
    if hides {
        secret_hash(hash_keys, key)
    } else {
        mark
    }
}

/// The secret hashes of the keys of groups.
fn secret_leads(
    alloc: Global,
    groups: &Groups,
    hash_keys: Option<RandomState>,
) -> Result<Vec<u64>, AllocError>
    ensures { IfOk result (λ v.
        v.items ≡ map (secret_hash_of hash_keys) (group_keys groups.now.groups)) }
{
    let mut leads = Vec::with_capacity(alloc, groups.len())?;
    for index in 0..groups.len() {
        leads.push(secret_hash(hash_keys, groups.key(index)))?;
    }
    Ok(leads)
}

/// Whether a group has a key that is looked for by a mark.
fn is_at<M: Marking, S: Sought<M>>(
    groups: &Groups,
    chains: &Chains,
    index: usize,
    mark: u64,
    sought: &S,
) -> bool
    requires within { index < length groups.now.groups }
    requires marked { AreMarked M.marks groups.now.shape.key_types (group_keys groups.now.groups)
        chains.now.marks }
    requires mark { S.has_mark sought.now groups.now.shape.key_types mark }
    ensures { result ≡ bytes_eq (group_of groups.now.groups index).key
        (S.code_of sought.now groups.now.shape.key_types) }
{
    if chains.mark(index) != mark {
        return false;
    }
    sought.is_code(groups.key(index))
}

/// The index of the group of a key, which is looked for along the chain of a lead.
#[cold]
pub(crate) fn find_along<M: Marking, S: Sought<M>>(
    groups: &Groups,
    chains: &Chains,
    lead: u64,
    mark: u64,
    sought: &S,
) -> Option<usize>
    requires many { length chains.now.leads ≡ length groups.now.groups }
    requires marked { AreMarked M.marks groups.now.shape.key_types (group_keys groups.now.groups)
        chains.now.marks }
    requires mark { S.has_mark sought.now groups.now.shape.key_types mark }
    requires lead { HaveLead groups.now.groups chains.now.leads
        (S.code_of sought.now groups.now.shape.key_types) lead }
    ensures { IsFound groups.now.groups (S.code_of sought.now groups.now.shape.key_types) result }
{
    let mut at = chains.last(lead);
    while let Some(index) = at {
        if is_at::<M, S>(groups, chains, index, mark, sought) {
            return Some(index);
        }
        at = chains.before(index);
    }
    None
}

impl<M: Marking> KeyedGroups<M> {
    /// Leads the groups by secret hashes of their keys, where these can hide. Where memory is wanting
    /// for it, they stay as they are.
    #[cold]
    fn hide(&mut self) -> Result<(), AllocError>
        ensures groups { HasGroups self.old self.new self.old.groups }
        ensures room { KeepsRoom self.old self.new }
    {
        if M::can_hide(self.groups.key_types()) {
            let leads = secret_leads(self.chains.allocator(), &self.groups, self.hash_keys)?;
            self.chains.lead_anew(&leads)?;
            self.hides = true;
        }
        Ok(())
    }

    /// Leads the groups by secret hashes where many stand before one in its chain.
    #[inline(always)]
    pub(crate) fn hide_where_deep(&mut self, index: usize)
        requires { index < length self.old.groups }
        ensures groups { HasGroups self.old self.new self.old.groups }
        ensures room { KeepsRoom self.old self.new }
    {
        if self.chains.is_deep(index) && !self.hides {
            let _hidden = self.hide();
        }
    }
}
