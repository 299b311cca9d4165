//! Groups that are found by marks of their keys.

ghost use Rattle.std.specs.Prelude.{◌≡◌, ◌+◌, ◌<◌, ◌∷◌, ◌++◌, [], ℕ, IfOk, IsOk, length, OnErr, OnOk, Some};
ghost use Rattle.pipe_aggs.specs.QueryTrees.{query_tree};
ghost use Rattle.pipe_groups.specs.Groups.{count_held, cover, Covers, group_of, has_rows, HasGroups, held_bytes, KeepsRoom, new_group};
ghost use Rattle.pipe_groups.specs.Shape.{IsShape, shape_of};
ghost use Rattle.pipe_keyed.specs.Keyed.{IsAt, IsFound};

use crate::marking::Marking;
use crate::secret::{find_along, lead_of};
use crate::sought::{KeyCode, Sought};
use pipe_aggs::CheckedQuery;
use pipe_chains::Chains;
use pipe_groups::Groups;
use std::alloc::{AllocError, Global};
use std::hash::RandomState;
use std::marker::{Model, PhantomData};

/// Groups, with chains over marks of their keys. Where many keys have one mark, they hide: chains then
/// go by secret hashes of the keys, so that none is long. Contracts see the groups, what they are of,
/// and the room for more.
#[derive(Drop)]
pub struct KeyedGroups<M: Marking> {
    pub(crate) groups: Groups,
    pub(crate) chains: Chains,
    pub(crate) hash_keys: Option<RandomState>,
    pub(crate) hides: bool,
    of: PhantomData<M>,
}

impl<M: Marking> Model for KeyedGroups<M> {
    ghost use Rattle.pipe_groups.specs.Groups.{group_keys, Seen};
    ghost use Rattle.pipe_keyed.specs.KeyedLayout.{AreLed, with_room};

    ghost Value = { Seen };

    ghost view = { λ a. with_room a.chains.room a.groups };

    ghost invariant = { λ a. AreLed M.marks M.can_hide a.hash_keys a.hides
        a.groups.shape.key_types (group_keys a.groups.groups) a.chains.marks a.chains.leads };
}

impl<M: Marking> KeyedGroups<M> {
    /// No groups, of what a query's are.
    pub fn new(alloc: Global, query: &CheckedQuery<'_>) -> Result<KeyedGroups<M>, AllocError>
        ensures shape { IfOk result (λ g. g.shape ≡ shape_of (query_tree query.now)) }
        ensures known { IfOk result (λ g. IsShape g.shape) }
        ensures groups { IfOk result (λ g. g.groups ≡ []) }
    {
        let groups = Groups::new(alloc, query)?;
        let hash_keys = query.hash_keys();
        let chains = Chains::with_keys(alloc, hash_keys);
        Ok(KeyedGroups {
            groups,
            chains,
            hash_keys,
            hides: false,
            of: PhantomData,
        })
    }

    /// No groups, of what these are.
    pub fn split(&self) -> Result<KeyedGroups<M>, AllocError>
        ensures shape { IfOk result (λ g. g.shape ≡ self.now.shape) }
        ensures groups { IfOk result (λ g. g.groups ≡ []) }
    {
        let groups = self.groups.split()?;
        let chains = self.chains.split();
        Ok(KeyedGroups {
            groups,
            chains,
            hash_keys: self.hash_keys,
            hides: false,
            of: PhantomData,
        })
    }

    /// How many groups there are, with or without rows.
    pub fn len(&self) -> usize
        ensures { result ≡ length self.now.groups }
    {
        self.groups.len()
    }

    /// How many groups hold a row.
    pub fn held(&self) -> usize
        ensures { result ≡ count_held self.now.groups }
    {
        self.groups.held()
    }

    /// How many bytes the held keys have.
    pub fn key_bytes(&self) -> usize
        ensures { result ≡ held_bytes self.now.groups }
    {
        self.groups.key_bytes()
    }

    /// The key of a group.
    pub fn key(&self, index: usize) -> &[u8]
        requires { index < length self.now.groups }
        ensures { result.now ≡ (group_of self.now.groups index).key }
    {
        self.groups.key(index)
    }

    /// Whether a group holds a row.
    pub fn has_rows(&self, index: usize) -> bool
        requires { index < length self.now.groups }
        ensures { result ≡ has_rows (group_of self.now.groups index) }
    {
        self.groups.first(index).is_some()
    }

    /// The index of the group of a key, which is looked for by a mark.
    #[inline]
    pub fn find<S: Sought<M>>(&self, mark: u64, sought: &S) -> Option<usize>
        requires { S.has_mark sought.now self.now.shape.key_types mark }
        ensures { IsFound self.now.groups (S.code_of sought.now self.now.shape.key_types) result }
    {
        if self.hides {
            let lead = sought.secret_lead(self.hash_keys);
            return find_along::<M, S>(&self.groups, &self.chains, lead, mark, sought);
        }
        let mut at = self.chains.last(mark);
        while let Some(index) = at {
            if sought.is_code(self.groups.key(index)) {
                return Some(index);
            }
            at = self.chains.before(index);
        }
        None
    }

    /// Makes memory for so many more groups, with so many bytes of keys in all.
    pub fn make_room(&mut self, groups: usize, key_bytes: usize) -> Result<(), AllocError>
        ensures groups { HasGroups self.old self.new self.old.groups }
        ensures ok { OnOk result (Covers self.new groups key_bytes) }
        ensures succeeds { Covers self.old groups key_bytes → IsOk result }
    {
        self.chains.reserve(groups)?;
        self.groups.make_room(groups, key_bytes)
    }

    /// Appends a group without rows for a key that has none, and gives its index.
    pub fn push(&mut self, mark: u64, key: &[u8]) -> Result<usize, AllocError>
        requires { M.marks self.old.shape.key_types key.now mark }
        ensures ok { OnOk result (HasGroups self.old self.new
            (self.old.groups ++ new_group self.old.shape.prototypes key.now ∷ [])) }
        ensures index { IfOk result (λ i. i ≡ length self.old.groups) }
        ensures err { OnErr result (HasGroups self.old self.new self.old.groups) }
        ensures succeeds { Covers self.old 1 (length key.now) → IsOk result }
        ensures room { OnOk result ((g b : ℕ)
            → Covers self.old (g + 1) (b + length key.now) → Covers self.new g b) }
    {
        self.chains.reserve(1)?;
        let index = self.groups.push(key)?;
        let lead = lead_of(self.hides, self.hash_keys, key, mark);
        self.chains.push(mark, lead).unwrap();
        self.hide_where_deep(index);
        Ok(index)
    }

    /// The index of the group of a key. Where there is none it is made, for which there is room.
    pub fn cover(&mut self, mark: u64, key: &[u8]) -> usize
        requires mark { M.marks self.old.shape.key_types key.now mark }
        requires room { Covers self.old 1 (length key.now) }
        ensures groups { HasGroups self.old self.new
            (cover self.old.shape.prototypes key.now self.old.groups) }
        ensures at { IsAt self.new.groups key.now result }
        ensures room { (g b : ℕ)
            → Covers self.old (g + 1) (b + length key.now) → Covers self.new g b }
    {
        match self.find(mark, &KeyCode { bytes: key }) {
            Some(index) => {
                return index;
            }
            None => {
                return self.push(mark, key).unwrap();
            }
        }
    }

    /// Lets all groups go. The room stays.
    pub fn clear(&mut self)
        ensures groups { HasGroups self.old self.new [] }
    {
        self.groups.clear();
        self.chains.clear();
    }
}
