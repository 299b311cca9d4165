//! Groups in one buffer.

ghost use Rattle.std.specs.Prelude.{◌≡◌, ◌<◌, ◌≤◌, [], IfOk, length};
ghost use Rattle.pipe_aggs.specs.QueryTrees.{query_tree};
ghost use Rattle.pipe_running.specs.GroupStates.{fresh_states};
ghost use Rattle.pipe_groups.specs.Groups.{count_held, group_of, held_bytes, RowlessAreFresh};
ghost use Rattle.pipe_groups.specs.Layout.{AscendFrom, held_from, key_between, start_from};
ghost use Rattle.pipe_groups.specs.Shape.{IsShape, shape_of};

use crate::copies::{copied_fields, copied_types, fresh_copies};
use pipe_aggs::{AggregateFunction, CheckedQuery};
use pipe_columns::{AnyValue, DataType, Place, Schema};
use pipe_kinds::States;
use std::alloc::{AllocError, Global};
use std::marker::Model;

/// Where a group's key ends, and the least place of its rows. It begins where that of the group before
/// ends.
#[derive(Clone, Copy, Debug)]
pub(crate) struct Entry {
    pub(crate) end: usize,
    pub(crate) first: Option<Place>,
}

/// Groups in the order in which their keys came. All keys lie in one vector of bytes, and the running
/// aggregates of all groups by kind, one vector an aggregate. Contracts see the groups, what they are
/// of, and the room for more.
#[derive(Drop)]
pub struct Groups {
    pub(crate) key_types: Vec<DataType>,
    pub(crate) input_types: Vec<DataType>,
    pub(crate) prototypes: Vec<AggregateFunction>,
    pub(crate) fields: Schema,
    pub(crate) bytes: Vec<u8>,
    pub(crate) entries: Vec<Entry>,
    pub(crate) states: States,
    pub(crate) held: usize,
    /// Texts of a row that is lent, while it is fed.
    pub(crate) copies: Vec<AnyValue>,
}

impl Model for Groups {
    ghost use Rattle.pipe_groups.specs.Groups.{Seen};
    ghost use Rattle.pipe_groups.specs.Layout.{IsLaidOut, view_of};

    ghost Value = { Seen };

    ghost view = { view_of };

    ghost invariant = { IsLaidOut };
}

/// Where the key of the entry at an index begins.
#[inline(always)]
pub(crate) fn start_of(entries: &[Entry], index: usize) -> usize
    requires { index < length entries.now }
    ensures { result ≡ start_from 0 entries.now index }
{
    if index == 0 {
        return 0;
    }
    entries[index - 1].end
}

/// The key of an entry at an index.
#[inline(always)]
fn key_of(bytes: &[u8], start: usize, end: usize) -> &[u8]
    requires starts { start ≤ end }
    requires ends { end ≤ length bytes.now }
    ensures { result.now ≡ key_between bytes.now start end }
{
    &bytes[start..end]
}

/// How many bytes the held keys of entries have.
fn held_bytes_of(entries: &[Entry]) -> usize
    requires { AscendFrom 0 entries.now }
    ensures { result ≡ held_from 0 entries.now }
{
    let mut bytes = 0;
    let mut start = 0;
    for entry in entries {
        if entry.first.is_some() {
            bytes += entry.end - start;
        }
        start = entry.end;
    }
    bytes
}

impl Groups {
    /// No groups, of these types, running aggregates and output columns.
    fn of_shape(
        alloc: Global,
        key_types: Vec<DataType>,
        input_types: Vec<DataType>,
        prototypes: Vec<AggregateFunction>,
        fields: Schema,
        states: States,
    ) -> Groups
        requires shape { IsShape (record {
          key_types = key_types.items;
          input_types = input_types.items;
          prototypes = prototypes.items;
          fields = fields;
        }) }
        requires like { states.fresh ≡ fresh_states prototypes.items }
        requires none { states.groups ≡ [] }
        ensures shape { result.shape ≡ record {
          key_types = key_types.items;
          input_types = input_types.items;
          prototypes = prototypes.items;
          fields = fields;
        } }
        ensures groups { result.groups ≡ [] }
    {
        Groups {
            key_types,
            input_types,
            prototypes,
            fields,
            bytes: Vec::new(alloc),
            entries: Vec::new(alloc),
            states,
            held: 0,
            copies: Vec::new(alloc),
        }
    }

    /// No groups, of what a query's are.
    pub fn new(alloc: Global, query: &CheckedQuery<'_>) -> Result<Groups, AllocError>
        ensures shape { IfOk result (λ g. g.shape ≡ shape_of (query_tree query.now)) }
        ensures known { IfOk result (λ g. IsShape g.shape) }
        ensures groups { IfOk result (λ g. g.groups ≡ []) }
    {
        let key_types = copied_types(alloc, query.key_types())?;
        let input_types = copied_types(alloc, query.input_types())?;
        let prototypes = fresh_copies(alloc, query.prototypes())?;
        let fields = copied_fields(alloc, query.output_schema().fields())?;
        let states = States::new(alloc, &prototypes)?;
        Ok(Groups::of_shape(alloc, key_types, input_types, prototypes, fields, states))
    }

    /// No groups, of what these are.
    pub fn split(&self) -> Result<Groups, AllocError>
        ensures shape { IfOk result (λ g. g.shape ≡ self.now.shape) }
        ensures groups { IfOk result (λ g. g.groups ≡ []) }
    {
        let alloc = *self.entries.allocator();
        let key_types = copied_types(alloc, &self.key_types)?;
        let input_types = copied_types(alloc, &self.input_types)?;
        let prototypes = fresh_copies(alloc, &self.prototypes)?;
        let fields = copied_fields(alloc, self.fields.fields())?;
        let states = States::new(alloc, &prototypes)?;
        Ok(Groups::of_shape(alloc, key_types, input_types, prototypes, fields, states))
    }

    /// How many groups there are, with or without rows.
    pub fn len(&self) -> usize
        ensures len { result ≡ length self.now.groups }
        ensures shape { IsShape self.now.shape }
        ensures fresh { RowlessAreFresh self.now.shape.prototypes self.now.groups }
    {
        self.entries.len()
    }

    /// How many groups hold a row.
    pub fn held(&self) -> usize
        ensures { result ≡ count_held self.now.groups }
    {
        self.held
    }

    /// The code of a group's key.
    pub fn key(&self, index: usize) -> &[u8]
        requires { index < length self.now.groups }
        ensures { result.now ≡ (group_of self.now.groups index).key }
    {
        let start = start_of(&self.entries, index);
        key_of(&self.bytes, start, self.entries[index].end)
    }

    /// The least place of a group's rows.
    pub fn first(&self, index: usize) -> Option<Place>
        requires { index < length self.now.groups }
        ensures { result ≡ (group_of self.now.groups index).first }
    {
        self.entries[index].first
    }

    /// How many bytes the held keys have.
    pub fn key_bytes(&self) -> usize
        ensures { result ≡ held_bytes self.now.groups }
    {
        held_bytes_of(&self.entries)
    }
}
