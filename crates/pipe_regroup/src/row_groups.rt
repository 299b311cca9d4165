//! Groups of state rows, found by the codes of their kept tuples.

ghost use Rattle.std.specs.Prelude.{◌≡◌, ◌+◌, ◌<◌, ◌^◌, ◌∷◌, [], All, false, IfOk, length, map, OnOk};
ghost use Rattle.std.specs.List.{IsDistinct, list_any};
ghost use Rattle.std.specs.Ordering.{eq_by_cmp};
ghost use Rattle.std.specs.Str.{bytes_eq};
ghost use Rattle.pipe_columns.specs.Key.{code as tuple_code};
ghost use Rattle.pipe_model.specs.Answer.{tuple_cmp};
ghost use Rattle.pipe_spill.specs.KeyTypes.{AreOfTypes};
ghost use Rattle.pipe_states.specs.Regrouped.{kept};
ghost use Rattle.pipe_regroup.specs.Groups.{AreFound, AreInOrder, count_rows, group_row, groups_of, HasAdded, IsJoinable};

use crate::code_hasher::CodeHasher;
use crate::group::{Group, start_group, value_order};
use crate::rule::Rule;
use indexmap::IndexSet;
use pipe_columns::{AnyValue, DataType};
use pipe_spill::append_value;
use pipe_states::StateRow;
use std::alloc::{AllocError, Global};
use std::hash::RandomState;

/// The groups of state rows by the values at some positions of their keys, which are of some types.
#[derive(Drop)]
pub struct RowGroups {
    pub keep: Vec<usize>,
    pub types: Vec<DataType>,
    pub rules: Vec<Rule>,
    pub codes: IndexSet<Vec<u8>, CodeHasher>,
    pub groups: Vec<Group>,
}

/// The code of the values of a tuple at some positions.
fn encode_kept(
    code: &mut Vec<u8>,
    keep: &[usize],
    types: &[DataType],
    key: &[AnyValue],
) -> Result<(), AllocError>
    requires within { All (λ i. i < length key.now) keep.now }
    requires typed { AreOfTypes types.now (kept keep.now key.now) }
    ensures { OnOk result (code.new.items ≡ tuple_code types.now (kept keep.now key.now)) }
{
    code.clear();
    for j in 0..keep.len() {
        let index = keep[j];
        let dtype = types[j];
        append_value(code, &key[index], dtype)?;
    }
    Ok(())
}

impl RowGroups {
    /// No groups, and by what they are to be found and joined. Their codes hash under keys.
    pub(crate) fn new(
        alloc: Global,
        keep: Vec<usize>,
        types: Vec<DataType>,
        rules: Vec<Rule>,
        hash_keys: Option<RandomState>,
    ) -> RowGroups
        ensures keep { result.keep ≡ keep }
        ensures types { result.types ≡ types }
        ensures rules { result.rules ≡ rules }
        ensures groups { groups_of result ≡ [] }
        ensures found { AreFound result }
    {
        RowGroups {
            keep,
            types,
            rules,
            codes: IndexSet::with_hasher(alloc, CodeHasher::new(hash_keys)),
            groups: Vec::new(alloc),
        }
    }

    /// Adds the group of a row that is the first of its kept tuple, whose code is known.
    fn start(&mut self, alloc: Global, code: &[u8], row: &StateRow) -> Result<(), AllocError>
        requires found { AreFound self.old }
        requires joinable { IsJoinable self.old.keep.items self.old.types.items
            self.old.rules.items row.now }
        requires code { code.now
            ≡ tuple_code self.old.types.items (kept self.old.keep.items row.now.key) }
        requires absent { list_any (λ c. bytes_eq code.now c.items) self.old.codes.keys ≡ false }
        ensures { OnOk result (HasAdded self.old self.new (row.now ∷ [])) }
    {
        let group = start_group(alloc, &self.keep, row)?;
        let code = Vec::from_slice(alloc, code)?;
        self.codes.insert(code)?;
        self.groups.push(group)?;
        Ok(())
    }

    /// Takes a state row, whose kept tuple is coded in a buffer.
    fn add_row(
        &mut self,
        alloc: Global,
        code: &mut Vec<u8>,
        row: &StateRow,
    ) -> Result<(), AllocError>
        requires found { AreFound self.old }
        requires few { count_rows (groups_of self.old) + row.now.rows < 2 ^ 32 }
        requires joinable { IsJoinable self.old.keep.items self.old.types.items
            self.old.rules.items row.now }
        ensures { OnOk result (HasAdded self.old self.new (row.now ∷ [])) }
    {
        encode_kept(code, &self.keep, &self.types, row.key.as_slice())?;
        match self.codes.get_index_of(code.as_slice()) {
            Some(index) => self.groups[index].join(alloc, &self.rules, row),
            None => self.start(alloc, code, row),
        }
    }

    /// Takes state rows.
    pub(crate) fn add_rows(
        mut self,
        alloc: Global,
        rows: &[StateRow],
    ) -> Result<RowGroups, AllocError>
        requires found { AreFound self }
        requires few { count_rows (groups_of self) + count_rows rows.now < 2 ^ 32 }
        requires joinable { All (IsJoinable self.keep.items self.types.items self.rules.items)
            rows.now }
        ensures { IfOk result (λ groups. HasAdded self groups rows.now) }
    {
        let mut code = Vec::new(alloc);
        for row in rows {
            self.add_row(alloc, &mut code, row)?;
        }
        Ok(self)
    }

    /// The groups in the order of their tuples.
    pub(crate) fn sorted(self) -> Vec<Group>
        requires { IsDistinct (eq_by_cmp tuple_cmp) (map (λ g. g.key) (groups_of self)) }
        ensures { AreInOrder (groups_of self) (map group_row result.items) }
    {
        let RowGroups { mut groups, .. } = self;
        value_order();
        groups.sort_unstable();
        groups
    }
}
