//! The groups of a table, and where a row belongs among them.

ghost use Rattle.std.specs.Prelude.{◌≡◌, ◌≤◌, ◌<◌, ◌^◌, ◌-◌, ◌∷◌, IfOk, OnOk, length, map, true};
ghost use Rattle.pipe_columns.specs.Frame.{value_at};
ghost use Rattle.pipe_running.specs.States.{after_value, seen, takes};
ghost use Rattle.pipe_inputs.specs.ChunkRows.{row_at};

use crate::guesses::{Guesses, key_number};
use pipe_aggs::AggregateFunction;
use pipe_columns::{AnyValue, Place};
use pipe_inputs::ChunkRows;
use std::alloc::{AllocError, Global};
use std::cmp::Ordering;

/// A group: its key, the place of its first row and its running aggregates.
#[derive(Drop)]
pub struct Group {
    pub key: Vec<AnyValue>,
    pub first: Place,
    pub states: Vec<AggregateFunction>,
}

/// Where a table has the group of a key, or where such a group belongs.
#[derive(Drop)]
pub enum Spot {
    At(usize),
    Before(usize),
}

/// Feeds a running aggregate the input at position j of a row.
fn feed_state(
    alloc: Global,
    state: &mut AggregateFunction,
    rows: &ChunkRows<'_>,
    row: usize,
    j: usize,
    place: Place,
) -> Result<(), AllocError>
    requires there { row < length rows.now }
    requires few { seen state.old ≤ 2 ^ 32 - 2 }
    requires taken { takes state.old (value_at (row_at rows.now row).inputs j) ≡ true }
    ensures ok { OnOk result (state.new
        ≡ after_value place (value_at (row_at rows.now row).inputs j) state.old) }
{
    state.pre_agg_copied(alloc, place, rows.input(row, j))
}

impl Group {
    ghost use Rattle.pipe_running.specs.GroupStates.{fed_from, StatesSeen, TakesFrom};

    /// Takes the inputs of a row.
    fn feed(
        &mut self,
        alloc: Global,
        rows: &ChunkRows<'_>,
        row: usize,
        place: Place,
    ) -> Result<(), AllocError>
        requires there { row < length rows.now }
        requires few { StatesSeen (2 ^ 32 - 2) self.old.states.items }
        requires taken { TakesFrom 0 self.old.states.items (row_at rows.now row).inputs }
        ensures key { self.new.key ≡ self.old.key }
        ensures first { self.new.first ≡ self.old.first }
        ensures ok { OnOk result (self.new.states.items
            ≡ fed_from place 0 (row_at rows.now row).inputs self.old.states.items) }
    {
        for j in 0..self.states.len() {
            feed_state(alloc, &mut self.states[j], rows, row, j, place)?;
        }
        Ok(())
    }
}

ghost use Rattle.test_plain.specs.Running.{fed, group_seen, KeysAscend, IsSpot, starts, TableHolds, with_row};
ghost use Rattle.pipe_running.specs.GroupStates.{TakesFrom};

/// Running aggregates before any row, of the kinds of others.
fn starting(
    alloc: Global,
    prototypes: &[AggregateFunction],
) -> Result<Vec<AggregateFunction>, AllocError>
    ensures { IfOk result (λ states. states.items ≡ (starts prototypes.now).states) }
{
    let mut states = Vec::with_capacity(alloc, prototypes.len())?;
    for prototype in prototypes {
        states.push(prototype.split())?;
    }
    Ok(states)
}

/// The group of a row that is the first of its key.
fn new_group(
    alloc: Global,
    prototypes: &[AggregateFunction],
    rows: &ChunkRows<'_>,
    row: usize,
    place: Place,
) -> Result<Group, AllocError>
    requires there { row < length rows.now }
    requires taken { TakesFrom 0 prototypes.now (row_at rows.now row).inputs }
    ensures { IfOk result (λ g. let r = row_at rows.now row in
        group_seen g ≡ (r.key, fed (place, r.inputs) (starts prototypes.now))) }
{
    let key = rows.own_key(alloc, row)?;
    let states = starting(alloc, prototypes)?;
    let mut group = Group {
        key,
        first: place,
        states,
    };
    group.feed(alloc, rows, row, place)?;
    Ok(group)
}

/// Where a table has the group of a row.
fn find(table: &[Group], rows: &ChunkRows<'_>, row: usize) -> Spot
    requires there { row < length rows.now }
    requires ascending { KeysAscend (map group_seen table.now) }
    ensures { IsSpot (row_at rows.now row).key (map group_seen table.now) result }
{
    let mut low = 0;
    let mut high = table.len();
    while low < high {
        let middle = low + (high - low) / 2;
        match rows.compare_key(row, &table[middle].key) {
            Ordering::Less => high = middle,
            Ordering::Equal => return Spot::At(middle),
            Ordering::Greater => low = middle + 1,
        }
    }
    Spot::Before(low)
}

/// Where a table has the group of a row, which may be where it is guessed.
fn find_near(table: &[Group], rows: &ChunkRows<'_>, row: usize, guess: usize) -> Spot
    requires there { row < length rows.now }
    requires ascending { KeysAscend (map group_seen table.now) }
    ensures { IsSpot (row_at rows.now row).key (map group_seen table.now) result }
{
    if guess < table.len() {
        if rows.compare_key(row, &table[guess].key) == Ordering::Equal {
            return Spot::At(guess);
        }
    }
    find(table, rows, row)
}

/// Puts a row of a chunk into a table.
pub fn add_row(
    alloc: Global,
    table: &mut Vec<Group>,
    guesses: &mut Guesses,
    prototypes: &[AggregateFunction],
    rows: &ChunkRows<'_>,
    row: usize,
) -> Result<(), AllocError>
    requires there { row < length rows.now }
    requires few { row < 2 ^ 32 }
    requires held { TableHolds (2 ^ 32 - 2) prototypes.now (map group_seen table.old.items) }
    requires ascending { KeysAscend (map group_seen table.old.items) }
    requires taken { TakesFrom 0 prototypes.now (row_at rows.now row).inputs }
    ensures { OnOk result (map group_seen table.new.items
        ≡ with_row (starts prototypes.now) (map group_seen table.old.items)
        (row_at rows.now row)) }
{
    let place = rows.place(row);
    let number = key_number(rows, row);
    let guess = guesses.get(number);
    match find_near(table, rows, row, guess) {
        Spot::At(i) => {
            if i != guess {
                guesses.set(number, i);
            }
            let group = &mut table[i];
            group.feed(alloc, rows, row, place)
        }
        Spot::Before(i) => {
            let group = new_group(alloc, prototypes, rows, row, place)?;
            table.insert(i, group)?;
            Ok(())
        }
    }
}
