//! Rows that are lent to the running aggregates of one group: only a text that is kept is copied.

ghost use Rattle.std.specs.Prelude.{◌≡◌, ◌+◌, ◌-◌, ◌<◌, ◌^◌, ◌∷◌, ◌++◌, [], ℕ, IsOk, OnErr, OnOk, false, if◌then◌else◌, length, slice_index_or, take, true};
ghost use Rattle.pipe_columns.specs.declared.any_value.AnyValue.{AnyValue};
ghost use Rattle.pipe_columns.specs.Frame.{value_at};
ghost use Rattle.pipe_inputs.specs.ChunkRows.{row_at};
ghost use Rattle.pipe_kinds.specs.Keeping.{keeps_value};
ghost use Rattle.pipe_kinds.specs.ManyStates.{state_of, states_in, with_state_of, with_states};
ghost use Rattle.pipe_running.specs.GroupStates.{fed_from, StatesSeen, TakesFrom};
ghost use Rattle.pipe_running.specs.Lent.{keeps_text};
ghost use Rattle.pipe_running.specs.States.{after_value, seen, takes};
ghost use Rattle.pipe_groups.specs.Texts.{kept_texts};

use pipe_columns::{AnyValue, Place};
use pipe_inputs::ChunkRows;
use pipe_kinds::States;
use std::alloc::AllocError;

/// Copies the input of a running aggregate, if it is a text that is kept.
fn copy_text(
    copies: &mut Vec<AnyValue>,
    states: &States,
    index: usize,
    j: usize,
    rows: &ChunkRows<'_>,
    row: usize,
    place: Place,
) -> Result<(), AllocError>
    requires there { row < length rows.now }
    requires within { index < length states.now.groups }
    requires one { j < length states.now.fresh }
    ensures ok { OnOk result (let v = value_at (row_at rows.now row).inputs j in
        copies.new.items ≡ copies.old.items
        ++ (if keeps_text place v (state_of states.now index j) then v ∷ [] else [])) }
    ensures plain { keeps_text place (value_at (row_at rows.now row).inputs j)
        (state_of states.now index j) ≡ false → IsOk result }
{
    let value = rows.input(row, j);
    if states.keeps_text(index, j, place, value) {
        let copy = value.try_clone(*copies.allocator())?;
        copies.push(copy)?;
    }
    Ok(())
}

/// Copies the texts of a row that are kept, the last one first.
fn copy_texts(
    copies: &mut Vec<AnyValue>,
    states: &States,
    index: usize,
    rows: &ChunkRows<'_>,
    row: usize,
    place: Place,
) -> Result<(), AllocError>
    requires there { row < length rows.now }
    requires within { index < length states.now.groups }
    ensures ok { OnOk result (copies.new.items
        ≡ kept_texts place 0 (row_at rows.now row).inputs (states_in states.now index)) }
    ensures plain { kept_texts place 0 (row_at rows.now row).inputs (states_in states.now index)
        ≡ [] → IsOk result }
{
    copies.clear();
    let mut j = states.width();
    while 0 < j {
        j -= 1;
        copy_text(copies, states, index, j, rows, row, place)?;
    }
    Ok(())
}

/// Feeds a value that is lent, or its copy, which is the last one, if it is a text that is kept.
fn lend_value(
    states: &mut States,
    index: usize,
    j: usize,
    copies: &mut Vec<AnyValue>,
    place: Place,
    value: &AnyValue,
)
    requires within { index < length states.old.groups }
    requires one { j < length states.old.fresh }
    requires taken { takes (state_of states.old index j) value.now ≡ true }
    requires few { seen (state_of states.old index j) + 1 < 2 ^ 32 }
    requires copied { keeps_text place value.now (state_of states.old index j) ≡ true
        → 0 < length copies.old.items }
    requires copy { keeps_text place value.now (state_of states.old index j) ≡ true
        → (d : AnyValue)
        → slice_index_or copies.old.items (length copies.old.items - 1) d ≡ value.now }
    ensures states { states.new ≡ with_state_of index j
        (after_value place value.now (state_of states.old index j)) states.old }
    ensures copies { copies.new.items
        ≡ (if keeps_text place value.now (state_of states.old index j)
        then take (length copies.old.items - 1) copies.old.items else copies.old.items) }
{
    if states.keeps_text(index, j, place, value) {
        states.feed(index, j, place, copies.pop().unwrap());
    } else {
        states.feed_lent(index, j, place, value);
    }
}

/// Feeds each its input of a row, of which the texts that are kept are copied.
fn lend_copies(
    states: &mut States,
    index: usize,
    copies: &mut Vec<AnyValue>,
    rows: &ChunkRows<'_>,
    row: usize,
    place: Place,
)
    requires there { row < length rows.now }
    requires within { index < length states.old.groups }
    requires few { StatesSeen (2 ^ 32 - 2) (states_in states.old index) }
    requires taken { TakesFrom 0 (states_in states.old index) (row_at rows.now row).inputs }
    requires copied { copies.old.items
        ≡ kept_texts place 0 (row_at rows.now row).inputs (states_in states.old index) }
    ensures { states.new ≡ with_states index (fed_from place 0 (row_at rows.now row).inputs
        (states_in states.old index)) states.old }
{
    for j in 0..states.width() {
        let value = rows.input(row, j);
        lend_value(states, index, j, copies, place, value);
    }
}

/// Feeds each its input of a row, where none of them keeps a value.
#[inline(always)]
fn lend_plain(states: &mut States, index: usize, rows: &ChunkRows<'_>, row: usize, place: Place)
    requires there { row < length rows.now }
    requires within { index < length states.old.groups }
    requires plain { (j : ℕ) → keeps_value (state_of states.old index j) ≡ false }
    requires few { StatesSeen (2 ^ 32 - 2) (states_in states.old index) }
    requires taken { TakesFrom 0 (states_in states.old index) (row_at rows.now row).inputs }
    ensures { states.new ≡ with_states index (fed_from place 0 (row_at rows.now row).inputs
        (states_in states.old index)) states.old }
{
    for j in 0..states.width() {
        let value = rows.input(row, j);
        states.feed_lent(index, j, place, value);
    }
}

/// Feeds each its input of a row, of which the texts that are kept are copied first, or changes none.
#[inline(never)]
fn lend_copied(
    states: &mut States,
    index: usize,
    copies: &mut Vec<AnyValue>,
    rows: &ChunkRows<'_>,
    row: usize,
    place: Place,
) -> Result<(), AllocError>
    requires there { row < length rows.now }
    requires within { index < length states.old.groups }
    requires few { StatesSeen (2 ^ 32 - 2) (states_in states.old index) }
    requires taken { TakesFrom 0 (states_in states.old index) (row_at rows.now row).inputs }
    ensures ok { OnOk result (states.new ≡ with_states index (fed_from place 0
        (row_at rows.now row).inputs (states_in states.old index)) states.old) }
    ensures err { OnErr result (states.new ≡ states.old) }
    ensures plain { kept_texts place 0 (row_at rows.now row).inputs (states_in states.old index)
        ≡ [] → IsOk result }
{
    copy_texts(copies, states, index, rows, row, place)?;
    lend_copies(states, index, copies, rows, row, place);
    Ok(())
}

/// Feeds each running aggregate of a group its input of a row, or changes none.
#[inline(always)]
pub(crate) fn lend_row(
    states: &mut States,
    index: usize,
    copies: &mut Vec<AnyValue>,
    rows: &ChunkRows<'_>,
    row: usize,
    place: Place,
) -> Result<(), AllocError>
    requires there { row < length rows.now }
    requires within { index < length states.old.groups }
    requires few { StatesSeen (2 ^ 32 - 2) (states_in states.old index) }
    requires taken { TakesFrom 0 (states_in states.old index) (row_at rows.now row).inputs }
    ensures ok { OnOk result (states.new ≡ with_states index (fed_from place 0
        (row_at rows.now row).inputs (states_in states.old index)) states.old) }
    ensures err { OnErr result (states.new ≡ states.old) }
    ensures plain { kept_texts place 0 (row_at rows.now row).inputs (states_in states.old index)
        ≡ [] → IsOk result }
{
    if states.keeps_values() {
        return lend_copied(states, index, copies, rows, row, place);
    }
    lend_plain(states, index, rows, row, place);
    Ok(())
}
