//! The running aggregates of one group.

ghost use Rattle.std.specs.Prelude.{◌≡◌, ◌-◌, ◌<◌, ◌^◌, length};
ghost use Rattle.pipe_kinds.specs.ManyStates.{states_in, with_states};
ghost use Rattle.pipe_running.specs.GroupStates.{fed_from, StatesSeen, TakesFrom};

use pipe_columns::Place;
use pipe_kinds::States;
use pipe_spill::Values;

/// Feeds each its input of a row.
pub(crate) fn feed_states(states: &mut States, index: usize, place: Place, mut values: Values)
    requires within { index < length states.old.groups }
    requires few { StatesSeen (2 ^ 32 - 2) (states_in states.old index) }
    requires taken { TakesFrom 0 (states_in states.old index) values }
    ensures { states.new ≡ with_states index
        (fed_from place 0 values (states_in states.old index)) states.old }
{
    for j in 0..states.width() {
        let value = values.take_out(j);
        states.feed(index, j, place, value);
    }
}
