//! What is done to the states of groups, where all are of one kind.

ghost use Rattle.std.specs.Prelude.{◌≡◌, ◌+◌, ◌<◌, ◌≤◌, ◌^◌, ◌∷◌, ◌++◌, [], ℕ, IsOk, List, None};
ghost use Rattle.std.specs.Prelude.{OnOk, length, slice_set, true};
ghost use Rattle.std.specs.List.{list_all};
ghost use Rattle.pipe_running.specs.declared.function.AggregateFunction.{AggregateFunction};
ghost use Rattle.pipe_running.specs.Lent.{text_of_run};
ghost use Rattle.pipe_running.specs.Runs.{after_run};
ghost use Rattle.pipe_running.specs.States.{after_value, alike, fresh, given, joined, seen, takes};
ghost use Rattle.pipe_kinds.specs.Columns.{state_at};

use pipe_columns::{AnyValue, Place};
use pipe_running::Finalized;
use std::alloc::AllocError;

/// The states of groups, all of one kind: of any, or of one among a few.
pub(crate) trait KindList {
    /// The states, each as a running aggregate of any kind.
    ghost states_of: { Self → List AggregateFunction };

    /// One before any value.
    ghost fresh_of: { Self → AggregateFunction };

    /// For how many more there is memory.
    ghost room_of: { Self → ℕ };

    /// Makes memory for so many more states.
    fn reserve(&mut self, more: usize) -> Result<(), AllocError>
        ensures states { states_of self.new ≡ states_of self.old }
        ensures fresh { fresh_of self.new ≡ fresh_of self.old }
        ensures ok { OnOk result (more ≤ room_of self.new) }
        ensures room { room_of self.old ≤ room_of self.new }
        ensures succeeds { more ≤ room_of self.old → IsOk result };

    /// For how many more states there is memory.
    fn room(&self) -> usize
        ensures { result ≡ room_of self.now };

    /// Appends a state before any value, where there is room.
    fn push_fresh(&mut self)
        requires { 0 < room_of self.old }
        ensures states { states_of self.new ≡ states_of self.old ++ fresh_of self.old ∷ [] }
        ensures fresh { fresh_of self.new ≡ fresh_of self.old }
        ensures room { room_of self.new + 1 ≡ room_of self.old };

    /// Lets all states go. The room stays.
    fn clear(&mut self)
        ensures states { states_of self.new ≡ [] }
        ensures fresh { fresh_of self.new ≡ fresh_of self.old }
        ensures room { room_of self.new ≡ room_of self.old + length (states_of self.old) };

    /// Lets all states go, and gives their memory back.
    fn release(&mut self)
        ensures states { states_of self.new ≡ [] }
        ensures fresh { fresh_of self.new ≡ fresh_of self.old }
        ensures room { room_of self.new ≡ 0 };

    /// Feeds the state at an index a value.
    fn feed(&mut self, at: usize, place: Place, value: AnyValue)
        requires within { at < length (states_of self.old) }
        requires taken { takes (state_at (states_of self.old) at) value ≡ true }
        requires few { seen (state_at (states_of self.old) at) + 1 < 2 ^ 32 }
        ensures states { states_of self.new ≡ slice_set (states_of self.old) at
            (after_value place value (state_at (states_of self.old) at)) }
        ensures fresh { fresh_of self.new ≡ fresh_of self.old }
        ensures room { room_of self.new ≡ room_of self.old };

    /// Feeds the state at an index the values of rows that follow one another, which are lent, and
    /// among which is no text that it would keep.
    fn feed_run(&mut self, at: usize, chunk: u32, row: u32, values: &[AnyValue])
        requires within { at < length (states_of self.old) }
        requires taken { list_all (λ v. takes (state_at (states_of self.old) at) v) values.now
            ≡ true }
        requires few { seen (state_at (states_of self.old) at) + length values.now < 2 ^ 32 }
        requires rows { row + length values.now ≤ 2 ^ 32 }
        requires plain { text_of_run chunk row values.now (state_at (states_of self.old) at)
            ≡ None }
        ensures states { states_of self.new ≡ slice_set (states_of self.old) at
            (after_run after_value chunk row values.now (state_at (states_of self.old) at)) }
        ensures fresh { fresh_of self.new ≡ fresh_of self.old }
        ensures room { room_of self.new ≡ room_of self.old };

    /// What the state at an index gives, which is then as before any value.
    fn finalize(&mut self, at: usize) -> Finalized
        requires { at < length (states_of self.old) }
        ensures given { result ≡ given (state_at (states_of self.old) at) }
        ensures states { states_of self.new ≡ slice_set (states_of self.old) at
            (fresh (state_at (states_of self.old) at)) }
        ensures fresh { fresh_of self.new ≡ fresh_of self.old }
        ensures room { room_of self.new ≡ room_of self.old };

    /// Takes the state at an index of others over into that at one, which is then as before any
    /// value.
    fn join(&mut self, at: usize, other: &mut Self, from: usize)
        requires within { at < length (states_of self.old) }
        requires from { from < length (states_of other.old) }
        requires fresh { fresh_of other.old ≡ fresh_of self.old }
        requires alike { alike (state_at (states_of self.old) at)
            (state_at (states_of other.old) from) ≡ true }
        requires few { seen (state_at (states_of self.old) at)
            + seen (state_at (states_of other.old) from) < 2 ^ 32 }
        ensures states { states_of self.new ≡ slice_set (states_of self.old) at
            (joined (state_at (states_of self.old) at) (state_at (states_of other.old) from)) }
        ensures fresh { fresh_of self.new ≡ fresh_of self.old }
        ensures room { room_of self.new ≡ room_of self.old }
        ensures others { states_of other.new
            ≡ slice_set (states_of other.old) from (fresh_of other.old) }
        ensures others_fresh { fresh_of other.new ≡ fresh_of other.old }
        ensures others_room { room_of other.new ≡ room_of other.old };

    /// Reads the state at an index, if it can be read. Nothing changes.
    #[inline(always)]
    fn look(&self, _at: usize) -> usize {
        0
    }
}

/// Calls a function with two states of one kind among those that are named, where they are known to
/// be of the same.
macro_rules! both_of_kind {
    ($($kind:path),*; $one:expr, $other:expr, $a:ident, $b:ident => $call:expr) => {
        match $one {
            $($kind($a) => match $other {
                $kind($b) => $call,
                _ => unreachable!(),
            },)*
        }
    };
}

pub(crate) use both_of_kind;
