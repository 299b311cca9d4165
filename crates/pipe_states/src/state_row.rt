//! A row of a saved state.

use pipe_columns::Place;
use pipe_spill::Values;

/// What the rows of a key come to: its tuple, their least and their greatest place, how many they
/// are, and what each aggregate gives of them, a value for each of its output columns.
#[derive(Debug, Drop)]
pub struct StateRow {
    pub key: Values,
    pub first: Place,
    pub last: Place,
    pub rows: u32,
    pub results: Values,
}
