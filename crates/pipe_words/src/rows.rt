//! How many rows there are, and the seed of those that are generated.

ghost use Rattle.std.specs.Prelude.{◌≡◌, ◌≤◌, IfSome, option_map};
ghost use Rattle.pipe_words.specs.Plans.{are_fit, limit_of, seed_of};

use crate::numbers::{number_or, up_to};
use pipe_columns::Text;

/// How many rows are generated where no number is given.
const MADE: usize = 1000;
/// The most rows that are generated.
const MOST_MADE: usize = 10_000_000;

/// The seed of generated rows, if an option asks for them.
pub(crate) fn seed_of(value: Option<&str>) -> Option<Option<u32>>
    ensures { result ≡ seed_of (option_map (λ s. s.now) value.entry) }
{
    match up_to(u32::MAX as usize, value)? {
        Some(seed) => Some(Some(seed as u32)),
        None => Some(None),
    }
}

/// The limit of rows; with a seed, how many rows are generated.
pub(crate) fn limit_of(seed: Option<u32>, value: Option<&str>) -> Option<Option<usize>>
    ensures rows { result ≡ limit_of seed (option_map (λ s. s.now) value.entry) }
    ensures made { IfSome result (λ o. IfSome seed (λ _. IfSome o (λ n. n ≤ 10000000))) }
{
    match seed {
        Some(_) => Some(Some(number_or(MADE, 0, MOST_MADE, value)?)),
        None => up_to(usize::MAX, value),
    }
}

/// Whether words are as they should be: with a seed there are none, and without one a query is there.
pub(crate) fn are_fit(seed: Option<u32>, words: &[Text]) -> bool
    ensures { result ≡ are_fit seed words.now }
{
    match seed {
        Some(_) => words.is_empty(),
        None => !words.is_empty(),
    }
}
