//! What words say, before a query or keys are looked at.

ghost use Rattle.std.specs.Prelude.{◌≡◌, IfNone, IfSome, None};
ghost use Rattle.std.specs.Char.{is_ascii_digit};
ghost use Rattle.std.specs.List.{list_all};
ghost use Rattle.rollup_words.specs.Said.{position_in, said, said_by};

use pipe_columns::Text;

/// The most digits of a position.
const DIGITS: usize = 10;

/// Whether all bytes are digits.
fn are_digits(bytes: &[u8]) -> bool
    ensures { result ≡ list_all is_ascii_digit bytes.now }
{
    bytes.iter().all(|byte| byte.is_ascii_digit())
}

/// The position that a word writes.
pub(crate) fn position_in(word: &str) -> Option<u32>
    ensures { result ≡ position_in word.now }
{
    let bytes = word.as_bytes();
    if bytes.is_empty() || bytes.len() > DIGITS {
        return None;
    }
    if !are_digits(bytes) {
        return None;
    }
    word.parse::<u32>().ok()
}

/// The first three words, and those behind them, where there is one at least.
pub(crate) fn parts(words: &[Text]) -> Option<(&Text, &Text, &Text, &[Text])>
    ensures some { IfSome result (λ p. said words.now ≡ said_by p.0.now p.1.now p.2.now p.3.now) }
    ensures none { IfNone result (said words.now ≡ None) }
{
    let (mode, words) = words.split_first()?;
    let (query, words) = words.split_first()?;
    let (third, files) = words.split_first()?;
    if files.is_empty() {
        return None;
    }
    Some((mode, query, third, files))
}
