//! What words say, before a query is looked at.

ghost use Rattle.std.specs.Prelude.{◌≡◌, IfNone, IfSome, None};
ghost use Rattle.summary_words.specs.Said.{said, said_by};

use pipe_columns::Text;

/// The first two words, and those behind them.
pub(crate) fn parts(words: &[Text]) -> Option<(&Text, &Text, &[Text])>
    ensures some { IfSome result (λ p. said words.now ≡ said_by p.0.now p.1.now p.2.now) }
    ensures none { IfNone result (said words.now ≡ None) }
{
    let (mode, words) = words.split_first()?;
    let (query, files) = words.split_first()?;
    Some((mode, query, files))
}
