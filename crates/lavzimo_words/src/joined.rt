//! The words as `clap` reads them.

ghost use Rattle.std.specs.Prelude.{◌≡◌, ◌++◌, IfOk, OnOk, codes, option_map};
ghost use Rattle.lavzimo_words.specs.Joined as spec;

use pipe_columns::Text;
use std::alloc::{AllocError, Global};

/// Whether a word is a sign before something else than a sign.
fn is_downwards(word: &[u8]) -> bool
    ensures { result ≡ spec.is_downwards word.now }
{
    word.len() > 1 && word[0] == b'-' && word[1] != b'-'
}

/// An order downwards as one word.
fn order_word(alloc: Global, by: &str) -> Result<Text, AllocError>
    ensures { IfOk result (λ t. t ≡ codes "--order=" ++ by.now) }
{
    let word = format!(in alloc; "--order={by}")?;
    Text::new(alloc, word.as_str())
}

/// Copies of words behind others.
fn push_all(alloc: Global, words: &[Text], joined: &mut Vec<Text>) -> Result<(), AllocError>
    ensures { OnOk result (joined.new.items ≡ joined.old.items ++ words.now) }
{
    for word in words {
        let copy = word.try_clone(alloc)?;
        joined.push(copy)?;
    }
    Ok(())
}

/// Whether an order downwards stands in two words.
fn is_order(word: &Text, value: &Text) -> bool
    ensures { result ≡ spec.is_order word.now value.now }
{
    word.as_str() == "--order" && is_downwards(value.as_bytes())
}

/// The next word before another one and before a word `--`, and the words behind it.
fn next_word<'a>(alloc: Global, words: &'a [Text]) -> Result<Option<(Text, &'a [Text])>, AllocError>
    ensures { IfOk result
        (λ o. option_map (λ p. (p.0, p.1.now)) o ≡ spec.next_word words.entry.now) }
{
    let Some((word, after)) = words.split_first() else {
        return Ok(None);
    };
    let Some((value, later)) = after.split_first() else {
        return Ok(None);
    };
    if word.as_str() == "--" {
        return Ok(None);
    }
    if is_order(word, value) {
        let joined = order_word(alloc, value.as_str())?;
        return Ok(Some((joined, later)));
    }
    let copy = word.try_clone(alloc)?;
    Ok(Some((copy, after)))
}

/// The words, of which `--order -COLUMN` before a word `--` is one.
pub(crate) fn joined(alloc: Global, words: &[Text]) -> Result<Vec<Text>, AllocError>
    ensures { IfOk result (λ v. v.items ≡ spec.joined words.now) }
{
    let mut joined = Vec::new(alloc);
    let mut rest = words;
    while let Some((word, after)) = next_word(alloc, rest)? {
        joined.push(word)?;
        rest = after;
    }
    push_all(alloc, rest, &mut joined)?;
    Ok(joined)
}
