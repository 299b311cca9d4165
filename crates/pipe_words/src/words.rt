//! What the words of a command say.

ghost use Rattle.std.specs.Prelude.{◌≡◌, ◌<◌, ◌≤◌, IfOk, IfSome, map, option_map};
ghost use Rattle.clap.specs.Words.{found_of, rows_of};
ghost use Rattle.pipe_words.specs.Plans.{AreWithin, CanRun, plan_of, plan_seen, rows_plan};
ghost use Rattle.pipe_words.specs.RestPlan.{rest_plan};

use crate::actions::{Lists, actions_of};
use crate::command::{find_in, value_of, words_of};
use crate::options::{format_named, limits_of, number_at};
use crate::plan::Plan;
use crate::rows::{are_fit, limit_of, seed_of};
use clap::ArgMatches;
use pipe_columns::Text;
use pipe_plan::Limits;
use std::alloc::{AllocError, Global};

/// A copy of a text, if there is one.
fn copy_of(alloc: Global, value: Option<&str>) -> Result<Option<Text>, AllocError>
    ensures { IfOk result (λ o. o ≡ option_map (λ s. s.now) value.entry) }
{
    match value {
        Some(text) => Ok(Some(Text::new(alloc, text)?)),
        None => Ok(None),
    }
}

/// What matches say where the numbers of a run are known: their other values are those of their options,
/// and the words are as they should be.
fn read_rest(
    alloc: Global,
    matches: &ArgMatches<'_>,
    limits: Limits,
    chunk: usize,
    generate: Option<u32>,
    rows: Option<usize>,
) -> Result<Option<Plan>, AllocError>
    requires limits { AreWithin limits }
    requires chunk { 0 < chunk }
    requires rows { IfSome generate (λ _. IfSome rows (λ n. n ≤ 10000000)) }
    ensures plan { IfOk result (λ o. option_map plan_seen o
        ≡ rest_plan limits chunk generate rows (rows_of (found_of matches.now))) }
    ensures run { IfOk result (λ o. IfSome o (λ p. CanRun (plan_seen p))) }
{
    let Some(lists) = actions_of(alloc, limits.workers, value_of(matches, "actions"))? else {
        return Ok(None);
    };
    let Some(format) = format_named(value_of(matches, "format")) else {
        return Ok(None);
    };
    let spill_dir = copy_of(alloc, value_of(matches, "spill-dir"))?;
    let words = words_of(alloc, matches)?;
    if !are_fit(generate, &words) {
        return Ok(None);
    }
    let Lists { actions, rules } = lists;
    Ok(Some(Plan {
        limits,
        chunk,
        actions,
        rules,
        spill_dir,
        rows,
        format,
        generate,
        words,
    }))
}

/// What matches say, where each value is one of its option and the words are as they should be.
fn read_matches(alloc: Global, matches: &ArgMatches<'_>) -> Result<Option<Plan>, AllocError>
    ensures plan { IfOk result (λ o. option_map plan_seen o
        ≡ rows_plan (rows_of (found_of matches.now))) }
    ensures run { IfOk result (λ o. IfSome o (λ p. CanRun (plan_seen p))) }
{
    let Some(limits) = limits_of(matches) else {
        return Ok(None);
    };
    let Some(chunk) = number_at(matches, "chunk", 50000, 1, usize::MAX) else {
        return Ok(None);
    };
    let Some(generate) = seed_of(value_of(matches, "generate")) else {
        return Ok(None);
    };
    let Some(rows) = limit_of(generate, value_of(matches, "rows")) else {
        return Ok(None);
    };
    read_rest(alloc, matches, limits, chunk, generate, rows)
}

/// The words as they are lent.
fn lend<'a>(alloc: Global, words: &'a [Text]) -> Result<Vec<&'a str>, AllocError>
    ensures { IfOk result (λ v. map (λ w. w.now) v.items ≡ words.now) }
{
    let mut lent = Vec::new(alloc);
    for word in words {
        lent.push(word.as_str())?;
    }
    Ok(lent)
}

/// What lent words say, where the command takes them.
fn read_lent(alloc: Global, words: &[&str]) -> Result<Option<Plan>, AllocError>
    ensures plan { IfOk result
        (λ o. option_map plan_seen o ≡ plan_of (map (λ w. w.now) words.now)) }
    ensures run { IfOk result (λ o. IfSome o (λ p. CanRun (plan_seen p))) }
{
    match find_in(alloc, words)? {
        Some(matches) => read_matches(alloc, &matches),
        None => Ok(None),
    }
}

/// What the words of a command say; `None` where they are refused: where the command doesn't take
/// them, a value isn't one of its option, no word belongs to none and no rows are generated, or a word
/// stands beside generated rows.
pub fn read_words(alloc: Global, words: &[Text]) -> Result<Option<Plan>, AllocError>
    ensures plan { IfOk result (λ o. option_map plan_seen o ≡ plan_of words.now) }
    ensures run { IfOk result (λ o. IfSome o (λ p. CanRun (plan_seen p))) }
{
    let lent = lend(alloc, words)?;
    read_lent(alloc, &lent)
}
