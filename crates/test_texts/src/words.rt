//! What words say, word by word.

use pipe_columns::Text;
use pipe_plan::{Limits, SpillAction};
use pipe_words::{Format, Plan, read_words};
use std::alloc::{AllocError, Global};
use std::fmt::Write;
use std::process::Abort;
use std::test::Fail;

/// The letters of actions.
fn show_letters(shown: &mut String, actions: &[SpillAction]) -> Result<(), AllocError> {
    for action in actions {
        match action {
            SpillAction::None => write!(shown, "n")?,
            SpillAction::EarlyMerge => write!(shown, "m")?,
            SpillAction::Dump => write!(shown, "d")?,
        }
    }
    Ok(())
}

/// The lists of actions, each before a comma, and behind a bar the letters of the rules.
fn show_actions(shown: &mut String, plan: &Plan) -> Result<(), AllocError> {
    for list in &plan.actions {
        show_letters(shown, list)?;
        write!(shown, ",")?;
    }
    write!(shown, "|")?;
    show_letters(shown, &plan.rules)
}

/// The limits of a plan, and the rows of its chunks.
fn show_limits(shown: &mut String, limits: &Limits, chunk: usize) -> Result<(), AllocError> {
    write!(
        shown,
        "{:?} {} {} {} {} {} {} [",
        limits.sink,
        limits.workers,
        limits.partitions,
        limits.spill_size,
        limits.buffer_size,
        limits.payload_limit,
        chunk
    )
}

/// What a plan has of the options that may be left out, each behind a space.
fn show_options(shown: &mut String, plan: &Plan) -> Result<(), AllocError> {
    if let Some(dir) = &plan.spill_dir {
        write!(shown, " dir={}", dir.as_str())?;
    }
    if let Some(rows) = plan.rows {
        write!(shown, " rows={rows}")?;
    }
    if plan.format == Format::Json {
        write!(shown, " json")?;
    }
    if let Some(seed) = plan.generate {
        write!(shown, " seed={seed}")?;
    }
    Ok(())
}

/// A plan: its limits, lists of actions and rules, its other options and its words.
fn show_plan(shown: &mut String, plan: &Plan) -> Result<(), AllocError> {
    show_limits(shown, &plan.limits, plan.chunk)?;
    show_actions(shown, plan)?;
    write!(shown, "]")?;
    show_options(shown, plan)?;
    for word in &plan.words {
        write!(shown, " {}", word.as_str())?;
    }
    Ok(())
}

/// What words say, in one line; nothing where they are refused.
fn show_words(alloc: Global, words: &[&str]) -> Result<String, AllocError> {
    let mut texts = Vec::new(alloc);
    for word in words {
        texts.push(Text::new(alloc, word)?)?;
    }
    let mut shown = String::new(alloc);
    if let Some(plan) = read_words(alloc, &texts)? {
        show_plan(&mut shown, &plan)?;
    }
    Ok(shown)
}

const TAKEN: [(&[&str], &str); 17] = [
    (&["Q"], "Generic 1 1 10000 2048 64 50000 [,|n] Q"),
    (
        &["Q", "a", "b", "a"],
        "Generic 1 1 10000 2048 64 50000 [,|n] Q a b a",
    ),
    (
        &[
            "--workers",
            "2",
            "--partitions=3",
            "Q",
            "--spill-size",
            "0",
            "a",
            "--buffer",
            "1",
            "--payloads",
            "0",
        ],
        "Generic 2 3 0 1 0 50000 [,,|nn] Q a",
    ),
    (
        &[
            "--sink", "number", "--chunk", "7", "--rows", "0", "--format", "csv", "Q",
        ],
        "Primitive 1 1 10000 2048 64 7 [,|n] rows=0 Q",
    ),
    (
        &[
            "--workers",
            "3",
            "--actions",
            "nmd,,m",
            "--spill-dir",
            "x y",
            "--sink=text",
            "Q",
        ],
        "Text 3 1 10000 2048 64 50000 [nmd,,m,|nnn] dir=x y Q",
    ),
    (
        &["--workers", "3", "--actions", "d,", "Q"],
        "Generic 3 1 10000 2048 64 50000 [d,,,|nnn] Q",
    ),
    (
        &["--workers", "2", "--actions", "m*", "Q"],
        "Generic 2 1 10000 2048 64 50000 [,,|mm] Q",
    ),
    (
        &["--workers", "2", "--actions", "m*,", "Q"],
        "Generic 2 1 10000 2048 64 50000 [,,|mn] Q",
    ),
    (
        &["--workers", "3", "--actions", "m*,d*", "Q"],
        "Generic 3 1 10000 2048 64 50000 [,,,|mdn] Q",
    ),
    (
        &["--workers", "3", "--actions", "nnd*", "Q"],
        "Generic 3 1 10000 2048 64 50000 [nn,nn,nn,|ddd] Q",
    ),
    (
        &["--workers", "3", "--actions", ",mn*,d", "Q"],
        "Generic 3 1 10000 2048 64 50000 [,m,d,|nnn] Q",
    ),
    (
        &["--actions", "", "Q"],
        "Generic 1 1 10000 2048 64 50000 [,|n] Q",
    ),
    (
        &[
            "--rows",
            "18446744073709551615",
            "--partitions",
            "04096",
            "Q",
        ],
        "Generic 1 4096 10000 2048 64 50000 [,|n] rows=18446744073709551615 Q",
    ),
    (
        &["Q", "--format=json", "--rows", "2"],
        "Generic 1 1 10000 2048 64 50000 [,|n] rows=2 json Q",
    ),
    (
        &["--chunk", "1", "--", "--rows", "-"],
        "Generic 1 1 10000 2048 64 1 [,|n] --rows -",
    ),
    (
        &["--generate", "4294967295"],
        "Generic 1 1 10000 2048 64 50000 [,|n] rows=1000 seed=4294967295",
    ),
    (
        &["--rows", "10000000", "--generate=0"],
        "Generic 1 1 10000 2048 64 50000 [,|n] rows=10000000 seed=0",
    ),
];

#[test]
fn words_that_are_taken(rt: HostRuntime) -> Result<(), Fail> {
    for (words, due) in &TAKEN {
        let shown = show_words(rt.alloc(), words)?;
        assert!(rt; shown.as_str() == *due);
    }
    Ok(())
}

const REFUSED: [&[&str]; 44] = [
    &[],
    &["--help"],
    &["-h", "Q"],
    &["--version", "Q"],
    &["--unknown", "1", "Q"],
    &["-x", "Q"],
    &["--workers", "0", "Q"],
    &["--workers", "257", "Q"],
    &["--workers", "1", "--workers", "1", "Q"],
    &["--workers", "Q"],
    &["Q", "--workers"],
    &["--workers", "", "Q"],
    &["--workers", "+1", "Q"],
    &["--workers", "1x", "Q"],
    &["--partitions", "4097", "Q"],
    &["--partitions", "0", "Q"],
    &["--buffer", "0", "Q"],
    &["--chunk", "0", "Q"],
    &["--chunk", "-1", "Q"],
    &["--rows", "18446744073709551616", "Q"],
    &["--rows", "000000000000000000001", "Q"],
    &["--spill-size", "99999999999999999999", "Q"],
    &["--payloads", "\u{0661}", "Q"],
    &["--sink", "Generic", "Q"],
    &["--format", "JSON", "Q"],
    &["--actions", "n,", "Q"],
    &["--actions", "x", "Q"],
    &["--actions", "n, m", "--workers", "2", "Q"],
    &["--actions", "*", "Q"],
    &["--actions", "*m", "Q"],
    &["--actions", "m**", "Q"],
    &["--actions", "m*d", "Q"],
    &["--actions", ",m*", "Q"],
    &["--actions", "m*,", "Q"],
    &["--actions", "m*,*", "--workers", "2", "Q"],
    &["--actions", "m*,d*,n*", "--workers", "2", "Q"],
    &["--actions", "m* ", "Q"],
    &["--actions", "M*", "Q"],
    &["--generate"],
    &["--generate", "4294967296"],
    &["--generate", "7", "Q"],
    &["--generate", "7", "--", "Q"],
    &["--generate", "7", "--rows", "10000001"],
    &["--rows", "1"],
];

#[test]
fn words_that_are_refused(rt: HostRuntime) -> Result<(), Fail> {
    for words in &REFUSED {
        let shown = show_words(rt.alloc(), words)?;
        assert!(rt; shown.is_empty());
    }
    Ok(())
}
