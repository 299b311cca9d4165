//! The command line.

ghost use Rattle.std.specs.Prelude.{◌≡◌, IfOk, fold, map, option_map};
ghost use Rattle.clap.specs.Words.{app_of, first_of, found_of, rows_of, with_rule};
ghost use Rattle.pipe_words.specs.Command.{bare_app, found_in, tool_app, with_option, words_in, words_rule};

use clap::error::ErrorKind;
use clap::{Arg, ArgAction, ArgMatches, Command};
use pipe_columns::Text;
use std::alloc::{AllocError, Global};

/// A command with one option more.
fn with_option<'a>(
    alloc: Global,
    command: Command<'a>,
    name: &'a str,
) -> Result<Command<'a>, AllocError>
    ensures { IfOk result (λ c. app_of c ≡ with_option (app_of command.entry) name.entry.now) }
{
    let arg = Arg::new(alloc, name).long(name).action(ArgAction::Set);
    command.arg(arg)
}

/// The program without options.
fn bare_command<'a>(alloc: Global) -> Command<'a>
    ensures { app_of result ≡ bare_app }
{
    Command::new(alloc, "group_tool").no_binary_name(true)
}

/// A command that takes words beside its options.
fn with_words<'a>(alloc: Global, command: Command<'a>) -> Result<Command<'a>, AllocError>
    ensures { IfOk result (λ c. app_of c ≡ with_rule (app_of command.entry) words_rule) }
{
    let words = Arg::new(alloc, "words").action(ArgAction::Append);
    command.arg(words)
}

/// A command with options more.
fn with_options<'a>(
    alloc: Global,
    command: Command<'a>,
    names: &[&'a str],
) -> Result<Command<'a>, AllocError>
    ensures { IfOk result (λ c. app_of c
        ≡ fold with_option (app_of command.entry) (map (λ n. n.now) names.now)) }
{
    let mut command = command;
    for name in names {
        command = with_option(alloc, command, name)?;
    }
    Ok(command)
}

/// The command: the options of workers, those of rows and of the answer, and the words.
fn tool_command<'a>(alloc: Global) -> Result<Command<'a>, AllocError>
    ensures { IfOk result (λ c. app_of c ≡ tool_app) }
{
    let names = [
        "workers",
        "partitions",
        "spill-size",
        "buffer",
        "payloads",
        "actions",
        "spill-dir",
        "chunk",
        "rows",
        "generate",
        "sink",
        "format",
    ];
    let command = with_options(alloc, bare_command(alloc), &names)?;
    with_words(alloc, command)
}

/// What the command finds in words, where it takes them.
pub(crate) fn find_in<'a>(
    alloc: Global,
    words: &'a [&'a str],
) -> Result<Option<ArgMatches<'a>>, AllocError>
    ensures { IfOk result (λ o. option_map (λ m. rows_of (found_of m)) o
        ≡ found_in (map (λ w. w.now) words.entry.now)) }
{
    let command = tool_command(alloc)?;
    match command.try_get_matches_from(words) {
        Ok(matches) => Ok(Some(matches)),
        Err(error) => match error.kind() {
            ErrorKind::OutOfMemory => Err(AllocError),
            _ => Ok(None),
        },
    }
}

/// The value of an option.
pub(crate) fn value_of<'a>(matches: &ArgMatches<'a>, name: &str) -> Option<&'a str>
    ensures { option_map (λ s. s.now) result ≡ first_of name.now (rows_of (found_of matches.now)) }
{
    matches.get_str(name)
}

/// Copies of the words that belong to no option.
pub(crate) fn words_of(alloc: Global, matches: &ArgMatches<'_>) -> Result<Vec<Text>, AllocError>
    ensures { IfOk result (λ v. v.items ≡ words_in (rows_of (found_of matches.now))) }
{
    let mut copies = Vec::new(alloc);
    let Some(words) = matches.get_strs("words") else {
        return Ok(copies);
    };
    for word in words {
        copies.push(Text::new(alloc, word)?)?;
    }
    Ok(copies)
}
