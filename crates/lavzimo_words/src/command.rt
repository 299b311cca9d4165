//! The command line.

ghost use Rattle.std.specs.Prelude.{◌≡◌, ◌∷◌, [], IfOk, codes, map, option_map};
ghost use Rattle.clap.specs.Values.{kind_of};
ghost use Rattle.clap.specs.Words.{all_of, app_of, first_of, found_of, rows_of, with_rule};
ghost use Rattle.lavzimo_words.specs.Asked.{files_in};
ghost use Rattle.lavzimo_words.specs.Command as spec;
ghost use Rattle.lavzimo_words.specs.Finding.{IsEnd, IsFinding, answer_options, option_names, place_options, thread_options};

use clap::error::ErrorKind;
use clap::{Arg, ArgAction, ArgMatches, Command, Error};
use pipe_columns::Text;
use std::alloc::{AllocError, Global};

/// An option that has a value: its name, what help calls the value, and what it says of the option.
#[derive(Clone, Copy)]
struct OptionText<'a> {
    name: &'a str,
    value: &'a str,
    help: &'a str,
}

/// The keys.
const KEYS: OptionText<'static> = OptionText {
    name: "by",
    value: "C,..",
    help: "Columns whose values make groups; without it all rows are one group",
};

/// The program without options.
fn bare_command<'a>(alloc: Global) -> Command<'a>
    ensures { app_of result ≡ spec.bare_app }
{
    Command::new(alloc, "lavzimo")
        .no_binary_name(true)
        .version("0.1.0")
        .about("Groups the rows of CSV files, and shows what the rows of each group have")
        .after_help(
            "C is COLUMN, COLUMN:TYPE or either with =NAME behind it. TYPE is text, int, i8 to i64, u8 to u64, bool or date.",
        )
}

/// A command with an option more.
fn with_option<'a>(
    alloc: Global,
    command: Command<'a>,
    action: ArgAction,
    option: OptionText<'a>,
) -> Result<Command<'a>, AllocError>
    ensures { IfOk result (λ c. app_of c
        ≡ with_rule (app_of command.entry) (spec.option_rule action option.entry.name.now)) }
{
    let arg = Arg::new(alloc, option.name)
        .long(option.name)
        .action(action)
        .value_name(option.value)
        .help(option.help);
    command.arg(arg)
}

/// A command with options more.
fn with_options<'a>(
    alloc: Global,
    command: Command<'a>,
    action: ArgAction,
    options: &[OptionText<'a>],
) -> Result<Command<'a>, AllocError>
    ensures { IfOk result (λ c. app_of c
        ≡ spec.with_options action (app_of command.entry) (option_names options.now)) }
{
    let mut command = command;
    for option in options {
        command = with_option(alloc, command, action, *option)?;
    }
    Ok(command)
}

/// A command that takes `--count`.
fn with_count<'a>(alloc: Global, command: Command<'a>) -> Result<Command<'a>, AllocError>
    ensures { IfOk result (λ c. app_of c ≡ with_rule (app_of command.entry) spec.count_rule) }
{
    let count = Arg::new(alloc, "count")
        .long("count")
        .action(ArgAction::SetTrue)
        .help("How many rows");
    command.arg(count)
}

/// A command that takes names of files.
fn with_files<'a>(alloc: Global, command: Command<'a>) -> Result<Command<'a>, AllocError>
    ensures { IfOk result (λ c. app_of c ≡ with_rule (app_of command.entry) spec.files_rule) }
{
    let files = Arg::new(alloc, "files")
        .action(ArgAction::Append)
        .value_name("FILES")
        .help("CSV files with headers; standard input for - and without any");
    command.arg(files)
}

/// An option of columns.
fn of_columns<'a>(name: &'a str, help: &'a str) -> OptionText<'a>
    ensures { result ≡ record { name = name.entry; value = result.value; help = help.entry } }
{
    OptionText {
        name,
        value: "C,..",
        help,
    }
}

/// A command that takes the options of columns beside the keys.
fn with_columns<'a>(alloc: Global, command: Command<'a>) -> Result<Command<'a>, AllocError>
    ensures { IfOk result (λ c. app_of c
        ≡ spec.with_options ArgAction.Append (app_of command.entry) spec.column_options) }
{
    let options = [
        of_columns("count-of", "How many values"),
        of_columns("sum", "The exact sum"),
        of_columns("mean", "The mean, to six places"),
        of_columns("min", "The least value"),
        of_columns("max", "The greatest value"),
        of_columns("first", "The first value"),
        of_columns("last", "The last value"),
    ];
    with_options(alloc, command, ArgAction::Append, &options)
}

/// An option of a run.
fn of_run<'a>(name: &'a str, value: &'a str, help: &'a str) -> OptionText<'a>
    ensures { result ≡ record { name = name.entry; value = value.entry; help = help.entry } }
{
    OptionText { name, value, help }
}

/// A command that takes the options of the answer.
fn with_answer<'a>(alloc: Global, command: Command<'a>) -> Result<Command<'a>, AllocError>
    ensures { IfOk result (λ c. app_of c
        ≡ spec.with_options ArgAction.Set (app_of command.entry) answer_options) }
{
    let options = [
        of_run(
            "order",
            "ORDER",
            "key, first, a shown column, or -COLUMN for downwards",
        ),
        of_run("offset", "N", "Leaves out so many rows at the front"),
        of_run("limit", "N", "Shows so many rows at most"),
        of_run("format", "FORMAT", "csv or json"),
    ];
    with_options(alloc, command, ArgAction::Set, &options)
}

/// A command that takes the options of threads.
fn with_threads<'a>(alloc: Global, command: Command<'a>) -> Result<Command<'a>, AllocError>
    ensures { IfOk result (λ c. app_of c
        ≡ spec.with_options ArgAction.Set (app_of command.entry) thread_options) }
{
    let options = [
        OptionText {
            name: "workers",
            value: "N",
            help: "Threads, 1 to 256; as many as processors without it",
        },
        OptionText {
            name: "partitions",
            value: "N",
            help: "Partitions, 1 to 4096; 16 without it",
        },
    ];
    with_options(alloc, command, ArgAction::Set, &options)
}

/// A command that takes the options of places.
fn with_places<'a>(alloc: Global, command: Command<'a>) -> Result<Command<'a>, AllocError>
    ensures { IfOk result (λ c. app_of c
        ≡ spec.with_options ArgAction.Set (app_of command.entry) place_options) }
{
    let options = [
        OptionText {
            name: "spill-dir",
            value: "DIR",
            help: "Spills rows into a folder",
        },
        OptionText {
            name: "query",
            value: "FILE",
            help: "A query of group_tool, in place of columns",
        },
    ];
    with_options(alloc, command, ArgAction::Set, &options)
}

/// A command that takes the options of the answer and of the run.
fn with_run<'a>(alloc: Global, command: Command<'a>) -> Result<Command<'a>, AllocError>
    ensures { IfOk result (λ c. app_of c
        ≡ spec.with_options ArgAction.Set (app_of command.entry) spec.run_options) }
{
    let command = with_answer(alloc, command)?;
    let command = with_threads(alloc, command)?;
    let command = with_places(alloc, command)?;
    Ok(command)
}

/// The command: the keys, what is asked of columns, the answer and the run, and then files.
fn lavzimo_command<'a>(alloc: Global) -> Result<Command<'a>, AllocError>
    ensures { IfOk result (λ c. app_of c ≡ spec.lavzimo_app) }
{
    let command = with_options(alloc, bare_command(alloc), ArgAction::Append, &[KEYS])?;
    let command = with_count(alloc, command)?;
    let command = with_columns(alloc, command)?;
    let command = with_run(alloc, command)?;
    with_files(alloc, command)
}

/// What `clap` makes of words.
#[derive(Drop)]
pub(crate) enum Finding<'a> {
    Matches(ArgMatches<'a>),
    Help(Text),
    Version(Text),
    Faulty(Text),
}

/// The text of an answer.
fn text_of(alloc: Global, error: &Error) -> Result<Text, AllocError> {
    let text = format!(in alloc; "{error}")?;
    Text::new(alloc, text.as_str())
}

/// The text with which the command ends.
fn end_of<'a>(alloc: Global, error: &Error) -> Result<Finding<'a>, AllocError>
    ensures { IfOk result (λ f. IsEnd f (kind_of error.now)) }
{
    match error.kind() {
        ErrorKind::OutOfMemory => Err(AllocError),
        ErrorKind::DisplayHelp => Ok(Finding::Help(text_of(alloc, error)?)),
        ErrorKind::DisplayVersion => Ok(Finding::Version(text_of(alloc, error)?)),
        _ => Ok(Finding::Faulty(text_of(alloc, error)?)),
    }
}

/// What the command finds in words, or the text with which it ends.
pub(crate) fn find_in<'a>(alloc: Global, words: &'a [&'a str]) -> Result<Finding<'a>, AllocError>
    ensures { IfOk result (λ f. IsFinding f (spec.found_in (map (λ w. w.now) words.entry.now))) }
{
    let command = lavzimo_command(alloc)?;
    match command.try_get_matches_from(words) {
        Ok(matches) => Ok(Finding::Matches(matches)),
        Err(error) => end_of(alloc, &error),
    }
}

/// The value of an option.
pub(crate) fn value_of<'a>(matches: &ArgMatches<'a>, name: &str) -> Option<&'a str>
    ensures { option_map (λ s. s.now) result ≡ first_of name.now (rows_of (found_of matches.now)) }
{
    matches.get_str(name)
}

/// Copies of names.
fn copies_of(alloc: Global, names: &[&str]) -> Result<Vec<Text>, AllocError>
    ensures { IfOk result (λ v. v.items ≡ map (λ n. n.now) names.now) }
{
    let mut copies = Vec::new(alloc);
    for name in names {
        copies.push(Text::new(alloc, name)?)?;
    }
    Ok(copies)
}

/// Standard input.
fn standard_input(alloc: Global) -> Result<Vec<Text>, AllocError>
    ensures { IfOk result (λ v. v.items ≡ codes "-" ∷ []) }
{
    let mut files = Vec::new(alloc);
    files.push(Text::new(alloc, "-")?)?;
    Ok(files)
}

/// The files that are read: standard input where none is named.
pub(crate) fn files_of(alloc: Global, matches: &ArgMatches<'_>) -> Result<Vec<Text>, AllocError>
    ensures { IfOk result (λ v. v.items
        ≡ files_in (all_of (codes "files") (rows_of (found_of matches.now)))) }
{
    match matches.get_strs("files") {
        Some(names) => copies_of(alloc, names),
        None => standard_input(alloc),
    }
}
