//! What the words of the program ask.

ghost use Rattle.std.specs.Prelude.{◌≡◌, IfErr, IfOk, Ok, map, option_map};
ghost use Rattle.clap.specs.Words.{found_of, rows_of};
ghost use Rattle.lavzimo_words.specs.Askable.{HasAskable};
ghost use Rattle.lavzimo_words.specs.Asked as spec;
ghost use Rattle.lavzimo_words.specs.Command.{found_in};
ghost use Rattle.lavzimo_words.specs.Pieces.{pieces_seen};
ghost use Rattle.lavzimo_words.specs.Results.{IsRefusedFor};
ghost use Rattle.lavzimo_words.specs.Shown.{shown_of};

use crate::asked::{Asked, Columns, Question};
use crate::asked_column::AskedColumn;
use crate::command::{Finding, files_of, find_in, value_of};
use crate::joined::joined;
use crate::pieces::{Piece, items_of, pieces_in};
use crate::refusal::{AskError, Refusal};
use crate::settings::{format_of, number_of, order_of};
use crate::shown::{shown_all, tell_apart};
use clap::ArgMatches;
use pipe_columns::Text;
use std::alloc::{AllocError, Global};

/// What was read in words.
#[derive(Debug, Drop)]
pub enum Reading {
    /// What they ask.
    Asked(Asked),
    /// Why they are refused.
    Refused(Refusal),
    /// They call for help, which is this text.
    Help(Text),
    /// They call for the version, which is this text.
    Version(Text),
    /// The command doesn't take them, as this text says.
    Faulty(Text),
}

/// The columns that pieces ask for.
fn shown_of(alloc: Global, pieces: &[Piece<'_>]) -> Result<Vec<AskedColumn>, AskError>
    ensures columns { IfOk result (λ v. shown_of (pieces_seen pieces.now) ≡ Ok v.items) }
    ensures cause { IfErr result (λ e. IsRefusedFor e (shown_of (pieces_seen pieces.now))) }
{
    let items = items_of(alloc, pieces)?;
    let columns = shown_all(alloc, &items)?;
    let columns = tell_apart(alloc, columns)?;
    Ok(columns)
}

/// The columns that pieces ask for, and how options say they are shown.
fn columns_of(
    alloc: Global,
    matches: &ArgMatches<'_>,
    pieces: &[Piece<'_>],
) -> Result<Columns, AskError>
    ensures columns { IfOk result (λ c. spec.columns_in (pieces_seen pieces.now)
        (rows_of (found_of matches.now)) ≡ Ok (spec.columns_seen c)) }
    ensures cause { IfErr result (λ e. IsRefusedFor e
        (spec.columns_in (pieces_seen pieces.now) (rows_of (found_of matches.now)))) }
{
    let columns = shown_of(alloc, pieces)?;
    let order = order_of(alloc, &columns, value_of(matches, "order"))?;
    let offset = number_of(alloc, matches, 0, usize::MAX, "offset")?;
    let limit = number_of(alloc, matches, 0, usize::MAX, "limit")?;
    Ok(Columns {
        columns,
        order,
        offset: offset.unwrap_or(0),
        limit,
    })
}

/// An option that may not stand beside a query.
fn beside_query(matches: &ArgMatches<'_>, pieces: &[Piece<'_>]) -> Option<&'static str>
    ensures { option_map (λ s. s.now) result
        ≡ spec.beside_query (pieces_seen pieces.now) (rows_of (found_of matches.now)) }
{
    if !pieces.is_empty() {
        return Some(pieces[0].role.option());
    }
    if value_of(matches, "order").is_some() {
        return Some("order");
    }
    if value_of(matches, "offset").is_some() {
        return Some("offset");
    }
    if value_of(matches, "limit").is_some() {
        return Some("limit");
    }
    None
}

/// What is asked.
fn question_of(alloc: Global, matches: &ArgMatches<'_>) -> Result<Question, AskError>
    ensures question { IfOk result
        (λ q. spec.question_in (rows_of (found_of matches.now)) ≡ Ok (spec.question_seen q)) }
    ensures cause { IfErr result
        (λ e. IsRefusedFor e (spec.question_in (rows_of (found_of matches.now)))) }
{
    let pieces = pieces_in(alloc, matches)?;
    let Some(file) = value_of(matches, "query") else {
        return Ok(Question::Columns(columns_of(alloc, matches, &pieces)?));
    };
    if let Some(option) = beside_query(matches, &pieces) {
        let option = Text::new(alloc, option)?;
        return Err(AskError::Refused(Refusal::BesideQuery(option)));
    }
    Ok(Question::File(Text::new(alloc, file)?))
}

/// A copy of a text, if there is one.
fn copy_of(alloc: Global, value: Option<&str>) -> Result<Option<Text>, AllocError>
    ensures { IfOk result (λ o. o ≡ option_map (λ s. s.now) value.entry) }
{
    match value {
        Some(text) => Ok(Some(Text::new(alloc, text)?)),
        None => Ok(None),
    }
}

/// What options and files ask.
fn asked_of(alloc: Global, matches: &ArgMatches<'_>) -> Result<Asked, AskError>
    ensures asked { IfOk result
        (λ a. spec.asked_in (rows_of (found_of matches.now)) ≡ Ok (spec.asked_seen a)) }
    ensures cause { IfErr result
        (λ e. IsRefusedFor e (spec.asked_in (rows_of (found_of matches.now)))) }
{
    let question = question_of(alloc, matches)?;
    let format = format_of(alloc, value_of(matches, "format"))?;
    let workers = number_of(alloc, matches, 1, 256, "workers")?;
    let partitions = number_of(alloc, matches, 1, 4096, "partitions")?;
    let spill_dir = copy_of(alloc, value_of(matches, "spill-dir"))?;
    let files = files_of(alloc, matches)?;
    Ok(Asked {
        question,
        format,
        workers,
        partitions: partitions.unwrap_or(16),
        spill_dir,
        files,
    })
}

/// What matches come to.
fn read_matches(alloc: Global, matches: &ArgMatches<'_>) -> Result<Reading, AllocError>
    ensures { IfOk result
        (λ r. spec.IsReading r (spec.ask_or (spec.asked_in (rows_of (found_of matches.now))))) }
{
    match asked_of(alloc, matches) {
        Ok(asked) => Ok(Reading::Asked(asked)),
        Err(AskError::Refused(refusal)) => Ok(Reading::Refused(refusal)),
        Err(AskError::Memory) => Err(AllocError),
    }
}

/// What lent words come to.
fn read_lent(alloc: Global, words: &[&str]) -> Result<Reading, AllocError>
    ensures { IfOk result
        (λ r. spec.IsReading r (spec.words_by (found_in (map (λ w. w.now) words.now)))) }
{
    match find_in(alloc, words)? {
        Finding::Matches(matches) => read_matches(alloc, &matches),
        Finding::Help(text) => Ok(Reading::Help(text)),
        Finding::Version(text) => Ok(Reading::Version(text)),
        Finding::Faulty(text) => Ok(Reading::Faulty(text)),
    }
}

/// The words as they are lent.
fn lend<'a>(alloc: Global, words: &'a [Text]) -> Result<Vec<&'a str>, AllocError>
    ensures { IfOk result (λ v. map (λ w. w.now) v.items ≡ words.now) }
{
    let mut lent = Vec::new(alloc);
    for word in words {
        lent.push(word.as_str())?;
    }
    Ok(lent)
}

/// What the words of the program ask, or why they are refused; help and the version end apart.
pub fn read_words(alloc: Global, words: &[Text]) -> Result<Reading, AllocError>
    ensures words { IfOk result (λ r. spec.IsReading r (spec.asked_of words.now)) }
    ensures askable { IfOk result HasAskable }
{
    let words = joined(alloc, words)?;
    let lent = lend(alloc, &words)?;
    read_lent(alloc, &lent)
}
