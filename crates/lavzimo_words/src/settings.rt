//! The order, the bounds and the numbers that options have.

ghost use Rattle.std.specs.Prelude.{◌≡◌, IfErr, IfOk, Ok, Some, option_map};
ghost use Rattle.clap.specs.Lexer.{strip_byte};
ghost use Rattle.clap.specs.Words.{first_of, found_of, rows_of};
ghost use Rattle.lavzimo_words.specs.Results.{IsRefusedFor};
ghost use Rattle.lavzimo_words.specs.Settings as spec;

use crate::asked::Order;
use crate::asked_column::AskedColumn;
use crate::command::value_of;
use crate::refusal::{AskError, Refusal};
use clap::ArgMatches;
use pipe_columns::Text;
use pipe_words::Format;
use std::alloc::Global;

/// The place of the shown column of a name.
fn place_of(columns: &[AskedColumn], name: &str) -> Option<usize>
    ensures { result ≡ spec.place_of columns.now name.now }
{
    columns
        .iter()
        .position(|column| column.name.as_str() == name)
}

/// An order by the shown column of a name.
fn order_by(
    alloc: Global,
    columns: &[AskedColumn],
    name: &str,
    down: bool,
) -> Result<Order, AskError>
    ensures order { IfOk result (λ o. spec.order_to down columns.now name.now ≡ Ok o) }
    ensures cause { IfErr result
        (λ e. IsRefusedFor e (spec.order_to down columns.now name.now)) }
{
    match place_of(columns, name) {
        Some(place) if down => Ok(Order::Down(place)),
        Some(place) => Ok(Order::Up(place)),
        None => Err(AskError::Refused(Refusal::NoOutput(Text::new(alloc, name)?))),
    }
}

/// What follows a sign.
fn strip_sign(text: &str) -> Option<&str>
    ensures { option_map (λ s. s.now) result ≡ strip_byte 45 text.now }
{
    text.strip_prefix('-')
}

/// The order that a text says: `key`, `first`, `-COLUMN` or `COLUMN`.
fn order_said(alloc: Global, columns: &[AskedColumn], text: &str) -> Result<Order, AskError>
    ensures order { IfOk result (λ o. spec.order_said columns.now text.now ≡ Ok o) }
    ensures cause { IfErr result (λ e. IsRefusedFor e (spec.order_said columns.now text.now)) }
{
    if text == "key" {
        return Ok(Order::Key);
    }
    if text == "first" {
        return Ok(Order::First);
    }
    match strip_sign(text) {
        Some(name) => order_by(alloc, columns, name, true),
        None => order_by(alloc, columns, text, false),
    }
}

/// The order of the answer: that of keys where none is said.
pub(crate) fn order_of(
    alloc: Global,
    columns: &[AskedColumn],
    value: Option<&str>,
) -> Result<Order, AskError>
    ensures order { IfOk result (λ o.
        spec.order_of columns.now (option_map (λ s. s.now) value.entry) ≡ Ok o) }
    ensures cause { IfErr result (λ e.
        IsRefusedFor e (spec.order_of columns.now (option_map (λ s. s.now) value.entry))) }
{
    match value {
        Some(text) => order_said(alloc, columns, text),
        None => Ok(Order::Key),
    }
}

/// The number that a text writes, from one to another.
fn number_within(low: usize, high: usize, text: &str) -> Option<usize>
    ensures { result ≡ spec.number_within low high text.now }
{
    match text.parse::<usize>() {
        Ok(number) if low <= number && number <= high => Some(number),
        Ok(_) => None,
        Err(_) => None,
    }
}

/// The number that an option has, from one to another.
fn number_said(
    alloc: Global,
    low: usize,
    high: usize,
    option: &str,
    text: &str,
) -> Result<Option<usize>, AskError>
    ensures number { IfOk result
        (λ o. spec.number_said low high option.now (Some text.now) ≡ Ok o) }
    ensures cause { IfErr result
        (λ e. IsRefusedFor e (spec.number_said low high option.now (Some text.now))) }
{
    if let Some(number) = number_within(low, high, text) {
        return Ok(Some(number));
    }
    let option = Text::new(alloc, option)?;
    let value = Text::new(alloc, text)?;
    Err(AskError::Refused(Refusal::NoNumber { option, value }))
}

/// The number of an option, from one to another, where it is said.
pub(crate) fn number_of(
    alloc: Global,
    matches: &ArgMatches<'_>,
    low: usize,
    high: usize,
    option: &str,
) -> Result<Option<usize>, AskError>
    ensures number { IfOk result (λ o.
        spec.number_of low high option.now (rows_of (found_of matches.now)) ≡ Ok o) }
    ensures cause { IfErr result (λ e. IsRefusedFor e
        (spec.number_of low high option.now (rows_of (found_of matches.now)))) }
{
    match value_of(matches, option) {
        Some(text) => number_said(alloc, low, high, option, text),
        None => Ok(None),
    }
}

/// The format of a name: CSV where none is said.
pub(crate) fn format_of(alloc: Global, value: Option<&str>) -> Result<Format, AskError>
    ensures format { IfOk result
        (λ f. spec.format_of (option_map (λ s. s.now) value.entry) ≡ Ok f) }
    ensures cause { IfErr result
        (λ e. IsRefusedFor e (spec.format_of (option_map (λ s. s.now) value.entry))) }
{
    match value {
        None | Some("csv") => Ok(Format::Csv),
        Some("json") => Ok(Format::Json),
        Some(name) => Err(AskError::Refused(Refusal::NoFormat(Text::new(alloc, name)?))),
    }
}
