//! The pieces of lists of columns, with their roles.

ghost use Rattle.std.specs.Prelude.{◌≡◌, ◌==◌, ◌++◌, IfErr, IfOk, Ok, OnOk, flat_map, map};
ghost use Rattle.std.specs.List.{slice_split};
ghost use Rattle.clap.specs.Words.{found_of, rows_of};
ghost use Rattle.lavzimo_words.specs.Items as items;
ghost use Rattle.lavzimo_words.specs.Pieces.{piece_seen, pieces_as, pieces_seen, row_pieces};
ghost use Rattle.lavzimo_words.specs.Roles.{role_named};
ghost use Rattle.lavzimo_words.specs.Results.{IsRefusedFor, each_ok};

use crate::command::value_of;
use crate::item::{Item, item_of};
use crate::refusal::AskError;
use crate::role::Role;
use clap::ArgMatches;
use std::alloc::{AllocError, Global};

/// A piece of an option's list, and the role that it asks for.
#[derive(Clone, Copy, Drop)]
pub(crate) struct Piece<'a> {
    pub(crate) role: Role,
    pub(crate) text: &'a str,
}

/// The pieces of a text between commas.
fn cut_at_commas<'a>(alloc: Global, text: &'a str) -> Result<Vec<&'a str>, AllocError>
    ensures { IfOk result (λ v. map (λ x. x.now) v.items
        ≡ slice_split (λ b. b == 44) text.entry.now) }
{
    text.split(',').collect(alloc)
}

/// Texts in a role, behind other pieces.
fn push_texts<'a>(
    pieces: &mut Vec<Piece<'a>>,
    role: Role,
    texts: &[&'a str],
) -> Result<(), AllocError>
    ensures { OnOk result (pieces_seen pieces.new.items
        ≡ pieces_seen pieces.old.items ++ map (λ x. (role, x.now)) texts.now) }
{
    for text in texts {
        pieces.push(Piece { role, text })?;
    }
    Ok(())
}

/// The pieces of a value, behind others.
fn push_value<'a>(
    alloc: Global,
    pieces: &mut Vec<Piece<'a>>,
    role: Role,
    value: &'a str,
) -> Result<(), AllocError>
    ensures { OnOk result (pieces_seen pieces.new.items ≡ pieces_seen pieces.old.items
        ++ map (λ p. (role, p)) (slice_split (λ b. b == 44) value.entry.now)) }
{
    let texts = cut_at_commas(alloc, value)?;
    push_texts(pieces, role, &texts)?;
    Ok(())
}

/// The pieces of values, behind others.
fn push_values<'a>(
    alloc: Global,
    pieces: &mut Vec<Piece<'a>>,
    role: Role,
    values: &[&'a str],
) -> Result<(), AllocError>
    ensures { OnOk result (pieces_seen pieces.new.items ≡ pieces_seen pieces.old.items
        ++ map (λ p. (role, p))
        (flat_map (λ v. slice_split (λ b. b == 44) v) (map (λ v. v.now) values.now))) }
{
    for value in values {
        push_value(alloc, pieces, role, value)?;
    }
    Ok(())
}

/// Whether rows are counted.
fn counts_rows(matches: &ArgMatches<'_>) -> bool
    ensures { result ≡ items.counts_rows (rows_of (found_of matches.now)) }
{
    match value_of(matches, "count") {
        Some(value) => value == "true",
        None => false,
    }
}

/// The piece that counts rows, behind others, where they are counted.
fn push_rows(pieces: &mut Vec<Piece<'_>>, role: Role, is_counted: bool) -> Result<(), AllocError>
    ensures { OnOk result (pieces_seen pieces.new.items
        ≡ pieces_seen pieces.old.items ++ row_pieces role is_counted) }
{
    if !is_counted {
        return Ok(());
    }
    pieces.push(Piece { role, text: "" })?;
    Ok(())
}

/// The pieces of a role, behind others.
fn push_role<'a>(
    alloc: Global,
    pieces: &mut Vec<Piece<'a>>,
    matches: &ArgMatches<'a>,
    role: Role,
) -> Result<(), AllocError>
    ensures { OnOk result (pieces_seen pieces.new.items ≡ pieces_seen pieces.old.items
        ++ items.pieces_for (rows_of (found_of matches.now)) role) }
{
    if role.is_rows() {
        return push_rows(pieces, role, counts_rows(matches));
    }
    match matches.get_strs(role.option()) {
        Some(values) => push_values(alloc, pieces, role, values),
        None => Ok(()),
    }
}

/// The pieces of an option beside `--by`, behind others.
fn push_option<'a>(
    alloc: Global,
    pieces: &mut Vec<Piece<'a>>,
    matches: &ArgMatches<'a>,
    option: &str,
) -> Result<(), AllocError>
    ensures { OnOk result (pieces_seen pieces.new.items ≡ pieces_seen pieces.old.items
        ++ pieces_as (rows_of (found_of matches.now)) (role_named option.now)) }
{
    match Role::named(option) {
        Some(role) => push_role(alloc, pieces, matches, role),
        None => Ok(()),
    }
}

/// All pieces: those of keys, and then those of the other options in the order of their first use.
pub(crate) fn pieces_in<'a>(
    alloc: Global,
    matches: &ArgMatches<'a>,
) -> Result<Vec<Piece<'a>>, AllocError>
    ensures { IfOk result
        (λ v. pieces_seen v.items ≡ items.pieces_in (rows_of (found_of matches.now))) }
{
    let mut pieces = Vec::new(alloc);
    push_role(alloc, &mut pieces, matches, Role::Key)?;
    let mut options = matches.ids();
    while let Some(option) = options.next() {
        push_option(alloc, &mut pieces, matches, option)?;
    }
    Ok(pieces)
}

/// The items of pieces, as they are lent.
fn lent_items(alloc: Global, pieces: &[Piece<'_>]) -> Result<Vec<Item>, AskError>
    ensures items { IfOk result
        (λ v. each_ok (λ p. items.item_of p.role p.text.now) pieces.now ≡ Ok v.items) }
    ensures cause { IfErr result
        (λ e. IsRefusedFor e (each_ok (λ p. items.item_of p.role p.text.now) pieces.now)) }
{
    let mut items = Vec::new(alloc);
    for i in 0..pieces.len() {
        let item = item_of(alloc, pieces[i].role, pieces[i].text)?;
        items.push(item)?;
    }
    Ok(items)
}

/// The items of pieces.
pub(crate) fn items_of(alloc: Global, pieces: &[Piece<'_>]) -> Result<Vec<Item>, AskError>
    ensures items { IfOk result
        (λ v. items.items_of (pieces_seen pieces.now) ≡ Ok v.items) }
    ensures cause { IfErr result
        (λ e. IsRefusedFor e (items.items_of (pieces_seen pieces.now))) }
{
    lent_items(alloc, pieces)
}
