//! The actions of workers.

ghost use Rattle.std.specs.Prelude.{◌≡◌, ◌==◌, IfOk, IfSome, bytes_eq, codes, length, map, option_map, vec_len};
ghost use Rattle.std.specs.List.{slice_split};
ghost use Rattle.pipe_words.specs.Actions.{
  action_of,
  actions_of,
  each_of,
  has_star,
  listed_actions,
  listed_rule,
  parts_of,
  read_letters,
  rules_of,
  spare_letters,
};

use pipe_plan::SpillAction;
use std::alloc::{AllocError, Global};

/// The action that a letter stands for.
fn action_of(letter: u8) -> Option<SpillAction>
    ensures { result ≡ action_of letter }
{
    match letter {
        b'n' => Some(SpillAction::None),
        b'm' => Some(SpillAction::EarlyMerge),
        b'd' => Some(SpillAction::Dump),
        _ => None,
    }
}

/// What follows a worker's turns: the actions after its first, and its rule, the action after each
/// further one.
#[derive(Drop)]
struct Listing {
    actions: Vec<SpillAction>,
    rule: SpillAction,
}

/// Whether letters are a star alone.
fn is_star(letters: &[u8]) -> bool
    ensures { result ≡ bytes_eq letters.now (codes "*") }
{
    letters == b"*".as_slice()
}

/// What letters say, where each stands for an action; a star may follow the last.
fn read_letters(alloc: Global, letters: &[u8]) -> Result<Option<Listing>, AllocError>
    ensures { IfOk result (λ o. option_map (λ l. record { actions = l.actions.items; rule = l.rule })
        o ≡ read_letters letters.now) }
{
    let mut actions = Vec::new(alloc);
    for i in 0..letters.len() {
        let Some(action) = action_of(letters[i]) else {
            return Ok(None);
        };
        if is_star(&letters[i + 1..]) {
            let rule = action;
            return Ok(Some(Listing { actions, rule }));
        }
        actions.push(action)?;
    }
    Ok(Some(Listing {
        actions,
        rule: SpillAction::None,
    }))
}

/// The pieces of a text between commas.
fn cut_at_commas<'a>(alloc: Global, text: &'a str) -> Result<Vec<&'a str>, AllocError>
    ensures { IfOk result (λ v. map (λ x. x.now) v.items
        ≡ slice_split (λ b. b == 44) text.entry.now) }
{
    text.split(',').collect(alloc)
}

/// The lists of letters of an option.
fn parts_of<'a>(alloc: Global, value: Option<&'a str>) -> Result<Vec<&'a str>, AllocError>
    ensures { IfOk result (λ v. map (λ x. x.now) v.items
        ≡ parts_of (option_map (λ s. s.now) value.entry)) }
{
    match value {
        Some(text) => cut_at_commas(alloc, text),
        None => Ok(Vec::new(alloc)),
    }
}

/// Whether a star ends letters.
fn has_star(letters: &str) -> bool
    ensures { result ≡ has_star letters.now }
{
    match letters.as_bytes().last() {
        Some(last) => *last == b'*',
        None => false,
    }
}

/// The letters of a worker that has no list: those of the one list, if it is one that a star ends.
fn spare_letters<'a>(parts: &[&'a str]) -> &'a str
    ensures { result.now ≡ spare_letters (map (λ x. x.now) parts.now) }
{
    if parts.len() == 1 && has_star(parts[0]) {
        return parts[0];
    }
    ""
}

/// What follows the turns of workers: the list of each, and the rule of each.
#[derive(Drop)]
pub(crate) struct Lists {
    pub(crate) actions: Vec<Vec<SpillAction>>,
    pub(crate) rules: Vec<SpillAction>,
}

/// What lists of letters say, where each letter stands for an action; a star may follow the last.
fn read_lists(alloc: Global, parts: &[&str]) -> Result<Option<Lists>, AllocError>
    ensures lists { IfOk result (λ o. option_map (λ l. map (λ v. v.items) l.actions.items) o
        ≡ each_of (λ x. listed_actions x.now) parts.now) }
    ensures rules { IfOk result (λ o. option_map (λ l. l.rules.items) o
        ≡ each_of (λ x. listed_rule x.now) parts.now) }
    ensures count { IfOk result (λ o. IfSome o (λ l. vec_len l.actions ≡ length parts.now)) }
    ensures each { IfOk result (λ o. IfSome o (λ l. vec_len l.rules ≡ length parts.now)) }
{
    let mut actions = Vec::new(alloc);
    let mut rules = Vec::new(alloc);
    for i in 0..parts.len() {
        let Some(list) = read_letters(alloc, parts[i].as_bytes())? else {
            return Ok(None);
        };
        actions.push(list.actions)?;
        rules.push(list.rule)?;
    }
    Ok(Some(Lists { actions, rules }))
}

/// The actions and the rule of each of so many workers.
pub(crate) fn actions_of(
    alloc: Global,
    workers: usize,
    value: Option<&str>,
) -> Result<Option<Lists>, AllocError>
    ensures actions { IfOk result (λ o. option_map (λ l. map (λ v. v.items) l.actions.items) o
        ≡ actions_of workers (option_map (λ s. s.now) value.entry)) }
    ensures rules { IfOk result (λ o. option_map (λ l. l.rules.items) o
        ≡ rules_of workers (option_map (λ s. s.now) value.entry)) }
    ensures count { IfOk result (λ o. IfSome o (λ l. vec_len l.actions ≡ workers)) }
    ensures each { IfOk result (λ o. IfSome o (λ l. vec_len l.rules ≡ workers)) }
{
    let mut parts = parts_of(alloc, value)?;
    if parts.len() > workers {
        return Ok(None);
    }
    let spare = spare_letters(&parts);
    parts.resize(workers, spare)?;
    read_lists(alloc, &parts)
}
