//! Why states that are at hand are not regrouped, found without memory.

ghost use Rattle.std.specs.Prelude.{◌≡◌, ◌↔◌, ℕ, IfNone, IfSome};
ghost use Rattle.std.specs.List.{list_any};
ghost use Rattle.pipe_regroup.specs.Added.{AreTooLarge, CanRegroup};
ghost use Rattle.pipe_regroup.specs.declared.regroup_error.RegroupError.TheVariants as fault;
ghost use Rattle.pipe_states.specs.Together.{do_overlap, IsFirstOverlap, NoneOverlap};

use crate::regroup_error::RegroupError;
use crate::total::total;
use pipe_states::StateFile;

/// Whether the range of a state shares a number with that of one of others.
fn meets_one(files: &[StateFile], file: &StateFile) -> bool
    ensures { result ≡ list_any (λ s. do_overlap s file.now) files.now }
{
    for other in files {
        if other.first().max(file.first()) < other.end().min(file.end()) {
            return true;
        }
    }
    false
}

/// The first state whose range shares a number with that of an earlier one.
fn first_overlap(files: &[StateFile]) -> Option<usize>
    ensures some { IfSome result (IsFirstOverlap files.now) }
    ensures none { IfNone result (NoneOverlap files.now) }
{
    for i in 0..files.len() {
        if meets_one(&files[..i], &files[i]) {
            return Some(i);
        }
    }
    None
}

/// What forbids to regroup states, or else that memory was wanting.
pub(crate) fn refusal(files: &[StateFile]) -> RegroupError
    ensures overlap { (i : ℕ) → (result ≡ fault.Overlap i) ↔ IsFirstOverlap files.now i }
    ensures large { (result ≡ fault.TooLarge) ↔ AreTooLarge files.now }
    ensures memory { result ≡ fault.Memory → CanRegroup files.now }
{
    if let Some(file) = first_overlap(files) {
        return RegroupError::Overlap { file };
    }
    if total(files).is_none() {
        return RegroupError::TooLarge;
    }
    RegroupError::Memory
}
