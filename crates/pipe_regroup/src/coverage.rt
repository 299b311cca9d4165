//! What is found of the ranges of states, and of how many rows they are.

ghost use Rattle.std.specs.Prelude.{◌≡◌, ◌↔◌, ◌∷◌, ◌++◌, ℕ, List, [], Err, IsErrOf, map, OnOk, true};
ghost use Rattle.pipe_regroup.specs.Added.{AreTooLarge};
ghost use Rattle.pipe_regroup.specs.Covered.{IsCoverageOf, is_sound};
ghost use Rattle.pipe_regroup.specs.declared.regroup_error.RegroupError.TheVariants as fault;
ghost use Rattle.pipe_states.specs.States.{StateSeen};
ghost use Rattle.pipe_states.specs.Together.{IsFirstOverlap};

use crate::ranges::Ranges;
use crate::regroup_error::RegroupError;
use crate::total::{counted, more};
use pipe_states::StateFile;
use std::alloc::{AllocError, Global};
use std::snapshot::Snapshot;

/// The ranges of states, which of them is the first whose range shares a number with that of an
/// earlier one, and of how many rows they are, if a count holds it. From that first one on no range
/// is added.
#[derive(Drop)]
pub struct Coverage {
    pub ranges: Ranges,
    pub overlap: Option<usize>,
    pub rows: Option<u32>,
}

impl Coverage {
    /// No states yet.
    pub(crate) fn new(alloc: Global) -> Coverage
        ensures none { IsCoverageOf [] result }
        ensures sound { is_sound result ≡ true }
    {
        Coverage {
            ranges: Ranges::new(alloc),
            overlap: None,
            rows: Some(0),
        }
    }

    /// Adds a state to those of which marks are at hand.
    pub(crate) fn add(
        &mut self,
        added: &[Snapshot<StateFile>],
        file: &StateFile,
    ) -> Result<(), AllocError>
        requires { IsCoverageOf (map (λ s. s.value) added.now) self.old }
        ensures covered { OnOk result (IsCoverageOf
            (map (λ s. s.value) added.now ++ file.now ∷ []) self.new) }
        ensures sound { OnOk result (is_sound self.new ≡ true → is_sound self.old ≡ true) }
    {
        self.rows = more(self.rows, counted(file.rows()));
        if self.overlap.is_some() {
            return Ok(());
        }
        if !self.ranges.add(file.first(), file.end())? {
            self.overlap = Some(added.len());
        }
        Ok(())
    }

    /// Whether nothing was found that forbids to regroup the states.
    pub(crate) fn is_sound(&self) -> bool
        ensures { result ≡ is_sound self.now }
    {
        self.overlap.is_none() && self.rows.is_some()
    }

    /// What forbids to regroup the states, if anything does.
    pub(crate) fn check(&self) -> Result<(), RegroupError>
        ensures ok { OnOk result (is_sound self.now ≡ true) }
        ensures memory { IsErrOf result fault.Memory → is_sound self.now ≡ true }
        ensures overlap { (states : List StateSeen) (i : ℕ) → IsCoverageOf states self.now
            → (result ≡ Err (fault.Overlap i)) ↔ IsFirstOverlap states i }
        ensures large { (states : List StateSeen) → IsCoverageOf states self.now
            → IsErrOf result fault.TooLarge ↔ AreTooLarge states }
    {
        if let Some(file) = self.overlap {
            return Err(RegroupError::Overlap { file });
        }
        if self.rows.is_none() {
            return Err(RegroupError::TooLarge);
        }
        Ok(())
    }
}
