//! When memory is short.

ghost use Rattle.std.specs.Prelude.{◌≡◌, ◌+◌, ◌*◌, ◌%◌, ◌^◌, ◌<◌, ◌≤◌, false, true};
ghost use Rattle.pipe_tables.specs.OocState.{action_if_short, action_of_look, next_count};

use pipe_plan::SpillAction;
use std::marker::Model;

/// Whether memory was once short, and how often it was looked at since.
#[derive(Drop)]
pub struct OocState {
    ooc: bool,
    count: u16,
}

impl Model for OocState {
    ghost use Rattle.pipe_tables.specs.OocState.{Ooc};

    ghost Value = { Ooc };

    ghost view = { λ a. record { ooc = a.ooc; count = a.count } };
}

impl OocState {
    /// The state before any look.
    pub fn new() -> OocState
        ensures ooc { result.ooc ≡ false }
        ensures count { result.count ≡ 0 }
    {
        OocState {
            ooc: false,
            count: 0,
        }
    }

    /// Looks at how much memory is free of that at the start, and says what is to be done: rows are
    /// dumped from the first time on that less than three tenths are free and something waits, and
    /// merged where less than half is free and at every 512th look. It takes no memory.
    pub fn check_memory_usage(&mut self, free: u64, start: u64, waiting: bool) -> SpillAction
        ensures ooc { self.old.ooc ≡ true → (result ≡ SpillAction.Dump) × (self.new ≡ self.old) }
        ensures count { self.old.ooc ≡ false → self.new.count ≡ next_count self.old.count }
        ensures short { self.old.ooc ≡ false → free * 10 < start * 3
            → (result ≡ action_if_short waiting) × (self.new.ooc ≡ waiting) }
        ensures enough { self.old.ooc ≡ false → start * 3 ≤ free * 10
            → (result ≡ action_of_look free start self.new.count) × (self.new.ooc ≡ false) }
    {
        if self.ooc {
            return SpillAction::Dump;
        }
        self.count = self.count.wrapping_add(1);
        if (free as u128) * 10 < (start as u128) * 3 {
            if waiting {
                self.ooc = true;
                return SpillAction::Dump;
            }
            return SpillAction::None;
        }
        if (free as u128) * 2 < start as u128 || self.count % 512 == 0 {
            SpillAction::EarlyMerge
        } else {
            SpillAction::None
        }
    }
}
