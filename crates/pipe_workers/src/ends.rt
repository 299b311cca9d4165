//! Workers that are paused, combined and finalized.

ghost use Rattle.std.specs.Prelude.{◌≡◌, ◌||◌, [], OnErr, OnOk};
ghost use Rattle.pipe_groups.specs.Groups.{AreJoined};
ghost use Rattle.pipe_tables.specs.LocalTable.{NoneWaits};
ghost use Rattle.pipe_keyed.specs.Tables.{HasGroups, HoldFewTogether, KeepsShape};

use crate::groupby::GenericGroupby2;
use crate::paused::PausedWorker;
use pipe_global::{Gate, Naming, Shares};
use pipe_spill::SpillStore;
use pipe_tables::AggHashTable;
use std::alloc::AllocError;

impl<'a, S: SpillStore + Drop, R: Naming, G: Gate> GenericGroupby2<'a, S, R, G> {
    /// What the worker keeps until a longer run goes on, and its shares. It takes no memory.
    pub fn pause(self) -> (PausedWorker, Shares<R>)
        ensures table { result.0.table ≡ self.entry.table }
        ensures turns { result.0.turns ≡ self.entry.turns }
        ensures picks { result.0.picks ≡ self.entry.shares.picks }
        ensures shares { result.1 ≡ self.entry.shares }
    {
        let GenericGroupby2 {
            table,
            shares,
            turns,
            ..
        } = self;
        let picks = shares.picks();
        let paused = PausedWorker {
            table,
            turns,
            picks,
        };
        (paused, shares)
    }

    /// Takes the rows that another worker holds in, once both have closed. That holds none then.
    pub fn combine(&mut self, other: &mut GenericGroupby2<'a, S, R, G>) -> Result<(), AllocError>
        requires none_waits { NoneWaits self.old.table }
        requires other_none_waits { NoneWaits other.old.table }
        requires shape { other.old.table.table.shape ≡ self.old.table.table.shape }
        requires few { HoldFewTogether self.old.table.table other.old.table.table }
        ensures joined { OnOk result (AreJoined self.old.table.table.shape.prototypes
            self.old.table.table.groups other.old.table.table.groups
            self.new.table.table.groups) }
        ensures shape { KeepsShape self.old.table.table self.new.table.table }
        ensures none_waits { NoneWaits self.new.table }
        ensures shares { self.new.shares ≡ self.old.shares }
        ensures other_shares { other.new.shares ≡ other.old.shares }
        ensures others { self.new ≡ record self.old { table = self.new.table } }
        ensures other_others { other.new ≡ record other.old { table = other.new.table } }
        ensures emptied { OnOk result (HasGroups other.old.table.table other.new.table.table []) }
        ensures err { OnErr result (self.new ≡ self.old) }
        ensures other_err { OnErr result (other.new ≡ other.old) }
    {
        self.table.combine(&mut other.table)
    }

    /// Gives the table of what is held, and the shares.
    pub fn finalize(self) -> (AggHashTable, Shares<R>)
        ensures table { result.0 ≡ self.entry.table.table }
        ensures shares { result.1 ≡ self.entry.shares }
    {
        let GenericGroupby2 { table, shares, .. } = self;
        (table.into_inner_map(), shares)
    }
}
