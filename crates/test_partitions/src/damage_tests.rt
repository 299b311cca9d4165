//! A partition whose frame comes back damaged, and is then asked again.

ghost use Rattle.std.specs.Prelude.{◌≡◌, All, IfOk, IsTrue, vec_len};
ghost use Rattle.pipe_global.specs.Finishing.{CanFinish};

use crate::finish::{Asks, gives, gives_sum};
use crate::planned::FRAME;
use pipe_global::{BatchError, ClosedPartition};
use pipe_spill::{SpillStore, StoreError};
use pipe_tables::AggHashTable;
use std::alloc::Global;
use std::test::Fail;

/// What comes in place of the frame: so many bytes, and which of them is another.
const DAMAGED: [(usize, usize, u8); 8] = [
    (0, 0, 0), // no byte
    (75, 0, 0), // too few
    (77, 0, 0), // one too many
    (42, 7, 1), // the first row alone
    (76, 7, 3), // a count of rows that aren't there
    (76, 24, 2), // a key that is no code
    (76, 32, 3), // a key of another partition
    (76, 33, 2), // an input that is no code
];

/// A store that doesn't tell, and that gives the frame only after it gave what is damaged.
#[derive(Drop)]
struct Loose {
    frames: u64,
    call: usize,
}

/// The frame, and a byte behind it.
fn give_longer(into: &mut Vec<u8>) -> Result<(), StoreError> {
    into.clear();
    if into.extend_from_slice(&FRAME).is_err() || into.push(0).is_err() {
        return Err(StoreError::Memory);
    }
    Ok(())
}

/// Cuts bytes to a length, and changes one of them.
fn damage(bytes: &mut Vec<u8>, change: (usize, usize, u8)) {
    let (length, at, byte) = change;
    bytes.truncate(length);
    if let Some(place) = bytes.get_mut(at) {
        *place = byte;
    }
}

impl SpillStore for Loose {
    ghost use Rattle.std.specs.Prelude.{None, false, refl};

    ghost told = { λ _. None };

    ghost held = { λ s. s.frames };

    ghost faults = { λ _. 0 };

    ghost sure = { λ _. false };

    ghost path = { λ _. None };

    ghost tells_all = { λ _. tt };

    ghost never_failed = { λ _ _. refl };

    fn held(&self) -> u64 {
        self.frames
    }

    fn put(&mut self, _frame: &[u8]) -> Result<u64, StoreError> {
        let number = self.frames;
        self.frames += 1;
        Ok(number)
    }

    fn get(&mut self, _number: u64, into: &mut Vec<u8>) -> Result<(), StoreError> {
        if give_longer(into).is_err() {
            into.clear();
            return Err(StoreError::Memory);
        }
        if self.call < DAMAGED.len() {
            damage(into, DAMAGED[self.call]);
            self.call += 1;
        } else {
            into.truncate(FRAME.len());
        }
        Ok(())
    }
}

/// Two such stores.
fn loose_stores(alloc: Global) -> Result<Vec<Loose>, Fail>
    ensures count { IfOk result (λ v. vec_len v ≡ 2) }
    ensures empty { IfOk result (λ v. All (λ s. s.frames ≡ 0) v.items) }
{
    let (first, second) = (Loose { frames: 0, call: 0 }, Loose { frames: 0, call: 0 });
    Ok(vec![in alloc; first, second]?)
}

/// Whether a call tells that the first frame is damaged.
fn tells_damage(
    alloc: Global,
    closed: &mut ClosedPartition<Loose>,
    local: &mut AggHashTable,
) -> bool
    requires { CanFinish closed.old local.old }
    ensures { IsTrue result → CanFinish closed.new local.new }
{
    match closed.finish(alloc, local, &mut None) {
        Err(
            BatchError::Damaged {
                partition: 1,
                number: 0,
            },
        ) => true,
        Err(_) => false,
        Ok(_) => false,
    }
}

/// Whether as many calls tell it as frames come back damaged.
fn tell_damage(alloc: Global, closed: &mut ClosedPartition<Loose>, local: &mut AggHashTable) -> bool
    requires { CanFinish closed.old local.old }
    ensures { IsTrue result → CanFinish closed.new local.new }
{
    for _call in 0..DAMAGED.len() {
        if !tells_damage(alloc, closed, local) {
            return false;
        }
    }
    true
}

/// Each damage is told, and then the groups are given.
struct AfterDamage;

impl Asks<Loose> for AfterDamage {
    fn gives(
        &self,
        alloc: Global,
        closed: &mut ClosedPartition<Loose>,
        local: &mut AggHashTable,
    ) -> bool {
        tell_damage(alloc, closed, local) && gives_sum(alloc, closed, local)
    }
}

#[test]
fn damaged_frames(rt: HostRuntime) -> Result<(), Fail> {
    let stores = loose_stores(rt.alloc())?;
    assert!(rt; gives(&rt, rt.alloc(), stores, &AfterDamage)?);
    Ok(())
}
