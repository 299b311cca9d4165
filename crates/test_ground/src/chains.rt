//! Chains by example.

use pipe_chains::{Chains, hash_bytes, secret_hash};
use std::alloc::{AllocError, Global};
use std::hash::RandomState;
use std::test::Fail;

/// Four entries, of which the second has another mark than the others.
fn four_entries(alloc: Global, keys: Option<RandomState>) -> Result<Chains, AllocError> {
    let mut chains = Chains::with_keys(alloc, keys);
    for mark in &[7, 8, 7, 7] {
        chains.push(*mark, *mark)?;
    }
    Ok(chains)
}

/// The entry before another, where there is that other.
fn walked(chains: &Chains, index: usize) -> Option<usize> {
    if index < chains.len() {
        chains.before(index)
    } else {
        None
    }
}

/// Entries of the first mark, and the entry that the chain leads back to.
const BEFORE: [(usize, Option<usize>); 3] = [(3, Some(2)), (2, Some(0)), (0, None)];

/// Whether the chains of the four entries lead back over their marks.
fn lead_back(chains: &Chains) -> bool {
    for (index, before) in &BEFORE {
        if walked(chains, *index) != *before {
            return false;
        }
    }
    chains.len() == 4 && chains.last(7) == Some(3) && chains.last(9).is_none()
}

/// Whether entries that are led anew are chained by the leads that are given.
fn are_led_anew(chains: &mut Chains) -> Result<bool, AllocError> {
    if chains.len() != 4 {
        return Ok(false);
    }
    chains.lead_anew(&[1, 2, 2, 1])?;
    Ok(
        chains.last(1) == Some(3)
            && walked(chains, 3) == Some(0)
            && chains.last(7).is_none()
            && chains.mark(1) == 8,
    )
}

#[test]
fn a_chain_leads_back_over_its_lead(rt: HostRuntime) -> Result<(), Fail> {
    let mut chains = four_entries(rt.alloc(), None)?;
    assert!(rt; lead_back(&chains));
    assert!(rt; are_led_anew(&mut chains)?);
    chains.clear();
    assert!(rt; chains.last(1).is_none());
    Ok(())
}

#[test]
fn a_chain_under_keys_leads_back(rt: HostRuntime) -> Result<(), Fail> {
    let Ok(keys) = RandomState::new(&rt) else {
        return Err("no keys".into());
    };
    let chains = four_entries(rt.alloc(), Some(keys))?;
    assert!(rt; lead_back(&chains));
    Ok(())
}

/// Chains of one lead with so many entries.
fn one_chain(alloc: Global, entries: usize) -> Result<Chains, AllocError> {
    let mut chains = Chains::new(alloc);
    for _entry in 0..entries {
        chains.push(5, 6)?;
    }
    Ok(chains)
}

/// Whether more than 32 entries stand before one.
fn is_deep(chains: &Chains, index: usize) -> bool {
    index < chains.len() && chains.is_deep(index)
}

#[test]
fn an_entry_behind_33_is_deep(rt: HostRuntime) -> Result<(), Fail> {
    let chains = one_chain(rt.alloc(), 34)?;
    assert!(rt; is_deep(&chains, 33) && !is_deep(&chains, 32));
    Ok(())
}

#[test]
fn bytes_that_differ_are_hashed_apart(rt: HostRuntime) -> Result<(), Fail> {
    assert!(rt; hash_bytes(b"AaAa") != hash_bytes(b"BBBB"));
    Ok(())
}

#[test]
fn bytes_have_other_secret_hashes(rt: HostRuntime) -> Result<(), Fail> {
    assert!(rt; secret_hash(None, b"AaAa") != secret_hash(None, b"BBBB"));
    Ok(())
}
