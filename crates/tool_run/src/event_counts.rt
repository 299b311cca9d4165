//! How many events of a kind journals have.

ghost use Rattle.std.specs.Prelude.{◌≡◌, ◌≤◌, ◌^◌, count_by, length, not};
ghost use Rattle.tool_run.specs.MadeLines.{all_arrivals, is_arrival, picks};

use pipe_global::{Journal, Journals};
use pipe_plan::PartitionEvent;

/// Whether an event brought a piece to a partition.
fn is_arrival(event: PartitionEvent) -> bool
    ensures { result ≡ is_arrival event }
{
    match event {
        PartitionEvent::Arrive { .. } => true,
        PartitionEvent::Merge { .. } | PartitionEvent::Dump { .. } => false,
    }
}

/// How many pieces came to a partition.
fn arrivals_of(events: &[PartitionEvent]) -> usize
    ensures count { result ≡ count_by is_arrival events.now }
{
    let mut count = 0;
    for event in events {
        if is_arrival(*event) {
            count += 1;
        }
    }
    count
}

/// How many merges and dumps a partition had.
fn picks_of(events: &[PartitionEvent]) -> usize
    ensures count { result ≡ count_by (λ e. not (is_arrival e)) events.now }
{
    let mut count = 0;
    for event in events {
        if !is_arrival(*event) {
            count += 1;
        }
    }
    count
}

/// How many pieces came to all partitions.
pub(crate) fn arrivals(journals: &Journals) -> u128
    ensures { result ≡ all_arrivals journals.now }
{
    let mut count = 0;
    for journal in journals.journals() {
        count += arrivals_of(journal.events()) as u128;
    }
    count
}

/// How many merges and dumps there were.
pub(crate) fn picks(journals: &Journals) -> u128
    ensures { result ≡ picks journals.now }
{
    let mut count = 0;
    for journal in journals.journals() {
        count += picks_of(journal.events()) as u128;
    }
    count
}
