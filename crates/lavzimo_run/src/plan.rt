//! How a query is run.

ghost use Rattle.std.specs.Prelude.{◌≡◌, [], IfOk, map, replicate, vec_len};
ghost use Rattle.lavzimo_run.specs.Jobs as spec;

use pipe_plan::{Limits, SinkKind, SpillAction};
use pipe_source::CsvReadOptions;
use std::alloc::{AllocError, Global};

/// How many rows a chunk has at most.
pub(crate) const CHUNK_ROWS: usize = 50_000;

/// How files are read.
pub(crate) fn read_options() -> CsvReadOptions
    ensures { result ≡ spec.read_options }
{
    CsvReadOptions {
        chunk_size: CHUNK_ROWS,
        n_rows: None,
        row_index: None,
        include_file_path: None,
    }
}

/// The limits of a run with so many workers and partitions.
pub(crate) fn limits_of(workers: usize, partitions: usize) -> Limits
    ensures { result ≡ spec.limits_of workers partitions }
{
    Limits {
        sink: SinkKind::Generic,
        workers,
        partitions,
        spill_size: 10_000,
        buffer_size: 2048,
        payload_limit: 64,
    }
}

/// What follows each turn of a worker.
fn rule_of(spills: bool) -> SpillAction
    ensures { result ≡ spec.rule_of spills }
{
    if spills {
        SpillAction::Dump
    } else {
        SpillAction::EarlyMerge
    }
}

/// What follows each turn of so many workers.
pub(crate) fn rules_of(
    alloc: Global,
    workers: usize,
    spills: bool,
) -> Result<Vec<SpillAction>, AllocError>
    ensures rules { IfOk result (λ v. v.items ≡ replicate workers (spec.rule_of spills)) }
    ensures each { IfOk result (λ v. vec_len v ≡ workers) }
{
    let mut rules = Vec::new(alloc);
    rules.resize(workers, rule_of(spills))?;
    Ok(rules)
}

/// No actions of their own for so many workers.
#[tactic(auto, using(crate::proofs::StoreFacts::actions_more))]
pub(crate) fn no_actions(alloc: Global, workers: usize) -> Result<Vec<Vec<SpillAction>>, AllocError>
    ensures lists { IfOk result (λ v. map (λ l. l.items) v.items ≡ replicate workers []) }
    ensures each { IfOk result (λ v. vec_len v ≡ workers) }
{
    let mut actions = Vec::new(alloc);
    for _ in 0..workers {
        actions.push(Vec::new(alloc))?;
    }
    Ok(actions)
}
