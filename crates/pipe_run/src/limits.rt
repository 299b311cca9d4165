//! The limits of a run, what they are asked to fit, and the keys that a kind of sink suits.

ghost use Rattle.std.specs.Prelude.{◌≡◌, ◌^◌, length, map, nat_lt};
ghost use Rattle.std.specs.List.{list_all};
ghost use Rattle.pipe_columns.specs.DataType.{is_integer, is_string};
ghost use Rattle.pipe_run.specs.Refusals.{limits_fit, suits_keys};

use pipe_columns::DataType;
use pipe_exprs::is_integer;
use pipe_plan::{Limits, SinkKind};
use pipe_spill::SpillStore;

/// The most workers of a run.
const MOST_WORKERS: usize = 256;

/// The most partitions of a run.
const MOST_PARTITIONS: usize = 4096;

/// Whether each store has numbers left for the frames of a run.
fn have_numbers<S: SpillStore + Drop>(stores: &[S]) -> bool
    ensures { result ≡ list_all (λ n. nat_lt n (2 ^ 63)) (map (λ s. S.held s) stores.now) }
{
    let mut fit = true;
    for store in stores {
        fit &= store.held() < 1 << 63;
    }
    fit
}

/// Whether limits lie within theirs, and fit so many lists of actions, and stores.
pub(crate) fn limits_fit<S: SpillStore + Drop>(
    limits: &Limits,
    actions: usize,
    stores: &[S],
) -> bool
    ensures { result ≡ limits_fit limits.now actions (map (λ s. S.held s) stores.now) }
{
    1 <= limits.workers
        && limits.workers <= MOST_WORKERS
        && 1 <= limits.partitions
        && limits.partitions <= MOST_PARTITIONS
        && 0 < limits.buffer_size
        && actions == limits.workers
        && stores.len() == limits.partitions
        && have_numbers(stores)
}

/// Whether a type is that of texts.
fn is_string(dtype: DataType) -> bool
    ensures { result ≡ is_string dtype }
{
    dtype == DataType::String
}

/// Whether types are those of whole numbers of up to 64 bits.
fn are_integers(types: &[DataType]) -> bool
    ensures { result ≡ list_all is_integer types.now }
{
    types.iter().all(|dtype| is_integer(*dtype))
}

/// Whether types are those of texts.
fn are_strings(types: &[DataType]) -> bool
    ensures { result ≡ list_all is_string types.now }
{
    types.iter().all(|dtype| is_string(*dtype))
}

/// Whether a kind of sink suits keys of these types.
pub(crate) fn suits_keys(sink: SinkKind, types: &[DataType]) -> bool
    ensures { result ≡ suits_keys sink types.now }
{
    match sink {
        SinkKind::Generic => true,
        SinkKind::Primitive => types.len() == 1 && are_integers(types),
        SinkKind::Text => types.len() == 1 && are_strings(types),
    }
}

/// Limits that are as others.
pub fn copy_of(limits: &Limits) -> Limits
    ensures { result ≡ limits.now }
{
    Limits {
        sink: limits.sink,
        workers: limits.workers,
        partitions: limits.partitions,
        spill_size: limits.spill_size,
        buffer_size: limits.buffer_size,
        payload_limit: limits.payload_limit,
    }
}
