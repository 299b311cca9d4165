//! The values of options.

ghost use Rattle.std.specs.Prelude.{◌≡◌, ◌≤◌, IfSome, option_map};
ghost use Rattle.clap.specs.Words.{first_of, found_of, rows_of};
ghost use Rattle.pipe_words.specs.Numbers.{number_or};
ghost use Rattle.pipe_words.specs.Plans.{AreWithin, format_named, limits_of, sink_named};

use crate::command::value_of;
use crate::numbers::number_or;
use crate::plan::Format;
use clap::ArgMatches;
use pipe_plan::{Limits, SinkKind};

/// The sink of a name.
fn sink_named(name: Option<&str>) -> Option<SinkKind>
    ensures { result ≡ sink_named (option_map (λ s. s.now) name.entry) }
{
    match name {
        None | Some("generic") => Some(SinkKind::Generic),
        Some("number") => Some(SinkKind::Primitive),
        Some("text") => Some(SinkKind::Text),
        Some(_) => None,
    }
}

/// The format of a name.
pub(crate) fn format_named(name: Option<&str>) -> Option<Format>
    ensures { result ≡ format_named (option_map (λ s. s.now) name.entry) }
{
    match name {
        None | Some("csv") => Some(Format::Csv),
        Some("json") => Some(Format::Json),
        Some(_) => None,
    }
}

/// The number of an option that may be from `low` to `high`, or `absent` where it isn't given.
pub(crate) fn number_at(
    matches: &ArgMatches<'_>,
    name: &str,
    absent: usize,
    low: usize,
    high: usize,
) -> Option<usize>
    requires low { low ≤ absent }
    requires high { absent ≤ high }
    ensures number { result
        ≡ number_or absent low high (first_of name.now (rows_of (found_of matches.now))) }
    ensures low { IfSome result (λ n. low ≤ n) }
    ensures high { IfSome result (λ n. n ≤ high) }
{
    number_or(absent, low, high, value_of(matches, name))
}

/// The sink and the numbers of a run, as options say them.
pub(crate) fn limits_of(matches: &ArgMatches<'_>) -> Option<Limits>
    ensures limits { result ≡ limits_of (rows_of (found_of matches.now)) }
    ensures within { IfSome result (λ l. AreWithin l) }
{
    let sink = sink_named(value_of(matches, "sink"))?;
    let workers = number_at(matches, "workers", 1, 1, 256)?;
    let partitions = number_at(matches, "partitions", 1, 1, 4096)?;
    let spill_size = number_at(matches, "spill-size", 10000, 0, usize::MAX)?;
    let buffer_size = number_at(matches, "buffer", 2048, 1, usize::MAX)?;
    let payload_limit = number_at(matches, "payloads", 64, 0, usize::MAX)?;
    Some(Limits {
        sink,
        workers,
        partitions,
        spill_size,
        buffer_size,
        payload_limit,
    })
}
