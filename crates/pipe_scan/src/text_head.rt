//! Where the records of a text begin, and whether a text has a quote.

ghost use Rattle.std.specs.Prelude.{◌≡◌, ◌≤◌, length, not};
ghost use Rattle.csv.specs.Reading.{default_config, records, strip_bom};
ghost use Rattle.pipe_scan.specs.Lines.{has_no_quote};
ghost use Rattle.pipe_scan.specs.Records.{records_at};

use memchr::memchr;

/// Whether a text has a quote.
pub fn has_quote(text: &[u8]) -> bool
    ensures { result ≡ not (has_no_quote text.now) }
{
    match memchr(b'"', text) {
        Some(_) => true,
        None => false,
    }
}

/// Where the records of a text begin, behind a byte order mark.
pub fn text_start(text: &[u8]) -> usize
    ensures within { result ≤ length text.now }
    ensures records { records_at text.now result
        ≡ records default_config (strip_bom text.now) }
{
    if text.len() < 3 {
        return 0;
    }
    if text[0] != 0xEF {
        return 0;
    }
    if text[1] != 0xBB {
        return 0;
    }
    if text[2] != 0xBF {
        return 0;
    }
    3
}
