//! Records with a quote, whose fields `csv` reads.

ghost use Rattle.std.specs.Prelude.{◌≡◌, ◌<◌, ◌≤◌, ◌++◌, ◌∷◌, ℕ, [], List, Some, IfOk, IfSome, IsTrue, OnOk, false, length};
ghost use Rattle.std.specs.Io.Cursor.{cursor_remaining};
ghost use Rattle.csv.specs.Reading.{default_config, records};
ghost use Rattle.csv.specs.Records.{fields_of};
ghost use Rattle.pipe_scan.specs.Records.{between, records_at};
ghost use Rattle.pipe_scan.specs.Row.{EndsOne, IsRowAt, Takes, TakesOne};
ghost use Rattle.pipe_scan.specs.Stops.{AreMarked};
ghost use Rattle.pipe_source.specs.Quoted.{AreAhead, AreTextsOf, IsNext, WillGive};

use csv::{ByteRecord, Reader, ReaderBuilder};
use memchr::{memchr, memrchr2};
use pipe_scan::{Row, Scan, Stops, record_end, record_start, scan_next};
use std::alloc::{AllocError, Global};
use std::io::Cursor;
use std::mem;

/// So many bytes are looked through at once.
const TOGETHER: usize = 1 << 16;

/// A reader of the texts of some records with a quote, one behind the other, where each stands in the
/// text that they are of, and which comes next. A reader takes long to make, so it reads many.
#[derive(Drop)]
pub(crate) struct QuotedRows {
    reader: Option<Reader<Cursor<Vec<u8>>>>,
    places: Vec<(usize, usize)>,
    next: usize,
}

/// Where the line of the first quote between two places of a text begins.
fn quoted_start(text: &[u8], low: usize, high: usize) -> Option<usize>
    requires order { low ≤ high }
    requires within { high ≤ length text.now }
    ensures least { IfSome result (λ start. low ≤ start) }
    ensures within { IfSome result (λ start. start ≤ length text.now) }
{
    let Some(quote) = memchr(b'"', &text[low..high]) else {
        return None;
    };
    match memrchr2(b'\n', b'\r', &text[low..low + quote]) {
        Some(end) => Some(low + end + 1),
        None => Some(low),
    }
}

/// Puts the text of a record behind those of others.
fn push_text(
    text: &[u8],
    start: usize,
    end: usize,
    bytes: &mut Vec<u8>,
    places: &mut Vec<(usize, usize)>,
) -> Result<(), AllocError>
    requires { EndsOne text.now start (Some end) }
    ensures texts { OnOk result ((low : ℕ) → low ≤ start
        → AreTextsOf text.now low bytes.old.items places.old.items
        → AreTextsOf text.now end bytes.new.items places.new.items) }
    ensures bytes { OnOk result
        (bytes.new.items ≡ bytes.old.items ++ between text.now start end) }
    ensures places { OnOk result
        (places.new.items ≡ places.old.items ++ (start, end) ∷ []) }
{
    bytes.extend_from_slice(&text[start..end])?;
    if places.push((start, end)).is_err() {
        return Err(AllocError);
    }
    Ok(())
}

/// Puts the texts of records with a quote behind the end of a line: of one, and of those that are
/// found behind it, so many at most.
fn gather(
    text: &[u8],
    start: usize,
    end: usize,
    most: usize,
    bytes: &mut Vec<u8>,
    places: &mut Vec<(usize, usize)>,
) -> Result<(), AllocError>
    requires record { EndsOne text.now start (Some end) }
    requires line { bytes.old.items ≡ 10 ∷ [] }
    requires none { places.old.items ≡ [] }
    ensures texts { OnOk result ((low : ℕ)
        × AreTextsOf text.now low bytes.new.items places.new.items) }
    ensures first { OnOk result ((more : List (ℕ × ℕ))
        × (places.new.items ≡ (start, end) ∷ more)) }
    ensures line { OnOk result ((more : List ℕ) × (bytes.new.items ≡ 10 ∷ more)) }
{
    push_text(text, start, end, bytes, places)?;
    let high = start + TOGETHER.min(text.len() - start);
    let mut low = end;
    for _ in 1..most {
        if low >= high {
            break;
        }
        let Some(next) = quoted_start(text, low, high) else {
            break;
        };
        let Some(behind) = record_end(text, next) else {
            break;
        };
        push_text(text, next, behind, bytes, places)?;
        low = behind;
    }
    Ok(())
}

/// A reader of these bytes, which begin with the end of a line: no byte order mark is taken from their front.
fn reader_of(alloc: Global, bytes: Vec<u8>) -> Reader<Cursor<Vec<u8>>>
    requires { (more : List ℕ) × (bytes.items ≡ 10 ∷ more) }
    ensures { WillGive (cursor_remaining (λ v. Some v.items)) result
        (records default_config bytes.items) }
{
    ReaderBuilder::new()
        .has_headers(false)
        .flexible(true)
        .from_reader(alloc, Cursor::new(bytes))
}

impl QuotedRows {
    /// None is found yet.
    pub(crate) fn new(alloc: Global) -> QuotedRows
        ensures { (text : List ℕ) → AreAhead text result }
    {
        QuotedRows {
            reader: None,
            places: Vec::new(alloc),
            next: 0,
        }
    }

    /// Whether the record that comes next begins at a place.
    fn is_next(&self, start: usize) -> bool
        ensures { IsTrue result → (end : ℕ) × IsNext (start, end) self.now }
    {
        if self.next < self.places.len() && self.places[self.next].0 == start {
            return true;
        }
        false
    }

    /// The memory of the bytes that were read last.
    fn take_bytes(&mut self, alloc: Global) -> Vec<u8>
        ensures { result.items ≡ [] }
    {
        match mem::replace(&mut self.reader, None) {
            Some(reader) => {
                let mut bytes = reader.into_inner().into_inner();
                bytes.clear();
                bytes
            }
            None => Vec::new(alloc),
        }
    }

    /// Finds records with a quote, from one that was found on, so many at most.
    fn find(
        &mut self,
        alloc: Global,
        text: &[u8],
        start: usize,
        end: usize,
        most: usize,
    ) -> Result<(), AllocError>
        requires { EndsOne text.now start (Some end) }
        ensures ahead { OnOk result (AreAhead text.now self.new) }
        ensures next { OnOk result (IsNext (start, end) self.new) }
    {
        let mut bytes = self.take_bytes(alloc);
        self.places.clear();
        self.next = 0;
        if bytes.push(b'\n').is_err() {
            return Err(AllocError);
        }
        gather(text, start, end, most, &mut bytes, &mut self.places)?;
        self.reader = Some(reader_of(alloc, bytes));
        Ok(())
    }

    /// Reads the record that comes next, and tells where it ends.
    fn read_next(&mut self, row: &mut ByteRecord) -> Result<usize, AllocError>
        requires ahead { (text : List ℕ) × AreAhead text self.old }
        requires some { self.old.next < length self.old.places.items }
        ensures taken { IfOk result (λ end. (text : List ℕ) → AreAhead text self.old
            → (start other : ℕ) → IsNext (start, other) self.old
            → Takes text start end (fields_of row.new)) }
        ensures ahead { OnOk result ((text : List ℕ) → AreAhead text self.old
            → AreAhead text self.new) }
    {
        let Some(reader) = &mut self.reader else {
            unreachable!();
        };
        match reader.read_byte_record(row) {
            Ok(true) => {
                let end = self.places[self.next].1;
                self.next += 1;
                Ok(end)
            }
            Ok(false) => unreachable!(),
            Err(_) => Err(AllocError),
        }
    }

    /// Lets the record from a place of a text on come next, and tells whether there is one. Where it doesn't come
    /// next anyway, it is found with others.
    fn find_at(
        &mut self,
        alloc: Global,
        text: &[u8],
        start: usize,
        most: usize,
    ) -> Result<bool, AllocError>
        requires within { start ≤ length text.now }
        requires ahead { AreAhead text.now self.old }
        ensures ahead { OnOk result (AreAhead text.now self.new) }
        ensures next { IfOk result
            (λ found. IsTrue found → (end : ℕ) × IsNext (start, end) self.new) }
        ensures none { IfOk result (λ found. found ≡ false → records_at text.now start ≡ []) }
    {
        if self.is_next(start) {
            return Ok(true);
        }
        let Some(end) = record_end(text, start) else {
            return Ok(false);
        };
        self.find(alloc, text, start, end, most)?;
        Ok(true)
    }

    /// Reads the record from a place of a text on, which is to have a quote, into `row`, and tells where it
    /// ends, or that there is none.
    fn read(
        &mut self,
        alloc: Global,
        text: &[u8],
        at: usize,
        most: usize,
        row: &mut ByteRecord,
    ) -> Result<Option<usize>, AllocError>
        requires within { at ≤ length text.now }
        requires ahead { AreAhead text.now self.old }
        ensures row { IfOk result (λ o. TakesOne text.now at (fields_of row.new) o) }
        ensures ahead { OnOk result (AreAhead text.now self.new) }
    {
        let start = record_start(text, at);
        if !self.find_at(alloc, text, start, most)? {
            return Ok(None);
        }
        let end = self.read_next(row)?;
        Ok(Some(end))
    }
}

/// The next record of a text: scanned where it has no quote, and else read into `row`; of so many records at most
/// the fields are wanted. `ends` has room for as many fields as are asked for.
#[inline(always)]
pub(crate) fn next_row(
    alloc: Global,
    text: &[u8],
    stops: &mut Stops,
    ends: &mut [usize],
    quoted: &mut QuotedRows,
    most: usize,
    row: &mut ByteRecord,
) -> Result<Row, AllocError>
    requires marked { AreMarked text.now stops.old }
    requires ahead { AreAhead text.now quoted.old }
    ensures row { IfOk result
        (λ r. IsRowAt text.now stops.old.cursor stops.new.cursor ends.new (fields_of row.new) r) }
    ensures marked { AreMarked text.now stops.new }
    ensures room { length ends.new ≡ length ends.old }
    ensures ahead { OnOk result (AreAhead text.now quoted.new) }
{
    let at = stops.cursor();
    match scan_next(text, stops, ends) {
        Scan::End => Ok(Row::End),
        Scan::Record {
            start,
            count,
            next: _,
        } => Ok(Row::Plain { start, count }),
        Scan::Wide => Ok(Row::Wide),
        Scan::Quote(_) => match quoted.read(alloc, text, at, most, row) {
            Ok(Some(next)) => {
                *stops = Stops::new(next);
                Ok(Row::Quoted)
            }
            Ok(None) => Ok(Row::End),
            Err(error) => Err(error),
        },
    }
}
